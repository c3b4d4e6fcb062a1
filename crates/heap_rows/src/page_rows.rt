//! The rows of the page in hand, all at once.
ghost use Rattle.std.specs.Prelude.{◌≡◌, ◌+◌, ◌-◌, ◌<◌, ◌≤◌, [], ℕ, All, IfOk, IfSome, List, Some, drop, length};
ghost use Rattle.std.specs.Prelude.{option_copied, slice_get, true};
ghost use Rattle.std.specs.Bool.{OnTrue};
ghost use Rattle.outside.specs.Outside.{Names};
ghost use Rattle.page_layout.specs.Items.{is_normal};
ghost use Rattle.page_layout.specs.Page.{item_of};
ghost use Rattle.key_orders.specs.Types.{HasAlignment};
ghost use Rattle.key_orders.specs.Values.{value_shown};
ghost use Rattle.varlena_attrs.specs.Forms.{Attribute};
ghost use Rattle.varlena_attrs.specs.InTurn.{AreRead};
ghost use Rattle.varlena_attrs.specs.Inline.{IsLayout};
ghost use Rattle.heap_rows.specs.RowCursor.{IsCursorOf, IsSameCursor, asked_at, next_in};
ghost use Rattle.heap_rows.specs.RowCursor.{rows_ahead, rows_here, taken_in};
ghost use Rattle.heap_rows.specs.PageRows.{ArePageRows, HasValue, HasValues, block_in};
ghost use Rattle.heap_rows.specs.RowPages.{HasAttributes};
ghost use Rattle.heap_rows.specs.RowValues.{AreStarts};

use crate::row_cursor::RowCursor;
use crate::row_page::tuple_attributes;
use crate::row_values::{AskedColumns, start_at};
use crate::states::line_pointer;
use key_orders::{ColType, KeyRefs, MAX_KEY_COLUMNS, ValueRef, value_of};
use key_storage::{RowValues, StoredRows};
use outside::NoMemory;
use page_layout::MAX_ITEMS;
use varlena_attrs::{AttrPlace, TupleColumns};

// The value of a column of a tuple, if it stands on the page: by the least that tells it, where it is known at which
// place the column begins in tuples without nulls. `None` says nothing.
#[inline]
fn value_there<'p>(
    attrs: &mut TupleColumns<'p>,
    column: usize,
    start: Option<usize>,
    ctype: ColType,
) -> Option<ValueRef<'p>>
    requires typed { slice_get attrs.old.columns column ≡ Some ctype }
    ensures value { (list : List Attribute) → AreRead attrs.old list
        → ((place : ℕ) → start ≡ Some place → IsLayout attrs.old.columns column place)
        → IfSome result (λ v. HasValue attrs.old.columns list column (value_shown v)) }
    ensures same { attrs.new ≡ attrs.old }
{
    if let Some(place) = start {
        if let Some(piece) = attrs.plain_value(column, place) {
            return Some(value_of(ctype, &attrs.body()[piece.start..piece.start + piece.len]));
        }
    }
    match attrs.attribute(column)? {
        AttrPlace::Null => Some(ValueRef::Null),
        AttrPlace::Plain { start, len } => {
            Some(value_of(ctype, &attrs.body()[start..start + len]))
        }
        AttrPlace::Missing | AttrPlace::Packed { .. } | AttrPlace::External { .. } => None,
    }
}

// The tuples of a page, the types of their columns, those that are asked for, and where these begin in tuples without
// nulls, as far as that is known.
#[derive(Clone, Copy)]
struct PageTuples<'p> {
    page: &'p [u8; 8192],
    types: &'p [ColType],
    asked: &'p AskedColumns,
    starts: &'p [Option<usize>],
}

impl<'p> PageTuples<'p> {
    // Reads the values of the columns that are asked for from one number up to another, of the tuple at an item, into a
    // place at hand, if all stand on the page. `false` says nothing.
    fn read_row(self, item: u16, first: usize, end: usize, values: &mut KeyRefs<'p>) -> bool
        requires aligned { All HasAlignment self.types.now }
        requires item { (1 ≤ item) × (item ≤ 2042) }
        requires few { end - first ≤ MAX_KEY_COLUMNS }
        ensures normal { OnTrue result (is_normal (item_of self.entry.page.now item).flag ≡ true) }
        ensures count { OnTrue result (length values.new ≡ end - first) }
        ensures values { (list : List Attribute) → HasAttributes self.entry.types.now self.entry.page.now item list
            → AreStarts self.entry.types.now self.entry.asked.now self.entry.starts.now
            → OnTrue result (HasValues self.entry.types.now self.entry.asked.now first list values.new) }
    {
        values.clear();
        let pointer = line_pointer(self.page, item);
        if !pointer.flag.is_normal() {
            return false;
        }
        let Some(mut attrs) = tuple_attributes(self.page, pointer, self.types) else {
            return false;
        };
        for k in first..end {
            let column = self.asked.column(k);
            if self.types.len() <= column {
                return false;
            }
            let start = start_at(self.starts, k);
            match value_there(&mut attrs, column, start, self.types[column]) {
                Some(value) => values.push(value),
                None => return false,
            }
        }
        true
    }
}

impl RowCursor<'_> {
    /// The block of the page in hand; unspecified where none is in hand.
    pub fn block(&self) -> u32
        ensures { result ≡ block_in self.now }
    {
        self.page.block
    }

    /// Puts so many values of each row of the page in hand, those of the columns that are asked for from the one at a
    /// number on, into a list, in place of others; whether it did. It does only where no row of the page was passed
    /// yet, each item is the tuple of a row that is its own root, and the values stand on the page, as on most pages:
    /// the first row is that of item 1. `false` says nothing, and the list is unspecified then.
    pub fn page_rows(
        &self,
        first: usize,
        count: usize,
        rows: &mut StoredRows,
    ) -> Result<bool, NoMemory>
        ensures { IfOk result (λ told. told ≡ true → (names : Names) → IsCursorOf names self.entry.now
            → ArePageRows (block_in self.entry.now) (asked_at self.entry.now) first count 1 rows.new
            (rows_here names self.entry.now)) }
    {
        rows.clear();
        let page = &self.page;
        if !page.plain || page.roots.has_chains() || page.done != 0 || MAX_KEY_COLUMNS < count {
            return Ok(false);
        }
        let Some(end) = first.checked_add(count) else {
            return Ok(false);
        };
        let case = self.case;
        case.sound();
        let tuples = PageTuples {
            page: &page.bytes,
            types: case.column_types(),
            asked: &self.asked,
            starts: &self.starts,
        };
        let mut values = KeyRefs::new();
        for i in 0..page.count.min(MAX_ITEMS) {
            if !tuples.read_row(i + 1, first, end, &mut values) {
                return Ok(false);
            }
            let row = RowValues {
                key: values.as_slice(),
                more: &[],
            };
            rows.push(row)?;
        }
        Ok(true)
    }

    /// Goes past all rows of the page in hand.
    pub fn pass_page(&mut self)
        ensures here { (names : Names) → rows_here names self.new ≡ [] }
        ensures left { (names : Names) → IsCursorOf names self.old → rows_ahead names self.new
            ≡ drop (length (rows_here names self.old)) (rows_ahead names self.old) }
        ensures told { (names : Names) → IsCursorOf names self.old → IsCursorOf names self.new }
        ensures next { next_in self.new ≡ next_in self.old }
        ensures taken { taken_in self.new ≡ taken_in self.old }
        ensures same { IsSameCursor self.old self.new }
    {
        self.page.found = false;
        self.page.done = self.page.count;
    }
}
