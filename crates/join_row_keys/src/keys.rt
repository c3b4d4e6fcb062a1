//! The values that a row of a heap has in an index.
ghost use Rattle.std.specs.Prelude.{◌≡◌, ◌<◌, ◌∷◌, [], IfOk, List, None, Some, false, get_or};
ghost use Rattle.std.specs.Prelude.{if◌then◌else◌, length, slice_get};
ghost use Rattle.std.specs.Bool.{OnTrue};
ghost use Rattle.outside.specs.Outside.{Names};
ghost use Rattle.key_orders.specs.Keys.{IsKey};
ghost use Rattle.key_attrs.specs.Columns.{tree_columns};
ghost use Rattle.bt_levels.specs.Sound.{index_columns, more_of, specs_of};
ghost use Rattle.heap_rows.specs.RowCursor.{IsAtRow, IsCursorOf, rows_here};
ghost use Rattle.heap_rows.specs.RowValues.{cell_lent};
ghost use Rattle.heap_rows.specs.declared.rows.LiveRow.{LiveRow as Row};
ghost use Rattle.join_rules.specs.Rows.{key_numbers, more_numbers, values_at};
ghost use Rattle.join_row_keys.specs.Rows.{IsIndexAt, columns_in};

use crate::joined::IndexedHeap;
use crate::reader::RowReader;
use heap_rows::{CellRef, RowCursor};
use key_attrs::IndexColumns;
use key_orders::{KeyRefs, MoreRefs};
use outside::NoMemory;
use std::alloc::Global;

/// A heap and an index of it, and which of the values that a cursor over the heap is asked for is the index's first,
/// counted from 0.
#[derive(Clone, Copy)]
pub struct KeyedHeap<'a> {
    pub at: IndexedHeap<'a>,
    pub first: usize,
}

/// The numbers of the columns of an index: those of its key, and behind them those that it includes.
pub fn columns_of(alloc: Global, columns: &IndexColumns<'_>) -> Result<Vec<u16>, NoMemory>
    ensures { IfOk result (λ numbers. numbers.items ≡ columns_in (tree_columns columns.now)) }
{
    let mut numbers: Vec<u16> = columns.specs.iter().map(|k| k.column).collect(alloc)?;
    let more: Vec<u16> = columns.more.iter().map(|m| m.column).collect(alloc)?;
    numbers.extend_from_slice(&more)?;
    Ok(numbers)
}

impl<'a> KeyedHeap<'a> {
    // What reads the values of rows in the index.
    fn reader(self) -> RowReader<'a>
        ensures columns { tree_columns result.columns ≡ index_columns self.entry.at.tree.now }
        ensures first { result.first ≡ self.entry.first }
    {
        RowReader {
            columns: self.at.tree.columns(),
            first: self.first,
        }
    }

    /// Reads the key of the row at which a cursor is into a place at hand; false where a value of it is compressed.
    pub fn read_key<'c>(self, cursor: &'c RowCursor<'_>, key: &mut KeyRefs<'c>) -> bool
        requires index { IsIndexAt self cursor.now }
        requires at { IsAtRow cursor.now }
        ensures key { (names : Names) (row : Row) (rows : List Row) → IsCursorOf names cursor.now
            → rows_here names cursor.now ≡ row ∷ rows
            → (if result then Some key.new else None)
            ≡ values_at (key_numbers (index_columns self.entry.at.tree.now)) row.cells }
        ensures fits { OnTrue result (IsKey (specs_of self.entry.at.tree.now) key.new) }
    {
        self.at.case.sound();
        self.reader().read_key(cursor, key)
    }

    /// How many values a row has in the index: those of its key, and those of the columns that it includes.
    pub fn value_count(self) -> usize
        ensures { result ≡ length (columns_in (index_columns self.entry.at.tree.now)) }
    {
        self.at.tree.specs().len() + self.at.tree.more().len()
    }

    /// One of these values, counted from 0, of the row at which a cursor is.
    #[inline]
    pub fn value<'c>(self, cursor: &'c RowCursor<'_>, k: usize) -> CellRef<'c>
        requires index { IsIndexAt self cursor.now }
        requires at { IsAtRow cursor.now }
        requires inside { k < length (columns_in (index_columns self.at.tree.now)) }
        ensures { (names : Names) (row : Row) (rows : List Row) → IsCursorOf names cursor.now
            → rows_here names cursor.now ≡ row ∷ rows
            → slice_get row.cells (get_or (columns_in (index_columns self.entry.at.tree.now)) k 0)
            ≡ Some (cell_lent result) }
    {
        cursor.value(self.first + k)
    }

    /// Whether the index includes columns.
    pub fn includes(self) -> bool
        ensures { result ≡ false → (index_columns self.entry.at.tree.now).more ≡ [] }
    {
        !self.at.tree.more().is_empty()
    }

    /// Reads the values of the columns that the index includes, of the row at which a cursor is, into a place at hand;
    /// false where one of them is compressed.
    pub fn read_more<'c>(self, cursor: &'c RowCursor<'_>, more: &mut MoreRefs<'c>) -> bool
        requires index { IsIndexAt self cursor.now }
        requires at { IsAtRow cursor.now }
        requires none { more.old ≡ [] }
        ensures more { (names : Names) (row : Row) (rows : List Row) → IsCursorOf names cursor.now
            → rows_here names cursor.now ≡ row ∷ rows
            → (if result then Some more.new else None)
            ≡ values_at (more_numbers (index_columns self.entry.at.tree.now)) row.cells }
        ensures count { OnTrue result (length more.new ≡ length (more_of self.entry.at.tree.now)) }
    {
        self.at.case.sound();
        self.reader().read_more(cursor, more)
    }
}
