//! The values that a row of a heap has in an index, read from a cursor.
ghost use Rattle.std.specs.Prelude.{◌≡◌, ◌∷◌, [], List, None, Some, if◌then◌else◌, length, true};
ghost use Rattle.std.specs.Bool.{OnTrue};
ghost use Rattle.outside.specs.Outside.{Names};
ghost use Rattle.key_orders.specs.Keys.{IsKey};
ghost use Rattle.key_attrs.specs.Columns.{tree_columns};
ghost use Rattle.key_attrs.specs.Keyed.{fits_more};
ghost use Rattle.heap_rows.specs.RowCursor.{IsAtRow, IsCursorOf, rows_ahead};
ghost use Rattle.heap_rows.specs.declared.rows.LiveRow.{LiveRow as Row};
ghost use Rattle.join_rules.specs.Rows.{key_numbers, more_numbers, values_at};
ghost use Rattle.join_row_keys.specs.Rows.{IsReaderOf};

use heap_rows::{CellRef, RowCursor};
use key_attrs::IndexColumns;
use key_orders::{KeyRefs, MoreRefs};

/// The columns of an index, and which of the values that a cursor over the rows of a heap is asked for is their first,
/// counted from 0.
#[derive(Clone, Copy)]
pub struct RowReader<'a> {
    pub columns: IndexColumns<'a>,
    pub first: usize,
}

impl RowReader<'_> {
    /// Reads the key of the row at which a cursor is into a place at hand; false where a value of it is compressed.
    pub fn read_key<'c>(self, cursor: &'c RowCursor<'_>, key: &mut KeyRefs<'c>) -> bool
        requires reader { IsReaderOf self cursor.now }
        requires at { IsAtRow cursor.now }
        ensures key { (names : Names) (row : Row) (rows : List Row) → IsCursorOf names cursor.now
            → rows_ahead names cursor.now ≡ row ∷ rows → (if result then Some key.new else None)
            ≡ values_at (key_numbers (tree_columns self.entry.columns)) row.cells }
        ensures fits { OnTrue result (IsKey self.entry.columns.specs.now key.new) }
    {
        key.clear();
        for k in 0..self.columns.specs.len() {
            match cursor.value(self.first + k) {
                CellRef::Held(v) => key.push(v),
                CellRef::Packed => return false,
            }
        }
        true
    }

    /// Reads its values in the columns that the index includes into a place at hand; false where one of them is
    /// compressed.
    pub fn read_more<'c>(self, cursor: &'c RowCursor<'_>, more: &mut MoreRefs<'c>) -> bool
        requires reader { IsReaderOf self cursor.now }
        requires at { IsAtRow cursor.now }
        requires none { more.old ≡ [] }
        ensures more { (names : Names) (row : Row) (rows : List Row) → IsCursorOf names cursor.now
            → rows_ahead names cursor.now ≡ row ∷ rows → (if result then Some more.new else None)
            ≡ values_at (more_numbers (tree_columns self.entry.columns)) row.cells }
        ensures fits { OnTrue result (fits_more self.entry.columns.more.now more.new ≡ true) }
        ensures whole { OnTrue result (length more.new ≡ length self.entry.columns.more.now) }
    {
        let first = self.first + self.columns.specs.len();
        for k in 0..self.columns.more.len() {
            match cursor.value(first + k) {
                CellRef::Held(v) => more.push(v),
                CellRef::Packed => return false,
            }
        }
        true
    }
}
