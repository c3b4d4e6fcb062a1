//! An index of a case, for which rows are read.
ghost use Rattle.std.specs.Prelude.{◌≡◌, ◌≤◌, ◌∷◌, [], List, None, Some, if◌then◌else◌, false, length};
ghost use Rattle.std.specs.Bool.{OnTrue};
ghost use Rattle.outside.specs.Outside.{Names};
ghost use Rattle.key_attrs.specs.Columns.{tree_columns};
ghost use Rattle.bt_image.specs.Image.{leaf_entry};
ghost use Rattle.bt_levels.specs.Index.{case_columns};
ghost use Rattle.heap_rows.specs.RowCursor.{IsAtRow, IsCursorOf, rows_ahead};
ghost use Rattle.heap_rows.specs.declared.rows.LiveRow.{LiveRow as Row};
ghost use Rattle.join_row_entries.specs.Entries.{entry_of};
ghost use Rattle.join_row_entries.specs.Reading.{AreRowValues, IsAskedFor, IsReader};

use case_file::Case;
use heap_rows::RowCursor;
use join_row_keys::RowReader;
use key_attrs::IndexColumns;
use key_orders::{KeyRefs, MoreRefs};

/// An index of a case, and what reads the values of rows in it.
#[derive(Clone, Copy)]
pub(crate) struct IndexReader<'a> {
    pub(crate) case: &'a Case,
    /// Its number, counted from 1.
    pub(crate) index: u16,
    pub(crate) rows: RowReader<'a>,
}

// The columns of index `n` of a case.
fn columns_at(case: &Case, n: u16) -> IndexColumns<'_>
    requires first { 1 ≤ n }
    requires last { n ≤ length case.now.indexes }
    ensures { tree_columns result ≡ case_columns case.now n }
{
    case.sound();
    IndexColumns::new(case.index_keys(n), case.index_more(n))
}

impl<'a> IndexReader<'a> {
    /// For index `n` of a case.
    pub(crate) fn new(case: &'a Case, n: u16) -> IndexReader<'a>
        requires first { 1 ≤ n }
        requires last { n ≤ length case.now.indexes }
        ensures reader { IsReader result }
        ensures case { result.case.now ≡ case.now }
        ensures index { result.index ≡ n }
    {
        IndexReader {
            case,
            index: n,
            rows: RowReader {
                columns: columns_at(case, n),
                first: 0,
            },
        }
    }

    /// Reads the values of the row at which a cursor is: its key, and what the index includes beside it; false where
    /// one of them is compressed.
    pub(crate) fn read<'c>(
        self,
        cursor: &'c RowCursor<'_>,
        key: &mut KeyRefs<'c>,
        more: &mut MoreRefs<'c>,
    ) -> bool
        requires reader { IsReader self }
        requires asked { IsAskedFor self cursor.now }
        requires at { IsAtRow cursor.now }
        requires no_more { more.old ≡ [] }
        ensures entry { (names : Names) (row : Row) (rows : List Row) → IsCursorOf names cursor.now
            → rows_ahead names cursor.now ≡ row ∷ rows
            → (if result then Some (leaf_entry key.new more.new row.root false) else None)
            ≡ entry_of self.entry.case.now self.entry.index row }
        ensures fit { OnTrue result (AreRowValues self.entry.case.now self.entry.index key.new more.new) }
    {
        self.case.sound();
        if !self.rows.read_key(cursor, key) {
            return false;
        }
        self.rows.read_more(cursor, more)
    }
}
