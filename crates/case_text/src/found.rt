//! Whether the columns of indexes are found by their names.
ghost use Rattle.std.specs.Prelude.{◌≡◌, position};
ghost use Rattle.std.specs.List.{list_all};
ghost use Rattle.case_text.specs.Told.{are_found, index_is_found, is_at, is_key_named, is_named, key_is_found};
ghost use Rattle.case_text.specs.Told.{more_is_found, name_at};

use crate::parts::{ColumnPart, IndexPart, KeyPart, TablePart};

/// The name of the column at a number; no bytes where there is none.
#[tactic(auto, unfolding(crate::specs::Told::name_at))]
pub fn name_at(columns: &[ColumnPart], k: u16) -> &str
    ensures { result.now ≡ name_at columns.now k }
{
    match columns.get(k as usize) {
        Some(column) => column.name.as_str(),
        None => "",
    }
}

fn is_named(name: &str, column: &ColumnPart) -> bool
    ensures { result ≡ is_named name.now column.now }
{
    column.name.as_str() == name
}

fn is_key_named(name: &str, column: &ColumnPart) -> bool
    ensures { result ≡ is_key_named name.now column.now }
{
    is_named(name, column) && column.ctype.may_be_key()
}

fn is_at(place: Option<usize>, k: u16) -> bool
    ensures { result ≡ is_at place k }
{
    match place {
        Some(n) => n == k as usize,
        None => false,
    }
}

fn key_place(columns: &[ColumnPart], name: &str) -> Option<usize>
    ensures { result ≡ position (is_key_named name.now) columns.now }
{
    columns.iter().position(|column| is_key_named(name, column))
}

fn place(columns: &[ColumnPart], name: &str) -> Option<usize>
    ensures { result ≡ position (is_named name.now) columns.now }
{
    columns.iter().position(|column| is_named(name, column))
}

#[tactic(auto, unfolding(crate::specs::Told::key_is_found))]
fn key_is_found(columns: &[ColumnPart], key: &KeyPart) -> bool
    ensures { result ≡ key_is_found columns.now key.now }
{
    is_at(key_place(columns, name_at(columns, key.column)), key.column)
}

#[tactic(auto, unfolding(crate::specs::Told::more_is_found))]
fn more_is_found(columns: &[ColumnPart], k: u16) -> bool
    ensures { result ≡ more_is_found columns.now k }
{
    is_at(place(columns, name_at(columns, k)), k)
}

fn keys_are_found(columns: &[ColumnPart], keys: &[KeyPart]) -> bool
    ensures { result ≡ list_all (key_is_found columns.now) keys.now }
{
    keys.iter().all(|key| key_is_found(columns, key))
}

fn all_more_is_found(columns: &[ColumnPart], more: &[u16]) -> bool
    ensures { result ≡ list_all (more_is_found columns.now) more.now }
{
    more.iter().all(|k| more_is_found(columns, *k))
}

#[tactic(auto, unfolding(crate::specs::Told::index_is_found))]
fn index_is_found(columns: &[ColumnPart], index: &IndexPart) -> bool
    ensures { result ≡ index_is_found columns.now index.now }
{
    keys_are_found(columns, &index.keys) && all_more_is_found(columns, &index.more)
}

fn indexes_are_found(columns: &[ColumnPart], indexes: &[IndexPart]) -> bool
    ensures { result ≡ list_all (index_is_found columns.now) indexes.now }
{
    indexes.iter().all(|index| index_is_found(columns, index))
}

/// Whether each column of each index is found by its name: a key's is the first of its name that may
/// be a key, and an included one the first of its name.
#[tactic(auto, unfolding(crate::specs::Told::are_found))]
pub fn are_found(table: &TablePart) -> bool
    ensures { result ≡ are_found table.now }
{
    indexes_are_found(&table.columns, &table.indexes)
}
