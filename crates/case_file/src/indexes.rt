//! The indexes of a document that breaks no rule.
ghost use Rattle.std.specs.Prelude.{◌≡◌, map, option_copied, option_map, IfOk, position, Some};
ghost use Rattle.toml.specs.View.{view, table_view};
ghost use Rattle.case_file.specs.Indexes.{any_column_named, column_named, index_of, key_of, keys_in, more_in, more_of};
ghost use Rattle.case_file.specs.Indexes.{table_of, unique_in};
ghost use Rattle.case_rules.specs.Rules.{has_name, is_key_column};

use crate::case::{Index, Unique};
use crate::columns::{below_2_16, told_type};
use case_rules::{flag_in, has_name, is_key_column, string_in, tables_at, text_in, values_at};
use key_orders::{KeySpec, MoreSpec};
use outside::NoMemory;
use std::alloc::Global;
use toml::{Table, Value};

fn position_of(columns: &[Value], name: &str) -> Option<usize>
    ensures { result ≡ position (λ v. is_key_column (Some name.now) (view v)) columns.now }
{
    columns
        .iter()
        .position(|column| is_key_column(Some(name), column))
}

#[tactic(auto, unfolding(crate::specs::Indexes::column_named), using(case_rules::proofs::Values::position_laws))]
fn column_named(columns: &[Value], name: &str) -> usize
    ensures { result ≡ column_named (map view columns.now) name.now }
{
    match position_of(columns, name) {
        Some(k) => k,
        None => 0,
    }
}

fn any_position_of(columns: &[Value], name: Option<&str>) -> Option<usize>
    ensures { result ≡ position (λ v. has_name (option_copied name.entry) (view v)) columns.now }
{
    columns.iter().position(|column| has_name(name, column))
}

#[tactic(auto, unfolding(crate::specs::Indexes::any_column_named), using(case_rules::proofs::Values::position_laws))]
fn any_column_named(columns: &[Value], name: Option<&str>) -> usize
    ensures { result ≡ any_column_named (map view columns.now) (option_copied name.entry) }
{
    match any_position_of(columns, name) {
        Some(k) => k,
        None => 0,
    }
}

#[tactic(auto, using(case_rules::proofs::Values::gets_laws))]
fn table_of(columns: &[Value], k: usize) -> Option<&Table>
    ensures { option_map (λ t. table_view t.now) result ≡ table_of (map view columns.now) k }
{
    match columns.get(k) {
        Some(column) => column.as_table(),
        None => None,
    }
}

#[tactic(auto, unfolding(crate::specs::Indexes::key_of))]
fn key_of(columns: &[Value], key: &Value) -> KeySpec
    ensures { result ≡ key_of (map view columns.now) (view key.now) }
{
    let table = key.as_table();
    let column = column_named(columns, text_in(table, "column"));
    let desc = flag_in(table, "desc", false);
    KeySpec {
        column: below_2_16(column),
        ctype: told_type(table_of(columns, column)),
        desc,
        nulls_first: flag_in(table, "nulls_first", desc),
    }
}

fn keys_of(alloc: Global, columns: &[Value], keys: &[Value]) -> Result<Vec<KeySpec>, NoMemory>
    ensures { IfOk result (λ v. v.items ≡ map (key_of (map view columns.now)) (map view keys.now)) }
{
    let mut out = Vec::new(alloc);
    for key in keys {
        out.push(key_of(columns, key))?;
    }
    Ok(out)
}

fn keys_in(index: Option<&Table>) -> &[Value]
    ensures { map view result.now ≡ keys_in (option_map (λ t. table_view t.now) index.entry) }
{
    match index {
        Some(table) => tables_at(table, "key"),
        None => &[],
    }
}

#[tactic(auto, unfolding(crate::specs::Indexes::more_of))]
fn more_of(columns: &[Value], name: &Value) -> MoreSpec
    ensures { result ≡ more_of (map view columns.now) (view name.now) }
{
    let column = any_column_named(columns, name.as_str());
    MoreSpec {
        column: below_2_16(column),
        ctype: told_type(table_of(columns, column)),
    }
}

fn all_more_of(alloc: Global, columns: &[Value], names: &[Value]) -> Result<Vec<MoreSpec>, NoMemory>
    ensures { IfOk result (λ v. v.items ≡ map (more_of (map view columns.now)) (map view names.now)) }
{
    let mut out = Vec::new(alloc);
    for name in names {
        out.push(more_of(columns, name))?;
    }
    Ok(out)
}

fn more_in(index: Option<&Table>) -> &[Value]
    ensures { map view result.now ≡ more_in (option_map (λ t. table_view t.now) index.entry) }
{
    match index {
        Some(table) => values_at(table, "include"),
        None => &[],
    }
}

#[tactic(auto, unfolding(crate::specs::Indexes::unique_in))]
fn unique_in(index: Option<&Table>) -> Unique
    ensures { result ≡ unique_in (option_map (λ t. table_view t.now) index.entry) }
{
    let nulls_not_distinct = flag_in(index, "nulls_not_distinct", false);
    if flag_in(index, "unique", false) {
        if nulls_not_distinct {
            Unique::NullsEqual
        } else {
            Unique::NullsDistinct
        }
    } else {
        Unique::No
    }
}

#[tactic(auto, unfolding(crate::specs::Indexes::index_of))]
fn index_of(alloc: Global, columns: &[Value], index: &Value) -> Result<Index, NoMemory>
    ensures { IfOk result (λ i. i ≡ index_of (map view columns.now) (view index.now)) }
{
    let table = index.as_table();
    let name = string_in(alloc, table, "name")?;
    let file = string_in(alloc, table, "file")?;
    let keys = keys_of(alloc, columns, keys_in(table))?;
    let more = all_more_of(alloc, columns, more_in(table))?;
    Ok(Index::new(name, file, keys, more, unique_in(table)))
}

/// The indexes of a document, in order.
pub fn indexes_of(
    alloc: Global,
    columns: &[Value],
    indexes: &[Value],
) -> Result<Vec<Index>, NoMemory>
    ensures { IfOk result (λ v. v.items ≡ map (index_of (map view columns.now)) (map view indexes.now)) }
{
    let mut out = Vec::new(alloc);
    for index in indexes {
        out.push(index_of(alloc, columns, index)?)?;
    }
    Ok(out)
}
