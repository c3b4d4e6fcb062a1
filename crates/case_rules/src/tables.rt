//! What a table of the document holds at a key.
ghost use Rattle.std.specs.Prelude.{◌≡◌, [], map, option_map, option_copied, string_bytes, IfOk};
ghost use Rattle.std.specs.List.{list_all};
ghost use Rattle.toml.specs.Data.{get_member};
ghost use Rattle.toml.specs.View.{view, table_view};
ghost use Rattle.case_rules.specs.Tables.{as_tables, below_2_32, flag_in, has, is_table};
ghost use Rattle.case_rules.specs.Tables.{number_at, number_in, table_at};
ghost use Rattle.case_rules.specs.Tables.{tables_at, text_at, text_in, values_at};

use outside::NoMemory;
use std::alloc::Global;
use toml::{Table, Value};

pub fn value_at<'a>(table: &'a Table, key: &str) -> Option<&'a Value>
    ensures { option_map (λ v. view v.now) result ≡ get_member key.now (table_view table.now) }
{
    table.get(key)
}

#[tactic(auto, unfolding(crate::specs::Tables::has), using(crate::proofs::Values::found_laws))]
pub fn has(table: &Table, key: &str) -> bool
    ensures { result ≡ has key.now (table_view table.now) }
{
    value_at(table, key).is_some()
}

#[tactic(auto, unfolding(crate::specs::Tables::text_at))]
pub fn text_at<'a>(table: &'a Table, key: &str) -> Option<&'a str>
    ensures { option_copied result ≡ text_at key.now (table_view table.now) }
{
    match value_at(table, key) {
        Some(value) => value.as_str(),
        None => None,
    }
}

pub fn below_2_32(n: i64) -> u32
    ensures { result ≡ below_2_32 n }
{
    u32::try_from(n).unwrap_or(0)
}

/// The number at a key; 0 where there is none below 2^32.
#[tactic(auto, unfolding(crate::specs::Tables::number_at))]
pub fn number_at(table: &Table, key: &str) -> u32
    ensures { result ≡ number_at key.now (table_view table.now) }
{
    match value_at(table, key) {
        Some(value) => match value.as_integer() {
            Some(n) => below_2_32(n),
            None => 0,
        },
        None => 0,
    }
}

#[tactic(auto, unfolding(crate::specs::Tables::table_at))]
pub fn table_at<'a>(table: &'a Table, key: &str) -> Option<&'a Table>
    ensures { option_map (λ t. table_view t.now) result ≡ table_at key.now (table_view table.now) }
{
    match value_at(table, key) {
        Some(value) => value.as_table(),
        None => None,
    }
}

fn are_tables(values: &[Value]) -> bool
    ensures { result ≡ list_all (λ v. is_table (view v)) values.now }
{
    values.iter().all(|value| value.is_table())
}

/// The tables of an array of tables; `None` where the value is no array or has another member.
#[tactic(auto, unfolding(crate::specs::Tables::as_tables), using(crate::proofs::Values::view_laws))]
pub fn as_tables(value: &Value) -> Option<&[Value]>
    ensures { option_map (λ vs. map view vs.now) result ≡ as_tables (view value.now) }
{
    let values = value.as_array()?;
    if are_tables(values) {
        Some(values)
    } else {
        None
    }
}

/// The tables of the array of tables at a key; none where there is no such array.
#[tactic(auto, unfolding(crate::specs::Tables::tables_at))]
pub fn tables_at<'a>(table: &'a Table, key: &str) -> &'a [Value]
    ensures { map view result.now ≡ tables_at key.now (table_view table.now) }
{
    match value_at(table, key) {
        Some(value) => match as_tables(value) {
            Some(values) => values,
            None => &[],
        },
        None => &[],
    }
}

/// The values of the array at a key; none where there is no array.
#[tactic(auto, unfolding(crate::specs::Tables::values_at), using(crate::proofs::Values::view_laws))]
pub fn values_at<'a>(table: &'a Table, key: &str) -> &'a [Value]
    ensures { map view result.now ≡ values_at key.now (table_view table.now) }
{
    match value_at(table, key) {
        Some(value) => match value.as_array() {
            Some(values) => values,
            None => &[],
        },
        None => &[],
    }
}

/// The number at a key of a table; 0 where the table or a number below 2^32 isn't there.
#[tactic(auto, unfolding(crate::specs::Tables::number_in))]
pub fn number_in(table: Option<&Table>, key: &str) -> u32
    ensures { result ≡ number_in (option_map (λ t. table_view t.now) table.entry) key.now }
{
    match table {
        Some(table) => number_at(table, key),
        None => 0,
    }
}

/// The text at a key of a table; empty where the table or a text isn't there.
#[tactic(auto, unfolding(crate::specs::Tables::text_in))]
pub fn text_in<'a>(table: Option<&'a Table>, key: &str) -> &'a str
    ensures { result.now ≡ text_in (option_map (λ t. table_view t.now) table.entry) key.now }
{
    match table {
        Some(table) => match text_at(table, key) {
            Some(text) => text,
            None => "",
        },
        None => "",
    }
}

/// A copy of a text.
pub fn copied(alloc: Global, text: &str) -> Result<String, NoMemory>
    ensures { IfOk result (λ s. string_bytes s ≡ text.now) }
{
    Ok(String::from_str(alloc, text)?)
}

/// A copy of the text at a key of a table.
pub fn string_in(alloc: Global, table: Option<&Table>, key: &str) -> Result<String, NoMemory>
    ensures { IfOk result (λ s. string_bytes s ≡ text_in (option_map (λ t. table_view t.now) table.entry) key.now) }
{
    copied(alloc, text_in(table, key))
}

/// The flag at a key of a table; a default where the table or a flag isn't there.
#[tactic(auto, unfolding(crate::specs::Tables::flag_in))]
pub fn flag_in(table: Option<&Table>, key: &str, default: bool) -> bool
    ensures { result ≡ flag_in (option_map (λ t. table_view t.now) table.entry) key.now default }
{
    match table {
        Some(table) => match value_at(table, key) {
            Some(value) => match value.as_bool() {
                Some(flag) => flag,
                None => default,
            },
            None => default,
        },
        None => default,
    }
}
