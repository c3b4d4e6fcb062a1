//! The rules C2 to C7, each as a test of one spot.
ghost use Rattle.std.specs.Prelude.{◌≡◌, find, not, ◌&&◌, map, option_map, option_and_then, option_copied};
ghost use Rattle.std.specs.Prelude.{string_bytes, take};
ghost use Rattle.std.specs.BTreeMap.{keys};
ghost use Rattle.std.specs.Int.{is_in_range};
ghost use Rattle.std.specs.List.{list_all, list_any};
ghost use Rattle.std.specs.Str.{bytes_eq};
ghost use Rattle.hex.specs.Hex.{is_hex_digit};
ghost use Rattle.toml.specs.Data.{as_integer, as_table, get_member};
ghost use Rattle.toml.specs.View.{view, table_view};
ghost use Rattle.case_rules.specs.Keys.{keys_of, late_keys_of, row_of};
ghost use Rattle.case_rules.specs.Rules.{applies, at_least_one, breaks, fails};
ghost use Rattle.case_rules.specs.Rules.{has_known_type, has_name, has_other_kind};
ghost use Rattle.case_rules.specs.Rules.{has_stored_type, has_too_old, has_type, has_unlisted, is_absent, is_align};
ghost use Rattle.case_rules.specs.Rules.{is_among, is_between, is_fit, is_key_column, is_len, is_listed};
ghost use Rattle.case_rules.specs.Rules.{is_missing_text, is_name_taken, is_needed, is_no_text, is_of, is_out_of_range};
ghost use Rattle.case_rules.specs.Rules.{is_stored_len, is_told, is_too_old, is_unknown, key_type, has_key_type};
ghost use Rattle.case_rules.specs.Rules.{member_names, names_no_column, number_is_in_range, number_of, same_text};
ghost use Rattle.case_rules.specs.Rules.{word_of};
ghost use Rattle.case_rules.specs.Spots.{spot_view};
ghost use Rattle.case_rules.specs.Tables.{has, number_at, tables_at, text_at};

use crate::fault::CaseRule;
use crate::keys::{Key, Kind, Need, Place, Range, late_keys, place_keys, row};
use crate::spots::Spot;
use crate::tables::{as_tables, below_2_32, has, number_at, tables_at, text_at, value_at};
use key_orders::ColType;
use toml::{Table, Value};

fn same_text(one: Option<&str>, other: Option<&str>) -> bool
    ensures { result ≡ same_text (option_copied one.entry) (option_copied other.entry) }
{
    match (one, other) {
        (Some(one), Some(other)) => one == other,
        _ => false,
    }
}

#[tactic(auto, unfolding(crate::specs::Rules::has_type))]
pub fn has_type(column: &Table, word: &str) -> bool
    ensures { result ≡ has_type word.now (table_view column.now) }
{
    same_text(text_at(column, "type"), Some(word))
}

// The types that may be keys.
const KEY_TYPES: [ColType; 11] = [
    ColType::Bool,
    ColType::Int2,
    ColType::Int4,
    ColType::Int8,
    ColType::Uuid,
    ColType::Text,
    ColType::Bytea,
    ColType::Oid,
    ColType::Date,
    ColType::Timestamp,
    ColType::Timestamptz,
];

// The word of a type.
fn word_of(ctype: ColType) -> &'static str
    ensures { result.now ≡ word_of ctype }
{
    match ctype {
        ColType::Bool => "bool",
        ColType::Int2 => "int2",
        ColType::Int4 => "int4",
        ColType::Int8 => "int8",
        ColType::Uuid => "uuid",
        ColType::Text => "text",
        ColType::Bytea => "bytea",
        ColType::Oid => "oid",
        ColType::Date => "date",
        ColType::Timestamp => "timestamp",
        ColType::Timestamptz => "timestamptz",
        ColType::Fixed { .. } => "fixed",
        ColType::Varlena { .. } => "varlena",
    }
}

fn is_told(column: &Table, ctype: ColType) -> bool
    ensures { result ≡ is_told (table_view column.now) ctype }
{
    has_type(column, word_of(ctype))
}

// The first of some types that a column has.
fn first_told(column: &Table, types: &[ColType]) -> Option<ColType>
    ensures { result ≡ find (is_told (table_view column.now)) types.now }
{
    for ctype in types {
        if is_told(column, *ctype) {
            return Some(*ctype);
        }
    }
    None
}

/// The type of a column that may be a key.
#[tactic(auto, unfolding(crate::specs::Rules::key_type))]
pub fn key_type(column: &Table) -> Option<ColType>
    ensures { result ≡ key_type (table_view column.now) }
{
    first_told(column, &KEY_TYPES)
}

fn has_key_type(column: &Table) -> bool
    ensures { result ≡ has_key_type (table_view column.now) }
{
    key_type(column).is_some()
}

fn has_stored_type(column: &Table) -> bool
    ensures { result ≡ has_stored_type (table_view column.now) }
{
    has_type(column, "fixed") || has_type(column, "varlena")
}

#[tactic(auto, unfolding(crate::specs::Rules::has_known_type))]
fn has_known_type(column: &Table) -> bool
    ensures { result ≡ has_known_type (table_view column.now) }
{
    has_key_type(column) || has_stored_type(column)
}

#[tactic(auto, unfolding(crate::specs::Rules::is_needed))]
fn is_needed(need: Need, table: &Table) -> bool
    ensures { result ≡ is_needed need (table_view table.now) }
{
    match need {
        Need::Always => true,
        Need::Optional => false,
        Need::WithToastFile => has(table, "toast_file"),
        Need::WithToastOid => has(table, "toast_oid"),
        Need::OfFixed => has_type(table, "fixed"),
        Need::OfStored => has_stored_type(table),
    }
}

// C2
#[tactic(auto, unfolding(crate::specs::Rules::is_absent))]
fn is_absent(key: Key, table: &Table) -> bool
    ensures { result ≡ is_absent key (table_view table.now) }
{
    let row = row(key);
    is_needed(row.need, table) && !has(table, row.word)
}

#[tactic(auto, unfolding(crate::specs::Rules::is_of), using(crate::proofs::Values::found_laws))]
fn is_of(kind: Kind, value: &Value) -> bool
    ensures { result ≡ is_of kind (view value.now) }
{
    match kind {
        Kind::Text => value.is_str(),
        Kind::Integer => value.is_integer(),
        Kind::Boolean => value.is_bool(),
        Kind::Array => value.is_array(),
        Kind::Table => value.is_table(),
        Kind::Tables => as_tables(value).is_some(),
    }
}

// C3
#[tactic(auto, unfolding(crate::specs::Rules::has_other_kind))]
fn has_other_kind(key: Key, table: &Table) -> bool
    ensures { result ≡ has_other_kind key (table_view table.now) }
{
    let row = row(key);
    match value_at(table, row.word) {
        Some(value) => !is_of(row.kind, value),
        None => false,
    }
}

// C3 of an element of an array of names
fn is_no_text(value: &Value) -> bool
    ensures { result ≡ is_no_text (view value.now) }
{
    !value.is_str()
}

fn is_in_range(low: u64, high: u64, n: u64) -> bool
    ensures { result ≡ is_in_range low high n }
{
    low <= n && n <= high
}

fn number_is_in_range(low: u64, high: u64, n: i64) -> bool
    ensures { result ≡ number_is_in_range low high n }
{
    match u64::try_from(n) {
        Ok(n) => is_in_range(low, high, n),
        Err(_) => false,
    }
}

#[tactic(auto, unfolding(crate::specs::Rules::is_between), using(crate::proofs::Values::range_laws))]
fn is_between(low: u64, high: u64, value: &Value) -> bool
    ensures { result ≡ is_between low high (view value.now) }
{
    match value {
        Value::Integer(n) => number_is_in_range(low, high, *n),
        Value::String(text) => is_in_range(low, high, text.len() as u64),
        Value::Array(values) => is_in_range(low, high, values.len() as u64),
        _ => true,
    }
}

#[tactic(auto, unfolding(crate::specs::Rules::applies))]
fn applies(need: Need, table: &Table) -> bool
    ensures { result ≡ applies need (table_view table.now) }
{
    match need {
        Need::OfFixed => has_type(table, "fixed"),
        Need::OfStored => has_stored_type(table),
        _ => true,
    }
}

#[tactic(auto, unfolding(crate::specs::Rules::is_align))]
fn is_align(column: &Table, n: u32) -> bool
    ensures { result ≡ is_align (table_view column.now) n }
{
    if has_type(column, "fixed") {
        n == 1 || n == 2 || n == 4 || n == 8
    } else {
        n == 4 || n == 8
    }
}

fn is_len(len: Option<u16>, n: usize) -> bool
    ensures { result ≡ is_len len n }
{
    match len {
        Some(len) => n == usize::from(len),
        None => n <= 8000,
    }
}

#[tactic(auto, unfolding(crate::specs::Rules::is_stored_len))]
fn is_stored_len(column: &Table, n: usize) -> bool
    ensures { result ≡ is_stored_len (table_view column.now) n }
{
    match key_type(column) {
        Some(ctype) => is_len(ctype.fixed_length(), n),
        None => {
            if has_type(column, "fixed") {
                n == number_at(column, "len") as usize
            } else if has_type(column, "varlena") {
                n <= 8000
            } else {
                true
            }
        }
    }
}

fn is_hex_digit(c: u8) -> bool
    ensures { result ≡ is_hex_digit c }
{
    c.is_ascii_hexdigit()
}

fn are_hex_digits(text: &[u8]) -> bool
    ensures { result ≡ list_all is_hex_digit text.now }
{
    text.iter().all(|c| is_hex_digit(*c))
}

#[tactic(auto, unfolding(crate::specs::Rules::is_missing_text))]
fn is_missing_text(column: &Table, text: &str) -> bool
    ensures { result ≡ is_missing_text (table_view column.now) text.now }
{
    are_hex_digits(text.as_bytes()) && text.len() % 2 == 0 && is_stored_len(column, text.len() / 2)
}

#[tactic(auto, unfolding(crate::specs::Rules::is_fit))]
fn is_fit(range: Range, table: &Table, value: &Value) -> bool
    ensures { result ≡ is_fit range (table_view table.now) (view value.now) }
{
    match range {
        Range::Any => true,
        Range::Between(low, high) => is_between(low, high, value),
        Range::Alignment => match value.as_integer() {
            Some(n) => is_align(table, below_2_32(n)),
            None => true,
        },
        Range::StoredBytes => match value.as_str() {
            Some(text) => is_missing_text(table, text),
            None => true,
        },
    }
}

// C4
#[tactic(auto, unfolding(crate::specs::Rules::is_out_of_range))]
fn is_out_of_range(key: Key, table: &Table) -> bool
    ensures { result ≡ is_out_of_range key (table_view table.now) }
{
    let row = row(key);
    applies(row.need, table)
        && match value_at(table, row.word) {
            Some(value) => !is_fit(row.range, table, value),
            None => false,
        }
}

/// Whether a value is a table of that name.
pub fn has_name(name: Option<&str>, value: &Value) -> bool
    ensures { result ≡ has_name (option_copied name.entry) (view value.now) }
{
    match value.as_table() {
        Some(table) => same_text(text_at(table, "name"), name),
        None => false,
    }
}

/// Whether a value is a column of that name that may be a key.
pub fn is_key_column(name: Option<&str>, value: &Value) -> bool
    ensures { result ≡ is_key_column (option_copied name.entry) (view value.now) }
{
    match value.as_table() {
        Some(table) => same_text(text_at(table, "name"), name) && has_key_type(table),
        None => false,
    }
}

// The first n, or all.
#[tactic(auto, using(crate::proofs::Values::take_laws))]
fn first_of(all: &[Value], n: usize) -> &[Value]
    ensures { map view result.now ≡ take n (map view all.now) }
{
    if all.len() <= n { all } else { &all[..n] }
}

fn any_has_name(values: &[Value], name: Option<&str>) -> bool
    ensures { result ≡ list_any (λ v. has_name (option_copied name.entry) (view v)) values.now }
{
    values.iter().any(|value| has_name(name, value))
}

fn any_is_key_column(values: &[Value], name: Option<&str>) -> bool
    ensures { result ≡ list_any (λ v. is_key_column (option_copied name.entry) (view v)) values.now }
{
    values.iter().any(|value| is_key_column(name, value))
}

#[tactic(auto, unfolding(crate::specs::Rules::is_name_taken), using(crate::proofs::Values::any_laws))]
fn is_name_taken(top: &Table, key: &str, k: usize, table: &Table) -> bool
    ensures { result ≡ is_name_taken (table_view top.now) key.now k (table_view table.now) }
{
    any_has_name(first_of(tables_at(top, key), k), text_at(table, "name"))
}

fn number_of(place: Place) -> usize
    ensures { result ≡ number_of place }
{
    match place {
        Place::Column(k) => k,
        Place::Index(k) => k,
        _ => 0,
    }
}

// C5
#[tactic(auto, unfolding(crate::specs::Rules::is_unknown), using(crate::proofs::Values::any_laws))]
fn is_unknown(top: &Table, place: Place, key: Key, table: &Table) -> bool
    ensures { result ≡ is_unknown (table_view top.now) place key (table_view table.now) }
{
    match key {
        Key::ColumnName => is_name_taken(top, "column", number_of(place), table),
        Key::ColumnType => !has_known_type(table),
        Key::IndexName => is_name_taken(top, "index", number_of(place), table),
        Key::KeyColumn => !any_is_key_column(tables_at(top, "column"), text_at(table, "column")),
        _ => false,
    }
}

// C5 of an element of an array of names
#[tactic(auto, unfolding(crate::specs::Rules::names_no_column), using(crate::proofs::Values::any_laws))]
fn names_no_column(top: &Table, value: &Value) -> bool
    ensures { result ≡ names_no_column (table_view top.now) (view value.now) }
{
    !any_has_name(tables_at(top, "column"), value.as_str())
}

fn is_among(keys: &[Key], table: &Table, name: &str) -> bool
    ensures { result ≡ is_among keys.now (table_view table.now) name.now }
{
    keys.iter().any(|key| {
        let row = row(*key);
        row.word == name && applies(row.need, table)
    })
}

#[tactic(auto, unfolding(crate::specs::Rules::is_listed))]
fn is_listed(place: Place, table: &Table, name: &str) -> bool
    ensures { result ≡ is_listed place (table_view table.now) name.now }
{
    is_among(place_keys(place), table, name) || is_among(late_keys(place), table, name)
}

// C6
fn has_unlisted(place: Place, table: &Table) -> bool
    ensures { result
        ≡ list_any (λ name. not (is_listed place (table_view table.now) (string_bytes name))) (keys table.now) }
{
    table
        .keys()
        .any(|name| !is_listed(place, table, name.as_str()))
}

/// The next multixact id: 0 is read as 1, the first one that there is.
pub fn at_least_one(n: u32) -> u32
    ensures { result ≡ at_least_one n }
{
    if n == 0 { 1 } else { n }
}

#[tactic(auto, unfolding(crate::specs::Rules::is_too_old))]
fn is_too_old(oldest: u32, next: u32) -> bool
    ensures { result ≡ is_too_old oldest next }
{
    (next as u64 + 4294967296 - oldest as u64) % 4294967296 >= 2147483648
}

// C7
#[tactic(auto, unfolding(crate::specs::Rules::has_too_old))]
fn has_too_old(place: Place, table: &Table) -> bool
    ensures { result ≡ has_too_old place (table_view table.now) }
{
    match place {
        Place::Cluster => {
            is_too_old(number_at(table, "oldest_xid"), number_at(table, "next_xid"))
                || is_too_old(
                    number_at(table, "oldest_multi"),
                    at_least_one(number_at(table, "next_multi")),
                )
        }
        _ => false,
    }
}

/// Whether a spot of the document breaks a rule.
#[tactic(auto, unfolding(crate::specs::Rules::breaks), using(crate::proofs::Values::names_laws))]
pub fn breaks(top: &Table, rule: CaseRule, spot: Spot<'_>) -> bool
    ensures { result ≡ breaks (table_view top.now) rule (spot_view spot.entry) }
{
    match (rule, spot) {
        (CaseRule::C2, Spot::Listed(_, key, table)) => is_absent(key, table),
        (CaseRule::C3, Spot::Listed(_, key, table)) => has_other_kind(key, table),
        (CaseRule::C3, Spot::Element(_, _, _, value)) => is_no_text(value),
        (CaseRule::C4, Spot::Listed(_, key, table)) => is_out_of_range(key, table),
        (CaseRule::C5, Spot::Listed(place, key, table)) => is_unknown(top, place, key, table),
        (CaseRule::C5, Spot::Element(_, _, _, value)) => names_no_column(top, value),
        (CaseRule::C6, Spot::Whole(place, table)) => has_unlisted(place, table),
        (CaseRule::C7, Spot::Whole(place, table)) => has_too_old(place, table),
        _ => false,
    }
}
