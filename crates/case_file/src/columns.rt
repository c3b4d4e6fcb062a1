//! The columns of a document that breaks no rule.
ghost use Rattle.std.specs.Prelude.{◌≡◌, pos, map, option_and_then, option_copied, option_map, codes, slice_index};
ghost use Rattle.std.specs.Prelude.{IfOk};
ghost use Rattle.std.specs.Int.{cast_signed, from_le_bytes};
ghost use mir.Syntax.{w16, w32, w64};
ghost use Rattle.key_orders.specs.Values.{value_in};
ghost use Rattle.toml.specs.View.{view, table_view};
ghost use Rattle.case_file.specs.Columns.{below_or_zero, column_of, decoded, missing_of, stored_type, told_type};
ghost use Rattle.case_rules.specs.Tables.{text_at};

use crate::case::Column;
use case_rules::{has_type, key_type, number_at, text_at};
use hex::FromHexError;
use key_orders::{ColType, Octets, Value as Stored};
use outside::NoMemory;
use std::alloc::Global;
use toml::{Table, Value};

/// A number below 2^16, and 0 for any other.
pub fn below_2_16(n: usize) -> u16
    ensures { result ≡ below_or_zero 65536 n }
{
    if n < 65536 { n as u16 } else { 0 }
}

fn below_2_8(n: u32) -> u8
    ensures { result ≡ below_or_zero 256 n }
{
    if n < 256 { n as u8 } else { 0 }
}

#[tactic(auto, unfolding(crate::specs::Columns::stored_type))]
fn stored_type(column: &Table) -> ColType
    ensures { result ≡ stored_type (table_view column.now) }
{
    let align = below_2_8(number_at(column, "align"));
    if has_type(column, "fixed") {
        let len = below_2_16(number_at(column, "len") as usize);
        ColType::Fixed { len, align }
    } else {
        ColType::Varlena { align }
    }
}

/// The type of a column.
#[tactic(auto, unfolding(crate::specs::Columns::told_type))]
pub fn told_type(column: Option<&Table>) -> ColType
    ensures { result ≡ told_type (option_map (λ t. table_view t.now) column.entry) }
{
    match column {
        None => ColType::Text,
        Some(table) => match key_type(table) {
            Some(ctype) => ctype,
            None => stored_type(table),
        },
    }
}

#[tactic(auto, unfolding(crate::specs::Columns::decoded))]
fn decoded(alloc: Global, text: &str) -> Result<Vec<u8>, NoMemory>
    ensures { IfOk result (λ v. v.items ≡ decoded text.now) }
{
    match hex::decode(alloc, text) {
        Ok(bytes) => Ok(bytes),
        Err(FromHexError::OutOfMemory) => Err(NoMemory),
        Err(_) => Ok(Vec::new(alloc)),
    }
}

// A byte, 0 past the end.
fn byte_at(bytes: &[u8], i: usize) -> u8
    ensures { result ≡ slice_index bytes.now i }
{
    if i < bytes.len() { bytes[i] } else { 0 }
}

fn int2_of(bytes: &[u8]) -> i64
    ensures { result ≡ cast_signed w16 (from_le_bytes w16 bytes.now) }
{
    i16::from_le_bytes([byte_at(bytes, 0), byte_at(bytes, 1)]) as i64
}

fn int4_of(bytes: &[u8]) -> i64
    ensures { result ≡ cast_signed w32 (from_le_bytes w32 bytes.now) }
{
    i32::from_le_bytes([
        byte_at(bytes, 0),
        byte_at(bytes, 1),
        byte_at(bytes, 2),
        byte_at(bytes, 3),
    ]) as i64
}

fn oid_of(bytes: &[u8]) -> i64
    ensures { result ≡ pos (from_le_bytes w32 bytes.now) }
{
    i64::from(u32::from_le_bytes([
        byte_at(bytes, 0),
        byte_at(bytes, 1),
        byte_at(bytes, 2),
        byte_at(bytes, 3),
    ]))
}

fn int8_of(bytes: &[u8]) -> i64
    ensures { result ≡ cast_signed w64 (from_le_bytes w64 bytes.now) }
{
    i64::from_le_bytes([
        byte_at(bytes, 0),
        byte_at(bytes, 1),
        byte_at(bytes, 2),
        byte_at(bytes, 3),
        byte_at(bytes, 4),
        byte_at(bytes, 5),
        byte_at(bytes, 6),
        byte_at(bytes, 7),
    ])
}

#[tactic(auto, unfolding(key_orders::specs::Values::value_in))]
fn value_in(ctype: ColType, bytes: Vec<u8>) -> Stored
    ensures { result ≡ value_in ctype bytes.items }
{
    match ctype {
        ColType::Bool => Stored::Bool(byte_at(&bytes, 0) != 0),
        ColType::Int2 => Stored::Int(int2_of(&bytes)),
        ColType::Int4 | ColType::Date => Stored::Int(int4_of(&bytes)),
        ColType::Oid => Stored::Int(oid_of(&bytes)),
        ColType::Int8 | ColType::Timestamp | ColType::Timestamptz => Stored::Int(int8_of(&bytes)),
        ColType::Uuid
        | ColType::Text
        | ColType::Bytea
        | ColType::Fixed { .. }
        | ColType::Varlena { .. } => Stored::Bytes(Octets::from_vec(bytes)),
    }
}

#[tactic(auto, unfolding(crate::specs::Columns::missing_of))]
fn missing_of(alloc: Global, ctype: ColType, text: Option<&str>) -> Result<Stored, NoMemory>
    ensures { IfOk result (λ v. v ≡ missing_of ctype (option_copied text.entry)) }
{
    match text {
        Some(text) => Ok(value_in(ctype, decoded(alloc, text)?)),
        None => Ok(Stored::Null),
    }
}

fn missing_text(column: Option<&Table>) -> Option<&str>
    ensures { option_copied result
        ≡ option_and_then (text_at (codes "missing")) (option_map (λ t. table_view t.now) column.entry) }
{
    match column {
        Some(table) => text_at(table, "missing"),
        None => None,
    }
}

#[tactic(auto, unfolding(crate::specs::Columns::column_of))]
fn column_of(alloc: Global, column: &Value) -> Result<Column, NoMemory>
    ensures { IfOk result (λ c. c ≡ column_of (view column.now)) }
{
    let table = column.as_table();
    let ctype = told_type(table);
    let missing = missing_of(alloc, ctype, missing_text(table))?;
    Ok(Column { ctype, missing })
}

/// The columns of a document, in order.
pub fn columns_of(alloc: Global, columns: &[Value]) -> Result<Vec<Column>, NoMemory>
    ensures { IfOk result (λ v. v.items ≡ map column_of (map view columns.now)) }
{
    let mut out = Vec::new(alloc);
    for column in columns {
        out.push(column_of(alloc, column)?)?;
    }
    Ok(out)
}

/// The types of columns, in their order.
pub fn types_of(alloc: Global, columns: &[Column]) -> Result<Vec<ColType>, NoMemory>
    ensures { IfOk result (λ v. v.items ≡ map (λ c. c.ctype) columns.now) }
{
    let types = columns.iter().map(|column| column.ctype).collect(alloc)?;
    Ok(types)
}
