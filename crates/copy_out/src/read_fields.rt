//! A field of a text, read back.
ghost use Rattle.std.specs.Prelude.{◌≡◌, ◌^◌, ◌<◌, ℤ, false, drop, IfOk};
ghost use Rattle.copy_out.specs.Fields.{HasBytes, IsField};
ghost use Rattle.copy_out.specs.Readings.{IsNumberOf, ReadsAs, byte_of, bytes_read, mark_of, unescaped};
ghost use Rattle.copy_out.specs.Readings.{without_hyphens};
ghost use Rattle.heap_rows.specs.declared.row_cells.Cell.{Cell as Shown};

use crate::forms::{Form, form_of};
use case_file::Column;
use heap_rows::Cell;
use hex::FromHexError;
use key_orders::{Octets, Value};
use outside::NoMemory;
use std::alloc::Global;
use std::str;

// The cell of a mark.
fn mark_of(text: &[u8]) -> Option<Cell>
    ensures { result ≡ mark_of text.now }
{
    if text.len() == 2 && text[0] == b'\\' {
        match text[1] {
            b'N' => Some(Cell::Held(Value::Null)),
            b'#' => Some(Cell::Packed),
            _ => None,
        }
    } else {
        None
    }
}

// The byte that a letter behind a backslash stands for.
#[tactic(auto, unfolding(crate::specs::Readings::byte_of))]
fn byte_of(letter: u8) -> u8
    ensures { result ≡ byte_of letter }
{
    match letter {
        b'b' => 8,
        b't' => 9,
        b'n' => 10,
        b'v' => 11,
        b'f' => 12,
        b'r' => 13,
        _ => letter,
    }
}

// The bytes of a text with escapes.
fn read_escaped(alloc: Global, text: &[u8]) -> Result<Octets, NoMemory>
    ensures { IfOk result (λ bytes. bytes ≡ unescaped text.now false) }
{
    let mut bytes = Vec::new(alloc);
    let mut behind = false;
    for b in text {
        if behind {
            bytes.push(byte_of(*b))?;
            behind = false;
        } else if *b == b'\\' {
            behind = true;
        } else {
            bytes.push(*b)?;
        }
    }
    Ok(Octets::from_vec(bytes))
}

// The bytes of hexadecimal digits.
#[tactic(auto, unfolding(crate::specs::Readings::bytes_read))]
fn read_digits(alloc: Global, digits: &[u8]) -> Result<Octets, NoMemory>
    ensures { IfOk result (λ bytes. bytes ≡ bytes_read digits.now) }
{
    match hex::decode(alloc, digits) {
        Ok(bytes) => Ok(Octets::from_vec(bytes)),
        Err(FromHexError::OutOfMemory) => Err(NoMemory),
        Err(_) => Ok(Octets::new(alloc)),
    }
}

// The bytes of hexadecimal digits in groups.
fn read_grouped(alloc: Global, text: &[u8]) -> Result<Octets, NoMemory>
    ensures { IfOk result (λ bytes. bytes ≡ bytes_read (without_hyphens text.now)) }
{
    let mut digits = Vec::new(alloc);
    for b in text {
        if *b != b'-' {
            digits.push(*b)?;
        }
    }
    read_digits(alloc, &digits)
}

// What stands behind three bytes.
fn after_three(text: &[u8]) -> &[u8]
    ensures { result.now ≡ drop 3 text.now }
{
    if text.len() < 3 {
        &text[text.len()..]
    } else {
        &text[3..]
    }
}

// The number that a word writes.
fn number_of(word: &str) -> i64
    ensures { IsNumberOf word.now result }
{
    match word.parse::<i64>() {
        Ok(n) => n,
        Err(_) => 0,
    }
}

// The number that a text writes.
fn read_number(text: &[u8]) -> i64
    ensures { IsNumberOf text.now result }
{
    match str::from_utf8(text) {
        Ok(word) => number_of(word),
        Err(_) => 0,
    }
}

// The value of a field without a mark.
fn read_value(alloc: Global, form: Form, text: &[u8]) -> Result<Value, NoMemory>
    ensures { IfOk result (λ v. ReadsAs form text.now v) }
{
    match form {
        Form::Letter => Ok(Value::Bool(!text.is_empty() && text[0] == b't')),
        Form::Decimal => Ok(Value::Int(read_number(text))),
        Form::Grouped => Ok(Value::Bytes(read_grouped(alloc, text)?)),
        Form::Escaped => Ok(Value::Bytes(read_escaped(alloc, text)?)),
        Form::Digits => Ok(Value::Bytes(read_digits(alloc, after_three(text))?)),
    }
}

/// The cell of a field. Of bytes that are no field, it is any cell.
pub(crate) fn read_cell(alloc: Global, column: &Column, text: &[u8]) -> Result<Cell, NoMemory>
    ensures told { IfOk result (λ c. (d : Shown) → IsField column.now d text.now → c ≡ d) }
    ensures bytes { IfOk result (λ c. HasBytes c) }
{
    match mark_of(text) {
        Some(cell) => Ok(cell),
        None => Ok(Cell::Held(read_value(alloc, form_of(column.ctype), text)?)),
    }
}
