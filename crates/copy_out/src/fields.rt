//! The text of a field.
ghost use Rattle.std.specs.Prelude.{◌≡◌, ◌++◌, codes, length, OnOk};
ghost use Rattle.hex.specs.Hex.{encode_lower};
ghost use Rattle.key_orders.specs.Values.{value_shown};
ghost use Rattle.heap_rows.specs.RowValues.{cell_lent};
ghost use Rattle.copy_out.specs.Fields.{FitsAs, FitsForm, cell_text, grouped, hexadecimal, in_groups, value_text};
ghost use Rattle.copy_out.specs.Lines.{tab_before};

use crate::escapes::push_escaped;
use crate::forms::Form;
use heap_rows::{Cell, CellRef};
use key_orders::ValueRef;
use outside::NoMemory;
use text_writer::{TextWriter, push_hexadecimal};

// The 32 digits of 16 bytes.
fn sixteen(bytes: &[u8]) -> [u8; 32]
    requires { length bytes.now ≡ 16 }
    ensures { result ≡ encode_lower bytes.now }
{
    let mut digits = [0u8; 32];
    hex::encode_to_slice(bytes, &mut digits).unwrap();
    digits
}

// A piece and a hyphen.
fn push_group(text: &mut TextWriter, piece: &[u8]) -> Result<(), NoMemory>
    ensures { OnOk result (text.new ≡ text.old ++ (piece.now ++ codes "-")) }
{
    text.push_slice(piece)?;
    text.push(b'-')
}

// The groups of 32 digits.
fn push_groups(text: &mut TextWriter, digits: &[u8]) -> Result<(), NoMemory>
    requires { length digits.now ≡ 32 }
    ensures { OnOk result (text.new ≡ text.old ++ in_groups digits.now) }
{
    let (first, rest) = digits.split_at(8);
    let (second, rest) = rest.split_at(4);
    let (third, rest) = rest.split_at(4);
    let (fourth, fifth) = rest.split_at(4);
    push_group(text, first)?;
    push_group(text, second)?;
    push_group(text, third)?;
    push_group(text, fourth)?;
    text.push_slice(fifth)
}

// Hexadecimal digits in groups.
#[tactic(auto, unfolding(crate::specs::Fields::grouped))]
fn push_grouped(text: &mut TextWriter, bytes: &[u8]) -> Result<(), NoMemory>
    requires { length bytes.now ≡ 16 }
    ensures { OnOk result (text.new ≡ text.old ++ grouped bytes.now) }
{
    let digits = sixteen(bytes);
    push_groups(text, &digits)
}

// `\\x` and hexadecimal digits.
#[tactic(auto, unfolding(crate::specs::Fields::hexadecimal))]
fn push_bytea(text: &mut TextWriter, bytes: &[u8]) -> Result<(), NoMemory>
    ensures { OnOk result (text.new ≡ text.old ++ hexadecimal bytes.now) }
{
    text.push_slice(b"\\\\x")?;
    push_hexadecimal(text, bytes)
}

// A value by the form of its type.
fn push_value(text: &mut TextWriter, form: Form, value: ValueRef<'_>) -> Result<(), NoMemory>
    requires { FitsForm form (value_shown value) }
    ensures { OnOk result (text.new ≡ text.old ++ value_text form (value_shown value.entry)) }
{
    match (form, value) {
        (_, ValueRef::Null) => text.push_slice(b"\\N"),
        (Form::Letter, ValueRef::Bool(true)) => text.push(b't'),
        (Form::Letter, ValueRef::Bool(false)) => text.push(b'f'),
        (Form::Decimal, ValueRef::Int(n)) => text.push_number(n),
        (Form::Grouped, ValueRef::Bytes(bytes)) => push_grouped(text, bytes),
        (Form::Escaped, ValueRef::Bytes(bytes)) => push_escaped(text, bytes),
        (Form::Digits, ValueRef::Bytes(bytes)) => push_bytea(text, bytes),
        (_, _) => Ok(()),
    }
}

/// Adds a tab, unless the field that follows is the first of its row. Fields count from 0.
#[inline]
pub(crate) fn push_tab(text: &mut TextWriter, i: usize) -> Result<(), NoMemory>
    ensures { OnOk result (text.new ≡ text.old ++ tab_before i) }
{
    if i == 0 {
        return Ok(());
    }
    text.push(b'\t')
}

/// Adds the text of a cell by the form of its column's type, which it fits.
pub(crate) fn push_field(
    text: &mut TextWriter,
    form: Form,
    cell: CellRef<'_>,
) -> Result<(), NoMemory>
    requires { FitsAs form (cell_lent cell) }
    ensures { OnOk result (text.new ≡ text.old ++ cell_text form (cell_lent cell.entry)) }
{
    match cell {
        CellRef::Held(value) => push_value(text, form, value),
        CellRef::Packed => text.push_slice(b"\\#"),
    }
}

/// The same cell, lent.
pub(crate) fn lent(cell: &Cell) -> CellRef<'_>
    ensures { cell_lent result ≡ cell.now }
{
    match cell {
        Cell::Held(value) => CellRef::Held(value.as_ref()),
        Cell::Packed => CellRef::Packed,
    }
}
