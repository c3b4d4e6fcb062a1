//! A line of a text, read back.
ghost use Rattle.std.specs.Prelude.{◌≡◌, ◌++◌, ◌∷◌, ◌↔◌, IfOk, IsTrue, MatchOption};
ghost use Rattle.heap_rows.specs.RowFits.{FitsColumn};
ghost use Rattle.copy_out.specs.Lines.{IsRow, row_text};
ghost use Rattle.copy_out.specs.Readings.{CutsField, IsNoRow, Lacks, ReadsRow};

use crate::lines::push_fields;
use crate::read_fields::read_cell;
use case_file::Column;
use heap_rows::{Cell, Cells};
use key_orders::fits_type;
use outside::NoMemory;
use std::alloc::Global;
use text_writer::TextWriter;

// What stands before the first such byte, and what stands behind it.
pub(crate) fn cut_at(bytes: &[u8], byte: u8) -> Option<(&[u8], &[u8])>
    ensures { MatchOption result (Lacks byte bytes.now)
        (λ parts. (bytes.now ≡ parts.0.now ++ byte ∷ parts.1.now) × Lacks byte parts.0.now) }
{
    for (i, b) in bytes.iter().enumerate() {
        if *b == byte {
            let (front, back) = bytes.split_at(i);
            return Some((front, &back[1..]));
        }
    }
    None
}

// The next field and what stands behind its tab, or all and nothing.
fn cut_field(bytes: &[u8]) -> (&[u8], &[u8])
    ensures { CutsField bytes.now result.0.now result.1.now }
{
    match cut_at(bytes, b'\t') {
        Some(parts) => parts,
        None => (bytes, &bytes[bytes.len()..]),
    }
}

// Whether a column may have a cell.
fn fits(column: &Column, cell: &Cell) -> bool
    ensures { IsTrue result ↔ FitsColumn column.now cell.now }
{
    match cell {
        Cell::Held(value) => fits_type(column.ctype, value.as_ref()),
        Cell::Packed => column.ctype.fixed_length().is_none(),
    }
}

// The cells of a row, if these bytes are one. They may be told of other bytes too.
fn read_row(alloc: Global, columns: &[Column], row: &[u8]) -> Result<Option<Cells>, NoMemory>
    ensures { IfOk result (λ found. ReadsRow columns.now row.now found) }
{
    let mut cells = Cells::new(alloc);
    let mut rest = row;
    for i in 0..columns.len() {
        let column = &columns[i];
        let (field, after) = cut_field(rest);
        let cell = read_cell(alloc, column, field)?;
        if !fits(column, &cell) {
            return Ok(None);
        }
        cells.push(cell)?;
        rest = after;
    }
    Ok(Some(cells))
}

// The row of which these bytes are the text, where there is one.
pub(crate) fn read_line(
    alloc: Global,
    columns: &[Column],
    row: &[u8],
) -> Result<Option<Cells>, NoMemory>
    ensures { IfOk result (λ found. MatchOption found (IsNoRow columns.now row.now)
        (λ cells. IsRow columns.now cells × (row.now ≡ row_text columns.now cells))) }
{
    let Some(cells) = read_row(alloc, columns, row)? else {
        return Ok(None);
    };
    let mut text = TextWriter::new(alloc);
    push_fields(&mut text, columns, cells.as_slice())?;
    let text = text.finish()?;
    if text.as_slice() == row {
        Ok(Some(cells))
    } else {
        Ok(None)
    }
}
