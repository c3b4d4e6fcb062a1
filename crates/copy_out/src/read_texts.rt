//! The rows of a text, read back.
ghost use Rattle.std.specs.Prelude.{◌≡◌, ◌++◌, ◌∷◌, ◌<◌, [], List, IfOk, IfErr, OnErr, OnOk, length, slice_index_or};
ghost use Rattle.copy_out.specs.Lines.{IsText};
ghost use Rattle.copy_out.specs.Refused.{Answers, TellsFault};
ghost use Rattle.heap_rows.specs.declared.row_cells.Cell.{Cell as Shown};
ghost use Rattle.copy_out.specs.declared.read_texts.LineFault.TheVariants as fault;

use crate::read_lines::{cut_at, read_line};
use case_file::Column;
use heap_rows::Cells;
use outside::NoMemory;
use std::alloc::Global;
use std::marker::Model;
use thiserror::Error;

/// Rows, each a list of its cells. Contracts see the list of the rows. It keeps its allocator.
#[derive(Drop)]
pub struct CopyRows {
    rows: Vec<Cells>,
}

impl Model for CopyRows {
    ghost use Rattle.std.specs.Prelude.{List};
    ghost use Rattle.heap_rows.specs.declared.row_cells.Cell.{Cell};

    ghost Value = { List (List Cell) };

    ghost view = { λ r. r.rows.items };
}

/// Why there are no rows.
#[derive(Clone, Copy, Debug, PartialEq, Eq, Error)]
pub enum LineFault {
    /// The first line that is no row's, counted from 1.
    #[error("line {line} is no row's")]
    Refused { line: u64 },
    /// Memory ran out.
    #[error("out of memory")]
    NoMemory,
}

impl From<NoMemory> for LineFault {
    ghost from_gives = { λ _ e. e ≡ fault.NoMemory };

    fn from(_: NoMemory) -> Self {
        LineFault::NoMemory
    }
}

impl CopyRows {
    // No rows.
    fn new(alloc: Global) -> CopyRows
        ensures { result ≡ [] }
    {
        CopyRows {
            rows: Vec::new(alloc),
        }
    }

    // Adds a row at the end; after `NoMemory` nothing changed.
    fn push(&mut self, cells: Cells) -> Result<(), NoMemory>
        ensures ok { OnOk result (self.new ≡ self.old ++ cells ∷ []) }
        ensures err { OnErr result (self.new ≡ self.old) }
    {
        self.rows.push(cells)?;
        Ok(())
    }

    /// How many rows there are.
    pub fn len(&self) -> u64
        ensures { result ≡ length self.now }
    {
        self.rows.len() as u64
    }

    /// The row at a place, counted from 0.
    pub fn row(&self, i: u64) -> &Cells
        requires { i < length self.now }
        ensures { result.now ≡ slice_index_or self.now i [] }
    {
        &self.rows[i as usize]
    }
}

// The rows of a text, or the first line that is no row's.
fn read_rows(alloc: Global, columns: &[Column], text: &[u8]) -> Result<CopyRows, LineFault>
    ensures rows { IfOk result (λ rows. IsText columns.now rows text.now) }
    ensures fault { IfErr result (λ e. TellsFault columns.now text.now e) }
{
    let mut rows = CopyRows::new(alloc);
    let mut rest = text;
    let mut line: u64 = 1;
    while !rest.is_empty() {
        let Some((row, after)) = cut_at(rest, b'\n') else {
            return Err(LineFault::Refused { line });
        };
        let Some(cells) = read_line(alloc, columns, row)? else {
            return Err(LineFault::Refused { line });
        };
        rows.push(cells)?;
        rest = after;
        line += 1;
    }
    Ok(rows)
}

/// The rows of a text of `copy`: it answers rows where the text is that of those rows, and refuses every other text at
/// its first line that is no row's, counted from 1. A last line without a line feed is a line, and no row's.
pub fn read_copy(alloc: Global, columns: &[Column], text: &[u8]) -> Result<CopyRows, LineFault>
    ensures rows { IfOk result (λ rows. IsText columns.now rows text.now) }
    ensures fault { IfErr result (λ e. TellsFault columns.now text.now e) }
    ensures answers { (rows : List (List Shown)) → IsText columns.now rows text.now → Answers result rows }
{
    read_rows(alloc, columns, text)
}
