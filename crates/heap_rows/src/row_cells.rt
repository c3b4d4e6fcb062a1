//! The cells of a row.
ghost use Rattle.std.specs.Prelude.{◌≡◌, ◌∷◌, [], ◌++◌, IfOk, OnErr, OnOk};
ghost use Rattle.heap_rows.specs.RowValues.{cell_lent};

use key_orders::{Value, ValueRef};
use outside::NoMemory;
use std::alloc::Global;
use std::marker::Model;

/// What a column is in a row.
#[derive(Drop)]
pub enum Cell {
    /// Its value, wherever it is stored.
    Held(Value),
    /// A compressed value, in place or in the TOAST table: it isn't unpacked.
    Packed,
}

/// The same, lent.
#[derive(Clone, Copy, Debug)]
pub enum CellRef<'p> {
    /// A value as it lies on a page, in the case, or among bytes that were joined.
    Held(ValueRef<'p>),
    /// A compressed value.
    Packed,
}

impl CellRef<'_> {
    /// The same, with memory of its own.
    pub fn to_cell(self, alloc: Global) -> Result<Cell, NoMemory>
        ensures { IfOk result (λ c. c ≡ cell_lent self.entry) }
    {
        match self {
            CellRef::Held(v) => Ok(Cell::Held(v.to_value(alloc)?)),
            CellRef::Packed => Ok(Cell::Packed),
        }
    }
}

/// The cells of a row, one for each column of its table. Contracts see the list of the cells. It keeps
/// its allocator.
#[derive(Drop)]
pub struct Cells {
    cells: Vec<Cell>,
}

impl Model for Cells {
    ghost use Rattle.std.specs.Prelude.{List};
    ghost use Rattle.heap_rows.specs.declared.row_cells.Cell.{Cell};

    ghost Value = { List Cell };

    ghost view = { λ c. c.cells.items };
}

impl Cells {
    /// No cells.
    pub fn new(alloc: Global) -> Cells
        ensures { result ≡ [] }
    {
        Cells {
            cells: Vec::new(alloc),
        }
    }

    /// Adds a cell at the end; after `NoMemory` nothing changed.
    pub fn push(&mut self, c: Cell) -> Result<(), NoMemory>
        ensures ok { OnOk result (self.new ≡ self.old ++ c ∷ []) }
        ensures err { OnErr result (self.new ≡ self.old) }
    {
        self.cells.push(c)?;
        Ok(())
    }

    /// The cells.
    pub fn as_slice(&self) -> &[Cell]
        ensures { result.now ≡ self.now }
    {
        &self.cells
    }
}
