//! The text of a row.
ghost use Rattle.std.specs.Prelude.{◌≡◌, ◌++◌, IfOk, OnOk};
ghost use Rattle.heap_rows.specs.RowFits.{FitColumns};
ghost use Rattle.copy_out.specs.Lines.{line_of, row_text};

use crate::fields::{lent, push_field, push_tab};
use crate::forms::form_of;
use case_file::Column;
use heap_rows::{Cell, LiveRow};
use key_orders::Octets;
use outside::NoMemory;
use std::alloc::Global;
use text_writer::TextWriter;

/// Adds the fields of a row, which has a cell for each column that fits it.
pub(crate) fn push_fields(
    text: &mut TextWriter,
    columns: &[Column],
    cells: &[Cell],
) -> Result<(), NoMemory>
    requires { FitColumns columns.now cells.now }
    ensures { OnOk result (text.new ≡ text.old ++ row_text columns.now cells.now) }
{
    for i in 0..cells.len() {
        let column = &columns[i];
        let cell = &cells[i];
        push_tab(text, i)?;
        push_field(text, form_of(column.ctype), lent(cell))?;
    }
    Ok(())
}

/// The text of a row, which has a cell for each column that fits it: its fields, joined by tabs and ended by a line
/// feed.
#[tactic(auto, unfolding(crate::specs::Lines::line_of))]
pub fn row_line(alloc: Global, columns: &[Column], row: &LiveRow) -> Result<Octets, NoMemory>
    requires { FitColumns columns.now row.now.cells }
    ensures { IfOk result (λ line. line ≡ line_of columns.now row.now.cells) }
{
    let mut line = TextWriter::new(alloc);
    push_fields(&mut line, columns, row.cells.as_slice())?;
    line.push(b'\n')?;
    line.finish()
}
