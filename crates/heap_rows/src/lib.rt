//! The rows of a sound heap: its live tuples, each with the root of its chain and the values of its columns.
#![tactic(auto)]

mod page_rows;
mod roots;
mod row_cells;
mod row_cursor;
mod row_laws;
mod row_page;
mod row_values;
mod rows;
mod states;

pub use row_cells::{Cell, CellRef, Cells};
pub use row_cursor::{RowCursor, RowPlace};
pub use row_laws::rows_are_live_tuples;
pub use rows::{LiveRow, LiveRows};
