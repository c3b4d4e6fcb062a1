//! The rows of a sound heap as PostgreSQL's `COPY` writes them in its text format, and such texts read back.
#![tactic(auto)]

mod escapes;
mod fields;
mod forms;
mod lanes;
mod laws;
mod lines;
mod live;
mod read_fields;
mod read_lines;
mod read_texts;

pub use laws::{refusals_are_right, texts_tell_rows};
pub use lines::row_line;
pub use live::{CopyText, copy_rows};
pub use read_texts::{CopyRows, LineFault, read_copy};
