//! Values that stand in a TOAST table: the chunks that a table holds, whether those of a value are
//! whole, and the value that they make.
//!
//! Sources: the section "TOAST" of the PostgreSQL manual, and the server's headers `varatt.h`,
//! `access/heaptoast.h` (the size of a chunk) and `access/toast_internals.h`.
#![tactic(auto)]

mod detoast;
mod fault;
mod laws;
mod map;
mod pointer;
mod reader;
mod rows;
mod stored;
mod value_chunks;

pub use detoast::{ChunkReader, ToastState, push_value, value};
pub use fault::ToastFault;
pub use laws::tests_are_sentences;
pub use map::{Chunk, ToastMap};
pub use pointer::{is_compressed, pointer_rule, stored_size};
pub use rows::{ChunkRow, TOAST_COLUMNS, chunk_row};
