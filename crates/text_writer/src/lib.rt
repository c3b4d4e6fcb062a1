//! A text that grows by short fields, and numbers and bytes as its fields: in decimal with a sign, and in lower-case
//! hexadecimal.
#![tactic(auto)]

mod hexadecimal;
mod writer;

pub use hexadecimal::push_hexadecimal;
pub use writer::TextWriter;
