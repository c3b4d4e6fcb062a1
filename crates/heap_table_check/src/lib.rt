//! Judges the heap of a table, with its visibility map and its TOAST table.
#![tactic(auto)]

mod check;
mod files;
mod known;
mod laws;
mod logs;
mod map;
mod relations;

pub use check::{check_heap, heap_rules, toast_table};
pub use files::{HeapFiles, SoundHeap};
pub use laws::heaps_are_judged;
pub use logs::CaseLogs;
