//! What the words of a command line ask for: a command with its names and numbers, and the bounds of a scan; and what
//! the program says of itself.
#![tactic(auto)]

mod bounds;
mod notice;
mod numbers;
mod words;

pub use bounds::{ReadBound, ScanWords, Side, read_bound};
pub use notice::{HELP, Notice, VERSION};
pub use words::{Command, Shown, command_of};
