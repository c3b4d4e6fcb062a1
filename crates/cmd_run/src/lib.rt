//! Judges the files of a cleanly stopped PostgreSQL cluster, without a server: `run` does what a command line
//! asks for. The program `amcheck_cmd` is `run` over the real file system and standard output.
#![tactic(auto)]

mod all;
mod copy;
mod generated;
mod heap;
mod index;
mod laws;
mod reindex;
mod runs;
mod scan;
mod table;
mod together;

pub use cmd_answers::Status;
pub use laws::remade_indexes_are_called_clean;
pub use runs::run;
