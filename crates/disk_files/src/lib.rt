//! The files of the file system, and standard output.
#![tactic(auto)]

mod disk;
mod names;
mod opened;
mod out;
mod paths;

pub use disk::DiskFiles;
pub use out::OutSink;
pub use paths::path_of;
