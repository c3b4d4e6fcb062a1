//! Which file a relation has, and where it lies: the maps of a cluster and the paths of its folders.
//!
//! Sources: the server's `utils/cache/relmapper.c` and `common/relpath.c`; the manual, "Database File Layout".
#![tactic(auto)]

mod entry;
mod fault;
mod map;
mod paths;
mod reading;

pub use entry::{FileMap, MapEntry};
pub use fault::MapFault;
pub use map::{maps_are_told_exactly, read_map};
pub use paths::{Database, SpaceVersion, folder_in, path_below, relation_path, space_of};
pub use reading::map_of_files;
