//! What a data directory says of its cluster before any table is read: the control file with its CRC, and PG_VERSION.
//!
//! Sources: the server's `catalog/pg_control.h`, `common/controldata_utils.c` and `port/pg_crc32c.h`.
#![tactic(auto)]

mod control;
mod crc;
mod fault;
mod reading;
mod state;
mod version;

pub use control::{CONTROL_BYTES, ControlFile, control_is_told_exactly, read_control, u64_at};
pub use crc::{crc_is_the_division, crc32c, has_crc_behind};
pub use fault::ControlFault;
pub use reading::{control_of_files, version_of_files};
pub use state::ClusterState;
pub use version::{MajorVersion, VersionFault, read_version, versions_are_told_exactly};
