//! Why a control file is refused.
use crate::state::ClusterState;
use thiserror::Error;

/// Why a cluster's control file is refused. Of several causes the first in this order is told.
#[derive(Clone, Copy, Debug, PartialEq, Eq, Error)]
pub enum ControlFault {
    /// There is no such file.
    #[error("the control file isn't there")]
    NotThere,
    /// It has fewer than 8192 bytes.
    #[error("the control file is short")]
    Short,
    /// The CRC at byte 288 isn't that of the 288 bytes before it.
    #[error("the control file's CRC is wrong")]
    WrongCrc,
    /// Its version is neither 1300, of servers 13 to 16, nor 1700, of 17.
    #[error("the control file's version {0} isn't known")]
    UnknownVersion(u32),
    /// The server that wrote it was built with another alignment, kind of floats, size of blocks or length of names.
    #[error("the control file is of another build")]
    OtherBuild,
    /// The server wasn't stopped, or not as one that is no standby.
    #[error("the cluster is {}", .0.words())]
    NotShutDown(ClusterState),
}
