//! Why a map is refused.
use thiserror::Error;

/// Why a file pg_filenode.map is refused. Of several causes the first in this order is told.
#[derive(Clone, Copy, Debug, PartialEq, Eq, Error)]
pub enum MapFault {
    /// There is no such file.
    #[error("the map isn't there")]
    NotThere,
    /// It has neither 512 bytes, as up to version 15, nor 524, as from 16 on.
    #[error("the map has another length than 512 or 524")]
    WrongLength,
    /// It doesn't begin with 0x00592717.
    #[error("the map's magic number is wrong")]
    WrongMagic,
    /// It says to have more entries than there are places: 62, or 64.
    #[error("the map's count {0} is wrong")]
    WrongCount(u32),
    /// The CRC behind its places isn't that of the bytes before it.
    #[error("the map's CRC is wrong")]
    WrongCrc,
    /// An oid is named twice.
    #[error("the map names {0} twice")]
    NamedTwice(u32),
}
