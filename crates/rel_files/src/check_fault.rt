//! Why a file of the case can't be judged, or its pages can't be read.
ghost use Rattle.std.specs.Prelude.{◌≡◌};
ghost use Rattle.rel_files.specs.declared.check_fault.CheckFault.TheVariants as fault;
ghost use Rattle.rel_files.specs.declared.check_fault.PageFault.TheVariants as page;
ghost use Rattle.rel_files.specs.CheckFaults.{check_fault_of};

use crate::fault::ReadFault;
use outside::{Failed, NoMemory};
use std::alloc::AllocError;
use thiserror::Error;

/// The file that is meant.
#[derive(Clone, Copy, Debug, PartialEq, Eq)]
pub enum Which {
    Heap,
    Toast,
    /// An index, counted from 1 in the order of the case.
    Index(u16),
}

/// Why the files of a table or of an index can't be judged.
#[derive(Clone, Copy, Debug, PartialEq, Eq, Error)]
pub enum CheckFault {
    /// The file's first segment isn't there.
    #[error("a file isn't there")]
    NoFile(Which),
    /// The file has more blocks than are judged: `blocks` is the count at the first segment where
    /// it passes `limit`.
    #[error("a file has {blocks} blocks, and the limit is {limit}")]
    TooLarge {
        which: Which,
        blocks: u32,
        limit: u32,
    },
    /// A file couldn't be read: the count of the files' faults rose.
    #[error("a file couldn't be read")]
    ReadFault,
    /// Memory ran out.
    #[error("out of memory")]
    NoMemory,
}

impl From<Failed> for CheckFault {
    ghost from_gives = { λ _ e. e ≡ fault.ReadFault };

    fn from(_: Failed) -> Self {
        CheckFault::ReadFault
    }
}

impl From<NoMemory> for CheckFault {
    ghost from_gives = { λ _ e. e ≡ fault.NoMemory };

    fn from(_: NoMemory) -> Self {
        CheckFault::NoMemory
    }
}

/// Why the pages of a file, or its rows, can't be read to their end.
#[derive(Clone, Copy, Debug, PartialEq, Eq, Error)]
pub enum PageFault {
    /// A file couldn't be read: the count of the files' faults rose.
    #[error("a file couldn't be read")]
    ReadFault,
    /// Memory ran out.
    #[error("out of memory")]
    NoMemory,
}

impl From<Failed> for PageFault {
    ghost from_gives = { λ _ e. e ≡ page.ReadFault };

    fn from(_: Failed) -> Self {
        PageFault::ReadFault
    }
}

impl From<ReadFault> for PageFault {
    ghost from_gives = { λ _ e. e ≡ page.ReadFault };

    fn from(_: ReadFault) -> Self {
        PageFault::ReadFault
    }
}

impl From<AllocError> for PageFault {
    ghost from_gives = { λ _ e. e ≡ page.NoMemory };

    fn from(_: AllocError) -> Self {
        PageFault::NoMemory
    }
}

impl From<NoMemory> for PageFault {
    ghost from_gives = { λ _ e. e ≡ page.NoMemory };

    fn from(_: NoMemory) -> Self {
        PageFault::NoMemory
    }
}

impl From<PageFault> for CheckFault {
    ghost from_gives = { λ fault e. e ≡ check_fault_of fault };

    fn from(fault: PageFault) -> Self {
        match fault {
            PageFault::ReadFault => CheckFault::ReadFault,
            PageFault::NoMemory => CheckFault::NoMemory,
        }
    }
}
