//! Why a run gives up.
ghost use Rattle.std.specs.Prelude.{◌≡◌};
ghost use Rattle.cmd_answers.specs.Faults.{run_fault_of};
ghost use Rattle.cmd_answers.specs.declared.fault.RunFault.TheVariants as fault;

use outside::{Failed, NoMemory};
use rel_files::PageFault;
use thiserror::Error;

/// Why a run ends without an outcome.
#[derive(Clone, Copy, Debug, PartialEq, Eq, Error)]
pub enum RunFault {
    /// A file could not be read.
    #[error("a file could not be read")]
    ReadFault,
    /// Memory ran out.
    #[error("out of memory")]
    NoMemory,
}

impl From<Failed> for RunFault {
    ghost from_gives = { λ _ e. e ≡ fault.ReadFault };

    fn from(_: Failed) -> Self {
        RunFault::ReadFault
    }
}

impl From<NoMemory> for RunFault {
    ghost from_gives = { λ _ e. e ≡ fault.NoMemory };

    fn from(_: NoMemory) -> Self {
        RunFault::NoMemory
    }
}

impl From<PageFault> for RunFault {
    ghost from_gives = { λ fault e. e ≡ run_fault_of fault };

    fn from(fault: PageFault) -> Self {
        match fault {
            PageFault::ReadFault => RunFault::ReadFault,
            PageFault::NoMemory => RunFault::NoMemory,
        }
    }
}
