//! Why a value can't be read.
ghost use Rattle.std.specs.Prelude.{◌≡◌};
ghost use Rattle.toast_chunks.specs.declared.fault.ToastFault.TheVariants as fault;

use outside::NoMemory;
use thiserror::Error;

/// Why the value of a pointer can't be read.
#[derive(Clone, Copy, Debug, PartialEq, Eq, Error)]
pub enum ToastFault {
    /// A file couldn't be read: the count of the files' faults rose.
    #[error("a file couldn't be read")]
    ReadFault,
    /// Memory ran out.
    #[error("out of memory")]
    NoMemory,
}

impl From<rel_files::ReadFault> for ToastFault {
    ghost from_gives = { λ _ e. e ≡ fault.ReadFault };

    fn from(_: rel_files::ReadFault) -> Self {
        ToastFault::ReadFault
    }
}

impl From<NoMemory> for ToastFault {
    ghost from_gives = { λ _ e. e ≡ fault.NoMemory };

    fn from(_: NoMemory) -> Self {
        ToastFault::NoMemory
    }
}
