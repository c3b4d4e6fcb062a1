//! Why no files can be built.
ghost use Rattle.std.specs.Prelude.{◌≡◌};
ghost use Rattle.rel_build.specs.declared.fault.BuildFault.TheVariants as fault;

use outside::NoMemory;
use thiserror::Error;

/// Why no files can be built.
#[derive(Clone, Copy, Debug, PartialEq, Eq, Error)]
pub enum BuildFault {
    /// More rows were asked for than 20000.
    #[error("there may be at most 20000 rows")]
    TooMany,
    /// Memory ran out.
    #[error("out of memory")]
    NoMemory,
}

impl From<NoMemory> for BuildFault {
    ghost from_gives = { λ _ e. e ≡ fault.NoMemory };

    fn from(_: NoMemory) -> Self {
        BuildFault::NoMemory
    }
}
