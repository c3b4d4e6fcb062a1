//! Why no index can be built.
ghost use Rattle.std.specs.Prelude.{◌≡◌};
ghost use Rattle.bt_build.specs.declared.fault.IndexFault.TheVariants as fault;

use key_orders::Tid;
use outside::NoMemory;

/// Why no index can be built.
#[derive(Clone, Copy, Debug, PartialEq, Eq)]
pub enum IndexFault {
    /// An entry would have more than 2704 bytes as an item of its own.
    KeyTooLarge {
        /// The lowest TID of such an entry.
        tid: Tid,
    },
    /// There would be more than 65536 blocks.
    TooManyBlocks {
        /// How many there would be.
        blocks: u64,
    },
    /// Memory ran out.
    NoMemory,
}

impl From<NoMemory> for IndexFault {
    ghost from_gives = { λ _ e. e ≡ fault.NoMemory };

    fn from(_: NoMemory) -> Self {
        IndexFault::NoMemory
    }
}
