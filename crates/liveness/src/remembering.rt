//! Files with a memory of the transactions that were looked up in them.
ghost use Rattle.std.specs.Prelude.{◌≡◌};
ghost use Rattle.outside.specs.Outside.{IfTold, seen_through};
ghost use Rattle.liveness.specs.Memory.{RemembersTrue, RemembersTrueOf, RemembersTrueOf-prop};

use crate::memory::Memory;
use crate::states::Status3;
use crate::transactions::Transactions;
use multi_members::{MultiState, updater};
use outside::{Failed, FileName, Files};
use rel_files::ReadFault;
use xact_status::{XidState, status};

/// Another's files, and what was found in them of the last transactions that were looked up.
#[derive(Drop)]
pub struct Remembering<'f, F: Files> {
    files: &'f mut F,
    memory: &'f mut Memory,
    ghost kept: { RemembersTrueOf (F.seen files.now).held memory.now } by { RemembersTrueOf-prop _ memory.now },
}

impl<'f, F: Files> Remembering<'f, F> {
    /// Over these files, with a memory that is true of them.
    pub fn new(files: &'f mut F, memory: &'f mut Memory) -> Remembering<'f, F>
        requires { IfTold F.seen files.old (λ names. RemembersTrue names memory.old) }
        ensures same_reference { result.files.ghost_name ≡ files.entry.ghost_name }
        ensures files { result.files.now ≡ files.old }
    {
        Remembering { files, memory }
    }
}

impl<F: Files> Files for Remembering<'_, F> {
    ghost seen = { λ r. seen_through (F.seen r.files.now) r.files.ghost_name };

    fn length(&mut self, name: FileName<'_>) -> Result<Option<u64>, Failed> {
        self.files.length(name)
    }

    fn read_at(&mut self, name: FileName<'_>, at: u64, out: &mut [u8]) -> Result<(), Failed> {
        self.files.read_at(name, at, out)
    }

    fn refused_memory(&self) -> bool {
        self.files.refused_memory()
    }
}

// From memory where it is there, and else looked up and kept; logs of other folders than those of the
// memory are looked up anew each time. Both stay calls: most tuples have hint bits and ask for neither, and
// written into the loop over a page's tuples they take a fifth of the loop's own time.
impl<F: Files> Transactions for Remembering<'_, F> {
    #[inline(never)]
    fn status(&mut self, logs: &Status3<'_>, xid: u32) -> Result<XidState, ReadFault> {
        if let Some(kept) = &mut self.memory.kept {
            if kept.states.are_of(logs.xact) {
                return kept.states.status(self.files, xid);
            }
        }
        status(self.files, logs.xact, xid)
    }

    #[inline(never)]
    fn updater(&mut self, logs: &Status3<'_>, multi: u32) -> Result<MultiState, ReadFault> {
        if let Some(kept) = &mut self.memory.kept {
            if kept
                .answers
                .are_for(logs.offsets, logs.members, &logs.cluster)
            {
                return kept.answers.updater(self.files, multi);
            }
        }
        updater(self.files, logs.offsets, logs.members, &logs.cluster, multi)
    }
}
