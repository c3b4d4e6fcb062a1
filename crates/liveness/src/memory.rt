//! A bounded memory of the transactions that were looked up.
ghost use Rattle.std.specs.Prelude.{IfOk};
ghost use Rattle.outside.specs.Outside.{Names};
ghost use Rattle.liveness.specs.Memory.{RemembersTrue};

use crate::states::Status3;
use multi_members::Answers;
use outside::NoMemory;
use std::alloc::Global;
use xact_status::StatesRead;

#[derive(Drop)]
pub struct Kept {
    pub(crate) states: StatesRead,
    pub(crate) answers: Answers,
}

/// What was read of pg_xact, and what was found of multixacts, in the logs of one cluster: the last of
/// each, in at most some 90 KiB. `Remembering` asks it.
#[derive(Drop)]
pub struct Memory {
    pub(crate) kept: Option<Kept>,
}

impl Memory {
    /// Remembers nothing, ever, and takes no memory.
    pub fn none() -> Memory
        ensures { (names : Names) → RemembersTrue names result }
    {
        Memory { kept: None }
    }

    /// Nothing yet, of these logs.
    pub fn new(alloc: Global, logs: &Status3<'_>) -> Result<Memory, NoMemory>
        ensures { (names : Names) → IfOk result (RemembersTrue names) }
    {
        let states = StatesRead::new(alloc, logs.xact)?;
        let answers = Answers::new(alloc, logs.offsets, logs.members, &logs.cluster)?;
        let kept = Some(Kept { states, answers });
        Ok(Memory { kept })
    }
}
