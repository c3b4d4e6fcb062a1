//! The calls of an object in memory that are to fail.
ghost use Rattle.std.specs.Prelude.{◌≡◌, ◌∷◌, ◌++◌, ◌↔◌, [], Contains, IsTrue, OnErr, OnOk};
ghost use Rattle.memory_files.specs.Calls.{after_call};

use outside::NoMemory;
use std::alloc::Global;
use std::marker::Model;

/// Which of the later calls of a method are to fail, by their numbers: 1 is the next call. A number
/// 0 is no call.
#[derive(Drop)]
pub(crate) struct PlannedFailures {
    numbers: Vec<u64>,
}

impl Model for PlannedFailures {
    ghost use Rattle.std.specs.Prelude.{List, ℕ};

    ghost Value = { List ℕ };

    ghost view = { λ p. p.numbers.items };
}

impl PlannedFailures {
    /// No call is to fail.
    pub fn new(alloc: Global) -> PlannedFailures
        ensures { result ≡ [] }
    {
        PlannedFailures {
            numbers: Vec::new(alloc),
        }
    }

    /// Has the n-th later call fail.
    pub fn plan(&mut self, n: u64) -> Result<(), NoMemory>
        ensures ok { OnOk result (self.new ≡ self.old ++ n ∷ []) }
        ensures err { OnErr result (self.new ≡ self.old) }
    {
        self.numbers.push(n)?;
        Ok(())
    }

    /// Counts a call, and says whether it is to fail. The numbers are then those of the calls after
    /// it.
    pub fn next_fails(&mut self) -> bool
        ensures answer { IsTrue result ↔ Contains self.old 1 }
        ensures later { self.new ≡ after_call self.old }
    {
        let fails = self.numbers.contains(&1);
        for n in self.numbers.iter_mut() {
            *n = n.saturating_sub(1);
        }
        fails
    }
}
