//! A bounded memory of what was found of multixacts.
ghost use Rattle.std.specs.Prelude.{◌≡◌, ◌↔◌};

use crate::state::MultiState;
use crate::updater;
use outside::{Files, NoMemory};
use rel_files::{Cluster, ReadFault, Slru};
use std::alloc::Global;

// How many answers are kept.
const PLACES: usize = 256;

// A multixact, and what was found of it.
#[derive(Clone, Copy)]
pub struct Answer {
    multi: u32,
    state: MultiState,
}

/// What was found of multixacts in the files of two folders, by a cluster's numbers: at most one answer
/// at each of 256 places, where a later one takes the place of an earlier one.
#[derive(Drop)]
pub struct Answers {
    offsets: Slru,
    members: Slru,
    cluster: Cluster,
    places: Vec<Option<Answer>>,
}

impl Answers {
    ghost use Rattle.std.specs.Prelude.{ℕ, List, IfOk, IfSome, IsTrue};
    ghost use Rattle.outside.specs.Outside.{AskedAtMost, IfTold, Names, Tells};
    ghost use Rattle.rel_files.specs.Faults.{read_fault};
    ghost use Rattle.rel_files.specs.Ranges.{is_multi_in_range};
    ghost use Rattle.rel_files.specs.Slru.{dir_of};
    ghost use Rattle.multi_members.specs.Updater.{updater_of};
    ghost use Rattle.multi_members.specs.Answers.{AreFor, AreTrue};

    /// None yet, for these folders and numbers. All its memory is taken here: some 5 KiB and the folders'
    /// names.
    pub fn new(
        alloc: Global,
        offsets: &Slru,
        members: &Slru,
        cluster: &Cluster,
    ) -> Result<Answers, NoMemory>
        ensures folders { IfOk result (AreFor (dir_of offsets.now) (dir_of members.now) cluster.now) }
        ensures says_true { (names : Names) → IfOk result (AreTrue names) }
    {
        Ok(Answers {
            offsets: Slru::new(alloc, offsets.dir())?,
            members: Slru::new(alloc, members.dir())?,
            cluster: *cluster,
            places: vec![in alloc; None; PLACES]?,
        })
    }

    /// Whether they are for these folders and numbers.
    pub fn are_for(&self, offsets: &Slru, members: &Slru, cluster: &Cluster) -> bool
        ensures { IsTrue result ↔ AreFor (dir_of offsets.now) (dir_of members.now) cluster.now self.now }
    {
        self.offsets.dir() == offsets.dir()
            && self.members.dir() == members.dir()
            && self.cluster == *cluster
    }

    // What was found of a multixact, if it is kept.
    fn find(&self, multi: u32) -> Option<MultiState>
        ensures { (names : Names) → AreTrue names self.now → IfSome result (λ state.
            state ≡ updater_of names (dir_of self.now.offsets) (dir_of self.now.members) self.now.cluster multi) }
    {
        match self.places.get(multi as usize % PLACES) {
            Some(Some(answer)) if answer.multi == multi => Some(answer.state),
            _ => None,
        }
    }

    // Keeps what was found of a multixact.
    fn keep(&mut self, multi: u32, state: MultiState)
        ensures { (names : Names) → AreTrue names self.old
            → state ≡ updater_of names (dir_of self.old.offsets) (dir_of self.old.members) self.old.cluster multi
            → AreTrue names self.new }
    {
        let place = multi as usize % PLACES;
        if place < self.places.len() {
            self.places[place] = Some(Answer { multi, state });
        }
    }

    /// What `updater` gives of their folders and numbers, from memory where it is there; else it is looked
    /// up and kept. Nothing is kept after a fault.
    pub fn updater<F: Files>(&mut self, files: &mut F, multi: u32) -> Result<MultiState, ReadFault>
        requires in_range { IsTrue (is_multi_in_range self.old.cluster multi) }
        requires says_true { IfTold F.seen files.old (λ names. AreTrue names self.old) }
        ensures told { Tells F.seen files.old result (λ state names. state
            ≡ updater_of names (dir_of self.old.offsets) (dir_of self.old.members) self.old.cluster multi) }
        ensures says_true { IfTold F.seen files.old (λ names. AreTrue names self.new) }
        ensures asked { AskedAtMost 327688 F.seen files.old files.new result read_fault }
    {
        if let Some(state) = self.find(multi) {
            return Ok(state);
        }
        let state = updater(files, &self.offsets, &self.members, &self.cluster, multi)?;
        self.keep(multi, state);
        Ok(state)
    }
}
