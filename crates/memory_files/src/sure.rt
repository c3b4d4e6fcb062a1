//! Files in memory that never fail.
ghost use Rattle.std.specs.Prelude.{◌≡◌, ◌+◌, ◌≤◌, IsOk, OnErr, OnOk, length, take, drop};
ghost use Rattle.std.specs.Option.{option_map};
ghost use Rattle.outside.specs.Counting.{one_more};
ghost use Rattle.memory_files.specs.Held.{no_names, with_file};
ghost use Rattle.memory_files.specs.Memory.{sure_seen, sure_state};
ghost use Rattle.outside.specs.Outside.{AskedAtMost, IfHeld, IsHeldAnd, Tells, failed};

use crate::held::HeldFiles;
use outside::{Failed, FileName, Files, NoMemory, Part};
use std::alloc::Global;

/// Files in memory that never fail: their count of faults is 0 for good, so that a call over them can't
/// answer that it couldn't read. They keep their allocator.
#[derive(Drop)]
pub struct SureFiles {
    held: HeldFiles,
    reads: u64,
}

impl SureFiles {
    /// Holds nothing, and was not read.
    pub fn new(alloc: Global) -> SureFiles
        ensures { sure_state result ≡ record { held = no_names; reads = 0 } }
    {
        SureFiles {
            held: HeldFiles::new(alloc),
            reads: 0,
        }
    }

    /// Holds the bytes under a name, in place of earlier ones. All else stays, and after `NoMemory`
    /// everything.
    pub fn add(&mut self, base: &str, part: Part, bytes: &[u8]) -> Result<(), NoMemory>
        ensures ok { OnOk result (sure_state self.new ≡ record (sure_state self.old) {
          held = with_file (sure_state self.old).held base.now part bytes.now;
        }) }
        ensures err { OnErr result (sure_state self.new ≡ sure_state self.old) }
    {
        self.held.add(base, part, bytes)
    }
}

impl Files for SureFiles {
    ghost seen = { sure_seen };

    /// The length of a held file. It never fails, and takes no memory.
    fn length(&mut self, name: FileName<'_>) -> Result<Option<u64>, Failed>
        ensures answer { Tells sure_seen self.old result
            (λ len names. len ≡ option_map length (names name.entry.base.now name.entry.part)) }
        ensures asked { AskedAtMost 0 sure_seen self.old self.new result failed }
        ensures passed { OnOk result ((sure_seen self.new).refused ≡ (sure_seen self.old).refused) }
        ensures sure { IsOk result }
        ensures rest { sure_state self.new ≡ sure_state self.old }
    {
        Ok(self.held.length(name))
    }

    /// Copies bytes of a held file. It never fails, and takes no memory.
    fn read_at(&mut self, name: FileName<'_>, at: u64, out: &mut [u8]) -> Result<(), Failed>
        requires { IsHeldAnd sure_seen self.old name.base.now name.part
            (λ bytes. at + length out.old ≤ length bytes) }
        ensures bytes { OnOk result (IfHeld sure_seen self.old name.entry.base.now name.entry.part
            (λ bytes. out.new ≡ take (length out.old) (drop at bytes))) }
        ensures asked { AskedAtMost 1 sure_seen self.old self.new result failed }
        ensures counted { (sure_seen self.new).reads ≡ one_more (sure_seen self.old).reads }
        ensures passed { OnOk result ((sure_seen self.new).refused ≡ (sure_seen self.old).refused) }
        ensures sure { IsOk result }
        ensures rest { (sure_state self.new).held ≡ (sure_state self.old).held }
    {
        self.reads = self.reads.saturating_add(1);
        self.held.copy(name, at, out);
        Ok(())
    }

    fn refused_memory(&self) -> bool {
        false
    }
}
