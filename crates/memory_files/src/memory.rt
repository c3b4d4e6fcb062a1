//! Files in memory, which fail where they are told to.
ghost use Rattle.std.specs.Prelude.{◌↔◌, ◌≡◌, ◌+◌, ◌≤◌, Contains, IsErr, IsSome, IsSomeAnd, IsTrue, OnErr, OnOk};
ghost use Rattle.std.specs.Prelude.{length, take, drop};
ghost use Rattle.std.specs.Bool.{OnFalse};
ghost use Rattle.std.specs.Option.{option_map};
ghost use Rattle.outside.specs.Outside.{AskedAtMost, IfHeld, IsHeldAnd, Rose, Tells, failed};
ghost use Rattle.outside.specs.Counting.{one_more};
ghost use Rattle.memory_files.specs.Memory.{after_add, after_cut, after_fail_length, after_fail_read, after_forget};
ghost use Rattle.memory_files.specs.Memory.{after_length, after_read, files_state, mem_seen, no_files};

use crate::held::HeldFiles;
use crate::planned::PlannedFailures;
use outside::{Failed, FileName, Files, NoMemory, Part};
use std::alloc::Global;

/// Files in memory. They keep their allocator, and fail only where a failure was planned. They
/// never refuse an allocation of their own, since `length` and `read_at` take no memory.
#[derive(Drop)]
pub struct MemFiles {
    held: HeldFiles,
    failing_lengths: PlannedFailures,
    failing_reads: PlannedFailures,
    faults: u64,
    reads: u64,
}

impl MemFiles {
    /// Holds nothing, has no failure planned, and has not failed.
    pub fn new(alloc: Global) -> MemFiles
        ensures { files_state result ≡ no_files }
    {
        MemFiles {
            held: HeldFiles::new(alloc),
            failing_lengths: PlannedFailures::new(alloc),
            failing_reads: PlannedFailures::new(alloc),
            faults: 0,
            reads: 0,
        }
    }

    /// Holds the bytes under a name, in place of earlier ones. All else stays, and after `NoMemory`
    /// everything.
    pub fn add(&mut self, base: &str, part: Part, bytes: &[u8]) -> Result<(), NoMemory>
        ensures ok { OnOk result
            (files_state self.new ≡ after_add (files_state self.old) base.now part bytes.now) }
        ensures err { OnErr result (files_state self.new ≡ files_state self.old) }
    {
        self.held.add(base, part, bytes)
    }

    /// Leaves a file just its first `len` bytes. It says whether the file is held with at least so many
    /// bytes; where it isn't, nothing changed. It takes no memory.
    pub fn cut(&mut self, base: &str, part: Part, len: u64) -> bool
        ensures answer { IsTrue result
            ↔ IsSomeAnd ((files_state self.old).held base.now part) (λ bytes. len ≤ length bytes) }
        ensures cut { IsTrue result
            → files_state self.new ≡ after_cut (files_state self.old) base.now part len }
        ensures same { OnFalse result (files_state self.new ≡ files_state self.old) }
    {
        self.held.cut(base, part, len)
    }

    /// No longer holds a file. It says whether the file was held; where it wasn't, nothing changed. It
    /// takes no memory.
    pub fn forget(&mut self, base: &str, part: Part) -> bool
        ensures answer { IsTrue result ↔ IsSome ((files_state self.old).held base.now part) }
        ensures forgotten { IsTrue result
            → files_state self.new ≡ after_forget (files_state self.old) base.now part }
        ensures same { OnFalse result (files_state self.new ≡ files_state self.old) }
    {
        self.held.forget(base, part)
    }

    /// Has the n-th later call of `length` fail, counted from 1: 1 is the next one. After
    /// `NoMemory` nothing changed.
    pub fn fail_length(&mut self, n: u64) -> Result<(), NoMemory>
        ensures ok { OnOk result (files_state self.new ≡ after_fail_length (files_state self.old) n) }
        ensures err { OnErr result (files_state self.new ≡ files_state self.old) }
    {
        self.failing_lengths.plan(n)
    }

    /// Has the n-th later call of `read_at` fail, counted from 1: 1 is the next one. After
    /// `NoMemory` nothing changed.
    pub fn fail_read(&mut self, n: u64) -> Result<(), NoMemory>
        ensures ok { OnOk result (files_state self.new ≡ after_fail_read (files_state self.old) n) }
        ensures err { OnErr result (files_state self.new ≡ files_state self.old) }
    {
        self.failing_reads.plan(n)
    }

    /// How often `read_at` was called.
    pub fn reads(&self) -> u64
        ensures { result ≡ (files_state self.now).reads }
    {
        self.reads
    }

    // Counts a failure.
    fn fail(&mut self) -> Failed
        ensures counted { files_state self.new
            ≡ record (files_state self.old) { faults = one_more (files_state self.old).faults } }
        ensures later { (files_state self.old).faults ≤ (files_state self.new).faults }
        ensures rose { Rose (files_state self.old).faults (files_state self.new).faults }
    {
        self.faults = self.faults.saturating_add(1);
        Failed
    }
}

impl Files for MemFiles {
    ghost seen = { mem_seen };

    /// The length of a held file. It fails exactly where that was planned, and takes no memory.
    fn length(&mut self, name: FileName<'_>) -> Result<Option<u64>, Failed>
        ensures answer { Tells mem_seen self.old result
            (λ len names. len ≡ option_map length (names name.entry.base.now name.entry.part)) }
        ensures asked { AskedAtMost 0 mem_seen self.old self.new result failed }
        ensures passed { OnOk result ((mem_seen self.new).refused ≡ (mem_seen self.old).refused) }
        ensures planned { IsErr result ↔ Contains (files_state self.old).failing_lengths 1 }
        ensures rest { files_state self.new ≡ after_length (files_state self.old) result }
    {
        if self.failing_lengths.next_fails() {
            return Err(self.fail());
        }
        Ok(self.held.length(name))
    }

    /// Copies bytes of a held file. It fails exactly where that was planned, and takes no memory.
    fn read_at(&mut self, name: FileName<'_>, at: u64, out: &mut [u8]) -> Result<(), Failed>
        requires { IsHeldAnd mem_seen self.old name.base.now name.part
            (λ bytes. at + length out.old ≤ length bytes) }
        ensures bytes { OnOk result (IfHeld mem_seen self.old name.entry.base.now name.entry.part
            (λ bytes. out.new ≡ take (length out.old) (drop at bytes))) }
        ensures asked { AskedAtMost 1 mem_seen self.old self.new result failed }
        ensures counted { (mem_seen self.new).reads ≡ one_more (mem_seen self.old).reads }
        ensures passed { OnOk result ((mem_seen self.new).refused ≡ (mem_seen self.old).refused) }
        ensures planned { IsErr result ↔ Contains (files_state self.old).failing_reads 1 }
        ensures rest { files_state self.new ≡ after_read (files_state self.old) result }
    {
        self.reads = self.reads.saturating_add(1);
        if self.failing_reads.next_fails() {
            return Err(self.fail());
        }
        self.held.copy(name, at, out);
        Ok(())
    }

    fn refused_memory(&self) -> bool {
        false
    }
}
