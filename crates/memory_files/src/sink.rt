//! A sink in memory, which fails where it is told to.
ghost use Rattle.std.specs.Prelude.{◌≡◌, ◌+◌, ◌-◌, ◌^◌, ◌≤◌, ◌<◌, ◌∷◌, ◌++◌, ◌↔◌, ◌⊎◌, [], Some, Contains, IfOk, IsErr};
ghost use Rattle.std.specs.Prelude.{OnErr, OnOk, length, min, take, vec_len, vec_capacity};
ghost use Rattle.outside.specs.Outside.{HasCause, Rose, appended};
ghost use Rattle.outside.specs.Counting.{one_more};

use crate::planned::PlannedFailures;
use outside::{Failed, NoMemory, Sink};
use std::alloc::Global;

// How many bytes a sink reserves.
const RESERVE: usize = 1_048_576;

/// A sink in memory. It takes at most a grain of bytes at once, and 1048576 bytes in all.
#[derive(Drop)]
pub struct MemSink {
    bytes: Vec<u8>,
    grain: usize,
    failing_puts: PlannedFailures,
    faults: u64,
    ghost takes_some: { 1 ≤ grain },
    ghost reserved: { 1048576 ≤ vec_capacity bytes },
    ghost within: { vec_len bytes ≤ 1048576 },
}

impl MemSink {
    ghost use Rattle.memory_files.specs.Sunk.{after_fail_put, nothing_taken, sink_state};

    /// Has taken nothing, takes at most `grain` bytes at once, which is at least 1, has no failure
    /// planned, and has not failed.
    pub fn new(alloc: Global, grain: usize) -> Result<MemSink, NoMemory>
        requires { 1 ≤ grain }
        ensures { IfOk result (λ s. sink_state s ≡ nothing_taken grain) }
    {
        Ok(MemSink {
            bytes: Vec::with_capacity(alloc, RESERVE)?,
            grain,
            failing_puts: PlannedFailures::new(alloc),
            faults: 0,
        })
    }

    /// Has the n-th later put fail, counted from 1: 1 is the next one. After `NoMemory` nothing
    /// changed.
    pub fn fail_put(&mut self, n: u64) -> Result<(), NoMemory>
        ensures ok { OnOk result (sink_state self.new ≡ after_fail_put (sink_state self.old) n) }
        ensures err { OnErr result (sink_state self.new ≡ sink_state self.old) }
    {
        self.failing_puts.plan(n)
    }

    /// What was written.
    pub fn bytes(&self) -> &[u8]
        ensures { result.now ≡ (sink_state self.now).written }
    {
        &self.bytes
    }

    // Counts a failure.
    fn fail(&mut self) -> Failed
        ensures counted { sink_state self.new
            ≡ record (sink_state self.old) { faults = one_more (sink_state self.old).faults } }
        ensures later { (sink_state self.old).faults ≤ (sink_state self.new).faults }
        ensures rose { Rose (sink_state self.old).faults (sink_state self.new).faults }
    {
        self.faults = self.faults.saturating_add(1);
        Failed
    }
}

impl Sink for MemSink {
    ghost use Rattle.std.specs.Prelude.{Some};
    ghost use Rattle.memory_files.specs.Sunk.{after_put, sink_state};

    ghost written = { λ s. Some (sink_state s).written };

    ghost faults = { λ s. (sink_state s).faults };

    /// Takes the least of the grain, the piece and the room that is left of 1048576 bytes. It fails
    /// exactly where that was planned, or where there is no room for a piece that isn't empty. It
    /// takes no memory.
    fn put(&mut self, piece: &[u8]) -> Result<usize, Failed>
        ensures count { IfOk result (λ n. n ≤ length piece.now) }
        ensures taken { IfOk result (λ n. Some (sink_state self.new).written
            ≡ appended (Some (sink_state self.old).written) (take n piece.now)) }
        ensures kept { OnErr result
            (Some (sink_state self.new).written ≡ Some (sink_state self.old).written) }
        ensures cause { HasCause (sink_state self.old).faults (sink_state self.new).faults result }
        ensures stuck { IfOk result (λ n. n ≡ 0 → 0 < length piece.now
            → Rose (sink_state self.old).faults (sink_state self.new).faults) }
        ensures least { IfOk result (λ n. n ≡ min (min (sink_state self.old).grain (length piece.now))
            (1048576 - length (sink_state self.old).written)) }
        ensures fails { IsErr result ↔ (Contains (sink_state self.old).failing_puts 1
            ⊎ ((0 < length piece.now) × (1048576 ≤ length (sink_state self.old).written))) }
        ensures rest { sink_state self.new ≡ after_put (sink_state self.old) result (sink_state self.new).written }
    {
        let fails = self.failing_puts.next_fails();
        let room = RESERVE - self.bytes.len();
        if fails || (room == 0 && !piece.is_empty()) {
            return Err(self.fail());
        }
        let n = piece.len().min(self.grain).min(room);
        let (front, _) = piece.split_at(n);
        self.bytes.extend_from_slice(front).unwrap();
        Ok(n)
    }
}
