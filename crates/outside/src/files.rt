//! Files and a sink, by what they mean.
ghost use Rattle.std.specs.Prelude.{◌≡◌, ◌+◌, ◌<◌, ◌≤◌, ℕ, Bool, List, Option, length, take, drop, IfOk, IfSome, OnOk};
ghost use Rattle.std.specs.Prelude.{OnErr, IsSomeAnd};
ghost use Rattle.std.specs.Option.{option_map};
ghost use Rattle.outside.specs.Counting.{one_more};
ghost use Rattle.outside.specs.Outside.{AskedAtMost, HasCause, IfHeld, IsHeldAnd, Rose, Seen, Tells, appended, failed};

use std::alloc::{AllocError, AllocFailed};
use thiserror::Error;

/// Which file of a relation or of a log.
#[derive(Clone, Copy, Debug, PartialEq, Eq)]
pub enum Part {
    /// A segment of a relation, counted from 0. A relation is cut into segments of equal length
    /// (PostgreSQL's manual, "Database File Layout").
    Segment(u32),
    /// A segment of a log that is kept as a folder, as `pg_xact` and `pg_multixact/offsets`
    /// (`access/slru.c`). A segment has 32 pages of 8192 bytes.
    Slru(u32),
}

/// The name of a file: a path without its part, and the part. `path_of` gives the whole path.
#[derive(Clone, Copy)]
pub struct FileName<'a> {
    /// The path of a relation's segment 0, or that of a log's folder.
    pub base: &'a str,
    /// Which file of that relation or log.
    pub part: Part,
}

/// A call to the outside that failed.
#[derive(Clone, Copy, Debug, PartialEq, Eq, Error)]
#[error("a call to the outside failed")]
pub struct Failed;

/// Memory ran out.
#[derive(Clone, Copy, Debug, PartialEq, Eq, Error)]
#[error("out of memory")]
pub struct NoMemory;

impl From<AllocError> for NoMemory {
    fn from(_: AllocError) -> Self {
        NoMemory
    }
}

impl<T: Drop> From<AllocFailed<T>> for NoMemory {
    fn from(_: AllocFailed<T>) -> Self {
        NoMemory
    }
}

/// Files to read.
pub trait Files {
    /// What the object shows of itself. `held` are the bytes under each name, where it tells them: no
    /// call changes them. `faults` counts the calls that failed, and `reads` those of `read_at`,
    /// answered or failed; both stand still at the last value of a `u64`. `refused` says of the last
    /// failure whether it was a refused allocation of the object's own, and stays where a call
    /// succeeds.
    ghost seen: { Self → Seen };

    /// The length of a file in bytes, and None where there is no such file. `Failed` comes only
    /// where the count of faults rose.
    fn length(&mut self, name: FileName<'_>) -> Result<Option<u64>, Failed>
        ensures answer { Tells seen self.old result
            (λ len names. len ≡ option_map length (names name.entry.base.now name.entry.part)) }
        ensures asked { AskedAtMost 0 seen self.old self.new result failed }
        ensures passed { OnOk result ((seen self.new).refused ≡ (seen self.old).refused) };

    /// Fills `out` with the bytes of a file from byte `at` on, counted from 0. `Failed` comes only
    /// where the count of faults rose; `out` may then hold anything.
    fn read_at(&mut self, name: FileName<'_>, at: u64, out: &mut [u8]) -> Result<(), Failed>
        requires { IsHeldAnd seen self.old name.base.now name.part
            (λ bytes. at + length out.old ≤ length bytes) }
        ensures bytes { OnOk result (IfHeld seen self.old name.entry.base.now name.entry.part
            (λ bytes. out.new ≡ take (length out.old) (drop at bytes))) }
        ensures asked { AskedAtMost 1 seen self.old self.new result failed }
        ensures counted { (seen self.new).reads ≡ one_more (seen self.old).reads }
        ensures passed { OnOk result ((seen self.new).refused ≡ (seen self.old).refused) };

    /// Whether the last failure was a refused allocation of the object's own. It takes no memory.
    fn refused_memory(&self) -> bool
        ensures { result ≡ (seen self.now).refused };
}

/// A place to write to. It takes bytes in order, and each failed call is counted.
pub trait Sink {
    /// What was written, where the object tells it.
    ghost written: { Self → Option (List ℕ) };

    /// How often a call failed. It never falls, and stands still at the last value of a `u64`.
    ghost faults: { Self → ℕ };

    /// Writes the first bytes of a piece, and says how many. `Failed` comes only where the count of
    /// faults rose, and nothing was written then. A call that takes nothing of a piece that isn't
    /// empty counts as a fault too.
    fn put(&mut self, piece: &[u8]) -> Result<usize, Failed>
        ensures count { IfOk result (λ n. n ≤ length piece.now) }
        ensures taken { IfOk result
            (λ n. written self.new ≡ appended (written self.old) (take n piece.now)) }
        ensures kept { OnErr result (written self.new ≡ written self.old) }
        ensures cause { HasCause (faults self.old) (faults self.new) result }
        ensures stuck { IfOk result (λ n. n ≡ 0 → 0 < length piece.now
            → Rose (faults self.old) (faults self.new)) };
}
