//! Files in memory of which contracts know nothing.
ghost use Rattle.std.specs.Prelude.{None, false, []};

use outside::{Failed, FileName, Files, NoMemory, Part};
use std::alloc::Global;

// A file with its name.
#[derive(Drop)]
struct HeldFile {
    base: &'static str,
    part: Part,
    bytes: Vec<u8>,
}

/// Files that don't tell what they hold, so that a call whose premise is what they hold may be made over any bytes.
/// Reads are counted, and fail from a number of them on.
#[derive(Drop)]
pub struct UntoldFiles {
    held: Vec<HeldFile>,
    pub reads: u64,
    pub faults: u64,
    pub fails_from: u64,
}

impl UntoldFiles {
    /// No file, and no read that fails.
    pub fn new(alloc: Global) -> UntoldFiles {
        UntoldFiles {
            held: Vec::new(alloc),
            reads: 0,
            faults: 0,
            fails_from: u64::MAX,
        }
    }

    /// Adds a file.
    pub fn add(&mut self, base: &'static str, part: Part, bytes: Vec<u8>) -> Result<(), NoMemory> {
        self.held.push(HeldFile { base, part, bytes })?;
        Ok(())
    }

    /// Has the n-th later read fail, counted from 1, and all after it.
    pub fn fail_from(&mut self, n: u64) {
        self.fails_from = self.reads.saturating_add(n);
    }

    // The bytes under a name, if there are some.
    fn bytes(&self, name: FileName<'_>) -> Option<&[u8]> {
        for file in &self.held {
            if file.part == name.part && file.base == name.base {
                return Some(&file.bytes);
            }
        }
        None
    }

    // Copies bytes of a file from a place on, if they are there, unless the read is one that fails.
    fn copy(&self, name: FileName<'_>, at: u64, out: &mut [u8]) -> Result<(), Failed> {
        let bytes = self.bytes(name).ok_or(Failed)?;
        let from = (at as usize).min(bytes.len());
        let rest = bytes.split_at(from).1;
        if self.reads >= self.fails_from || rest.len() < out.len() {
            return Err(Failed);
        }
        out.copy_from_slice(rest.split_at(out.len()).0);
        Ok(())
    }
}

impl Files for UntoldFiles {
    ghost seen = { λ s. record { held = None; faults = s.faults; refused = false; reads = s.reads; lenders = [] } };

    fn length(&mut self, name: FileName<'_>) -> Result<Option<u64>, Failed> {
        Ok(self.bytes(name).map(|bytes| bytes.len() as u64))
    }

    fn read_at(&mut self, name: FileName<'_>, at: u64, out: &mut [u8]) -> Result<(), Failed> {
        self.reads = self.reads.saturating_add(1);
        let copied = self.copy(name, at, out);
        if copied.is_err() {
            self.faults = self.faults.saturating_add(1);
        }
        copied
    }

    fn refused_memory(&self) -> bool {
        false
    }
}
