//! Files in memory that tell no clause what they hold, so that nothing is to be proved of what stands in them.
ghost use Rattle.std.specs.Prelude.{[], None, false};

use outside::{Failed, FileName, Files, NoMemory, Part};
use std::alloc::Global;

#[derive(Drop)]
struct Held {
    base: String,
    part: Part,
    bytes: Vec<u8>,
}

/// Files of which one length and one read can be planned to fail.
#[derive(Drop)]
pub struct QuietFiles {
    alloc: Global,
    held: Vec<Held>,
    lengths_left: u64,
    reads_left: u64,
    faults: u64,
    reads: u64,
}

// Takes one off a count, and says whether that was the last.
fn was_last(left: &mut u64) -> bool {
    let last = *left == 1;
    *left = (*left).saturating_sub(1);
    last
}

impl QuietFiles {
    pub fn new(alloc: Global) -> QuietFiles {
        QuietFiles {
            alloc,
            held: Vec::new(alloc),
            lengths_left: 0,
            reads_left: 0,
            faults: 0,
            reads: 0,
        }
    }

    pub fn add(&mut self, base: &str, part: Part, bytes: &[u8]) -> Result<(), NoMemory> {
        let base = String::from_str(self.alloc, base)?;
        let bytes = bytes.to_vec(self.alloc)?;
        self.held.push(Held { base, part, bytes })?;
        Ok(())
    }

    /// Has the n-th length from now on fail, where n isn't 0.
    pub fn fail_length(&mut self, n: u64) {
        self.lengths_left = n;
    }

    /// Has the n-th read from now on fail, where n isn't 0.
    pub fn fail_read(&mut self, n: u64) {
        self.reads_left = n;
    }

    /// How often bytes were asked for.
    pub fn reads(&self) -> u64 {
        self.reads
    }

    fn find(&self, name: FileName<'_>) -> Option<&[u8]> {
        for file in self.held.iter() {
            if file.base.as_str() == name.base && file.part == name.part {
                return Some(&file.bytes);
            }
        }
        None
    }

    // Copies bytes of a file, if it has so many.
    fn copy(&self, name: FileName<'_>, at: u64, out: &mut [u8]) -> bool {
        let Some(bytes) = self.find(name) else {
            return false;
        };
        let at = at as usize;
        if bytes.len() < out.len() || bytes.len() - out.len() < at {
            return false;
        }
        out.copy_from_slice(&bytes[at..at + out.len()]);
        true
    }
}

impl Files for QuietFiles {
    ghost seen = { λ f. record { held = None; faults = f.faults; refused = false; reads = f.reads; lenders = [] } };

    fn length(&mut self, name: FileName<'_>) -> Result<Option<u64>, Failed> {
        if was_last(&mut self.lengths_left) {
            self.faults = self.faults.saturating_add(1);
            return Err(Failed);
        }
        match self.find(name) {
            Some(bytes) => Ok(Some(bytes.len() as u64)),
            None => Ok(None),
        }
    }

    fn read_at(&mut self, name: FileName<'_>, at: u64, out: &mut [u8]) -> Result<(), Failed> {
        self.reads = self.reads.saturating_add(1);
        let fails = was_last(&mut self.reads_left);
        if fails || !self.copy(name, at, out) {
            self.faults = self.faults.saturating_add(1);
            return Err(Failed);
        }
        Ok(())
    }

    fn refused_memory(&self) -> bool {
        false
    }
}
