//! The real file system. What it holds is not told.
ghost use Rattle.std.specs.Prelude.{◌≡◌, ◌<◌, ◌≤◌, ◌^◌, ◌↔◌, [], None, false, IfOk, IfSome, IsTrue, OnErr, vec_len};
ghost use Rattle.disk_files.specs.Edge.{disk_seen};
ghost use Rattle.outside.specs.Outside.{AskedAtMost, Rose, failed};

use crate::names::NameNumbers;
use crate::opened::{DiskFault, OpenedFile, length_of};
use crate::paths::path_of;
use outside::{Failed, FileName, Files, Part};
use std::alloc::Global;
use std::collections::VecDeque;

// How many segments of relations stay open, how many files of logs, and of how many of these the pages
// are kept.
const MOST_SEGMENTS: usize = 256;

const MOST_LOGS: usize = 512;

const MOST_KEPT: usize = 128;

// A file that was asked for.
#[derive(Drop)]
struct Known {
    // In bytes, None where there is no such file.
    length: Option<u64>,
    // The file, once it was read.
    file: Option<OpenedFile>,
}

/// Files of the real file system, of which nothing is told. Only regular files are files, symbolic
/// links followed: another thing under a name, as a folder or a pipe, is a failure, and so is a
/// refusal of the system for another cause than that there is no such file.
///
/// A file's length is asked once. It is opened when it is first read, and stays open: 256 segments of
/// relations and 512 files of logs, which are counted apart; past these the one that was opened first
/// is closed. Of 128 files of logs the pages that were read are kept, at most 256 KiB of each, and so
/// 32 MiB in all. It keeps its allocator for paths, names and pages.
#[derive(Drop)]
pub struct DiskFiles {
    rt: HostRuntime,
    alloc: Global,
    names: NameNumbers,
    // Each file that was asked for, at the number of its name.
    known: Vec<Known>,
    segments: VecDeque<usize>,
    logs: VecDeque<usize>,
    kept: VecDeque<usize>,
    faults: u64,
    refused: bool,
    reads: u64,
}

// Adds a number at the end. The first is taken out where there are too many.
fn push_within(
    numbers: &mut VecDeque<usize>,
    most: usize,
    number: usize,
) -> Result<Option<usize>, DiskFault> {
    let first = if numbers.len() < most {
        None
    } else {
        numbers.pop_front()
    };
    numbers.push_back(number)?;
    Ok(first)
}

impl DiskFiles {
    /// No file is open, and no call has failed.
    pub fn new(rt: HostRuntime, alloc: Global) -> DiskFiles
        ensures { disk_seen result ≡ record { held = None; faults = 0; refused = false; reads = 0; lenders = [] } }
    {
        DiskFiles {
            rt,
            alloc,
            names: NameNumbers::new(alloc),
            known: Vec::new(alloc),
            segments: VecDeque::new(alloc),
            logs: VecDeque::new(alloc),
            kept: VecDeque::new(alloc),
            faults: 0,
            refused: false,
            reads: 0,
        }
    }

    // Counts a failure, and keeps whether it was a refused allocation.
    fn fail(&mut self, fault: DiskFault) -> Failed
        ensures rose { Rose (disk_seen self.old).faults (disk_seen self.new).faults }
        ensures later { (disk_seen self.old).faults ≤ (disk_seen self.new).faults }
        ensures refused { IsTrue (disk_seen self.new).refused ↔ (fault ≡ DiskFault.NoMemory) }
        ensures reads { (disk_seen self.new).reads ≡ (disk_seen self.old).reads }
    {
        self.faults = self.faults.saturating_add(1);
        self.refused = fault == DiskFault::NoMemory;
        Failed
    }

    // The number of a name's file, of which the length is known from then on.
    fn ask(&mut self, name: FileName<'_>) -> Result<usize, DiskFault>
        ensures place { IfOk result (λ at. at < vec_len self.new.known) }
        ensures seen { disk_seen self.new ≡ disk_seen self.old }
    {
        if let Some(at) = self.names.find(name) {
            if at < self.known.len() {
                return Ok(at);
            }
        }
        let path = path_of(self.alloc, name)?;
        let length = length_of(&self.rt, path.as_str())?;
        let at = self.known.len();
        self.names.add(self.alloc, name, at)?;
        self.known.push(Known { length, file: None })?;
        Ok(at)
    }

    // Closes a file, and forgets its pages.
    fn close(&mut self, at: usize)
        ensures seen { disk_seen self.new ≡ disk_seen self.old }
        ensures known { vec_len self.new.known ≡ vec_len self.old.known }
    {
        if at < self.known.len() {
            self.known[at].file = None;
        }
    }

    // Opens a file, if it isn't open.
    fn open(&mut self, at: usize, name: FileName<'_>) -> Result<(), DiskFault>
        requires { at < vec_len self.old.known }
        ensures known { vec_len self.new.known ≡ vec_len self.old.known }
        ensures seen { disk_seen self.new ≡ disk_seen self.old }
    {
        if self.known[at].file.is_some() {
            return Ok(());
        }
        let path = path_of(self.alloc, name)?;
        let file = OpenedFile::open(&self.rt, self.alloc, path.as_str())?;
        let first = match name.part {
            Part::Segment(_) => push_within(&mut self.segments, MOST_SEGMENTS, at)?,
            Part::Slru(_) => push_within(&mut self.logs, MOST_LOGS, at)?,
        };
        if let Some(first) = first {
            self.close(first);
        }
        self.known[at].file = Some(file);
        Ok(())
    }

    // Reads bytes of a file of a log by its pages.
    fn read_log(&mut self, at: usize, from: u64, out: &mut [u8]) -> Result<(), DiskFault>
        requires { at < vec_len self.old.known }
        ensures { disk_seen self.new ≡ disk_seen self.old }
    {
        let Some(file) = &mut self.known[at].file else {
            return Err(DiskFault::Refused);
        };
        let keeps_none = file.keeps_none();
        file.read_by_page(from, out)?;
        if keeps_none {
            let first = push_within(&mut self.kept, MOST_KEPT, at)?;
            self.forget_pages(first);
        }
        Ok(())
    }

    // Forgets the pages of a file, if there is one.
    fn forget_pages(&mut self, at: Option<usize>)
        ensures { disk_seen self.new ≡ disk_seen self.old }
    {
        if let Some(at) = at {
            if at < self.known.len() {
                if let Some(file) = &mut self.known[at].file {
                    file.forget_pages();
                }
            }
        }
    }

    // Reads bytes of a file.
    fn read(&mut self, name: FileName<'_>, from: u64, out: &mut [u8]) -> Result<(), DiskFault>
        ensures { disk_seen self.new ≡ disk_seen self.old }
    {
        let at = self.ask(name)?;
        self.open(at, name)?;
        match name.part {
            Part::Segment(_) => match &self.known[at].file {
                Some(file) => file.read(from, out),
                None => Err(DiskFault::Refused),
            },
            Part::Slru(_) => self.read_log(at, from, out),
        }
    }
}

impl Files for DiskFiles {
    ghost seen = { disk_seen };

    fn length(&mut self, name: FileName<'_>) -> Result<Option<u64>, Failed> {
        match self.ask(name) {
            Ok(at) => Ok(self.known[at].length),
            Err(fault) => Err(self.fail(fault)),
        }
    }

    fn read_at(&mut self, name: FileName<'_>, at: u64, out: &mut [u8]) -> Result<(), Failed> {
        self.reads = self.reads.saturating_add(1);
        match self.read(name, at, out) {
            Ok(()) => Ok(()),
            Err(fault) => Err(self.fail(fault)),
        }
    }

    fn refused_memory(&self) -> bool {
        self.refused
    }
}
