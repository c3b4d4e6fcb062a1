//! A file of the real file system that is kept open.
ghost use Rattle.std.specs.Prelude.{◌≡◌, ◌≢◌, ℕ, ◌+◌, ◌-◌, ◌*◌, ◌/◌, ◌%◌, ◌<◌, ◌≤◌, ◌↔◌, [], All, IsTrue, OnErr, OnOk};
ghost use Rattle.std.specs.Prelude.{length, min, take, drop, vec_len};
ghost use Rattle.disk_files.specs.declared.opened.DiskFault.TheVariants as fault;
ghost use Rattle.disk_files.specs.declared.opened.TheConstants.{PAGE, SEGMENT_PAGES};

use outside::NoMemory;
use std::alloc::{AllocError, AllocFailed, Global};
use std::fs::{self, File};
use std::io::{self, ErrorKind};
use std::os::unix::fs::FileExt;
use thiserror::Error;

// The bytes of a page of a log, which is as long as a block of a relation.
const PAGE: u64 = 8192;

// The pages of a segment of a log, which is one file (SLRU_PAGES_PER_SEGMENT of access/slru.h).
const SEGMENT_PAGES: usize = 32;

/// Why a call on a real file failed.
#[derive(Clone, Copy, Debug, PartialEq, Eq, Error)]
pub(crate) enum DiskFault {
    /// The system refused it, or the file ended early.
    #[error("the system refused it")]
    Refused,
    /// An allocation of our own was refused.
    #[error("out of memory")]
    NoMemory,
}

impl From<io::Error> for DiskFault {
    ghost from_gives = { λ _ e. e ≡ fault.Refused };

    fn from(_: io::Error) -> Self {
        DiskFault::Refused
    }
}

impl From<NoMemory> for DiskFault {
    ghost from_gives = { λ _ e. e ≡ fault.NoMemory };

    fn from(_: NoMemory) -> Self {
        DiskFault::NoMemory
    }
}

impl From<AllocError> for DiskFault {
    ghost from_gives = { λ _ e. e ≡ fault.NoMemory };

    fn from(_: AllocError) -> Self {
        DiskFault::NoMemory
    }
}

impl<T: Drop> From<AllocFailed<T>> for DiskFault {
    ghost from_gives = { λ _ e. e ≡ fault.NoMemory };

    fn from(_: AllocFailed<T>) -> Self {
        DiskFault::NoMemory
    }
}

/// The pages of a file of a log that were read, each kept from then on and found by its number: 0
/// is the file's first page. At most the 32 pages of a segment are kept, of at most 8192 bytes each,
/// so at most 256 KiB.
#[derive(Drop)]
struct KeptPages {
    alloc: Global,
    // Each page stands at its number, without bytes while it isn't kept. The table is as long as the
    // greatest number needs.
    pages: Vec<Vec<u8>>,
    ghost few: { vec_len pages ≤ SEGMENT_PAGES },
    ghost short: { All (λ page. vec_len page ≤ PAGE) pages.items },
}

impl KeptPages {
    ghost use Rattle.disk_files.specs.Pages.{kept_page};

    // No page, which takes no memory.
    fn new(alloc: Global) -> KeptPages
        ensures { (number : ℕ) → kept_page result number ≡ [] }
    {
        KeptPages {
            alloc,
            pages: Vec::new(alloc),
        }
    }

    // Whether no page is kept.
    fn is_empty(&self) -> bool
        ensures { IsTrue result → (number : ℕ) → kept_page self.now number ≡ [] }
    {
        self.pages.is_empty()
    }

    // Keeps no page any longer.
    fn clear(&mut self)
        ensures { (number : ℕ) → kept_page self.new number ≡ [] }
    {
        self.pages.clear();
    }

    // The bytes of the page with this number, none where it isn't kept.
    fn page(&self, number: usize) -> &[u8]
        ensures { result.now ≡ kept_page self.now number }
    {
        match self.pages.get(number) {
            Some(page) => page.as_slice(),
            None => &[],
        }
    }

    // Whether the page with this number is one of those that may be kept, and isn't kept yet.
    fn lacks(&self, number: usize) -> bool
        ensures { IsTrue result ↔ (number < SEGMENT_PAGES) × (kept_page self.now number ≡ []) }
    {
        number < SEGMENT_PAGES && self.page(number).is_empty()
    }

    // Copies the bytes of the file from a place on, if one page that is kept has them all.
    fn copy(&self, at: u64, out: &mut [u8]) -> bool
        ensures found { IsTrue result
            ↔ (at % PAGE + length out.old ≤ length (kept_page self.now (at / PAGE))) }
        ensures bytes { IsTrue result
            → out.new ≡ take (length out.old) (drop (at % PAGE) (kept_page self.now (at / PAGE))) }
    {
        let page = self.page((at / PAGE) as usize);
        let from = (at % PAGE) as usize;
        if page.len() < from || page.len() - from < out.len() {
            return false;
        }
        out.copy_from_slice(&page[from..from + out.len()]);
        true
    }

    // Makes the table long enough for the page with this number. The same pages stay kept.
    fn make_place(&mut self, number: usize) -> Result<(), DiskFault>
        requires { number < SEGMENT_PAGES }
        ensures place { OnOk result (number < vec_len self.new.pages) }
        ensures same { (other : ℕ) → kept_page self.new other ≡ kept_page self.old other }
    {
        while self.pages.len() <= number {
            self.pages.push(Vec::new(self.alloc))?;
        }
        Ok(())
    }

    // Reads the page with this number by one call of the system, and keeps it. A file of this
    // length ends where its last page ends. After an error the same pages are kept as before.
    fn load(&mut self, file: &File, file_length: u64, number: usize) -> Result<(), DiskFault>
        requires { number < SEGMENT_PAGES }
        ensures read { OnOk result
            (length (kept_page self.new number) ≡ min PAGE (file_length - number * PAGE)) }
        ensures others { (other : ℕ) → other ≢ number
            → kept_page self.new other ≡ kept_page self.old other }
        ensures err { OnErr result (kept_page self.new number ≡ kept_page self.old number) }
    {
        let start = number as u64 * PAGE;
        let count = file_length.saturating_sub(start).min(PAGE) as usize;
        let mut page = vec![in self.alloc; 0; count]?;
        file.read_exact_at(&mut page, start)?;
        self.make_place(number)?;
        self.pages[number] = page;
        Ok(())
    }
}

/// A regular file that is open for reading. Its length is asked for once, and a page of a log's
/// segment is read once, since files don't change in a run.
#[derive(Drop)]
pub(crate) struct OpenedFile {
    file: File,
    // In bytes, as it was when the file was opened.
    length: u64,
    kept: KeptPages,
}

/// The length in bytes of a regular file, symbolic links followed, or None where the system says that
/// there is no such file. It is asked before the file is opened, since to open a pipe waits for its
/// writer.
pub(crate) fn length_of(rt: &HostRuntime, path: &str) -> Result<Option<u64>, DiskFault> {
    match fs::metadata(rt, path) {
        Ok(named) if named.is_file() => Ok(Some(named.len())),
        Ok(_) => Err(DiskFault::Refused),
        Err(e) if e.kind() == ErrorKind::NotFound => Ok(None),
        Err(e) => Err(e.into()),
    }
}

impl OpenedFile {
    ghost use Rattle.disk_files.specs.Pages.{kept_page};

    /// Opens a regular file, symbolic links followed, of which it was asked before whether it is one.
    pub fn open(rt: &HostRuntime, alloc: Global, path: &str) -> Result<OpenedFile, DiskFault> {
        let file = fs::open(rt, path)?;
        let opened = file.metadata()?;
        if !opened.is_file() {
            return Err(DiskFault::Refused);
        }
        Ok(OpenedFile {
            file,
            length: opened.len(),
            kept: KeptPages::new(alloc),
        })
    }

    /// Whether no page is kept.
    pub fn keeps_none(&self) -> bool
        ensures { IsTrue result → (number : ℕ) → kept_page self.now.kept number ≡ [] }
    {
        self.kept.is_empty()
    }

    /// Keeps no page any longer.
    pub fn forget_pages(&mut self)
        ensures none { (number : ℕ) → kept_page self.new.kept number ≡ [] }
        ensures length { self.new.length ≡ self.old.length }
    {
        self.kept.clear();
    }

    /// Fills `out` with the bytes from a place on, by one call of the system.
    pub fn read(&self, at: u64, out: &mut [u8]) -> Result<(), DiskFault> {
        self.file.read_exact_at(out, at)?;
        Ok(())
    }

    /// The same from the file's pages of 8192 bytes: for files of a log, which are asked byte by
    /// byte and at random. A page is read when it is first asked for, and is kept while the file is
    /// open, if it is one of the 32 of a segment.
    pub fn read_by_page(&mut self, at: u64, out: &mut [u8]) -> Result<(), DiskFault>
        ensures length { self.new.length ≡ self.old.length }
        ensures kept { OnOk result (at < self.old.length → at / PAGE < SEGMENT_PAGES
            → kept_page self.new.kept (at / PAGE) ≢ []) }
        ensures stay { (number : ℕ) → kept_page self.old.kept number ≢ []
            → kept_page self.new.kept number ≡ kept_page self.old.kept number }
        ensures bytes { OnOk result
            (at % PAGE + length out.old ≤ length (kept_page self.new.kept (at / PAGE))
            → out.new
            ≡ take (length out.old) (drop (at % PAGE) (kept_page self.new.kept (at / PAGE)))) }
    {
        let number = (at / PAGE) as usize;
        if at < self.length && self.kept.lacks(number) {
            self.kept.load(&self.file, self.length, number)?;
        }
        if self.kept.copy(at, out) {
            return Ok(());
        }
        // The bytes lie on two pages, past the end, or past the pages that are kept.
        self.read(at, out)
    }
}
