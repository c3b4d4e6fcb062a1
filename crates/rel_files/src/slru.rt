//! The files of pg_xact and pg_multixact, by their bytes.
ghost use Rattle.std.specs.Prelude.{◌≡◌, ◌+◌, ◌<◌, ◌≤◌, IfOk, length, take};
ghost use Rattle.outside.specs.Outside.{AskedAtMost, Tells};
ghost use Rattle.rel_files.specs.Bytes.{HoldsBytes, slru_byte};
ghost use Rattle.rel_files.specs.Faults.{read_fault};

use crate::fault::ReadFault;
use outside::{FileName, Files, NoMemory, Part};
use std::alloc::Global;

/// A folder of numbered segment files of 32 pages each, such as pg_xact. It keeps the folder's
/// name.
#[derive(Drop)]
pub struct Slru {
    dir: String,
}

impl Slru {
    ghost use Rattle.rel_files.specs.Slru.{dir_of};

    /// The files in a folder. It takes memory for the folder's name, and asks no file.
    pub fn new(alloc: Global, dir: &str) -> Result<Slru, NoMemory>
        ensures { IfOk result (λ slru. dir_of slru ≡ dir.now) }
    {
        let dir = String::from_str(alloc, dir)?;
        Ok(Slru { dir })
    }

    /// The byte at a place of a page, for which it asks one segment; pages and places count from 0,
    /// and a place is below 8192. `None` comes exactly where the page's segment isn't held or ends
    /// before that byte, and `ReadFault` only where the files couldn't be read.
    pub fn byte<F: Files>(
        &self,
        files: &mut F,
        page: u32,
        offset: u16,
    ) -> Result<Option<u8>, ReadFault>
        requires { offset < 8192 }
        ensures byte { Tells F.seen files.old result (λ byte names.
            byte ≡ slru_byte names (dir_of self.now) page offset) }
        ensures asked { AskedAtMost 1 F.seen files.old files.new result read_fault }
    {
        let mut byte = [0u8; 1];
        if self.bytes(files, page, offset, &mut byte)? == 0 {
            return Ok(None);
        }
        Ok(Some(byte[0]))
    }

    /// The name of the folder.
    pub fn dir(&self) -> &str
        ensures { result.now ≡ dir_of self.now }
    {
        self.dir.as_str()
    }

    /// Reads the bytes from a place of a page on into `out`, at most up to the page's end, for which
    /// it asks one segment, and gives how many of them are held: those are the first ones, and after
    /// them `out` is unspecified. `ReadFault` comes only where the files couldn't be read.
    pub fn bytes<F: Files>(
        &self,
        files: &mut F,
        page: u32,
        offset: u16,
        out: &mut [u8],
    ) -> Result<usize, ReadFault>
        requires { offset + length out.old ≤ 8192 }
        ensures count { IfOk result (λ held. held ≤ length out.new) }
        ensures bytes { Tells F.seen files.old result (λ held names.
            HoldsBytes names (dir_of self.now) page offset (length out.new) (take held out.new)) }
        ensures asked { AskedAtMost 1 F.seen files.old files.new result read_fault }
    {
        let name = FileName {
            base: self.dir.as_str(),
            part: Part::Slru(page / 32),
        };
        let at = (page % 32) as u64 * 8192 + offset as u64;
        match files.length(name)? {
            Some(length) if at < length => {
                let held = (length - at).min(out.len() as u64) as usize;
                files.read_at(name, at, &mut out[..held])?;
                Ok(held)
            }
            _ => Ok(0),
        }
    }
}
