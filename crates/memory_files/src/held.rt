//! Bytes that are held in memory, each under a file's name.
ghost use Rattle.std.specs.Prelude.{◌↔◌, ◌≡◌, ◌+◌, ◌≤◌, None, not, filter, find, position, length, take, drop};
ghost use Rattle.std.specs.Prelude.{string_bytes, IfSome, IsSome, IsSomeAnd, IsTrue, OnErr, OnOk};
ghost use Rattle.std.specs.Bool.{OnFalse};
ghost use Rattle.std.specs.Option.{option_copied, option_map};
ghost use Rattle.memory_files.specs.Held.{is_named, look_up};

use outside::{FileName, NoMemory, Part};
use std::alloc::Global;

// A file that is held, under its name.
#[derive(Drop)]
struct Entry {
    base: String,
    part: Part,
    bytes: Vec<u8>,
}

/// Files that are held in memory. They keep their allocator.
#[derive(Drop)]
pub(crate) struct HeldFiles {
    alloc: Global,
    entries: Vec<Entry>,
}

impl Entry {
    // Whether the file has this name.
    fn has_name(&self, base: &str, part: Part) -> bool
        ensures { result ≡ is_named base.now part self.now }
    {
        self.base.as_str() == base && self.part == part
    }
}

// Where the first entry of this name stands.
fn place_of(entries: &[Entry], base: &str, part: Part) -> Option<usize>
    ensures { result ≡ position (is_named base.now part) entries.now }
{
    entries.iter().position(|entry| entry.has_name(base, part))
}

// The first entry of this name.
fn first_named<'e>(entries: &'e [Entry], base: &str, part: Part) -> Option<&'e Entry>
    ensures { option_copied result ≡ find (is_named base.now part) entries.now }
{
    entries.iter().find(|entry| entry.has_name(base, part))
}

impl HeldFiles {
    ghost use Rattle.memory_files.specs.Held.{held_names, no_names, with_file, with_front, without_file};

    /// No files.
    pub fn new(alloc: Global) -> HeldFiles
        ensures { held_names result ≡ no_names }
    {
        HeldFiles {
            alloc,
            entries: Vec::new(alloc),
        }
    }

    /// Holds the bytes under a name, in place of earlier ones. After `NoMemory` nothing changed.
    pub fn add(&mut self, base: &str, part: Part, bytes: &[u8]) -> Result<(), NoMemory>
        ensures ok { OnOk result
            (held_names self.new ≡ with_file (held_names self.old) base.now part bytes.now) }
        ensures err { OnErr result (held_names self.new ≡ held_names self.old) }
    {
        let bytes = Vec::from_slice(self.alloc, bytes)?;
        match place_of(&self.entries, base, part) {
            Some(at) => self.entries[at].bytes = bytes,
            None => {
                let base = String::from_str(self.alloc, base)?;
                self.entries.push(Entry { base, part, bytes })?;
            }
        }
        Ok(())
    }

    /// Leaves a file just its first `len` bytes, if it is held with at least so many.
    pub fn cut(&mut self, base: &str, part: Part, len: u64) -> bool
        ensures answer { IsTrue result
            ↔ IsSomeAnd (held_names self.old base.now part) (λ bytes. len ≤ length bytes) }
        ensures cut { IsTrue result
            → held_names self.new ≡ with_front (held_names self.old) base.now part len }
        ensures same { OnFalse result (held_names self.new ≡ held_names self.old) }
    {
        match place_of(&self.entries, base, part) {
            Some(at) if len <= self.entries[at].bytes.len() as u64 => {
                self.entries[at].bytes.truncate(len as usize);
                true
            }
            _ => false,
        }
    }

    /// No longer holds a file, if it was held.
    pub fn forget(&mut self, base: &str, part: Part) -> bool
        ensures answer { IsTrue result ↔ IsSome (held_names self.old base.now part) }
        ensures forgotten { IsTrue result
            → held_names self.new ≡ without_file (held_names self.old) base.now part }
        ensures same { OnFalse result (held_names self.new ≡ held_names self.old) }
    {
        let is_held = self.length(FileName { base, part }).is_some();
        if is_held {
            remove_named(&mut self.entries, base, part);
        }
        is_held
    }

    /// The length of a file, and None where it isn't held.
    pub fn length(&self, name: FileName<'_>) -> Option<u64>
        ensures { result ≡ option_map length (held_names self.now name.entry.base.now name.entry.part) }
    {
        first_named(&self.entries, name.base, name.part).map(|entry| entry.bytes.len() as u64)
    }

    /// Copies bytes of a file from a place on.
    pub fn copy(&self, name: FileName<'_>, at: u64, out: &mut [u8])
        requires { IsSomeAnd (held_names self.now name.base.now name.part)
            (λ bytes. at + length out.old ≤ length bytes) }
        ensures { IfSome (held_names self.now name.entry.base.now name.entry.part)
            (λ bytes. out.new ≡ take (length out.old) (drop at bytes)) }
    {
        copy_part(&self.entries, name.base, name.part, at, out);
    }
}

// Removes the entries of a name.
fn remove_named(entries: &mut Vec<Entry>, base: &str, part: Part)
    ensures { entries.new.items ≡ filter (λ entry. not (is_named base.now part entry)) entries.old.items }
{
    entries.retain(|entry| !entry.has_name(base, part));
}

// Copies the bytes of a name from a place on.
fn copy_part(entries: &[Entry], base: &str, part: Part, at: u64, out: &mut [u8])
    requires { IsSomeAnd (look_up entries.now base.now part)
        (λ bytes. at + length out.old ≤ length bytes) }
    ensures { IfSome (look_up entries.now base.now part)
        (λ bytes. out.new ≡ take (length out.old) (drop at bytes)) }
{
    let entry = first_named(entries, base, part).unwrap();
    let bytes = entry.bytes.as_slice();
    let at = at as usize;
    out.copy_from_slice(&bytes[at..at + out.len()]);
}
