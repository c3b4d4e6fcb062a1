//! Bytes that are laid number by number, and the file that holds them.
use memory_files::MemFiles;
use outside::{NoMemory, Part};
use std::alloc::Global;

/// The one name of a file.
pub const FILE: &str = "file";

// Puts the bytes of a number, the lowest first, as far as they reach.
fn put_word(bytes: &mut [u8], at: u16, word: u32) {
    for (k, byte) in word.to_le_bytes().iter().enumerate() {
        let place = at as usize + k;
        if place < bytes.len() {
            bytes[place] = *byte;
        }
    }
}

/// Puts numbers of four bytes one behind the other.
pub fn put(bytes: &mut [u8], at: u16, words: &[u32]) {
    let mut place = at;
    for word in words {
        put_word(bytes, place, *word);
        place = place.saturating_add(4);
    }
}

/// Puts numbers of four bytes at places of their own.
pub fn put_each(bytes: &mut [u8], words: &[(u16, u32)]) {
    for (at, word) in words {
        put_word(bytes, *at, *word);
    }
}

/// Files with this one.
pub fn held(alloc: Global, bytes: &[u8]) -> Result<MemFiles, NoMemory> {
    let mut files = MemFiles::new(alloc);
    files.add(FILE, Part::Segment(0), bytes)?;
    Ok(files)
}
