//! The files of the logs, byte by byte.
use crate::quiet_files::QuietFiles;
use outside::{NoMemory, Part};
use std::alloc::Global;

// So many times one byte, but for some bytes by their places. Those past the end are left out.
fn filled(alloc: Global, fill: u8, len: usize, bytes: &[(usize, u8)]) -> Result<Vec<u8>, NoMemory> {
    let mut file = vec![in alloc; fill; len]?;
    for (at, byte) in bytes {
        if *at < file.len() {
            file[*at] = *byte;
        }
    }
    Ok(file)
}

/// A segment of a folder: one byte over and over, but for some bytes by their places.
#[derive(Clone, Copy)]
pub struct Segment<'a> {
    pub folder: &'a str,
    pub number: u32,
    pub fill: u8,
    pub len: usize,
    pub bytes: &'a [(usize, u8)],
}

/// A whole segment of the numbers of first members.
pub fn offsets(number: u32, bytes: &[(usize, u8)]) -> Segment<'_> {
    Segment {
        folder: "offsets",
        number,
        fill: 0,
        len: 262144,
        bytes,
    }
}

/// A whole segment of members.
pub fn members(number: u32, bytes: &[(usize, u8)]) -> Segment<'_> {
    Segment {
        folder: "members",
        number,
        fill: 0,
        len: 262144,
        bytes,
    }
}

/// Files with these segments.
pub fn files_of(alloc: Global, segments: &[Segment<'_>]) -> Result<QuietFiles, NoMemory> {
    let mut files = QuietFiles::new(alloc);
    for segment in segments {
        let bytes = filled(alloc, segment.fill, segment.len, segment.bytes)?;
        files.add(segment.folder, Part::Slru(segment.number), &bytes)?;
    }
    Ok(files)
}
