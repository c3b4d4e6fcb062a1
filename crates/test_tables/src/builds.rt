//! Whole builds against numbers from outside.
use memory_files::SureFiles;
use outside::{Failed, FileName, Files, Part};
use rel_build::{BuildFault, build_case};
use std::alloc::Global;
use std::process::Abort;
use std::test::Fail;

// Reads bytes of a file's first segment, and says whether it has so many.
fn read(files: &mut SureFiles, base: &str, at: u64, out: &mut [u8]) -> Result<bool, Failed> {
    let name = FileName {
        base,
        part: Part::Segment(0),
    };
    let Some(length) = files.length(name)? else {
        return Ok(false);
    };
    if length < at || length - at < out.len() as u64 {
        return Ok(false);
    }
    files.read_at(name, at, out)?;
    Ok(true)
}

// How many blocks a file's first segment has, if it is held and has nothing else.
fn blocks_of(files: &mut SureFiles, base: &str) -> Option<u64> {
    let name = FileName {
        base,
        part: Part::Segment(0),
    };
    let length = files.length(name).ok()??;
    if length % 8192 == 0 {
        Some(length / 8192)
    } else {
        None
    }
}

// Whether a file is held.
fn is_held(files: &mut SureFiles, base: &str) -> bool {
    let name = FileName {
        base,
        part: Part::Segment(0),
    };
    matches!(files.length(name), Ok(Some(_)))
}

// Whether the table has so many blocks and each of its indexes so many, and no visibility map.
fn have_blocks(files: &mut SureFiles, heap: u32, index: u32) -> bool {
    blocks_of(files, "t") == Some(u64::from(heap))
        && blocks_of(files, "i1") == Some(u64::from(index))
        && blocks_of(files, "i2") == Some(u64::from(index))
        && !is_held(files, "t_vm")
}

// Builds a table of so many rows, and compares the blocks of the table and of its indexes.
fn expect_blocks(rt: &impl Abort, alloc: Global, row: (u32, u32, u32)) -> Result<(), Fail> {
    let (rows, heap, index) = row;
    let built = build_case(alloc, 7, rows)?;
    assert!(rt;
        built.heap_blocks == heap && built.index_blocks == index,
        "{rows} rows"
    );
    let mut files = built.files;
    assert!(rt; have_blocks(&mut files, heap, index), "{rows} rows");
    Ok(())
}

// The number of rows, and blocks of the table and of its indexes.
const BLOCKS: [(u32, u32, u32); 6] = [
    (0, 0, 1),
    (1, 1, 2),
    (300, 2, 2),
    (301, 2, 4),
    (1000, 6, 6),
    (20000, 109, 69),
];

#[test]
fn sizes(rt: HostRuntime) -> Result<(), Fail> {
    for row in BLOCKS {
        expect_blocks(&rt, rt.alloc(), row)?;
    }
    let refused = matches!(build_case(rt.alloc(), 7, 20001), Err(BuildFault::TooMany));
    assert!(rt; refused);
    Ok(())
}

// Whether a file has these bytes at a place.
fn holds(files: &mut SureFiles, base: &str, at: u64, want: &[u8]) -> bool {
    let mut found = [0u8; 24];
    let is_read = read(files, base, at, &mut found).unwrap_or(false);
    is_read && found.as_slice() == want
}

// A file, a place of it, and the bytes there. The rows 0 and 1 of seed 7 are of the groups 78 and 31. Of 1000 rows the
// index on them has the rows 304 and 453, of one group, 30, on both sides of the bound between its first leaves.
const BYTES: [(&str, u64, &[u8]); 4] = [
    (
        "t",
        8152,
        b"\x03\0\0\0\0\0\0\0\0\0\0\0\0\0\0\0\x01\0\x02\0\0\x08\x18\0",
    ),
    (
        "t",
        8176,
        b"\0\0\0\0\0\0\0\0\x4e\0\0\0\0\0\0\0\0\0\0\0\0\0\0\0",
    ),
    (
        "t",
        8136,
        b"\x01\0\0\0\0\0\0\0\x1f\0\0\0\0\0\0\0\x03\0\0\0\0\0\0\0",
    ),
    (
        "i2",
        16344,
        b"\0\0\0\0\x01\x10\x18\x20\x1e\0\0\0\0\0\0\0\0\0\0\0\x01\0\x78\0",
    ),
];

#[test]
fn built_bytes(rt: HostRuntime) -> Result<(), Fail> {
    let built = build_case(rt.alloc(), 7, 1000)?;
    let mut files = built.files;
    for (base, at, want) in BYTES {
        assert!(rt; holds(&mut files, base, at, want), "{base} at {at}");
    }
    Ok(())
}
