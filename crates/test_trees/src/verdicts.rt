//! Small indexes in memory, each with what a report says of it.
use crate::trees::{EMPTY, THREE, bytes_of, files_with, judged};
use key_orders::Octets;
use std::alloc::Global;
use std::test::Fail;
use test_fixtures::{UntoldFiles, indexed_case, put};

const CLEAN: &str = "findings 0 unjudged 0\nverdict clean\n";

// The file of an index, with these bytes written at a place of a block.
fn file_with(
    alloc: Global,
    index: &str,
    (block, at): (u8, u16),
    piece: &[u8],
) -> Result<Vec<u8>, Fail> {
    let mut bytes = bytes_of(alloc, index)?;
    let start = 8192 * block as usize;
    if start <= bytes.len() {
        put(&mut bytes[start..], at, piece);
    }
    Ok(bytes)
}

// Whether the index of some files is answered as sound, and the text of the report on it.
fn judge(alloc: Global, files: &mut UntoldFiles) -> Result<(bool, Octets), Fail> {
    let case = indexed_case(alloc, "int4").ok_or("refused")?;
    let (sound, report) = judged(alloc, files, &case)?;
    Ok((sound.is_some(), report.text(alloc)?))
}

// Whether this is the text of the report on an index of these bytes, and it is answered as sound just where that is
// clean.
fn says(alloc: Global, bytes: Vec<u8>, want: &str) -> Result<bool, Fail> {
    let mut files = files_with(alloc, bytes)?;
    let (is_sound, text) = judge(alloc, &mut files)?;
    Ok(text.as_slice() == want.as_bytes() && is_sound == (want == CLEAN))
}

// A leaf whose one tuple lists two TIDs: items 1 and 2 of block 0, or item 1 twice.
const LISTS_TWO: &str = "1 0\n0 0 0 3: listed 7 1 2";

const LISTS_TWICE: &str = "1 0\n0 0 0 3: listed 7 1 1";

// An index, a block and a place in it where other bytes are written, these, and the report.
const REPORTS: [(&str, u8, u16, &[u8], &str); 9] = [
    (THREE, 0, 0, b"", CLEAN),
    // without a root, and with a leaf without entries
    (EMPTY, 0, 0, b"", CLEAN),
    (THREE, 1, 12, b"\x18\0\xf0\x1f", CLEAN),
    (LISTS_TWO, 0, 0, b"", CLEAN),
    // an old index
    (
        THREE,
        0,
        28,
        b"\x03",
        "unjudged U4 index 1 block 0\nfindings 0 unjudged 1\nverdict unjudged\n",
    ),
    // broken ones
    (
        LISTS_TWICE,
        0,
        0,
        b"",
        "finding B9 index 1 block 1 item 1\nfindings 1 unjudged 0\nverdict findings\n",
    ),
    (
        THREE,
        1,
        8150,
        b"\x18",
        "finding B6 index 1 block 1 item 2\nfindings 1 unjudged 0\nverdict findings\n",
    ),
    (
        THREE,
        1,
        8152,
        b"\x03",
        "finding B10 index 1 block 1 item 2\nfindings 1 unjudged 0\nverdict findings\n",
    ),
    (
        THREE,
        1,
        8176,
        b"\x09",
        "finding B12 index 1 block 1\nfindings 1 unjudged 0\nverdict findings\n",
    ),
];

#[test]
fn reports_on_indexes(rt: HostRuntime) -> Result<(), Fail> {
    for (index, block, at, piece, want) in REPORTS {
        let bytes = file_with(rt.alloc(), index, (block, at), piece)?;
        assert!(rt; says(rt.alloc(), bytes, want)?, "{want}");
    }
    Ok(())
}

#[test]
fn a_file_without_a_page(rt: HostRuntime) -> Result<(), Fail> {
    let want = "finding M1 index 1 block 0\nfindings 1 unjudged 0\nverdict findings\n";
    assert!(rt; says(rt.alloc(), Vec::new(rt.alloc()), want)?);
    Ok(())
}
