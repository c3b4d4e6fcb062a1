//! What no clause says of `disk_files`: the real file system.
use crate::checks::{holds, same};
use disk_files::{DiskFiles, path_of};
use outside::{Failed, FileName, Files, Part};
use std::alloc::{AllocError, Global};
use std::fs;
use std::process::Abort;
use std::test::Fail;

fn segment(base: &str, number: u32) -> FileName<'_> {
    FileName {
        base,
        part: Part::Segment(number),
    }
}

fn log(base: &str, number: u32) -> FileName<'_> {
    FileName {
        base,
        part: Part::Slru(number),
    }
}

fn make_file(rt: HostRuntime, path: &str, bytes: &[u8]) -> Result<(), Fail> {
    Ok(fs::write(&rt, path, bytes)?)
}

fn make_folder(rt: HostRuntime, path: &str) -> Result<(), Fail> {
    Ok(fs::create_dir(&rt, path)?)
}

// Lets go of a file and a folder.
fn remove(rt: HostRuntime, file: &str, folder: &str) -> Result<(), Fail> {
    fs::remove_file(&rt, file)?;
    Ok(fs::remove_dir(&rt, folder)?)
}

// Reads a piece of a file from a place on, and expects these bytes, or a failure.
fn expect_bytes(
    rt: &impl Abort,
    files: &mut DiskFiles,
    name: FileName<'_>,
    at: u64,
    piece: &mut [u8],
    want: Option<&[u8]>,
) {
    let read = files.read_at(name, at, piece).is_ok();
    let same = match want {
        Some(bytes) => read && *piece == *bytes,
        None => !read,
    };
    assert!(rt; same, "at {at}");
}

const LENGTHS: [(&str, Part, Result<Option<u64>, Failed>); 5] = [
    ("ten_bytes", Part::Segment(0), Ok(Some(10))),
    ("ten_bytes", Part::Segment(1), Ok(None)),
    ("a_folder", Part::Segment(0), Err(Failed)),
    ("ten_bytes\0", Part::Segment(0), Err(Failed)),
    ("ten_bytes", Part::Slru(0), Err(Failed)),
];

fn expect_real_files(rt: &impl Abort, files: &mut DiskFiles) {
    let name = segment("ten_bytes", 0);
    let mut piece = [0; 5];
    expect_bytes(rt, files, name, 4, &mut piece, Some(b"bytes"));
    expect_bytes(rt, files, name, 6, &mut piece, None);
    let mut row = 0u32;
    for (base, part, want) in LENGTHS {
        row = row.wrapping_add(1);
        same(rt, &files.length(FileName { base, part }), &want, row);
    }
    holds(rt, !files.refused_memory(), 5);
}

#[test]
fn real_files_are_read(rt: HostRuntime) -> Result<(), Fail> {
    make_file(rt, "ten_bytes", b"ten bytes.")?;
    make_folder(rt, "a_folder")?;
    expect_real_files(&rt, &mut DiskFiles::new(rt, rt.alloc()));
    remove(rt, "ten_bytes", "a_folder")
}

// Whole pages, each with its number at all of its 8192 places, and then ten bytes with the next number.
fn numbered_pages(alloc: Global, whole: u8) -> Result<Vec<u8>, AllocError> {
    let mut bytes = Vec::new(alloc);
    for number in 0..whole {
        let page = vec![in alloc; number; 8192]?;
        bytes.extend_from_slice(&page)?;
    }
    bytes.extend_from_slice(&[whole; 10])?;
    Ok(bytes)
}

// Asks for the byte at a place of a page of such a file, which is the page's number.
fn has_number(files: &mut DiskFiles, name: FileName<'_>, page: u8, place: u16) -> bool {
    let mut byte = [255];
    let at = u64::from(page) * 8192 + u64::from(place);
    files.read_at(name, at, &mut byte).is_ok() && byte == [page]
}

// Whether each of these bytes of such a file has its page's number, or none of them.
fn expect_numbers(
    rt: &impl Abort,
    files: &mut DiskFiles,
    name: FileName<'_>,
    places: &[(u8, u16)],
    want: bool,
) {
    for (page, place) in places {
        assert!(rt;
            has_number(files, name, *page, *place) == want,
            "page {page} at {place}"
        );
    }
}

const HELD: [(u8, u16); 10] = [
    (1, 0),
    (0, 8191),
    (3, 9),
    (1, 8191),
    (2, 17),
    (0, 0),
    (3, 0),
    (2, 8191),
    (1, 4000),
    (0, 17),
];

// Places from which two bytes are asked for, and these, or none where that fails.
const PAIRS: [(u64, &[u8]); 5] = [
    (8191, b"\0\x01"),
    (24575, b"\x02\x03"),
    (24584, b"\x03\x03"),
    (24585, b""),
    (u64::MAX, b""),
];

fn expect_real_log(rt: &impl Abort, files: &mut DiskFiles) {
    let name = log("a_log", 10);
    same(rt, &files.length(name), &Ok(Some(24586)), 0);
    same(rt, &files.length(log("a_log", 9)), &Ok(None), 1);
    expect_numbers(rt, files, name, &HELD, true);
    for (at, pair) in PAIRS {
        let want = if pair.is_empty() { None } else { Some(pair) };
        expect_bytes(rt, files, name, at, &mut [255; 2], want);
    }
    expect_numbers(rt, files, name, &[(3, 10), (4, 0)], false);
    expect_numbers(rt, files, name, &[(3, 9)], true);
}

#[test]
fn a_real_log_is_read_by_pages(rt: HostRuntime) -> Result<(), Fail> {
    make_folder(rt, "a_log")?;
    make_file(rt, "a_log/000A", &numbered_pages(rt.alloc(), 3)?)?;
    expect_real_log(&rt, &mut DiskFiles::new(rt, rt.alloc()));
    remove(rt, "a_log/000A", "a_log")
}

// Bytes of the long log: those that are read first, others of the same pages, and those of other pages and of pages
// that can't be kept.
const READ: [(u8, u16); 6] = [(31, 8191), (0, 5), (32, 0), (7, 8191), (33, 9), (31, 0)];

const KEPT: [(u8, u16); 5] = [(7, 0), (0, 8191), (31, 17), (0, 0), (7, 8191)];

const OTHERS: [(u8, u16); 4] = [(6, 0), (8, 8191), (32, 0), (33, 9)];

// The file is emptied while it is open, to see what was kept of it.
fn expect_kept(
    rt: &impl Abort,
    host: HostRuntime,
    files: &mut DiskFiles,
    bytes: &[u8],
) -> Result<(), Fail> {
    let name = log("long_log", 0);
    expect_numbers(rt, files, name, &READ, true);
    make_file(host, "long_log/0000", b"")?;
    expect_numbers(rt, files, name, &KEPT, true);
    expect_numbers(rt, files, name, &OTHERS, false);
    // What failed was not kept.
    make_file(host, "long_log/0000", bytes)?;
    expect_numbers(rt, files, name, &OTHERS, true);
    expect_numbers(rt, files, name, &[(7, 0)], true);
    Ok(())
}

// Pages 0 to 31 can be kept, 32 and 33 can't.
#[test]
fn pages_of_a_real_log_are_kept(rt: HostRuntime) -> Result<(), Fail> {
    let bytes = numbered_pages(rt.alloc(), 33)?;
    make_folder(rt, "long_log")?;
    make_file(rt, "long_log/0000", &bytes)?;
    expect_kept(&rt, rt, &mut DiskFiles::new(rt, rt.alloc()), &bytes)?;
    remove(rt, "long_log/0000", "long_log")
}

// Writes a file of a log.
fn make_log_file(rt: HostRuntime, base: &str, number: u32, bytes: &[u8]) -> Result<(), Fail> {
    let path = path_of(rt.alloc(), log(base, number))?;
    make_file(rt, path.as_str(), bytes)
}

// Makes a log of so many files, each of one byte: its number's rest by 251.
fn make_log(rt: HostRuntime, base: &str, files: u32) -> Result<(), Fail> {
    make_folder(rt, base)?;
    for number in 0..files {
        make_log_file(rt, base, number, &[(number % 251) as u8])?;
    }
    Ok(())
}

// Lets go of it.
fn remove_log(rt: HostRuntime, base: &str, files: u32) -> Result<(), Fail> {
    for number in 0..files {
        let path = path_of(rt.alloc(), log(base, number))?;
        fs::remove_file(&rt, path.as_str())?;
    }
    Ok(fs::remove_dir(&rt, base)?)
}

// Expects the one byte of each file of such a log, from one number to before another.
fn expect_log(rt: &impl Abort, files: &mut DiskFiles, base: &str, from: u32, to: u32) {
    for number in from..to {
        let want = [(number % 251) as u8];
        expect_bytes(rt, files, log(base, number), 0, &mut [255], Some(&want));
    }
}

fn expect_many(rt: &impl Abort, files: &mut DiskFiles) {
    // Segment 0 of a relation has the folder's own name, which is no file.
    same(rt, &files.length(segment("many", 0)), &Err(Failed), 0);
    expect_log(rt, files, "many", 0, 520);
    expect_log(rt, files, "many", 0, 520);
}

// More files of a log than stay open, and more than keep their pages, twice over.
#[test]
fn more_real_files_than_stay_open(rt: HostRuntime) -> Result<(), Fail> {
    make_log(rt, "many", 520)?;
    expect_many(&rt, &mut DiskFiles::new(rt, rt.alloc()));
    remove_log(rt, "many", 520)
}

fn expect_few(rt: &impl Abort, host: HostRuntime, files: &mut DiskFiles) -> Result<(), Fail> {
    expect_log(rt, files, "few", 1, 100);
    for number in 1..1000 {
        same(rt, &files.length(segment("few", number)), &Ok(None), number);
    }
    for number in 1..100 {
        make_log_file(host, "few", number, b"")?;
    }
    expect_log(rt, files, "few", 1, 100);
    Ok(())
}

// Names without a file, and segments of relations, leave a log's files open and its pages kept: the files are emptied
// between, and still read.
#[test]
fn absent_names_push_no_log_out(rt: HostRuntime) -> Result<(), Fail> {
    make_log(rt, "few", 100)?;
    expect_few(&rt, rt, &mut DiskFiles::new(rt, rt.alloc()))?;
    remove_log(rt, "few", 100)
}
