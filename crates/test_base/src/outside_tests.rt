//! What no clause says of `outside`, `memory_files` and `disk_files`: texts, and calls with ample memory.
use crate::checks::{holds, same};
use disk_files::{OutSink, path_of};
use memory_files::{MemFiles, MemSink, SureFiles};
use outside::{Failed, FileName, Files, Part, Sink};
use std::alloc::Global;
use std::process::Abort;
use std::test::Fail;

const PATHS: [(&str, Part, &str); 7] = [
    ("base/5/16384", Part::Segment(0), "base/5/16384"),
    ("base/5/16384", Part::Segment(3), "base/5/16384.3"),
    ("t", Part::Segment(4294967295), "t.4294967295"),
    ("xact", Part::Slru(0), "xact/0000"),
    ("xact", Part::Slru(10), "xact/000A"),
    ("xact", Part::Slru(0xABCDE), "xact/ABCDE"),
    ("", Part::Slru(0xFFFF), "/FFFF"),
];

#[test]
fn paths_have_their_parts(rt: HostRuntime) -> Result<(), Fail> {
    let mut row = 0u32;
    for (base, part, path) in PATHS {
        row = row.wrapping_add(1);
        let built = path_of(rt.alloc(), FileName { base, part })?;
        holds(&rt, built.as_str() == path, row);
    }
    Ok(())
}

// A call to files in memory.
#[derive(Clone, Copy)]
enum Call {
    Add,
    // Leaves a file so many bytes, and finds too few of them.
    Cut,
    CutFails,
    Forget,
    ForgetFails,
    // Plans that the call of such a number fails.
    FailLength,
    FailRead,
    // Asks for a length, and finds one, no file, or a failure.
    Length,
    NoFile,
    LengthFails,
    // Reads bytes from a place on.
    Read,
    ReadFails,
    // Asks how many reads were asked for.
    Reads,
}

// A call, its file and the segment of that, its number, and the file's bytes or those that are read.
type Step = (Call, &'static str, u32, u64, &'static str);

// The segment that stands for the first file of a log.
const LOG: u32 = 9;

fn part_of(segment: u32) -> Part {
    if segment == LOG {
        Part::Slru(0)
    } else {
        Part::Segment(segment)
    }
}

const T0: Part = Part::Segment(0);

const T1: Part = Part::Segment(1);

// Reads bytes of a file, and says whether it has so many.
fn read<F: Files>(
    files: &mut F,
    name: FileName<'_>,
    at: u64,
    out: &mut [u8],
) -> Result<bool, Failed> {
    let Some(length) = files.length(name)? else {
        return Ok(false);
    };
    if length < at || length - at < out.len() as u64 {
        return Ok(false);
    }
    files.read_at(name, at, out)?;
    Ok(true)
}

// Whether bytes of segment 0 of `t` from a place on are these, at most 16.
fn has_bytes<F: Files>(files: &mut F, at: u64, want: &[u8]) -> bool {
    let mut piece = [255u8; 16];
    let len = want.len().min(16);
    let (out, _) = piece.split_at_mut(len);
    let name = FileName {
        base: "t",
        part: T0,
    };
    matches!(read(files, name, at, out), Ok(true)) && *out == *want
}

fn read_fails(files: &mut MemFiles, at: u64) -> bool {
    let mut piece = [0; 1];
    let name = FileName {
        base: "t",
        part: T0,
    };
    read(files, name, at, &mut piece) == Err(Failed)
}

// Whether a call that asks for something finds what is wanted.
fn is_found(files: &mut MemFiles, (call, base, segment, number, bytes): Step) -> bool {
    let part = part_of(segment);
    match call {
        Call::Length => files.length(FileName { base, part }) == Ok(Some(number)),
        Call::NoFile => files.length(FileName { base, part }) == Ok(None),
        Call::LengthFails => files.length(FileName { base, part }) == Err(Failed),
        Call::Read => has_bytes(files, number, bytes.as_bytes()),
        Call::ReadFails => read_fails(files, number),
        Call::Reads => files.reads() == number,
        _ => false,
    }
}

// Whether a call has the outcome that is wanted.
fn is_as_wanted(files: &mut MemFiles, step: Step) -> bool {
    let (call, base, segment, number, bytes) = step;
    let part = part_of(segment);
    match call {
        Call::Add => files.add(base, part, bytes.as_bytes()).is_ok(),
        Call::Cut => files.cut(base, part, number),
        Call::CutFails => !files.cut(base, part, number),
        Call::Forget => files.forget(base, part),
        Call::ForgetFails => !files.forget(base, part),
        Call::FailLength => files.fail_length(number).is_ok(),
        Call::FailRead => files.fail_read(number).is_ok(),
        _ => is_found(files, step),
    }
}

fn take_steps(rt: &impl Abort, alloc: Global, steps: &[Step]) {
    let mut files = MemFiles::new(alloc);
    let mut row = 0u32;
    for step in steps {
        row = row.wrapping_add(1);
        let wanted = is_as_wanted(&mut files, *step);
        holds(rt, wanted && !files.refused_memory(), row);
    }
}

const ADDED_LAST: [Step; 11] = [
    (Call::Add, "t", 0, 0, "first"),
    (Call::Add, "t", 1, 0, "second"),
    (Call::Add, "t", LOG, 0, "log"),
    (Call::Add, "t", 0, 0, "another one"),
    (Call::Length, "t", 0, 11, ""),
    (Call::Length, "t", 1, 6, ""),
    (Call::Length, "t", LOG, 3, ""),
    (Call::NoFile, "t", 2, 0, ""),
    (Call::NoFile, "u", 0, 0, ""),
    (Call::Read, "t", 0, 8, "one"),
    (Call::Reads, "", 0, 1, ""),
];

#[test]
fn files_in_memory_hold_what_was_added_last(rt: HostRuntime) {
    take_steps(&rt, rt.alloc(), &ADDED_LAST);
}

const PLANNED: [Step; 13] = [
    (Call::Add, "t", 0, 0, "abc"),
    (Call::Length, "t", 0, 3, ""),
    (Call::Length, "t", 0, 3, ""),
    (Call::FailLength, "", 0, 2, ""),
    (Call::FailLength, "", 0, 0, ""),
    (Call::Length, "t", 0, 3, ""),
    (Call::LengthFails, "t", 0, 0, ""),
    (Call::Length, "t", 0, 3, ""),
    (Call::FailRead, "", 0, 1, ""),
    (Call::ReadFails, "t", 0, 2, ""),
    (Call::Reads, "", 0, 1, ""),
    (Call::Read, "t", 0, 2, "c"),
    (Call::Reads, "", 0, 2, ""),
];

#[test]
fn planned_failures_count_later_calls(rt: HostRuntime) {
    take_steps(&rt, rt.alloc(), &PLANNED);
}

const COUNTED: [Step; 8] = [
    (Call::Add, "t", 0, 0, "abc"),
    (Call::Length, "t", 0, 3, ""),
    (Call::Reads, "", 0, 0, ""),
    (Call::FailRead, "", 0, 2, ""),
    (Call::Read, "t", 0, 0, "a"),
    (Call::Reads, "", 0, 1, ""),
    (Call::ReadFails, "t", 0, 0, ""),
    (Call::Reads, "", 0, 2, ""),
];

#[test]
fn reads_are_counted_and_lengths_are_not(rt: HostRuntime) {
    take_steps(&rt, rt.alloc(), &COUNTED);
}

const CUT: [Step; 13] = [
    (Call::Add, "t", 0, 0, "abc"),
    (Call::Add, "t", 1, 0, "defg"),
    (Call::CutFails, "t", 0, 4, ""),
    (Call::CutFails, "u", 0, 0, ""),
    (Call::Cut, "t", 1, 4, ""),
    (Call::Cut, "t", 0, 2, ""),
    (Call::Length, "t", 0, 2, ""),
    (Call::Length, "t", 1, 4, ""),
    (Call::ForgetFails, "t", LOG, 0, ""),
    (Call::Forget, "t", 0, 0, ""),
    (Call::ForgetFails, "t", 0, 0, ""),
    (Call::NoFile, "t", 0, 0, ""),
    (Call::Length, "t", 1, 4, ""),
];

#[test]
fn files_in_memory_are_cut_and_forgotten(rt: HostRuntime) {
    take_steps(&rt, rt.alloc(), &CUT);
}

// Files that never fail, with one that was added twice.
fn added_twice(alloc: Global) -> Result<SureFiles, Fail> {
    let mut files = SureFiles::new(alloc);
    files.add("t", T0, b"first")?;
    files.add("t", T0, b"another one")?;
    Ok(files)
}

fn has_length(files: &mut SureFiles, part: Part, want: Option<u64>) -> bool {
    files.length(FileName { base: "t", part }) == Ok(want)
}

#[test]
fn sure_files_hold_what_was_added_last(rt: HostRuntime) -> Result<(), Fail> {
    let mut files = added_twice(rt.alloc())?;
    holds(&rt, has_length(&mut files, T0, Some(11)), 0);
    holds(&rt, has_length(&mut files, T1, None), 1);
    holds(&rt, has_bytes(&mut files, 8, b"one"), 2);
    holds(&rt, !files.refused_memory(), 3);
    Ok(())
}

// Pieces that are put into a sink, and how many bytes it takes of each.
fn expect_puts(rt: &impl Abort, sink: &mut MemSink, rows: &[(&[u8], Result<usize, Failed>)]) {
    let mut row = 0u32;
    for (piece, want) in rows {
        row = row.wrapping_add(1);
        same(rt, &sink.put(piece), want, row);
    }
}

#[test]
fn a_sink_takes_grain_by_grain(rt: HostRuntime) -> Result<(), Fail> {
    let mut sink = MemSink::new(rt.alloc(), 4)?;
    expect_puts(&rt, &mut sink, &[(b"abcdef", Ok(4))]);
    sink.fail_put(2)?;
    expect_puts(
        &rt,
        &mut sink,
        &[(b"ef", Ok(2)), (b"g", Err(Failed)), (b"", Ok(0))],
    );
    assert!(rt; sink.bytes() == b"abcdef".as_slice());
    Ok(())
}

#[test]
fn a_sink_fills_up(rt: HostRuntime) -> Result<(), Fail> {
    let mut sink = MemSink::new(rt.alloc(), 1 << 20)?;
    let piece = vec![in rt.alloc(); 7u8; 1048575]?;
    expect_puts(&rt, &mut sink, &[(&piece, Ok(1048575))]);
    expect_puts(
        &rt,
        &mut sink,
        &[(b"xy", Ok(1)), (b"", Ok(0)), (b"z", Err(Failed))],
    );
    Ok(())
}

#[test]
fn standard_output_takes_bytes(rt: HostRuntime) {
    let mut sink = OutSink::new(&rt);
    same(&rt, &sink.put(b"\n"), &Ok(1), 0);
}
