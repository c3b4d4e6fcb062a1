//! What pg_xact says, in files in memory.
use crate::checks::{holds, same};
use crate::logs::{Segment, files_of};
use crate::quiet_files::QuietFiles;
use outside::{NoMemory, Part};
use rel_files::Slru;
use std::alloc::Global;
use std::process::Abort;
use std::test::Fail;
use xact_status::XidState::{Committed, Missing, NotCommitted};
use xact_status::{StatesRead, XidState, status};

// The state of a transaction where one segment is held, which has zero bytes but for its last.
fn state(alloc: Global, segment: u32, zeros: usize, last: u8, xid: u32) -> Result<XidState, Fail> {
    let held = Segment {
        folder: "xact",
        number: segment,
        fill: 0,
        len: zeros.saturating_add(1),
        bytes: &[(zeros, last)],
    };
    let xact = Slru::new(alloc, "xact")?;
    Ok(status(&mut files_of(alloc, &[held])?, &xact, xid)?)
}

// A segment's number, its zero bytes and the byte after them, a transaction and its state.
const STATES: [(u32, usize, u8, u32, XidState); 24] = [
    // four transactions of one byte: in progress, committed, aborted, committed below another
    (0, 175, 0xe4, 700, NotCommitted),
    (0, 175, 0xe4, 701, Committed),
    (0, 175, 0xe4, 702, NotCommitted),
    (0, 175, 0xe4, 703, NotCommitted),
    // 712 aborted and 713 committed, and the byte before isn't theirs
    (0, 178, 0x56, 712, NotCommitted),
    (0, 178, 0x56, 713, Committed),
    (0, 178, 0x55, 711, NotCommitted),
    // the first transaction of all, and the edges of pages and segments
    (0, 0, 0x40, 3, Committed),
    (0, 8191, 0x40, 32767, Committed),
    (0, 8192, 0x01, 32768, Committed),
    (0, 262143, 0x40, 1048575, Committed),
    (1, 0, 0x01, 1048576, Committed),
    (4095, 262143, 0x10, 4294967294, Committed),
    (4095, 262143, 0x10, 4294967295, NotCommitted),
    (4095, 262143, 0x40, 4294967295, Committed),
    // the byte isn't held
    (0, 177, 0x55, 712, Missing),
    (1, 178, 0x55, 712, Missing),
    (0, 8191, 0x55, 32768, Missing),
    (0, 262143, 0x55, 1048576, Missing),
    (4095, 262142, 0x55, 4294967295, Missing),
    (4094, 262143, 0x55, 4294967295, Missing),
    // no byte is asked for
    (9, 0, 0, 0, NotCommitted),
    (9, 0, 0, 1, Committed),
    (9, 0, 0, 2, Committed),
];

#[test]
fn two_bits_say_it(rt: HostRuntime) -> Result<(), Fail> {
    let mut row = 0u32;
    for (segment, zeros, last, xid, want) in STATES {
        row = row.wrapping_add(1);
        same(
            &rt,
            &state(rt.alloc(), segment, zeros, last, xid)?,
            &want,
            row,
        );
    }
    Ok(())
}

#[test]
fn faults_are_handed_on(rt: HostRuntime) -> Result<(), Fail> {
    let xact = Slru::new(rt.alloc(), "xact")?;
    let mut files = QuietFiles::new(rt.alloc());
    files.add("xact", Part::Slru(0), &[0x55; 200])?;
    files.fail_length(1);
    files.fail_read(2);
    // 2 asks for nothing; then the length can't be had, all can be read, and the byte can't be read.
    let mut row = 0u32;
    for (xid, is_said) in [(2, true), (700, false), (700, true), (700, false)] {
        row = row.wrapping_add(1);
        holds(&rt, status(&mut files, &xact, xid).is_ok() == is_said, row);
    }
    Ok(())
}

// What a memory says of a transaction, one after the other, and how many reads it has taken then. 1 and 2 take no
// read, 700 and 701 stand in one piece, and 1049276 in another that stands at the same place of the memory.
const REMEMBERED: [(u32, Option<XidState>, u64); 13] = [
    (0, Some(NotCommitted), 0),
    (2, Some(Committed), 0),
    (700, Some(NotCommitted), 1),
    (701, Some(Committed), 1),
    (767, Some(Committed), 1),
    (768, Some(Committed), 2),
    // a piece of which 62 bytes are held
    (1049276, Some(NotCommitted), 3),
    (1049335, Some(Committed), 3),
    (1049336, Some(Missing), 3),
    // a fault isn't kept
    (700, None, 4),
    (700, Some(NotCommitted), 5),
    (701, Some(Committed), 5),
    // a file that isn't there is no read
    (4294967295, Some(Missing), 5),
];

// Two segments that have been written up to 200 bytes and 190.
const TWO_SEGMENTS: [Segment<'static>; 2] = [
    Segment {
        folder: "xact",
        number: 0,
        fill: 0x55,
        len: 200,
        bytes: &[(175, 0xe4)],
    },
    Segment {
        folder: "xact",
        number: 1,
        fill: 0x55,
        len: 190,
        bytes: &[(175, 0xe4)],
    },
];

// Whether a memory is of each of two folders.
fn are_of(alloc: Global, read: &StatesRead, xact: &Slru) -> Result<(bool, bool), NoMemory> {
    Ok((read.are_of(xact), read.are_of(&Slru::new(alloc, "other")?)))
}

fn expect_states(rt: &impl Abort, files: &mut QuietFiles, read: &mut StatesRead) {
    let mut row = 0u32;
    for (xid, want, reads) in REMEMBERED {
        row = row.wrapping_add(1);
        let found = read.status(files, xid).ok();
        same(rt, &(found, files.reads()), &(want, reads), row);
    }
}

#[test]
fn pieces_are_kept(rt: HostRuntime) -> Result<(), Fail> {
    let xact = Slru::new(rt.alloc(), "xact")?;
    let mut files = files_of(rt.alloc(), &TWO_SEGMENTS)?;
    files.fail_read(4);
    let mut read = StatesRead::new(rt.alloc(), &xact)?;
    expect_states(&rt, &mut files, &mut read);
    same(&rt, &are_of(rt.alloc(), &read, &xact)?, &(true, false), 13);
    Ok(())
}
