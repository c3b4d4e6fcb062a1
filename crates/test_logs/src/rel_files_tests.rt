//! Segments, bytes and ranges against values worked out by hand.
use crate::checks::{holds, same};
use crate::logs::{Segment, files_of};
use crate::quiet_files::QuietFiles;
use outside::{NoMemory, Part};
use rel_files::{
    Ahead, AttachFault, Cluster, PageFault, ReadFault, Relation, Slru, multi_in_range, xid_in_range,
};
use std::alloc::Global;
use std::process::Abort;
use std::test::Fail;

// The numbers that a relation keeps: its blocks, and the segment that is too long.
type Numbers = (u32, Option<u32>);

// Lengths of segments in bytes.
const ABSENT: Option<usize> = None;

const EMPTY: Option<usize> = Some(0);

const PART: Option<usize> = Some(8191);

const ONE: Option<usize> = Some(8192);

const ONE_AND_PART: Option<usize> = Some(8192 + 8191);

const TWO: Option<usize> = Some(2 * 8192);

const TWO_AND_PART: Option<usize> = Some(2 * 8192 + 100);

const THREE: Option<usize> = Some(3 * 8192);

const TEN: Option<usize> = Some(10 * 8192);

// Too many blocks, and the limit that they pass.
const THREE_PAST_TWO: AttachFault = AttachFault::TooLarge {
    blocks: 3,
    limit: 2,
};

const TWO_PAST_ONE: AttachFault = AttachFault::TooLarge {
    blocks: 2,
    limit: 1,
};

const ONE_PAST_NONE: AttachFault = AttachFault::TooLarge {
    blocks: 1,
    limit: 0,
};

// Segments, a limit, and what attaching them gives.
type Row = (
    &'static [Option<usize>],
    u32,
    Result<Option<Numbers>, AttachFault>,
);

// Segments of two blocks.
const WHOLE: [Row; 18] = [
    (&[], 8, Err(AttachFault::NoFile)),
    (&[ABSENT, TWO], 8, Err(AttachFault::NoFile)),
    (&[EMPTY], 8, Ok(Some((0, None)))),
    (&[PART], 8, Ok(Some((0, None)))),
    (&[ONE], 8, Ok(Some((1, None)))),
    (&[ONE_AND_PART], 8, Ok(Some((1, None)))),
    (&[TWO, ONE], 8, Ok(Some((3, None)))),
    (&[ONE, TWO], 8, Ok(Some((1, None)))),
    (&[TWO, ABSENT, TWO], 8, Ok(Some((2, None)))),
    (&[TWO, TWO_AND_PART, ONE], 8, Ok(Some((5, None)))),
    (&[THREE, TWO], 8, Ok(Some((2, Some(0))))),
    (&[TWO, THREE, TWO], 8, Ok(Some((4, Some(1))))),
    (&[TWO], 2, Ok(Some((2, None)))),
    (&[TWO, ONE], 3, Ok(Some((3, None)))),
    (&[TWO, ONE], 2, Err(THREE_PAST_TWO)),
    (&[TWO, TWO, TWO], 1, Err(TWO_PAST_ONE)),
    (&[EMPTY], 0, Ok(Some((0, None)))),
    (&[ONE], 0, Err(ONE_PAST_NONE)),
];

const FRONT: [Row; 10] = [
    (&[], 8, Ok(None)),
    (&[ABSENT, ONE], 8, Ok(None)),
    (&[TWO, ONE], 8, Ok(Some((3, None)))),
    (&[TWO, TWO, TWO, TWO], 5, Ok(Some((5, None)))),
    (&[TWO, THREE], 2, Ok(Some((2, None)))),
    (&[TWO, THREE], 3, Ok(Some((3, Some(1))))),
    (&[THREE, TWO], 1, Ok(Some((1, Some(0))))),
    (&[ONE, TWO], 8, Ok(Some((1, None)))),
    (&[TWO], 0, Ok(Some((0, None)))),
    (&[THREE], 0, Ok(Some((0, Some(0))))),
];

// The same, where the second question for a length fails: it isn't asked where the first segment ends the relation.
const WHOLE_OF_ONE: [Row; 4] = [
    (&[ONE, TWO], 8, Ok(Some((1, None)))),
    (&[THREE, TWO], 8, Ok(Some((2, Some(0))))),
    (&[TWO, TWO], 1, Err(TWO_PAST_ONE)),
    (&[TWO, TWO], 2, Err(AttachFault::ReadFault)),
];

const FRONT_OF_ONE: [Row; 2] = [
    (&[TWO, TWO], 2, Ok(Some((2, None)))),
    (&[TWO, TWO], 3, Err(AttachFault::ReadFault)),
];

// Segments of other sizes.
const OF_THREE: [Row; 1] = [(&[THREE, THREE, ONE], 16384, Ok(Some((7, None))))];

const OF_MANY: [Row; 1] = [(&[THREE], 2, Err(THREE_PAST_TWO))];

// The bytes of a segment of so many, whose blocks begin with their numbers, if there are at most ten.
fn numbered(alloc: Global, first: usize, length: usize) -> Result<Vec<u8>, NoMemory> {
    let mut bytes = vec![in alloc; 0u8; length]?;
    for block in 0..10usize {
        if block * 8192 < bytes.len() {
            bytes[block * 8192] = (first.wrapping_add(block) % 256) as u8;
        }
    }
    Ok(bytes)
}

// Segments of these lengths under the name `r`.
fn segments(
    alloc: Global,
    segment_blocks: u32,
    lengths: &[Option<usize>],
) -> Result<QuietFiles, NoMemory> {
    let mut files = QuietFiles::new(alloc);
    for (segment, length) in (0u32..).zip(lengths) {
        let first = segment.wrapping_mul(segment_blocks) as usize;
        if let Some(length) = *length {
            let bytes = numbered(alloc, first, length)?;
            files.add("r", Part::Segment(segment), &bytes)?;
        }
    }
    Ok(files)
}

fn attached(
    rt: &impl Abort,
    alloc: Global,
    files: &mut QuietFiles,
    segment_blocks: u32,
    limit: u32,
) -> Result<Relation, AttachFault> {
    let fits = 1 <= segment_blocks && segment_blocks <= 131072 && limit <= 4194304;
    assert!(rt; fits);
    Relation::attach(alloc, files, "r", segment_blocks, limit)
}

fn numbers(relation: &Relation) -> Option<Numbers> {
    Some((relation.blocks(), relation.long_segment()))
}

// What attaching a relation gives.
fn whole(
    rt: &impl Abort,
    alloc: Global,
    files: &mut QuietFiles,
    segment_blocks: u32,
    limit: u32,
) -> Result<Option<Numbers>, AttachFault> {
    let relation = attached(rt, alloc, files, segment_blocks, limit)?;
    Ok(numbers(&relation))
}

// What attaching it from its front on gives, in segments of two blocks.
fn front(
    rt: &impl Abort,
    alloc: Global,
    files: &mut QuietFiles,
    limit: u32,
) -> Result<Option<Numbers>, AttachFault> {
    assert!(rt; limit <= 4194304);
    match Relation::attach_front(alloc, files, "r", 2, limit) {
        Ok(Some(relation)) => Ok(numbers(&relation)),
        Ok(None) => Ok(None),
        Err(PageFault::ReadFault) => Err(AttachFault::ReadFault),
        Err(PageFault::NoMemory) => Err(AttachFault::NoMemory),
    }
}

// Tries attaching the rows' relations, with the n-th question for a length failing.
fn try_whole(
    rt: &impl Abort,
    alloc: Global,
    segment_blocks: u32,
    rows: &[Row],
    failing: u64,
) -> Result<(), Fail> {
    let mut row = 0u32;
    for (lengths, limit, want) in rows {
        row = row.wrapping_add(1);
        let mut files = segments(alloc, segment_blocks, lengths)?;
        files.fail_length(failing);
        same(
            rt,
            &whole(rt, alloc, &mut files, segment_blocks, *limit),
            want,
            row,
        );
    }
    Ok(())
}

// The same of their fronts.
fn try_front(rt: &impl Abort, alloc: Global, rows: &[Row], failing: u64) -> Result<(), Fail> {
    let mut row = 0u32;
    for (lengths, limit, want) in rows {
        row = row.wrapping_add(1);
        let mut files = segments(alloc, 2, lengths)?;
        files.fail_length(failing);
        same(rt, &front(rt, alloc, &mut files, *limit), want, row);
    }
    Ok(())
}

#[test]
fn segments_are_counted_up_to_the_first_that_is_not_full(rt: HostRuntime) -> Result<(), Fail> {
    let alloc = rt.alloc();
    try_whole(&rt, alloc, 2, &WHOLE, 0)?;
    try_whole(&rt, alloc, 2, &WHOLE_OF_ONE, 2)?;
    try_front(&rt, alloc, &FRONT, 0)?;
    try_front(&rt, alloc, &FRONT_OF_ONE, 2)
}

#[test]
fn segments_have_the_size_that_is_given(rt: HostRuntime) -> Result<(), Fail> {
    try_whole(&rt, rt.alloc(), 3, &OF_THREE, 0)?;
    try_whole(&rt, rt.alloc(), 131072, &OF_MANY, 0)
}

// Reads a block, and says whether it begins with its number and is zero else.
fn is_numbered(
    rt: &impl Abort,
    files: &mut QuietFiles,
    relation: &Relation,
    b: u32,
) -> Result<bool, ReadFault> {
    let mut page = [1u8; 8192];
    assert!(rt; b < relation.blocks());
    relation.read_block(files, b, &mut page)?;
    Ok(page[0] as u32 == b && page[1..].iter().all(|byte| *byte == 0))
}

#[test]
fn each_block_is_read_from_its_segment(rt: HostRuntime) -> Result<(), Fail> {
    let alloc = rt.alloc();
    let mut files = segments(alloc, 2, &[TWO, TWO, ONE])?;
    files.fail_read(6);
    let relation = attached(&rt, alloc, &mut files, 2, 8)?;
    same(&rt, &relation.blocks(), &5, 0);
    for b in 0..5 {
        same(
            &rt,
            &is_numbered(&rt, &mut files, &relation, b),
            &Ok(true),
            b,
        );
    }
    same(
        &rt,
        &is_numbered(&rt, &mut files, &relation, 0),
        &Err(ReadFault),
        5,
    );
    Ok(())
}

// What a block begins with that is taken by the pages in hand.
fn first_byte(
    rt: &impl Abort,
    files: &mut QuietFiles,
    relation: &Relation,
    ahead: &mut Ahead,
    b: u32,
) -> Result<u8, ReadFault> {
    assert!(rt; b < relation.blocks());
    ahead.take(files, relation, b)?;
    Ok(ahead.page(b)[0])
}

#[test]
fn blocks_are_read_ahead_up_to_their_segments_end(rt: HostRuntime) -> Result<(), Fail> {
    let mut files = segments(rt.alloc(), 10, &[TEN, THREE])?;
    let relation = attached(&rt, rt.alloc(), &mut files, 10, 16)?;
    same(&rt, &relation.blocks(), &13, 0);
    let mut ahead = Ahead::new();
    for b in 0..13u8 {
        let found = first_byte(&rt, &mut files, &relation, &mut ahead, b.into());
        same(&rt, &found, &Ok(b), b.into());
    }
    // Blocks 0 to 7, 8 and 9, and those of the second segment.
    same(&rt, &files.reads(), &3, 13);
    files.fail_read(1);
    for (b, want) in [(12, Ok(12)), (9, Err(ReadFault)), (9, Ok(9))] {
        let found = first_byte(&rt, &mut files, &relation, &mut ahead, b);
        same(&rt, &found, &want, b);
    }
    Ok(())
}

// Pages and places in them, and the bytes there.
const BYTES: [(u32, u16, Option<u8>); 9] = [
    (0, 0, Some(1)),
    (0, 1, Some(0)),
    (31, 8191, Some(2)),
    (32, 0, Some(3)),
    (32, 99, Some(4)),
    (32, 100, None),
    (33, 0, None),
    (64, 0, None),
    (u32::MAX, 8191, None),
];

// A log of one whole segment and 100 bytes.
const LOG_OF_TWO: [Segment<'static>; 2] = [
    Segment {
        folder: "pg_xact",
        number: 0,
        fill: 0,
        len: 262144,
        bytes: &[(0, 1), (262143, 2)],
    },
    Segment {
        folder: "pg_xact",
        number: 1,
        fill: 0,
        len: 100,
        bytes: &[(0, 3), (99, 4)],
    },
];

fn byte_of(
    rt: &impl Abort,
    files: &mut QuietFiles,
    slru: &Slru,
    page: u32,
    offset: u16,
) -> Result<Option<u8>, ReadFault> {
    assert!(rt; offset < 8192);
    slru.byte(files, page, offset)
}

#[test]
fn a_byte_is_found_in_its_segment(rt: HostRuntime) -> Result<(), Fail> {
    let mut files = files_of(rt.alloc(), &LOG_OF_TWO)?;
    let slru = Slru::new(rt.alloc(), "pg_xact")?;
    let mut row = 0u32;
    for (page, offset, want) in BYTES {
        row = row.wrapping_add(1);
        same(
            &rt,
            &byte_of(&rt, &mut files, &slru, page, offset),
            &Ok(want),
            row,
        );
    }
    files.fail_length(1);
    same(
        &rt,
        &byte_of(&rt, &mut files, &slru, 0, 0),
        &Err(ReadFault),
        9,
    );
    files.fail_read(1);
    same(
        &rt,
        &byte_of(&rt, &mut files, &slru, 0, 0),
        &Err(ReadFault),
        10,
    );
    Ok(())
}

// How many of four bytes of the first page are held from a place on, and the first of them.
fn bytes_from(
    rt: &impl Abort,
    files: &mut QuietFiles,
    slru: &Slru,
    offset: u16,
) -> Result<(usize, u8), ReadFault> {
    let mut out = [9u8; 4];
    assert!(rt; offset <= 8188);
    let held = slru.bytes(files, 0, offset, &mut out)?;
    Ok((held, out[0]))
}

#[test]
fn the_bytes_that_are_held_stand_first(rt: HostRuntime) -> Result<(), Fail> {
    let mut files = QuietFiles::new(rt.alloc());
    files.add("pg_xact", Part::Slru(0), &[1, 2, 3])?;
    let slru = Slru::new(rt.alloc(), "pg_xact")?;
    for (offset, held, first) in [(0u16, 3, 1), (1, 2, 2), (2, 1, 3), (3, 0, 9), (4, 0, 9)] {
        let found = bytes_from(&rt, &mut files, &slru, offset);
        same(&rt, &found, &Ok((held, first)), offset.into());
    }
    // Five asked for a length, and three of them for bytes.
    same(&rt, &files.reads(), &3, 5);
    Ok(())
}

const WRAPPED: Cluster = Cluster {
    next_xid: 10,
    oldest_xid: 4294967000,
    next_multi: 2,
    oldest_multi: 4294967295,
    next_member: 0,
};

const PLAIN: Cluster = Cluster {
    next_xid: 800,
    oldest_xid: 700,
    next_multi: 5,
    oldest_multi: 5,
    next_member: 0,
};

const XIDS: [(Cluster, u32, bool); 10] = [
    (WRAPPED, 9, true),
    (WRAPPED, 10, false),
    (WRAPPED, 4294967000, true),
    (WRAPPED, 4294966999, false),
    (WRAPPED, 4294967295, true),
    (WRAPPED, 3, true),
    (PLAIN, 699, false),
    (PLAIN, 700, true),
    (PLAIN, 799, true),
    (PLAIN, 800, false),
];

const MULTIXACTS: [(Cluster, u32, bool); 8] = [
    (WRAPPED, 4294967295, true),
    (WRAPPED, 0, false),
    (WRAPPED, 1, true),
    (WRAPPED, 2, false),
    (WRAPPED, 4294967294, false),
    (PLAIN, 5, false),
    (PLAIN, 4, false),
    (PLAIN, 0, false),
];

#[test]
fn numbers_go_round_at_the_end(rt: HostRuntime) {
    for (cluster, xid, want) in XIDS {
        holds(&rt, xid_in_range(&cluster, xid) == want, xid);
    }
    for (cluster, multi, want) in MULTIXACTS {
        holds(&rt, multi_in_range(&cluster, multi) == want, multi);
    }
}
