//! Runs of `heap` on small cases: each rule of a heap broken and kept, and each reason why a tuple can't be judged.
use crate::expected::{expect, expect_heap};
use crate::pages::{At, expect_items, expect_page, files_of, page_with};
use memory_files::MemFiles;
use outside::Part;
use std::alloc::Global;
use std::process::Abort;
use std::test::Fail;
use test_fixtures::put;
use test_run_fixtures::{
    BOOL_AND_TEXT, CLUSTER, INT_COLUMN, Item, LIVE, POINTER, SUCCESSOR, TEXT_IN_TOAST, THREE_ROWS,
    Tuple, UPDATED, case_files, chunk_page, page_of,
};

// The flags of a page with a live tuple, the place of bytes that are put over it, these bytes, and its report.
const PAGES: [(u16, u16, &[u8], &str); 5] = [
    (0, 0, b"", ""),
    (0, 18, b"\x05", "P1 heap block 0"),
    (8, 0, b"", "P2 heap block 0"),
    (0, 12, b"\x1d", "P3 heap block 0"),
    // A new page that isn't all zeros.
    (0, 12, b"\0\0\0\0\0\0\0\0", "P4 heap block 0"),
];

#[test]
fn headers_of_pages(rt: HostRuntime) -> Result<(), Fail> {
    for (flags, at, over, told) in PAGES {
        let mut page = page_of(flags, &[Item::Tuple(LIVE)]);
        put(&mut page, at, over);
        expect_page(&rt, rt.alloc(), INT_COLUMN, &page, told)?;
    }
    Ok(())
}

// The items of a page, and its report.
const PLACES: [(&[At], &str); 6] = [
    // An offset that is no multiple of 8, storage past the end, and too short for a header.
    (&[At::Storage(8161, 28)], "H1 heap block 0 item 1"),
    (&[At::Live, At::Storage(8168, 28)], "H1 heap block 0 item 2"),
    (&[At::Live, At::Storage(8160, 23)], "H1 heap block 0 item 2"),
    // Item 4 meets items 1 and 2, and item 5 all.
    (
        &[
            At::Live,
            At::Live,
            At::Live,
            At::Storage(8136, 28),
            At::Storage(8112, 64),
        ],
        "H2 heap block 0 item 4; H2 heap block 0 item 5",
    ),
    // Item 2 is item 1 again; a misplaced, a dead and an unused one meet nothing.
    (
        &[
            At::Live,
            At::Storage(8160, 28),
            At::Storage(8161, 28),
            At::Dead,
            At::Unused,
        ],
        "H2 heap block 0 item 2; H1 heap block 0 item 3",
    ),
    // Each below the one before it, and each ends where that one begins.
    (
        &[
            At::Storage(8160, 32),
            At::Storage(8128, 32),
            At::Storage(8096, 32),
            At::Live,
        ],
        "H1 heap block 0 item 2; H1 heap block 0 item 3; H2 heap block 0 item 4",
    ),
];

#[test]
fn places_of_items(rt: HostRuntime) -> Result<(), Fail> {
    expect_items(&rt, rt.alloc(), &PLACES)
}

// Two line pointers to one tuple.
#[test]
fn an_item_that_is_another_again(rt: HostRuntime) -> Result<(), Fail> {
    let first = page_of(0, &THREE_ROWS);
    let mut page = first;
    put(&mut page, 28, &first[24..28]);
    let told = "H2 heap block 0 item 2";
    expect_page(&rt, rt.alloc(), INT_COLUMN, &page, told)
}

// A tuple of one number: xmin, xmax, infomask2, infomask and hoff; and the report of its page.
type Head = (u32, u32, u16, u16, u8, &'static str);

fn expect_heads(rt: &impl Abort, alloc: Global, rows: &[Head]) -> Result<(), Fail> {
    for (xmin, xmax, infomask2, infomask, hoff, told) in rows {
        let tuple = Tuple {
            xmin: *xmin,
            xmax: *xmax,
            infomask2: *infomask2,
            infomask: *infomask,
            hoff: *hoff,
            ..LIVE
        };
        let page = page_of(0, &[Item::Tuple(tuple)]);
        expect_page(rt, alloc, INT_COLUMN, &page, told)?;
    }
    Ok(())
}

const HEADS: [Head; 7] = [
    (700, 0, 1, 0x0900, 24, ""),
    (700, 0, 1, 0x4900, 24, "U1 heap block 0 item 1"),
    (700, 0, 2, 0x0900, 24, "H4 heap block 0 item 1"),
    (700, 0, 1, 0x0900, 32, "H5 heap block 0 item 1"),
    (700, 5, 1, 0x1500, 24, "H6 heap block 0 item 1"),
    (700, 0, 0x4001, 0x0100, 24, "H7 heap block 0 item 1"),
    (700, 0, 0x8001, 0x0900, 24, "H8 heap block 0 item 1"),
];

#[test]
fn headers_of_tuples(rt: HostRuntime) -> Result<(), Fail> {
    expect_heads(&rt, rt.alloc(), &HEADS)
}

const LIVES: [Head; 7] = [
    (1000, 0, 1, 0x0900, 24, "H9 heap block 0 item 1"),
    (999, 0, 1, 0x0900, 24, ""),
    (700, 10, 1, 0x1100, 24, "H10 heap block 0 item 1"),
    (700, 1000, 1, 0x0100, 24, "H11 heap block 0 item 1"),
    (700, 7, 1, 0x1100, 24, "U2 heap block 0 item 1"),
    (700, 8, 1, 0x1100, 24, "U3 heap block 0 item 1"),
    (700, 5, 1, 0x1100, 24, ""),
];

#[test]
fn lives_of_tuples(rt: HostRuntime) -> Result<(), Fail> {
    expect_heads(&rt, rt.alloc(), &LIVES)
}

// An updated tuple whose updater stands in multixact 5, and its successor, both without hints.
fn updated_by_multixact(alloc: Global) -> Result<MemFiles, Fail> {
    let old = At::Tuple(700, 5, 2, 0x4001, 0x1100);
    let new = At::Tuple(712, 0, 2, 0x8001, 0x2800);
    let heap = page_with(alloc, 0, &[old, new])?;
    files_of(alloc, INT_COLUMN, &heap)
}

// A log, how long it is, and the report where it ends there.
const CUT_LOGS: [(&str, u64, &str); 6] = [
    ("xact", 8192, ""),
    (
        "xact",
        178,
        "H12 heap block 0 item 1; H12 heap block 0 item 2",
    ),
    ("offsets", 24, "H13 heap block 0 item 1"),
    ("offsets", 20, "H13 heap block 0 item 1"),
    ("members", 19, "H13 heap block 0 item 1"),
    ("members", 20, ""),
];

fn expect_cut(rt: &impl Abort, alloc: Global, log: &str, len: u64, told: &str) -> Result<(), Fail> {
    let mut files = updated_by_multixact(alloc)?;
    assert!(rt; files.cut(log, Part::Slru(0), len));
    expect_heap(rt, alloc, &mut files, told)
}

#[test]
fn logs_that_end_early(rt: HostRuntime) -> Result<(), Fail> {
    for (log, len, told) in CUT_LOGS {
        expect_cut(&rt, rt.alloc(), log, len, told)?;
    }
    Ok(())
}

// Multixact 5 begins at member 10, and ends at member 9.
#[test]
fn a_multixact_that_goes_round(rt: HostRuntime) -> Result<(), Fail> {
    let alloc = rt.alloc();
    let mut files = updated_by_multixact(alloc)?;
    let mut offsets = [0u8; 8192];
    put(&mut offsets, 20, &[10, 0, 0, 0, 9]);
    files.add("offsets", Part::Slru(0), &offsets)?;
    expect_heap(&rt, alloc, &mut files, "U3 heap block 0 item 1")
}

// A tuple that transaction 701 updated, to item 2, and its successor there, which no index names.
const OLD: At = At::Tuple(700, 701, 2, 0x4001, 0x0500);

const NEW: At = At::Tuple(701, 0, 2, 0x8001, 0x2900);

// The items of a page, and its report.
const CHAINS: [(&[At], &str); 9] = [
    (&[At::To(2), At::Unused], "H3 heap block 0 item 1"),
    (&[At::To(2), NEW], ""),
    (
        &[At::To(2), At::To(1)],
        "H3 heap block 0 item 1; H3 heap block 0 item 2",
    ),
    (&[OLD, NEW], ""),
    // The updater stands in a multixact.
    (
        &[
            At::Tuple(700, 5, 2, 0x4001, 0x1100),
            At::Tuple(712, 0, 2, 0x8001, 0x2800),
        ],
        "",
    ),
    // A successor that an index may name.
    (
        &[OLD, At::Tuple(701, 0, 2, 1, 0x2900)],
        "H14 heap block 0 item 1",
    ),
    // Two that lead to one.
    (
        &[
            At::Tuple(700, 701, 3, 0x4001, 0x0500),
            At::Tuple(700, 701, 3, 0x4001, 0x0500),
            At::Tuple(701, 0, 3, 0x8001, 0x2900),
        ],
        "H15 heap block 0 item 2",
    ),
    // One to which nothing leads.
    (
        &[At::Tuple(700, 0, 1, 0x8001, 0x2900)],
        "H16 heap block 0 item 1",
    ),
    // Two dead ones that lead to one another, and no root to them.
    (
        &[
            At::Tuple(701, 701, 2, 0xc001, 0x2500),
            At::Tuple(701, 701, 1, 0xc001, 0x2500),
        ],
        "",
    ),
];

#[test]
fn chains(rt: HostRuntime) -> Result<(), Fail> {
    expect_items(&rt, rt.alloc(), &CHAINS)
}

// The page of a map whose first byte of bits is this.
fn map_page(bits: u8) -> [u8; 8192] {
    let mut page = page_of(0, &[]);
    put(&mut page, 24, &[bits]);
    page
}

// The flags of a page, its items, the first byte of bits of its map, 0 where there is none, and the report.
const VISIBLE: [(u16, &[At], u8, &str); 7] = [
    (4, &[At::Live], 1, ""),
    (4, &[At::Live], 2, "V1 heap block 0"),
    (0, &[At::Live], 1, "V2 heap block 0"),
    // A tuple that is deleted, and one that is gone.
    (
        4,
        &[At::Tuple(700, 701, 1, 1, 0x0500)],
        1,
        "V3 heap block 0",
    ),
    (4, &[At::Dead], 0, "V3 heap block 0"),
    (4, &[At::Live], 3, "V4 heap block 0"),
    // A frozen one.
    (4, &[At::Tuple(700, 0, 1, 1, 0x0b00)], 3, ""),
];

fn expect_visible(
    rt: &impl Abort,
    alloc: Global,
    heap: &[u8],
    map: u8,
    told: &str,
) -> Result<(), Fail> {
    let mut files = files_of(alloc, INT_COLUMN, heap)?;
    if map != 0 {
        files.add("t_vm", Part::Segment(0), &map_page(map))?;
    }
    expect_heap(rt, alloc, &mut files, told)
}

#[test]
fn visibility(rt: HostRuntime) -> Result<(), Fail> {
    let alloc = rt.alloc();
    for (flags, items, map, told) in VISIBLE {
        let heap = page_with(alloc, flags, items)?;
        expect_visible(&rt, alloc, &heap, map, told)?;
    }
    Ok(())
}

// The bytes of a flag and a text, and the report of their page.
const VALUES: [(&[u8], &str); 4] = [
    (b"\x01\x07hi", ""),
    (b"\x01\0\0\0\x18\0\0\0hi", ""),
    (b"\x01\0\0\0\x18\0\0\0h", "H17 heap block 0 item 1"),
    (b"\x01\x01\x07", "H18 heap block 0 item 1"),
];

#[test]
fn values(rt: HostRuntime) -> Result<(), Fail> {
    for (body, told) in VALUES {
        let tuple = Tuple {
            infomask2: 2,
            infomask: 0x0902,
            body,
            ..LIVE
        };
        let page = page_of(0, &[Item::Tuple(tuple)]);
        expect_page(&rt, rt.alloc(), BOOL_AND_TEXT, &page, told)?;
    }
    Ok(())
}

// A pointer of these sizes, before compression and stored.
fn pointer_of(raw: u32, stored: u32) -> [u8; 18] {
    let mut pointer = [0u8; 18];
    pointer.copy_from_slice(POINTER);
    pointer[2..6].copy_from_slice(&raw.to_le_bytes());
    pointer[6..10].copy_from_slice(&stored.to_le_bytes());
    pointer
}

// A page with a tuple with these flags, whose value this points to.
fn external_page(infomask: u16, pointer: &[u8]) -> [u8; 8192] {
    let tuple = Tuple {
        infomask,
        body: pointer,
        ..LIVE
    };
    page_of(0, &[Item::Tuple(tuple)])
}

// Runs `heap` on it over a TOAST table with a chunk of 1996 bytes, and then without that table.
fn expect_external(rt: &impl Abort, alloc: Global, heap: &[u8], told: &str) -> Result<(), Fail> {
    let mut files = files_of(alloc, TEXT_IN_TOAST, heap)?;
    files.add("tt", Part::Segment(0), &chunk_page(0, 1996))?;
    expect_heap(rt, alloc, &mut files, told)?;
    assert!(rt; files.forget("tt", Part::Segment(0)));
    let words = ["heap", "case.toml"];
    expect(rt, alloc, &words, &mut files, (5, "refused no file tt\n"))
}

// The flags of a tuple, how many bytes its value has by its pointer, before compression and stored, and the report.
const EXTERNALS: [(u16, u32, u32, &str); 4] = [
    (0x0906, 2000, 1996, ""),
    (0x0906, 2001, 1997, "H21 heap block 0 item 1 column 1"),
    (0x0902, 2000, 1996, "H19 heap block 0 item 1"),
    (0x0906, 3, 1996, "H20 heap block 0 item 1"),
];

#[test]
fn values_in_the_toast_table(rt: HostRuntime) -> Result<(), Fail> {
    for (infomask, raw, stored, told) in EXTERNALS {
        let heap = external_page(infomask, &pointer_of(raw, stored));
        expect_external(&rt, rt.alloc(), &heap, told)?;
    }
    Ok(())
}

#[test]
fn toast_tables_are_judged(rt: HostRuntime) -> Result<(), Fail> {
    let alloc = rt.alloc();
    let late = page_with(alloc, 0, &[At::Tuple(1000, 0, 1, 3, 0x0900)])?;
    let mut files = files_of(alloc, TEXT_IN_TOAST, &page_of(0, &[]))?;
    files.add("tt", Part::Segment(0), &late)?;
    expect_heap(&rt, alloc, &mut files, "H9 toast block 0 item 1")
}

// So many pages of one live tuple each, and more bytes behind them.
fn heap_of(alloc: Global, pages: u16, more: &[u8]) -> Result<Vec<u8>, Fail> {
    let mut heap = Vec::new(alloc);
    for block in 0..pages {
        let tuple = Tuple { block, ..LIVE };
        heap.extend_from_slice(&page_of(0, &[Item::Tuple(tuple)]))?;
    }
    heap.extend_from_slice(more)?;
    Ok(heap)
}

// A case with segments of two blocks, whose first one is this.
fn in_segments(alloc: Global, heap: &[u8]) -> Result<MemFiles, Fail> {
    let text = format!(in alloc; "segment_blocks = 2\n{CLUSTER}{INT_COLUMN}")?;
    case_files(alloc, text.as_str(), heap)
}

// Runs `heap` on a first segment of so many pages and more bytes.
fn expect_segment(
    rt: &impl Abort,
    alloc: Global,
    pages: u16,
    more: &[u8],
    told: &str,
) -> Result<(), Fail> {
    let heap = heap_of(alloc, pages, more)?;
    let mut files = in_segments(alloc, heap.as_slice())?;
    expect_heap(rt, alloc, &mut files, told)
}

#[test]
fn segments(rt: HostRuntime) -> Result<(), Fail> {
    let alloc = rt.alloc();
    expect_segment(&rt, alloc, 2, &[0; 100], "")?;
    expect_segment(&rt, alloc, 3, &[], "S1 heap segment 0")
}

// An updated tuple and its successor on block 2.
const ON_BLOCK_2: [Item<'static>; 2] = [
    Item::Tuple(Tuple {
        block: 2,
        ..UPDATED
    }),
    Item::Tuple(Tuple {
        block: 2,
        ..SUCCESSOR
    }),
];

// A first segment of two pages, and one of these tuples as the second.
fn two_segments(alloc: Global) -> Result<MemFiles, Fail> {
    let heap = heap_of(alloc, 2, &[])?;
    let mut files = in_segments(alloc, heap.as_slice())?;
    files.add("t", Part::Segment(1), &page_of(0, &ON_BLOCK_2))?;
    Ok(files)
}

// A chain in the second segment names that block. Where the first one is cut in its second block, the second segment
// is none of the heap's.
#[test]
fn a_chain_in_the_second_segment(rt: HostRuntime) -> Result<(), Fail> {
    let alloc = rt.alloc();
    let mut files = two_segments(alloc)?;
    expect_heap(&rt, alloc, &mut files, "")?;
    assert!(rt; files.cut("t", Part::Segment(0), 12288));
    expect_heap(&rt, alloc, &mut files, "")
}

// The long segment is known before the read that fails, and yet nothing is written.
#[test]
fn a_read_fails_after_a_finding(rt: HostRuntime) -> Result<(), Fail> {
    let alloc = rt.alloc();
    let heap = heap_of(alloc, 3, &[])?;
    let mut files = in_segments(alloc, heap.as_slice())?;
    files.fail_read(2)?;
    expect(&rt, alloc, &["heap", "case.toml"], &mut files, (7, ""))
}

// The first byte of bits of a map's page, its byte at 18, how many bytes of 1 follow the page, and the report.
const MAPS: [(u8, u8, usize, &str); 4] = [
    (0, 4, 0, ""),
    (1, 4, 0, "V2 heap block 0"),
    // The second page has no bits of the heap's blocks, and isn't read.
    (0, 4, 8192, ""),
    // A page that breaks a rule gives no bits.
    (1, 5, 0, "P1 map block 0"),
];

fn map_of(alloc: Global, bits: u8, size: u8, ones: usize) -> Result<Vec<u8>, Fail> {
    let mut page = map_page(bits);
    put(&mut page, 18, &[size]);
    let mut map = Vec::from_slice(alloc, &page)?;
    map.extend_from_slice(&[1u8; 8192][..ones.min(8192)])?;
    Ok(map)
}

// A table on a new page with a map of these bytes.
fn expect_map(rt: &impl Abort, alloc: Global, map: &[u8], told: &str) -> Result<(), Fail> {
    let mut files = files_of(alloc, INT_COLUMN, &[0u8; 8192])?;
    files.add("t_vm", Part::Segment(0), map)?;
    expect_heap(rt, alloc, &mut files, told)
}

#[test]
fn maps(rt: HostRuntime) -> Result<(), Fail> {
    let alloc = rt.alloc();
    for (bits, size, ones, told) in MAPS {
        let map = map_of(alloc, bits, size, ones)?;
        expect_map(&rt, alloc, map.as_slice(), told)?;
    }
    Ok(())
}

// A part of a page is none.
#[test]
fn a_map_of_a_part_of_a_page(rt: HostRuntime) -> Result<(), Fail> {
    expect_map(&rt, rt.alloc(), &[1; 8191], "")
}
