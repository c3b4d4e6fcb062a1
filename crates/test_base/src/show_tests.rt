//! The texts of single pages.
use crate::pages::{Piece, page_of, put};
use crate::reports_tests::expect_text;
use page_layout::PageView;
use reports::{show_heap, show_tree};
use std::alloc::Global;
use std::process::Abort;
use std::test::Fail;

fn expect_heap(rt: &impl Abort, alloc: Global, bytes: &[u8; 8192], want: &str) -> Result<(), Fail> {
    expect_text(rt, &show_heap(alloc, PageView::new(bytes))?, want);
    Ok(())
}

fn expect_tree(
    rt: &impl Abort,
    alloc: Global,
    bytes: &[u8; 8192],
    block: u32,
    want: &str,
) -> Result<(), Fail> {
    expect_text(rt, &show_tree(alloc, PageView::new(bytes), block)?, want);
    Ok(())
}

// A heap page of three rows of one integer each, as a server writes it.
const THREE_ROWS: [Piece; 5] = [
    (12, b"\x24\0\xa0\x1f\0\x20\x04\x20"),
    (24, b"\xe0\x9f\x38\0\xc0\x9f\x38\0\xa0\x9f\x38\0"),
    (
        8096,
        b"\xbc\x02\0\0\0\0\0\0\0\0\0\0\0\0\0\0\x03\0\x01\0\0\x09\x18\0\x09\0\0\0",
    ),
    (
        8128,
        b"\xbc\x02\0\0\0\0\0\0\0\0\0\0\0\0\0\0\x02\0\x01\0\0\x09\x18\0\x07\0\0\0",
    ),
    (
        8160,
        b"\xbc\x02\0\0\0\0\0\0\0\0\0\0\0\0\0\0\x01\0\x01\0\0\x09\x18\0\x05\0\0\0",
    ),
];

// The metapage of their index.
const METAPAGE: [Piece; 3] = [
    (12, b"\x48\0\xf0\x1f\xf0\x1f\x04\x20"),
    (
        24,
        b"\x62\x31\x05\0\x04\0\0\0\x01\0\0\0\0\0\0\0\x01\0\0\0\0\0\0\0",
    ),
    (8188, b"\x08"),
];

// The leaf of their index, which is its root.
const LEAF: [Piece; 6] = [
    (12, b"\x24\0\xc0\x1f\xf0\x1f\x04\x20"),
    (24, b"\xe0\x9f\x20\0\xd0\x9f\x20\0\xc0\x9f\x20\0"),
    (8128, b"\0\0\0\0\x03\0\x10\0\x09\0\0\0\0\0\0\0"),
    (8144, b"\0\0\0\0\x02\0\x10\0\x07\0\0\0\0\0\0\0"),
    (8160, b"\0\0\0\0\x01\0\x10\0\x05\0\0\0\0\0\0\0"),
    (8188, b"\x03"),
];

const HEAP_TEXT: &str =
    "page lsn 0 0 checksum 0 flags 0000 lower 36 upper 8096 special 8192 version 2004 prune 0\n\
    item 1 normal off 8160 len 28 xmin 700 xmax 0 field3 0 ctid 0 1 infomask2 0001 infomask 0900 hoff 24\n\
    item 2 normal off 8128 len 28 xmin 700 xmax 0 field3 0 ctid 0 2 infomask2 0001 infomask 0900 hoff 24\n\
    item 3 normal off 8096 len 28 xmin 700 xmax 0 field3 0 ctid 0 3 infomask2 0001 infomask 0900 hoff 24\n";

const META_TEXT: &str = "meta magic 00053162 version 4 root 1 level 0 fastroot 1 fastlevel 0\n";

const LEAF_TEXT: &str = "page prev 0 next 0 level 0 flags 0003 lower 36 upper 8128 special 8176\n\
    item 1 normal off 8160 len 16 tid 0 1 info 0010 plain\n\
    item 2 normal off 8144 len 16 tid 0 2 info 0010 plain\n\
    item 3 normal off 8128 len 16 tid 0 3 info 0010 plain\n";

fn heap_of_three_rows() -> [u8; 8192] {
    page_of(&THREE_ROWS)
}

fn leaf() -> [u8; 8192] {
    page_of(&LEAF)
}

#[test]
fn pages_of_a_server(rt: HostRuntime) -> Result<(), Fail> {
    expect_heap(&rt, rt.alloc(), &heap_of_three_rows(), HEAP_TEXT)?;
    expect_tree(&rt, rt.alloc(), &page_of(&METAPAGE), 0, META_TEXT)?;
    expect_tree(&rt, rt.alloc(), &leaf(), 1, LEAF_TEXT)
}

// Items of each other kind on a heap page: unused, redirected, dead, too short, and a tuple.
const OTHER_HEAP_ITEMS: [Piece; 2] = [
    (
        0,
        b"\x02\0\0\0\0\0\0\x01\xcd\xab\x05\0\x2c\0\xa0\x1f\0\x20\x04\x20\xdb\x02\0\0",
    ),
    (
        24,
        b"\0\0\0\0\x05\0\x01\0\0\x80\x01\0\xe0\x9f\x20\0\xe0\x9f\x38\0",
    ),
];

const OTHER_HEAP_TEXT: &str =
    "page lsn 2 16777216 checksum 43981 flags 0005 lower 44 upper 8096 special 8192 \
    version 2004 prune 731\n\
    item 1 unused\n\
    item 2 redirect 5\n\
    item 3 dead\n\
    item 4 normal off 8160 len 16 rule H1\n\
    item 5 normal off 8160 len 28 xmin 700 xmax 0 field3 0 ctid 0 1 infomask2 0001 infomask 0900 hoff 24\n";

#[test]
fn other_heap_items(rt: HostRuntime) -> Result<(), Fail> {
    let mut page = heap_of_three_rows();
    put(&mut page, &OTHER_HEAP_ITEMS);
    expect_heap(&rt, rt.alloc(), &page, OTHER_HEAP_TEXT)
}

// A high key with a TID, a killed item, a posting list, and a line pointer to nothing.
const OTHER_TREE_ITEMS: [Piece; 5] = [
    (12, b"\x28\0\xb0\x1f"),
    (
        24,
        b"\xe0\x9f\x20\0\xd0\x9f\x21\0\xb0\x9f\x40\0\x01\0\x01\0",
    ),
    (8160, b"\0\0\0\0\x01\x10\x10\x20"),
    (8112, b"\0\0\x10\0\x02\x20\x20\x20"),
    (8176, b"\x03\0\0\0\x05\0\0\0\0\0\0\0\x81\0"),
];

const OTHER_TREE_TEXT: &str =
    "page prev 3 next 5 level 0 flags 0081 lower 40 upper 8112 special 8176\n\
    item 1 normal off 8160 len 16 tid 0 4097 info 2010 pivot\n\
    item 2 dead off 8144 len 16 tid 0 2 info 0010 plain\n\
    item 3 normal off 8112 len 32 tid 16 8194 info 2020 posting\n\
    item 4 rule B5\n";

const DELETED_TEXT: &str =
    "page prev 3 next 5 level 0 flags 0085 lower 40 upper 8112 special 8176\n";

#[test]
fn other_tree_items(rt: HostRuntime) -> Result<(), Fail> {
    let mut page = leaf();
    put(&mut page, &OTHER_TREE_ITEMS);
    expect_tree(&rt, rt.alloc(), &page, 7, OTHER_TREE_TEXT)?;
    // The same page, deleted, has no items.
    put(&mut page, &[(8188, b"\x85")]);
    expect_tree(&rt, rt.alloc(), &page, 7, DELETED_TEXT)
}

// Expects the same text of a page of a heap and of one of a tree, be it a metapage or not.
fn expect_all(rt: &impl Abort, alloc: Global, bytes: &[u8; 8192], want: &str) -> Result<(), Fail> {
    expect_heap(rt, alloc, bytes, want)?;
    expect_tree(rt, alloc, bytes, 1, want)?;
    expect_tree(rt, alloc, bytes, 0, want)
}

#[test]
fn pages_without_lines(rt: HostRuntime) -> Result<(), Fail> {
    expect_all(&rt, rt.alloc(), &[0; 8192], "page new\n")?;
    expect_all(
        &rt,
        rt.alloc(),
        &page_of(&[(8000, b"\x01")]),
        "page rule P4\n",
    )
}

// Block 0 is a metapage.
#[test]
fn pages_of_another_kind(rt: HostRuntime) -> Result<(), Fail> {
    expect_heap(&rt, rt.alloc(), &leaf(), "page rule P3\n")?;
    expect_tree(&rt, rt.alloc(), &heap_of_three_rows(), 1, "page rule P3\n")?;
    expect_tree(&rt, rt.alloc(), &heap_of_three_rows(), 0, "page rule P3\n")
}
