//! Pages as a server writes them, and pages that break one rule each.
use crate::checks::{code_of, holds, same};
use crate::pages::{Piece, page_of, put};
use page_layout::{
    LineFlag, LinePtr, PageKind, PageView, Rule, block_at, max_align, put_block, put_header,
    put_u16, put_u32, u32_at,
};
use std::process::Abort;

// A heap page of three tuples of 28 bytes.
const THREE_TUPLES: Piece<'static> = (
    12,
    b"\x24\0\xa0\x1f\0\x20\x04\x20\0\0\0\0\xe0\x9f\x38\0\xc0\x9f\x38\0\xa0\x9f\x38\0",
);

// How many items a heap page has, and the second.
fn items_of(rt: &impl Abort, page: PageView<'_>) -> (u16, LinePtr) {
    assert!(rt; page.page_rule(PageKind::Heap).is_none());
    let count = page.item_count();
    assert!(rt; 2 <= count);
    (count, page.item(2))
}

const SECOND: LinePtr = LinePtr {
    flag: LineFlag::Normal,
    off: 8128,
    len: 28,
};

#[test]
fn a_page_of_three_tuples(rt: HostRuntime) {
    let bytes = page_of(&[THREE_TUPLES]);
    let page = PageView::new(&bytes);
    let header = page.header();
    let places = (header.lower, header.upper, header.special);
    same(&rt, &places, &(36, 8096, 8192), 0);
    let rest = (header.version, header.flags, header.prune_xid);
    same(&rt, &rest, &(0x2004, 0, 0), 1);
    same(&rt, &u32_at(&bytes, 24), &0x0038_9fe0, 2);
    same(&rt, &items_of(&rt, page), &(3, SECOND), 3);
    let is_end = page.piece(8190, 2) == [0u8, 0].as_slice();
    holds(&rt, is_end && !page.is_new(), 4);
}

// Pages with one byte that is another: whether it is the page of three tuples or a new one, the byte's place and the
// byte, and the rule that is broken. An older layout, an unknown flag, an upper place past the special space, a line
// pointer of three bytes, a new page with a byte and one with an unknown flag.
const RULES: [(bool, usize, u8, PageKind, &str); 10] = [
    (true, 18, 3, PageKind::Heap, "P1"),
    (true, 10, 8, PageKind::Heap, "P2"),
    (true, 10, 7, PageKind::Heap, ""),
    (true, 15, 0x21, PageKind::Heap, "P3"),
    (true, 12, 39, PageKind::Heap, "P3"),
    (true, 12, 39, PageKind::Map, ""),
    (true, 0, 0, PageKind::Tree, "P3"),
    (false, 8000, 1, PageKind::Heap, "P4"),
    (false, 10, 8, PageKind::Map, "P2"),
    (false, 10, 0, PageKind::Meta, ""),
];

// The rule that is broken on such a page.
fn rule_of(is_laid: bool, at: usize, byte: u8, kind: PageKind) -> Option<Rule> {
    let mut bytes = [0u8; 8192];
    if is_laid {
        put(&mut bytes, &[THREE_TUPLES]);
    }
    put(&mut bytes, &[(at, &[byte])]);
    PageView::new(&bytes).page_rule(kind)
}

#[test]
fn page_rules(rt: HostRuntime) {
    let mut row = 0u32;
    for (is_laid, at, byte, kind, want) in RULES {
        row = row.wrapping_add(1);
        holds(&rt, code_of(rule_of(is_laid, at, byte, kind)) == want, row);
    }
}

// Line pointers, and whether they are misplaced on a heap page and on a tree page.
const POINTERS: [(LineFlag, u16, u16, bool, bool); 9] = [
    (LineFlag::Normal, 8160, 28, false, true),
    (LineFlag::Normal, 8160, 16, true, false),
    (LineFlag::Normal, 8164, 24, true, true),
    (LineFlag::Normal, 8088, 28, true, true),
    (LineFlag::Normal, 8160, 40, true, true),
    (LineFlag::Dead, 8160, 16, false, false),
    (LineFlag::Dead, 0, 0, false, true),
    (LineFlag::Redirect, 2, 0, false, true),
    (LineFlag::Unused, 0, 0, false, true),
];

#[test]
fn misplaced_items(rt: HostRuntime) {
    let mut row = 0u32;
    for (flag, off, len, heap, tree) in POINTERS {
        row = row.wrapping_add(1);
        let pointer = LinePtr { flag, off, len };
        let found = (
            pointer.is_misplaced_heap_item(8096),
            pointer.is_misplaced_tree_item(8096),
        );
        same(&rt, &found, &(heap, tree), row);
    }
}

// Writes the line pointers of the three tuples.
fn put_pointers(page: &mut [u8; 8192]) {
    put_u32(page, 24, 0x0038_9fe0);
    put_u32(page, 28, 0x0038_9fc0);
    put_u16(page, 32, 0x9fa0);
    put_u16(page, 34, 0x0038);
}

// What is written is what a server writes: a header, line pointers, a block number.
#[test]
fn written_bytes(rt: HostRuntime) {
    let want = page_of(&[THREE_TUPLES]);
    let mut page = [0u8; 8192];
    put_header(&mut page, PageView::new(&want).header());
    put_pointers(&mut page);
    holds(&rt, page == want, 0);
    let mut block = [0xffu8; 6];
    put_block(&mut block, 1, 65538);
    holds(&rt, block == *b"\xff\x01\0\x02\0\xff", 1);
    same(&rt, &block_at(&block, 1), &65538, 2);
}

const LENGTHS: [(u16, u16); 5] = [(0, 0), (1, 8), (8, 8), (23, 24), (25, 32)];

#[test]
fn lengths_rounded_up(rt: HostRuntime) {
    for (len, want) in LENGTHS {
        assert!(rt; len < 1000);
        same(&rt, &max_align(len), &want, len.into());
    }
}

const CODES: [(Rule, &str); 5] = [
    (Rule::S1, "S1"),
    (Rule::H21, "H21"),
    (Rule::B10, "B10"),
    (Rule::X2, "X2"),
    (Rule::X3, "X3"),
];

#[test]
fn codes(rt: HostRuntime) {
    let mut row = 0u32;
    for (rule, code) in CODES {
        row = row.wrapping_add(1);
        holds(&rt, rule.code() == code, row);
    }
}
