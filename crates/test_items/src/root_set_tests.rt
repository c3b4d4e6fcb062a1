//! A heap page with an item of each kind.
use crate::checks::holds;
use crate::pages::{Piece, page_of};
use heap_targets::RootSet;
use key_orders::Tid;
use outside::NoMemory;
use page_layout::{PageKind, PageView};
use std::process::Abort;
use std::test::Fail;

// A page with a redirect to item 4, a dead item, an unused one, a tuple of 24 bytes, and before it a heap-only one.
const PAGE: [Piece<'static>; 5] = [
    (12, b"\x2c\0\xd0\x1f\0\x20\x04\x20"),
    (24, b"\x04\0\x01\0\0\x80\x01\0"),
    (36, b"\xe8\x9f\x30\0"),
    (40, b"\xd0\x9f\x30\0"),
    (8144 + 19, b"\x80"),
];

// Adds a page of a heap to a set of few.
fn add(rt: &impl Abort, set: &mut RootSet, bytes: &[u8; 8192]) -> Result<(), NoMemory> {
    let page = PageView::new(bytes);
    assert!(rt; page.page_rule(PageKind::Heap).is_none());
    assert!(rt; set.blocks() < 65536);
    set.add_page(page)
}

const WANTED: [(u16, bool); 7] = [
    (0, false),
    (1, true),
    (2, true),
    (3, false),
    (4, true),
    (5, false),
    (6, false),
];

#[test]
fn items_of_two_blocks(rt: HostRuntime) -> Result<(), Fail> {
    let bytes = page_of(&PAGE);
    let mut set = RootSet::new(rt.alloc());
    holds(&rt, !set.has(Tid { block: 0, item: 1 }), 0);
    add(&rt, &mut set, &bytes)?;
    add(&rt, &mut set, &bytes)?;
    holds(&rt, set.blocks() == 2, 1);
    for (item, want) in WANTED {
        holds(&rt, set.has(Tid { block: 0, item }) == want, item.into());
        holds(&rt, set.has(Tid { block: 1, item }) == want, item.into());
        holds(&rt, !set.has(Tid { block: 2, item }), item.into());
    }
    Ok(())
}
