//! The pages of a small index as a server writes them, and pages that are no part of a tree.
use crate::trees::{THREE, leaf_bytes};
use bt_meta::{HeadKind, Meta, Opaque, TreeHead, is_idle, meta, meta_rule, opaque, tree_head};
use page_layout::{PageView, Rule};
use std::test::Fail;
use test_fixtures::metapage;

// The metapage with other numbers: the version, the root, the fast root and the flags.
fn metapage_with((version, root, fastroot, flags): (u8, u8, u8, u8)) -> [u8; 8192] {
    let mut page = metapage(1, 0);
    page[28] = version;
    page[32] = root;
    page[40] = fastroot;
    page[8188] = flags;
    page
}

// A tree page with this lower place, upper place, level and flags.
fn node((lower, upper, level, flags): (u8, u8, u8, u8)) -> [u8; 8192] {
    let mut page = [0u8; 8192];
    page[12] = lower;
    page[14] = upper;
    page[8184] = level;
    page[8188] = flags;
    page
}

#[test]
fn a_metapage(rt: HostRuntime) {
    let bytes = metapage(1, 0);
    let page = PageView::new(&bytes);
    let want = Meta {
        magic: 0x0005_3162,
        version: 4,
        root: 1,
        level: 0,
        fastroot: 1,
        fastlevel: 0,
    };
    assert_eq!(rt; meta(page), want);
    assert!(rt; opaque(page).is_meta() && !is_idle(page));
    assert!(rt; meta_rule(page, 2).is_none());
}

#[test]
fn a_leaf(rt: HostRuntime) -> Result<(), Fail> {
    let bytes = leaf_bytes(rt.alloc(), THREE)?;
    let page = PageView::new(&bytes);
    let special = opaque(page);
    let want = Opaque {
        prev: 0,
        next: 0,
        level: 0,
        flags: 3,
        cycle: 0,
    };
    assert_eq!(rt; special, want);
    assert!(rt; special.is_leaf() && !special.is_half_dead() && !special.is_split_unfinished());
    assert!(rt; !is_idle(page) && meta_rule(page, 2) == Some(Rule::M1));
    Ok(())
}

#[test]
fn head_of_an_entry(rt: HostRuntime) -> Result<(), Fail> {
    let bytes = leaf_bytes(rt.alloc(), THREE)?;
    let want = TreeHead {
        block: 0,
        item: 2,
        info: 16,
        kind: HeadKind::Plain,
    };
    assert_eq!(rt; tree_head(PageView::new(&bytes).piece(8144, 16)), want);
    Ok(())
}

// A posting tuple with its list at byte 16; a separator of two values and a TID that leads to
// block 65538; an entry that names item 8193 of its block.
const HEADS: [(&[u8; 8], u32, HeadKind); 3] = [
    (b"\0\0\x10\0\x02\x20\x20\x20", 16, HeadKind::Posting),
    (b"\x01\0\x02\0\x02\x10\x18\x20", 65538, HeadKind::Pivot),
    (b"\0\0\x07\0\x01\x20\x10\0", 7, HeadKind::Plain),
];

#[test]
fn heads(rt: HostRuntime) {
    for (bytes, block, kind) in HEADS {
        let head = tree_head(bytes);
        assert_eq!(rt; (head.block, head.kind), (block, kind));
    }
}

// New; deleted; laid out and never used; then half-dead, with an item, a root above leaves and
// an inner page.
const IDLE: [((u8, u8, u8, u8), bool); 7] = [
    ((0, 0, 0, 0), true),
    ((32, 200, 0, 5), true),
    ((24, 240, 0, 0), true),
    ((28, 200, 0, 17), false),
    ((28, 200, 0, 0), false),
    ((24, 240, 1, 0), false),
    ((24, 240, 0, 2), false),
];

#[test]
fn idle_pages(rt: HostRuntime) {
    for (parts, want) in IDLE {
        let bytes = node(parts);
        assert_eq!(rt; is_idle(PageView::new(&bytes)), want, "{parts:?}");
    }
}

// An unknown version, no mark, the fast root past the end, no root, no fast root, an empty tree,
// and what an older version may have.
const METAPAGES: [((u8, u8, u8, u8), Option<Rule>); 9] = [
    ((1, 1, 1, 8), Some(Rule::M1)),
    ((5, 1, 1, 8), Some(Rule::M1)),
    ((4, 1, 1, 2), Some(Rule::M1)),
    ((4, 1, 2, 8), Some(Rule::M2)),
    ((4, 0, 1, 8), Some(Rule::M2)),
    ((4, 1, 0, 8), Some(Rule::M2)),
    ((4, 0, 0, 8), None),
    ((3, 0, 9, 8), None),
    ((2, 1, 1, 8), None),
];

#[test]
fn metapage_rules(rt: HostRuntime) {
    for (parts, want) in METAPAGES {
        let bytes = metapage_with(parts);
        assert_eq!(rt; meta_rule(PageView::new(&bytes), 2), want, "{parts:?}");
    }
    assert_eq!(rt; meta_rule(PageView::new(&[0u8; 8192]), 1), Some(Rule::M1));
}
