//! Bits of blocks, and what they say that isn't so.
use crate::checks::{code_of, holds, same};
use crate::pages::{Piece, page_of};
use liveness::{ItemState, Judged, Life};
use page_layout::{PageKind, PageView, Rule};
use std::process::Abort;
use tuple_head::heap_head;
use vis_map::{MapBits, bits_in, map_page_of, map_pages_for, map_rule};

// A laid out map page with two bytes that aren't 0 behind its header, and one at its end.
const MAP_PAGE: [Piece<'static>; 3] = [
    (12, b"\x18\0\0\x20\0\x20\x04\x20"),
    (24, &[0b0011_1001, 0b0000_0001]),
    (8191, &[0b1000_0000]),
];

// The bits of a number: 1 all visible, 2 all frozen.
fn map_bits(number: u8) -> MapBits {
    MapBits {
        all_visible: number % 2 == 1,
        all_frozen: number / 2 == 1,
    }
}

// Blocks 0 to 3 stand in the first byte from the lowest bits up, block 4 in the next one.
const BITS: [(u32, u8); 11] = [
    (0, 1),
    (1, 2),
    (2, 3),
    (3, 0),
    (4, 1),
    (5, 0),
    (32670, 0),
    (32671, 2),
    // On the second page of the map, the places are those of the first blocks.
    (32672, 1),
    (32674, 3),
    (65343, 2),
];

fn bits_of(rt: &impl Abort, bytes: &[u8; 8192], block: u32) -> MapBits {
    let page = PageView::new(bytes);
    assert!(rt; page.page_rule(PageKind::Map).is_none());
    bits_in(page, block)
}

#[test]
fn bits_of_blocks(rt: HostRuntime) {
    let bytes = page_of(&MAP_PAGE);
    for (block, want) in BITS {
        same(&rt, &bits_of(&rt, &bytes, block), &map_bits(want), block);
    }
}

#[test]
fn new_page_has_no_bits(rt: HostRuntime) {
    same(&rt, &bits_of(&rt, &[0u8; 8192], 7), &MapBits::NONE, 7);
}

// Blocks, and the pages of the map that they stand on.
const PAGES: [(u32, u32); 5] = [
    (0, 0),
    (32671, 0),
    (32672, 1),
    (65344, 2),
    (u32::MAX, 131457),
];

// How many pages the map of so many blocks has.
const COUNTS: [(u32, u32); 6] = [
    (0, 0),
    (1, 1),
    (32672, 1),
    (32673, 2),
    (65345, 3),
    (u32::MAX, 131458),
];

#[test]
fn pages_of_the_map(rt: HostRuntime) {
    for (block, page) in PAGES {
        same(&rt, &map_page_of(block), &page, block);
    }
    for (blocks, pages) in COUNTS {
        same(&rt, &map_pages_for(blocks), &pages, blocks);
    }
}

// A tuple inserted by transaction 700, with no xmax, not frozen.
const UNFROZEN: [u8; 24] = *b"\xbc\x02\0\0\0\0\0\0\0\0\0\0\0\0\0\0\x01\0\x01\0\0\x09\x18\0";

// The same, frozen.
const SETTLED: [u8; 24] = *b"\xbc\x02\0\0\0\0\0\0\0\0\0\0\0\0\0\0\x01\0\x01\0\0\x0b\x18\0";

// The same again, with xmax 701, hinted committed.
const DELETED: [u8; 24] = *b"\xbc\x02\0\0\xbd\x02\0\0\0\0\0\0\0\0\0\0\x01\0\x01\0\0\x05\x18\0";

// What stands on a page.
#[derive(Clone, Copy)]
enum Items {
    None,
    UnusedAndRedirect,
    DeadItem,
    Unfrozen,
    Frozen,
    Deleted,
}

// The rule that is broken on a page of one tuple, which is live, or is dead by its update.
fn rule_of_tuple(bits: MapBits, flag: bool, bytes: &[u8; 24], update: u32) -> Option<Rule> {
    let head = heap_head(bytes);
    let life = if update == 0 { Life::Live } else { Life::Dead };
    let judged = Judged { life, update };
    map_rule(bits, flag, &[ItemState::Tuple { head, judged }])
}

fn rule_of(bits: MapBits, flag: bool, items: Items) -> Option<Rule> {
    match items {
        Items::None => map_rule(bits, flag, &[]),
        Items::UnusedAndRedirect => {
            map_rule(bits, flag, &[ItemState::Unused, ItemState::Redirect(3)])
        }
        Items::DeadItem => map_rule(bits, flag, &[ItemState::Dead]),
        Items::Unfrozen => rule_of_tuple(bits, flag, &UNFROZEN, 0),
        Items::Frozen => rule_of_tuple(bits, flag, &SETTLED, 0),
        Items::Deleted => rule_of_tuple(bits, flag, &DELETED, 701),
    }
}

// The bits of a block, the flag of its page, its items and the rule that is broken.
const RULES: [(u8, bool, Items, &str); 14] = [
    (1, true, Items::Deleted, "V3"),
    (2, true, Items::Unfrozen, "V1"),
    (3, true, Items::Unfrozen, "V4"),
    (3, true, Items::Frozen, ""),
    (1, true, Items::Unfrozen, ""),
    (1, false, Items::Unfrozen, "V2"),
    (3, false, Items::Frozen, "V2"),
    (0, true, Items::Unfrozen, ""),
    (0, true, Items::Deleted, "V3"),
    (0, false, Items::Deleted, ""),
    (0, true, Items::DeadItem, "V3"),
    (3, true, Items::UnusedAndRedirect, ""),
    (3, true, Items::None, ""),
    (1, false, Items::None, "V2"),
];

#[test]
fn rules_of_a_block(rt: HostRuntime) {
    let mut row = 0u32;
    for (bits, flag, items, want) in RULES {
        row = row.wrapping_add(1);
        let rule = rule_of(map_bits(bits), flag, items);
        holds(&rt, code_of(rule) == want, row);
    }
}
