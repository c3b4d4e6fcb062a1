//! Runs of `index` on trees of several pages: sound ones, also where a split or a deletion was interrupted, and each
//! rule of levels broken.
//!
//! Of the flags 1 is a leaf, 2 the root, 81 a leaf whose right half has no downlink yet, 11 a half-dead leaf, 91 one
//! that was split before, and 5 a deleted page.
use crate::expected::{NUMBER, TWO_NUMBERS, expect_laid};
use crate::laid::TWO_LEVELS;
use std::alloc::Global;
use std::process::Abort;
use std::test::Fail;

/// Two leaves of entries of two numbers; the high key keeps the first number alone.
pub(crate) const OF_TWO_NUMBERS: &str =
    "3:1:3:1; :2:0:1 5> 4,1@1 4,2@2; 1:0:0:1 5,1@3 5,3@4; :1:2 ->1 5>2";

/// Two leaves of entries of one number, told apart by a TID.
pub(crate) const EQUAL_KEYS: &str = "3:1:3:1; :2:0:1 7+2> 7@1 7@2; 1:0:0:1 7@3; :1:2 ->1 7+2>2";

/// The same where the root's separator has no TID.
pub(crate) const LOST_TID: &str = "3:1:3:1; :2:0:1 7+2> 7@1 7@2; 1:0:0:1 7@3; :1:2 ->1 7>2";

/// A half-dead leaf before the first that is named.
pub(crate) const DEAD_FIRST: &str =
    "3:1:3:1; :2:0:11 ->0; 1:4:0:1 7> 5@1; :1:2 ->2 7>4; 2:0:0:1 7@2 9@3";

// The rows 4 1, 4 2, 5 1 and 5 3.
const PAIRS: &str = "2bc.0.0.1.2.900#0400000001000000 2bc.0.0.2.2.900#0400000002000000 \
2bc.0.0.3.2.900#0500000001000000 2bc.0.0.4.2.900#0500000003000000";

// The text of a case, its heap, its tree, and what is told.
const EQUAL: [[&str; 4]; 4] = [
    [TWO_NUMBERS, PAIRS, OF_TWO_NUMBERS, ""],
    [NUMBER, "7 7 7", EQUAL_KEYS, ""],
    [NUMBER, "7 7 7", LOST_TID, "L5 index 1 block 2"],
    // The second leaf begins with the separator's own TID.
    [
        NUMBER,
        "7 7 7",
        "3:1:3:1; :2:0:1 7+2> 7@1 7@2; 1:0:0:1 7@2 7@3; :1:2 ->1 7+2>2",
        "L6 index 1 block 2",
    ],
];

#[test]
fn equal_keys(rt: HostRuntime) -> Result<(), Fail> {
    for row in EQUAL {
        expect_laid(&rt, rt.alloc(), row)?;
    }
    Ok(())
}

// Runs `index` on the rows 5, 7 and 9 and a tree, and compares the report.
fn expect_tree(rt: &impl Abort, alloc: Global, tree: &str, told: &str) -> Result<(), Fail> {
    expect_laid(rt, alloc, [NUMBER, "5 7 9", tree, told])
}

const SOUND: [&str; 8] = [
    TWO_LEVELS,
    DEAD_FIRST,
    // A half-dead leaf between two others.
    "3:1:3:1; :2:0:1 7> 5@1; 1:4:0:11 ->0; :1:2 ->1 7>4; 2:0:0:1 7@2 9@3",
    // A right half without a downlink.
    "3:1:3:1; :2:0:81 7> 5@1; 1:4:0:1 9> 7@2; :1:2 ->1 9>4; 2:0:0:1 9@3",
    // A leaf that was the root, and its right half; and the same below a root of its own.
    "1:0:1:0; :2:0:81 7> 5@1; 1:0:0:1 7@2 9@3",
    "3:1:1:0; :2:0:81 7> 5@1; 1:0:0:1 7@2 9@3; :1:2 ->1",
    // A page of level 1 that is being deleted with the half-dead leaf below it: it has one downlink.
    "6:2:6:2; :2:0:11 ->0; 1:3:0:1 7> 5@1; 2:0:0:1 7@2 9@3; :5:1:0 5> ->1; 4:0:1:0 ->2 7>3; :2:2 ->5",
    // A root without further pages, but for a deleted one and one that was never written.
    "1:0:1:0; :3 5@1 7@2 9@3; :5; :0",
];

#[test]
fn sound_trees(rt: HostRuntime) -> Result<(), Fail> {
    for tree in SOUND {
        expect_tree(&rt, rt.alloc(), tree, "")?;
    }
    Ok(())
}

// Trees of which the metapage is wrong, and what is told.
const ROOTS: [(&str, &str); 7] = [
    // Another level of the root and of the fast root, a fast root above the root, and a root that was deleted.
    (
        "3:2:3:2; :2:0:1 9> 5@1 7@2; 1:0:0:1 9@3; :1:2 ->1 9>2",
        "L1 index 1 block 0",
    ),
    (
        "3:1:1:1; :2:0:1 9> 5@1 7@2; 1:0:0:1 9@3; :1:2 ->1 9>2",
        "L1 index 1 block 0",
    ),
    (
        "5:1:6:2; :2:0:11 ->0; 1:3:0:1 7> 5@1; 2:0:0:1 7@2 9@3; :5:1:0 5> ->1; 4:0:1:0 ->2 7>3; :2:2 ->5",
        "L1 index 1 block 0",
    ),
    ("1:0:1:0; :5", "L1 index 1 block 0"),
    // A fast root that isn't alone on its level: the first page, the last one, and one with a half-dead leaf before it.
    (
        "3:1:1:0; :2:0:1 9> 5@1 7@2; 1:0:0:1 9@3; :1:2 ->1 9>2",
        "L8 index 1 block 1",
    ),
    (
        "3:1:2:0; :2:0:1 9> 5@1 7@2; 1:0:0:1 9@3; :1:2 ->1 9>2",
        "L8 index 1 block 2",
    ),
    (
        "3:1:2:0; :2:0:11 ->0; 1:0:0:1 7@2 9@3; :1:2 ->2",
        "L8 index 1 block 2",
    ),
];

#[test]
fn wrong_roots(rt: HostRuntime) -> Result<(), Fail> {
    for (tree, told) in ROOTS {
        expect_tree(&rt, rt.alloc(), tree, told)?;
    }
    Ok(())
}

// Trees of which a chain is wrong, or a page has no role in one, and what is told.
const CHAINS: [(&str, &str); 13] = [
    // A circle of two leaves, and the same below a root.
    (
        "1:0:1:0; 2:2:0:1 7> 5@1; 1:1:0:1 9> 7@2",
        "L2 index 1 block 1",
    ),
    (
        "3:1:3:1; 2:2:0:1 7> 5@1; 1:1:0:1 9> 7@2; :1:2 ->1 7>2",
        "L2 index 1 block 1",
    ),
    // Two leaves that are named, and have no siblings.
    (
        "3:1:3:1; :1 5@1; :1 7@2 9@3; :1:2 ->1 7>2",
        "L4 index 1 block 1",
    ),
    // Three leaves that are named in another order.
    (
        "3:1:3:1; :2:0:1 7> 5@1; 1:4:0:1 9> 7@2; :1:2 ->1 7>4 9>2; 2:0:0:1 9@3",
        "L4 index 1 block 1",
    ),
    // A leaf that is named twice.
    ("2:1:2:1; :1 5@1; :1:2 ->1 7>1", "L4 index 1 block 1"),
    // A half-dead leaf that is named, and one alone.
    (
        "3:1:3:1; :2:0:11 ->0; 1:4:0:1 7> 5@1; :1:2 ->1 7>4; 2:0:0:1 7@2 9@3",
        "L4 index 1 block 1",
    ),
    ("1:0:1:0; :11", "L4 index 1 block 1"),
    // A leaf that isn't named, where the one before it isn't split, and the same with a leaf in no chain beside it.
    (
        "3:1:3:1; :2:0:1 7> 5@1; 1:4:0:1 9> 7@2; :1:2 ->1 9>4; 2:0:0:1 9@3",
        "L3 index 1 block 2",
    ),
    (
        "3:1:3:1; :2:0:1 7> 5@1; 1:4:0:1 9> 7@2; :1:2 ->1 9>4; 2:0:0:1 9@3; :1",
        "L3 index 1 block 2",
    ),
    // A first leaf that isn't named and is no half-dead one.
    (
        "3:1:3:1; :2:0:1 5>; 1:4:0:1 7> 5@1; :1:2 ->2 7>4; 2:0:0:1 7@2 9@3",
        "L3 index 1 block 1",
    ),
    // A half-dead leaf that was split: what is behind it is no right half.
    (
        "3:1:3:1; :2:0:91 ->0; 1:4:0:1 7> 5@1; :1:2 ->4; 2:0:0:1 7@2 9@3",
        "L3 index 1 block 2",
    ),
    // A page of level 1 that isn't named and has two downlinks.
    (
        "6:2:6:2; :2:0:11 ->0; 1:3:0:1 7> 5@1; 2:0:0:1 7@2 9@3; :5:1:0 9> ->1 5>1; 4:0:1:0 ->2 7>3; :2:2 ->5",
        "L3 index 1 block 4",
    ),
    // A half-dead leaf as the last.
    (
        "3:1:3:1; :2:0:1 7> 5@1; 1:0:0:11; :1:2 ->1",
        "L7 index 1 block 2",
    ),
];

#[test]
fn wrong_chains(rt: HostRuntime) -> Result<(), Fail> {
    for (tree, told) in CHAINS {
        expect_tree(&rt, rt.alloc(), tree, told)?;
    }
    Ok(())
}

// Trees of which a page is out of its bounds, or lost, and what is told.
const BOUNDS: [(&str, &str); 8] = [
    // The root's separator isn't the high key of the leaf before.
    (
        "3:1:3:1; :2:0:11 ->0; 1:4:0:1 7> 5@1; :1:2 ->2 8>4; 2:0:0:1 7@2 9@3",
        "L5 index 1 block 4",
    ),
    // A second leaf that begins below the first one's high key.
    (
        "3:1:3:1; :2:0:1 9> 5@1; 1:0:0:1 7@2 9@3; :1:2 ->1 9>2",
        "L6 index 1 block 2",
    ),
    // A leaf whose high key isn't above that of the leaf before.
    (
        "3:1:3:1; :2:0:1 7> 5@1; 1:4:0:81 7>; :1:2 ->1 7>2; 2:0:0:1 7@2 9@3",
        "L6 index 1 block 2",
    ),
    // A page of level 1 whose second downlink begins where the page does.
    (
        "6:2:6:2; :2:0:1 7> 5@1; 1:3:0:1 9> 7@2; 2:0:0:1 9@3; :5:1:0 7> ->1; 4:0:1:0 ->2 7>3; :2:2 ->4 7>5",
        "L6 index 1 block 5",
    ),
    // A root without further pages, but for a leaf in no chain, which may have an item that breaks a rule of its own.
    ("1:0:1:0; :3 5@1 7@2 9@3; :1 8@2", "L9 index 1 block 2"),
    (
        "1:0:1:0; :3 5@1 7@2 9@3; :1 7@0",
        "B9 index 1 block 2 item 1",
    ),
    // A leaf that is the root, and a page above it.
    ("1:0:1:0; :3 5@1 7@2 9@3; :1:2 ->1", "L9 index 1 block 2"),
    // A half-dead leaf in an index without a root.
    ("0:0:0:0; :11", "L9 index 1 block 1"),
];

#[test]
fn bounds_and_lost_pages(rt: HostRuntime) -> Result<(), Fail> {
    for (tree, told) in BOUNDS {
        expect_tree(&rt, rt.alloc(), tree, told)?;
    }
    Ok(())
}
