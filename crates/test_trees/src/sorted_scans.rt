//! Scans of small trees by chance, both ways, against a plain sort of the entries that stand on the leaves.
use crate::scans::{Edge, new_reader, next, scan_of, start};
use crate::trees::open_file;
use bt_levels::SoundTree;
use case_file::Case;
use outside::NoMemory;
use std::alloc::Global;
use std::test::Fail;
use test_fixtures::IndexTuple::{Above, AboveItem, Entry, First, Killed};
use test_fixtures::{
    INNER, IndexTuple, LEAF, TreePage, UntoldFiles, index_file, indexed_case, tree_page,
};

// The value of an entry, and its item. Those of items 3, 7 and 11 are killed.
type Placed = (u16, u16);

fn is_killed(item: u16) -> bool {
    item % 4 == 3
}

// The next number by chance.
fn next_number(chance: u64) -> u64 {
    chance
        .wrapping_mul(6364136223846793005)
        .wrapping_add(1442695040888963407)
}

// The entries of twelve items with values from 1 to 8, sorted.
fn sorted_entries(alloc: Global, chance: u64) -> Result<Vec<Placed>, NoMemory> {
    let mut entries = Vec::new(alloc);
    let mut chance = chance;
    for item in 1..13u16 {
        chance = next_number(chance);
        entries.push(((chance >> 61) as u16 + 1, item))?;
    }
    entries.sort()?;
    Ok(entries)
}

// What parts the entries of two leaves: a value, and where both have it the last item of the left one.
fn separator(block: u16, left: &[Placed], right: &[Placed]) -> Option<IndexTuple> {
    let (value, item) = *left.last()?;
    let (next_value, _) = *right.first()?;
    if value < next_value {
        Some(Above(block, next_value))
    } else {
        Some(AboveItem(block, value, item))
    }
}

// The tuples of a leaf of these entries, before one of those behind it.
fn leaf_tuples(
    alloc: Global,
    entries: &[Placed],
    behind: &[Placed],
) -> Result<Vec<IndexTuple>, NoMemory> {
    let mut tuples = Vec::new(alloc);
    if let Some(high_key) = separator(0, entries, behind) {
        tuples.push(high_key)?;
    }
    for (value, item) in entries {
        let (value, item) = (*value, *item);
        tuples.push(if is_killed(item) {
            Killed(value, item)
        } else {
            Entry(value, item)
        })?;
    }
    Ok(tuples)
}

// Adds to a file a leaf with these siblings and entries, before one of those behind it.
fn add_leaf(
    alloc: Global,
    bytes: &mut Vec<u8>,
    (prev, next): (u16, u16),
    entries: &[Placed],
    behind: &[Placed],
) -> Result<(), NoMemory> {
    let tuples = leaf_tuples(alloc, entries, behind)?;
    let page = tree_page(&TreePage {
        prev,
        next,
        tuples: &tuples,
        ..LEAF
    });
    bytes.extend_from_slice(&page)?;
    Ok(())
}

// The page above three leaves of these entries.
fn root_page(left: &[Placed], middle: &[Placed], right: &[Placed]) -> Option<[u8; 8192]> {
    let tuples = [
        First(1),
        separator(2, left, middle)?,
        separator(3, middle, right)?,
    ];
    Some(tree_page(&TreePage {
        tuples: &tuples,
        ..INNER
    }))
}

// The file of an index of three leaves of these entries, and above them block 4.
fn file_of(
    alloc: Global,
    left: &[Placed],
    middle: &[Placed],
    right: &[Placed],
) -> Result<Vec<u8>, Fail> {
    let root = root_page(left, middle, right).ok_or("no entry")?;
    let mut bytes = index_file(alloc, (4, 1), &[])?;
    add_leaf(alloc, &mut bytes, (0, 2), left, middle)?;
    add_leaf(alloc, &mut bytes, (1, 3), middle, right)?;
    add_leaf(alloc, &mut bytes, (2, 0), right, &[])?;
    bytes.extend_from_slice(&root)?;
    Ok(bytes)
}

// The same of entries that are cut into three by chance.
fn tree_bytes(alloc: Global, entries: &[Placed], chance: u64) -> Result<Vec<u8>, Fail> {
    let (left_count, count) = ((chance >> 62) as usize + 1, (chance >> 60) as usize % 4 + 1);
    let (left, rest) = entries.split_at_checked(left_count).ok_or("too few")?;
    let (middle, right) = rest.split_at_checked(count).ok_or("too few")?;
    file_of(alloc, left, middle, right)
}

// A bound by chance, of 0 to 9, or none.
fn edge(chance: u64) -> Edge {
    let number = (chance >> 33) as u32;
    if number % 5 == 0 {
        return None;
    }
    Some((i64::from(number / 5 % 10), number / 50 % 2 == 0))
}

// Whether a value keeps to two bounds.
fn is_within(value: i64, (low, high): (Edge, Edge)) -> bool {
    let is_high_enough = match low {
        Some((bound, inclusive)) => bound < value || (inclusive && bound == value),
        None => true,
    };
    let is_low_enough = match high {
        Some((bound, inclusive)) => value < bound || (inclusive && value == bound),
        None => true,
    };
    is_high_enough && is_low_enough
}

// Those of the entries that a scan should yield.
fn wanted(
    alloc: Global,
    entries: &[Placed],
    edges: (Edge, Edge),
) -> Result<Vec<(i64, u16)>, NoMemory> {
    let mut wanted = Vec::new(alloc);
    for (value, item) in entries {
        let (value, item) = (i64::from(*value), *item);
        if !is_killed(item) && is_within(value, edges) {
            wanted.push((value, item))?;
        }
    }
    Ok(wanted)
}

// Whether a scan yields these entries and no other.
fn is_scanned(
    alloc: Global,
    files: &mut UntoldFiles,
    tree: &SoundTree,
    (edges, backward): ((Edge, Edge), bool),
    want: &[(i64, u16)],
) -> Result<bool, Fail> {
    let scan = scan_of(alloc, tree, edges)?;
    let mut reader = new_reader(backward);
    start(tree, files, &scan, &mut reader)?;
    for entry in want {
        if next(tree, files, &scan, &mut reader)? != Some(*entry) {
            return Ok(false);
        }
    }
    Ok(next(tree, files, &scan, &mut reader)?.is_none())
}

// Whether scans of a tree of these entries yield both ways what they should.
fn are_scanned(
    alloc: Global,
    files: &mut UntoldFiles,
    tree: &SoundTree,
    entries: &[Placed],
    edges: (Edge, Edge),
) -> Result<bool, Fail> {
    let mut want = wanted(alloc, entries, edges)?;
    let is_forward = is_scanned(alloc, files, tree, (edges, false), &want)?;
    want.reverse();
    let is_backward = is_scanned(alloc, files, tree, (edges, true), &want)?;
    Ok(is_forward && is_backward)
}

// The same of a tree by chance.
fn is_sorted(alloc: Global, case: &Case, chance: u64) -> Result<bool, Fail> {
    let entries = sorted_entries(alloc, chance)?;
    let bytes = tree_bytes(alloc, &entries, next_number(chance))?;
    let (mut files, tree) = open_file(alloc, case, bytes)?;
    let edges = (edge(chance), edge(next_number(chance)));
    are_scanned(alloc, &mut files, &tree, &entries, edges)
}

#[test]
fn scans_yield_what_is_sorted(rt: HostRuntime) -> Result<(), Fail> {
    let case = indexed_case(rt.alloc(), "int4").ok_or("refused")?;
    let mut chance = 5u64;
    for _ in 0..1000 {
        chance = next_number(chance);
        assert!(rt; is_sorted(rt.alloc(), &case, chance)?, "{chance}");
    }
    Ok(())
}
