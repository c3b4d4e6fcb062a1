//! Scans of small indexes in memory.
ghost use Rattle.std.specs.Prelude.{IfOk};
ghost use Rattle.key_orders.specs.Scans.{FitsKey};
ghost use Rattle.bt_levels.specs.Sound.{specs_of};

use crate::trees::{DEAD_BETWEEN, DEAD_FIRST, EMPTY, LISTED, PAIRS, SEVENS, SIX, numbers_of, open};
use back_scan::{descend_last, prev_entry};
use bt_levels::SoundTree;
use bt_search::{OnLeaf, Search, Spot, Visits, descend, entry_at, next_entry, read_leaf, tid_on};
use bt_tuples::ItemKeys;
use key_orders::{Scan, Value, ValueRef};
use page_layout::{PageKind, PageView};
use rel_files::ReadFault;
use std::alloc::Global;
use std::test::Fail;
use test_fixtures::UntoldFiles;

/// A bound on the first column: a value, and whether it is inclusive.
pub type Edge = Option<(i64, bool)>;

/// The scan of the entries between two bounds.
pub fn scan_of(alloc: Global, tree: &SoundTree, edges: (Edge, Edge)) -> Result<Scan, Fail>
    ensures { IfOk result (FitsKey (specs_of tree.now)) }
{
    let (low, high) = edges;
    let (low_value, low_inclusive) = low.unwrap_or((0, true));
    let (high_value, high_inclusive) = high.unwrap_or((0, true));
    let low_values = [Value::Int(low_value)];
    let high_values = [Value::Int(high_value)];
    let low_values: &[Value] = if low.is_some() { &low_values } else { &[] };
    let high_values: &[Value] = if high.is_some() { &high_values } else { &[] };
    Ok(Scan::new(
        alloc,
        tree.specs(),
        low_values,
        low_inclusive,
        high_values,
        high_inclusive,
    )?)
}

/// Where a reader of a scan is, and which way it goes.
#[derive(Drop)]
pub struct Reader {
    backward: bool,
    spot: Spot,
    page: [u8; 8192],
    visits: Visits,
}

/// A reader that hasn't begun.
pub fn new_reader(backward: bool) -> Reader {
    Reader {
        backward,
        spot: Spot {
            block: 0,
            item: 0,
            nth: 0,
        },
        page: [0; 8192],
        visits: Visits { count: 0 },
    }
}

// The first value and the item of the entry at a place of a page, which is for an item of block 0.
fn entry_on(tree: &SoundTree, page: &[u8; 8192], at: Spot) -> Option<(i64, u16)> {
    let entry = entry_at(tree, page, at)?;
    match entry.key.as_slice().first() {
        Some(ValueRef::Int(value)) if entry.tid.block == 0 => Some((*value, entry.tid.item)),
        _ => None,
    }
}

/// Goes to the leaf where a scan begins.
pub fn start(
    tree: &SoundTree,
    files: &mut UntoldFiles,
    scan: &Scan,
    reader: &mut Reader,
) -> Result<(), ReadFault>
    requires { FitsKey (specs_of tree.now) scan.now }
{
    // It has fewer than 2^32.
    let _blocks = tree.blocks();
    let mut visits = Visits { count: 0 };
    let page = &mut reader.page;
    let spot = if reader.backward {
        descend_last(tree, files, scan, page, &mut visits)
    } else {
        descend(tree, files, scan, page, &mut visits)
    };
    reader.visits = visits;
    reader.spot = spot?;
    Ok(())
}

// Goes past the next entry of a scan, and says where it stands.
fn next_spot(
    tree: &SoundTree,
    files: &mut UntoldFiles,
    scan: &Scan,
    reader: &mut Reader,
) -> Result<Option<Spot>, Fail>
    requires { FitsKey (specs_of tree.now) scan.now }
{
    let _blocks = tree.blocks();
    let Reader {
        backward,
        spot,
        page,
        visits,
    } = reader;
    if visits.count > 100 {
        return Err("too many visits".into());
    }
    if *backward {
        Ok(prev_entry(tree, files, scan, spot, page, visits)?)
    } else {
        Ok(next_entry(tree, files, scan, spot, page, visits)?)
    }
}

/// Goes past the next entry of a scan, and says which it is.
pub fn next(
    tree: &SoundTree,
    files: &mut UntoldFiles,
    scan: &Scan,
    reader: &mut Reader,
) -> Result<Option<(i64, u16)>, Fail>
    requires { FitsKey (specs_of tree.now) scan.now }
{
    match next_spot(tree, files, scan, reader)? {
        Some(at) => Ok(entry_on(tree, &reader.page, at)),
        None => Ok(None),
    }
}

// Whether an entry has just these two values.
fn is_pair(tree: &SoundTree, page: &[u8; 8192], at: Spot, (first, second): (i64, i64)) -> bool {
    let Some(entry) = entry_at(tree, page, at) else {
        return false;
    };
    match entry.key.as_slice() {
        [ValueRef::Int(a), ValueRef::Int(b)] => *a == first && *b == second,
        _ => false,
    }
}

// Whether the two entries that a scan yields first have these values.
fn are_pairs(
    tree: &SoundTree,
    files: &mut UntoldFiles,
    scan: &Scan,
    pairs: &[(i64, i64)],
) -> Result<bool, Fail>
    requires { FitsKey (specs_of tree.now) scan.now }
{
    let mut reader = new_reader(false);
    start(tree, files, scan, &mut reader)?;
    for pair in pairs {
        let Some(at) = next_spot(tree, files, scan, &mut reader)? else {
            return Ok(false);
        };
        if !is_pair(tree, &reader.page, at, *pair) {
            return Ok(false);
        }
    }
    Ok(true)
}

#[test]
fn both_values_of_an_entry(rt: HostRuntime) -> Result<(), Fail> {
    let (mut files, tree) = open(rt.alloc(), PAIRS)?;
    let scan = scan_of(rt.alloc(), &tree, edges_of(">= 5, <= 5"))?;
    assert!(rt; are_pairs(&tree, &mut files, &scan, &[(5, 1), (5, 3)])?);
    Ok(())
}

// The bounds of a text: `>= 5, < 7` and the like, or `all`.
fn edges_of(text: &str) -> (Edge, Edge) {
    let (mut low, mut high) = (None, None);
    for bound in text.split(", ") {
        let Some((sign, number)) = bound.split_once(" ") else {
            continue;
        };
        let value = number.parse::<i64>().unwrap_or(0);
        if sign.starts_with(">") {
            low = Some((value, sign.ends_with("=")));
        }
        if sign.starts_with("<") {
            high = Some((value, sign.ends_with("=")));
        }
    }
    (low, high)
}

// The entry of a text by its value and its item, or none at the end.
fn entry_of(text: &str) -> Option<(i64, u16)> {
    if text == "end" {
        return None;
    }
    let [value, item, _, _] = numbers_of(text);
    Some((i64::from(value), item))
}

// Whether a scan yields the entries of a text, by this many visits.
fn yields(
    tree: &SoundTree,
    files: &mut UntoldFiles,
    scan: &Scan,
    backward: bool,
    want: &str,
    visits: u64,
) -> Result<bool, Fail>
    requires { FitsKey (specs_of tree.now) scan.now }
{
    let mut reader = new_reader(backward);
    start(tree, files, scan, &mut reader)?;
    for entry in want.split(", ") {
        if next(tree, files, scan, &mut reader)? != entry_of(entry) {
            return Ok(false);
        }
    }
    Ok(reader.visits.count == visits)
}

// An index, the bounds of a scan, the entries that it yields by their values and items, and how many visits it needs
// for them.
type Row = (&'static str, &'static str, &'static str, u64);

fn is_scanned(
    alloc: Global,
    (index, edges, want, visits): Row,
    backward: bool,
) -> Result<bool, Fail> {
    let (mut files, tree) = open(alloc, index)?;
    let scan = scan_of(alloc, &tree, edges_of(edges))?;
    yields(&tree, &mut files, &scan, backward, want, visits)
}

const FORWARD: [Row; 18] = [
    // of two columns
    (PAIRS, ">= 5, <= 5", "5 3, 5 4, end", 2),
    (PAIRS, "< 5", "4 1, 4 2, end", 3),
    (PAIRS, "all", "4 1, 4 2, 5 3, 5 4, end", 3),
    // of equal keys
    (SEVENS, ">= 7, <= 7", "7 1, 7 2, 7 3, end", 3),
    (SEVENS, "> 7", "end", 2),
    // past a half-dead leaf
    (DEAD_FIRST, "all", "5 1, 7 2, 9 3, end", 3),
    (DEAD_FIRST, ">= 9", "9 3, end", 2),
    (DEAD_BETWEEN, "all", "5 1, 7 2, 9 3, end", 4),
    (DEAD_BETWEEN, ">= 9", "9 3, end", 2),
    // of a list and a killed entry
    (LISTED, "all", "7 2, 7 3, 9 4, end", 1),
    (LISTED, ">= 5, <= 7", "7 2, 7 3, end", 1),
    (EMPTY, "all", "end", 0),
    // to each of six leaves, by halves
    (SIX, ">= 10, <= 10", "10 1", 2),
    (SIX, ">= 20, <= 20", "20 2", 2),
    (SIX, ">= 30, <= 30", "30 3", 2),
    (SIX, ">= 40, <= 40", "40 4", 2),
    (SIX, ">= 50, <= 50", "50 5", 2),
    (SIX, ">= 60, <= 60", "60 6", 2),
];

#[test]
fn scans_forward(rt: HostRuntime) -> Result<(), Fail> {
    for row in FORWARD {
        assert!(rt; is_scanned(rt.alloc(), row, false)?, "{row:?}");
    }
    Ok(())
}

const BACKWARD: [Row; 14] = [
    // of two columns: the leaf before the first five is read too
    (PAIRS, ">= 5, <= 5", "5 4, 5 3, end", 3),
    (PAIRS, "< 5", "4 2, 4 1, end", 2),
    (PAIRS, "< 6", "5 4, 5 3, 4 2, 4 1, end", 3),
    (PAIRS, "all", "5 4, 5 3, 4 2, 4 1, end", 3),
    // of equal keys: the last of them is on the second leaf
    (SEVENS, "<= 7", "7 3, 7 2, 7 1, end", 3),
    (SEVENS, "> 7", "end", 2),
    // past a half-dead leaf, and to one
    (DEAD_FIRST, "all", "9 3, 7 2, 5 1, end", 4),
    (DEAD_FIRST, ">= 9", "9 3, end", 2),
    (DEAD_BETWEEN, "all", "9 3, 7 2, 5 1, end", 4),
    (DEAD_BETWEEN, ">= 9", "9 3, end", 2),
    // of a list and a killed entry
    (LISTED, "all", "9 4, 7 3, 7 2, end", 1),
    (LISTED, ">= 5, <= 7", "7 3, 7 2, end", 1),
    (LISTED, ">= 9", "9 4, end", 1),
    (EMPTY, "all", "end", 0),
];

#[test]
fn scans_backward(rt: HostRuntime) -> Result<(), Fail> {
    for row in BACKWARD {
        assert!(rt; is_scanned(rt.alloc(), row, true)?, "{row:?}");
    }
    Ok(())
}

// The first value and the item of the entry at a place, whose key is at hand.
fn entry_in_hand(view: PageView<'_>, keys: &ItemKeys<'_>, at: Spot) -> Option<(i64, u16)> {
    if view.page_rule(PageKind::Tree).is_some() || at.item == 0 || at.item > view.item_count() {
        return None;
    }
    match keys.first.kept.as_slice().first() {
        Some(ValueRef::Int(value)) => Some((*value, tid_on(view, at).item)),
        _ => None,
    }
}

// Whether the rest of the leaf where a reader stands has just these entries.
fn has_entries(search: &Search<'_>, reader: &Reader, entries: &[(i64, u16)]) -> bool
    requires { FitsKey (specs_of search.now.tree.now) search.now.scan.now }
{
    let mut spot = reader.spot;
    let view = PageView::new(&reader.page);
    let mut keys = ItemKeys::new();
    for entry in entries {
        let OnLeaf::Entry(at) = read_leaf(search, view, &mut spot, &mut keys) else {
            return false;
        };
        if entry_in_hand(view, &keys, at) != Some(*entry) {
            return false;
        }
    }
    read_leaf(search, view, &mut spot, &mut keys) == OnLeaf::End
}

// Whether there is this entry at a place of a leaf.
fn has_at(
    tree: &SoundTree,
    reader: &Reader,
    (item, nth): (u16, u16),
    want: Option<(i64, u16)>,
) -> bool {
    let at = Spot {
        item,
        nth,
        ..reader.spot
    };
    entry_on(tree, &reader.page, at) == want
}

// Items, which TID of each is meant, and the entry there.
const PLACES: [(u16, u16, &str); 6] = [
    (1, 0, "5 1"),
    (1, 1, "end"),
    (2, 1, "7 3"),
    (2, 2, "end"),
    (0, 0, "end"),
    (4, 0, "end"),
];

#[test]
fn entries_of_a_leaf(rt: HostRuntime) -> Result<(), Fail> {
    let (mut files, tree) = open(rt.alloc(), LISTED)?;
    let scan = scan_of(rt.alloc(), &tree, (None, None))?;
    let mut reader = new_reader(false);
    start(&tree, &mut files, &scan, &mut reader)?;
    let search = Search {
        tree: &tree,
        scan: &scan,
        limit: 0,
    };
    assert!(rt; has_entries(&search, &reader, &[(7, 2), (7, 3), (9, 4)]));
    for (item, nth, want) in PLACES {
        assert!(rt;
            has_at(&tree, &reader, (item, nth), entry_of(want)),
            "{item} {nth}"
        );
    }
    Ok(())
}

#[test]
fn a_read_that_fails(rt: HostRuntime) -> Result<(), Fail> {
    let (mut files, tree) = open(rt.alloc(), PAIRS)?;
    let scan = scan_of(rt.alloc(), &tree, (None, None))?;
    let mut reader = new_reader(false);
    files.fail_from(2);
    assert!(rt; start(&tree, &mut files, &scan, &mut reader).is_err());
    assert!(rt; reader.visits.count == 2);
    Ok(())
}
