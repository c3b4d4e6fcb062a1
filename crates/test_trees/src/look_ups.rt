//! Entries that are looked up in small indexes on the way from the root, through a cache, and over a read that fails.
//! Places and visits are worked out by hand.
use crate::steps::key_for;
use crate::trees::{SIX, THREE, open};
use bt_levels::SoundTree;
use bt_search::{PageCache, Visits, find, probe};
use bt_steps::Sought;
use key_orders::Tid;
use std::test::Fail;
use test_fixtures::UntoldFiles;

// A value and an item of block 0.
type Entry = (i64, u16);

// At which block `find` finds an entry, if it does, and at how many visits; nothing after a fault.
fn found(
    tree: &SoundTree,
    files: &mut UntoldFiles,
    cache: &mut PageCache,
    (value, item): Entry,
) -> Option<(Option<u32>, u64)> {
    let key = key_for(tree.specs(), value)?;
    let tid = Tid { block: 0, item };
    // It has fewer than 2^32.
    let _blocks = tree.blocks();
    let mut visits = Visits { count: 0 };
    let found = find(tree, files, Sought { key: &key, tid }, cache, &mut visits).ok()?;
    Some((found.map(|at| at.block), visits.count))
}

// Whether `probe` finds it, and at how many visits; nothing after a fault.
fn probed(
    tree: &SoundTree,
    files: &mut UntoldFiles,
    cache: &mut PageCache,
    (value, item): Entry,
) -> Option<(bool, u64)> {
    let key = key_for(tree.specs(), value)?;
    let tid = Tid { block: 0, item };
    let _blocks = tree.blocks();
    let mut visits = Visits { count: 0 };
    let is_found = probe(tree, files, Sought { key: &key, tid }, cache, &mut visits).ok()?;
    Some((is_found, visits.count))
}

// Values and items, and at which block they stand, or 0 for those that don't.
const ENTRIES: [(i64, u16, u32); 8] = [
    (10, 1, 1),
    (20, 2, 2),
    (40, 4, 5),
    (60, 6, 7),
    // of another TID, and of other keys
    (20, 3, 0),
    (5, 1, 0),
    (25, 2, 0),
    (70, 6, 0),
];

// Whether an entry is found at a block, or, where that is 0, isn't, each time at two visits.
fn is_at(
    tree: &SoundTree,
    files: &mut UntoldFiles,
    cache: &mut PageCache,
    entry: Entry,
    block: u32,
) -> bool {
    let (want, is_found) = if block == 0 {
        (None, false)
    } else {
        (Some(block), true)
    };
    found(tree, files, cache, entry) == Some((want, 2))
        && probed(tree, files, cache, entry) == Some((is_found, 2))
}

#[test]
fn finds_entries(rt: HostRuntime) -> Result<(), Fail> {
    let (mut files, tree) = open(rt.alloc(), SIX)?;
    let mut cache = PageCache::new(rt.alloc(), 1)?;
    for (value, item, block) in ENTRIES {
        assert!(rt;
            is_at(&tree, &mut files, &mut cache, (value, item), block),
            "{value}"
        );
    }
    Ok(())
}

// Look-ups, of which the third later read fails, and from the second one on each read.
fn are_kept(tree: &SoundTree, files: &mut UntoldFiles, cache: &mut PageCache) -> bool {
    files.fail_from(3);
    let first = found(tree, files, cache, (10, 1));
    files.fail_from(1);
    let second = found(tree, files, cache, (15, 1));
    let third = probed(tree, files, cache, (10, 1));
    let last = found(tree, files, cache, (20, 2));
    first == Some((Some(1), 2))
        && second == Some((None, 2))
        && third == Some((true, 2))
        && last.is_none()
}

// A look-up needs no read of a page that is kept, and no more reads than visits.
#[test]
fn keeps_the_pages_of_look_ups(rt: HostRuntime) -> Result<(), Fail> {
    let (mut files, tree) = open(rt.alloc(), SIX)?;
    let mut cache = PageCache::new(rt.alloc(), 2)?;
    assert!(rt; are_kept(&tree, &mut files, &mut cache));
    Ok(())
}

// The first probe reads the one leaf, and no fourth page, which couldn't be read. The second finds the leaf in the
// cache, where no read succeeds any more.
fn are_probed(tree: &SoundTree, files: &mut UntoldFiles, cache: &mut PageCache) -> bool {
    let before = files.reads;
    files.fail_from(4);
    let first = probed(tree, files, cache, (5, 1));
    let has_read = files.reads > before;
    files.fail_from(1);
    let second = probed(tree, files, cache, (7, 2));
    first == Some((true, 1)) && has_read && second == Some((true, 1))
}

#[test]
fn probes_a_leaf_that_is_kept(rt: HostRuntime) -> Result<(), Fail> {
    let (mut files, tree) = open(rt.alloc(), THREE)?;
    let mut cache = PageCache::new(rt.alloc(), 1)?;
    assert!(rt; are_probed(&tree, &mut files, &mut cache));
    Ok(())
}
