//! Pages that are kept, that give way to others, and that are read again. Which are kept is worked out by
//! hand.
use crate::trees::{SIX, bytes_of, open};
use bt_levels::SoundTree;
use bt_search::PageCache;
use std::alloc::Global;
use std::test::Fail;
use test_fixtures::UntoldFiles;

// The page of a block through a cache, and whether the files are read for it; nothing after a fault.
fn page_of(
    tree: &SoundTree,
    files: &mut UntoldFiles,
    cache: &mut PageCache,
    block: u32,
) -> Option<([u8; 8192], bool)> {
    if block >= tree.blocks() {
        return None;
    }
    let before = files.reads;
    let page = *cache.page(tree, files, block).ok()?;
    Some((page, files.reads > before))
}

// Whether a page is this block of a file.
fn is_block(file: &[u8], page: &[u8; 8192], block: u32) -> bool {
    let rest = file.split_at((block as usize * 8192).min(file.len())).1;
    rest.split_at(8192.min(rest.len())).0 == page.as_slice()
}

// Whether the page of a block through a cache is the block of a file, is read from the files just where it is said to
// be, and no more pages are kept than may be.
fn is_so(
    tree: &SoundTree,
    files: &mut UntoldFiles,
    cache: &mut PageCache,
    bytes: &[u8],
    (block, is_read): (u32, bool),
) -> bool {
    match page_of(tree, files, cache, block) {
        Some(looked) => {
            let page = looked.0;
            let is_same = is_block(bytes, &page, block) && is_read == looked.1;
            is_same && cache.len() <= cache.capacity()
        }
        None => false,
    }
}

// Looks at blocks of an index of eight in turn, and says whether all is so. A block with `!` is read from the files.
fn are_so(alloc: Global, cache: &mut PageCache, looks: &str) -> Result<bool, Fail> {
    let bytes = bytes_of(alloc, SIX)?;
    let (mut files, tree) = open(alloc, SIX)?;
    let mut are_so = cache.is_empty();
    for look in looks.split_whitespace() {
        let (number, is_read) = match look.strip_suffix("!") {
            Some(number) => (number, true),
            None => (look, false),
        };
        let block = number.parse::<u32>().unwrap_or(9);
        are_so = are_so && is_so(&tree, &mut files, cache, &bytes, (block, is_read));
    }
    Ok(are_so)
}

// How many pages are kept, and at which blocks is looked. The page that was unused for longest goes, and a page that is
// kept counts as used.
const LOOKS: [(usize, &str); 3] = [
    (1, "1! 1 2! 1! 1"),
    (2, "1! 2! 1 3! 1 2! 1 3!"),
    (4096, "7! 6! 0! 1! 7 0 6"),
];

#[test]
fn looks_at_pages(rt: HostRuntime) -> Result<(), Fail> {
    for (capacity, looks) in LOOKS {
        assert!(rt; 1 <= capacity && capacity <= 4096);
        let mut cache = PageCache::new(rt.alloc(), capacity)?;
        assert!(rt; are_so(rt.alloc(), &mut cache, looks)?, "{looks}");
    }
    Ok(())
}

// Whether each of some pages is lent or not, as it is said.
fn are_lent(
    tree: &SoundTree,
    files: &mut UntoldFiles,
    cache: &mut PageCache,
    looks: &[(u32, bool)],
) -> bool {
    let mut are_lent = true;
    for (block, is_lent) in looks {
        are_lent = are_lent && page_of(tree, files, cache, *block).is_some() == *is_lent;
    }
    are_lent
}

#[test]
fn looks_after_a_read_that_fails(rt: HostRuntime) -> Result<(), Fail> {
    let (mut files, tree) = open(rt.alloc(), SIX)?;
    assert!(rt; tree.blocks() == 8);
    let mut cache = PageCache::new(rt.alloc(), 2)?;
    assert!(rt; are_lent(&tree, &mut files, &mut cache, &[(1, true)]));
    files.fail_from(1);
    // What is kept needs no read.
    let looks = [(2, false), (1, true), (2, false)];
    assert!(rt; are_lent(&tree, &mut files, &mut cache, &looks));
    files.fails_from = u64::MAX;
    assert!(rt; are_lent(&tree, &mut files, &mut cache, &[(2, true)]));
    assert!(rt; cache.len() == 2);
    Ok(())
}
