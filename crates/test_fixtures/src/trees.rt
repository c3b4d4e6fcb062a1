//! The pages of an index on a column of numbers, and its file.
use crate::page::Page;
use outside::NoMemory;
use std::alloc::Global;

/// A tuple of a page of a tree. Its TIDs are those of items of block 0.
#[derive(Clone, Copy)]
pub enum IndexTuple {
    /// The entry of a number, for an item.
    Entry(u16, u16),
    /// The same, killed.
    Killed(u16, u16),
    /// The entry of a number and of one of a second column, for an item.
    Pair(u16, u16, u16),
    /// The entries of a number for two items.
    Listed(u16, u16, u16),
    /// The first item of an internal page: a downlink that keeps no value.
    First(u16),
    /// A downlink and the separator that it has, which keeps a number; with block 0 a high key.
    Above(u16, u16),
    /// The same with the TID of an item.
    AboveItem(u16, u16, u16),
}

/// A page of a tree: its siblings, its level, its flags and its tuples.
#[derive(Clone, Copy)]
pub struct TreePage<'a> {
    pub prev: u16,
    pub next: u16,
    pub level: u16,
    pub flags: u16,
    pub tuples: &'a [IndexTuple],
}

/// A leaf.
pub const LEAF: TreePage<'static> = TreePage {
    prev: 0,
    next: 0,
    level: 0,
    flags: 1,
    tuples: &[],
};

/// A leaf that is the root.
pub const LONE_LEAF: TreePage<'static> = TreePage { flags: 3, ..LEAF };

/// A root above leaves.
pub const INNER: TreePage<'static> = TreePage {
    level: 1,
    flags: 2,
    ..LEAF
};

impl IndexTuple {
    // Adds the tuple to a page.
    fn add_to(self, page: &mut Page) {
        match self {
            IndexTuple::Entry(v, item) => page.add_halves(&[0, 0, item, 0x10, v, 0, 0, 0], false),
            IndexTuple::Killed(v, item) => page.add_halves(&[0, 0, item, 0x10, v, 0, 0, 0], true),
            IndexTuple::Pair(v, w, item) => page.add_halves(&[0, 0, item, 0x10, v, 0, w, 0], false),
            IndexTuple::Listed(v, i, j) => {
                let head = [0, 16, 0x2002, 0x2020, v, 0, 0, 0, 0, 0, i, 0, 0, j, 0, 0];
                page.add_halves(&head, false);
            }
            IndexTuple::First(block) => page.add_halves(&[0, block, 0, 0x2008], false),
            IndexTuple::Above(block, v) => {
                page.add_halves(&[0, block, 1, 0x2010, v, 0, 0, 0], false)
            }
            IndexTuple::AboveItem(block, v, item) => {
                let whole = [0, block, 0x1001, 0x2018, v, 0, 0, 0, 0, 0, 0, item];
                page.add_halves(&whole, false);
            }
        }
    }
}

/// The bytes of a page.
pub fn tree_page(page: &TreePage<'_>) -> [u8; 8192] {
    let mut laid = Page::new(8176);
    for tuple in page.tuples {
        tuple.add_to(&mut laid);
    }
    let special = [page.prev, 0, page.next, 0, page.level, 0, page.flags];
    laid.put_halves(8176, &special);
    laid.finish()
}

/// A metapage that names this root, which has this level and is the fast root too.
pub fn metapage(root: u16, level: u16) -> [u8; 8192] {
    let mut page = Page::new(8176);
    page.put_halves(24, &[0x3162, 5, 4, 0, root, 0, level, 0, root, 0, level, 0]);
    page.put_halves(8188, &[8]);
    page.finish_at(72)
}

/// The file of an index: a metapage that names this root, and the pages.
pub fn index_file(
    alloc: Global,
    (root, level): (u16, u16),
    pages: &[TreePage<'_>],
) -> Result<Vec<u8>, NoMemory> {
    let mut bytes = Vec::from_slice(alloc, &metapage(root, level))?;
    for page in pages {
        bytes.extend_from_slice(&tree_page(page))?;
    }
    Ok(bytes)
}
