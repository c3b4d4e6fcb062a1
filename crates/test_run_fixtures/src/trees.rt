//! Index files: pages of a tree that are laid tuple by tuple, and a metapage before them.
use crate::tables::{CLUSTER, case_files};
use memory_files::MemFiles;
use outside::Part;
use std::alloc::Global;
use std::test::Fail;
use test_fixtures::put;

/// An index on the column, in a case's text.
pub const INDEX: &str = "[[index]]\nname = \"t_a\"\nfile = \"i\"\n[[index.key]]\ncolumn = \"a\"\n";

/// A tuple of a page of a tree: the fields of its header and its body. The block is below 65536.
#[derive(Clone, Copy)]
pub struct IndexTuple<'a> {
    pub block: u16,
    pub item: u16,
    pub info: u16,
    pub body: &'a [u8],
}

// The entry of the number 5 for item 1 of block 0.
const FIVE: IndexTuple<'static> = IndexTuple {
    block: 0,
    item: 1,
    info: 0x0010,
    body: &[5, 0, 0, 0],
};

// The entry of 7 for item 2.
const SEVEN: IndexTuple<'static> = IndexTuple {
    item: 2,
    body: &[7, 0, 0, 0],
    ..FIVE
};

/// The entry of 9 for item 3.
pub const NINE: IndexTuple<'static> = IndexTuple {
    item: 3,
    body: &[9, 0, 0, 0],
    ..FIVE
};

// The separator 9, as a high key.
const BELOW_NINE: IndexTuple<'static> = IndexTuple {
    info: 0x2010,
    body: &[9, 0, 0, 0],
    ..FIVE
};

// The first downlink of an internal page, which keeps no value.
const TO_FIRST: IndexTuple<'static> = IndexTuple {
    block: 1,
    item: 0,
    info: 0x2008,
    body: &[],
};

/// A page of a tree: its siblings, its level, its flags and its tuples.
#[derive(Clone, Copy)]
pub struct TreePage<'a> {
    pub prev: u8,
    pub next: u8,
    pub level: u8,
    pub flags: u8,
    pub tuples: &'a [IndexTuple<'a>],
}

/// A leaf that is the root, without tuples.
pub const LONE_LEAF: TreePage<'static> = TreePage {
    prev: 0,
    next: 0,
    level: 0,
    flags: 3,
    tuples: &[],
};

/// The same with three entries.
pub const THREE: TreePage<'static> = TreePage {
    tuples: &[FIVE, SEVEN, NINE],
    ..LONE_LEAF
};

/// A tree of two levels: a leaf with 5 and 7, one with 9, and their root, block 3.
pub const TWO_LEVELS: [TreePage<'static>; 3] = [
    TreePage {
        next: 2,
        flags: 1,
        tuples: &[BELOW_NINE, FIVE, SEVEN],
        ..LONE_LEAF
    },
    TreePage {
        prev: 1,
        flags: 1,
        tuples: &[NINE],
        ..LONE_LEAF
    },
    TreePage {
        level: 1,
        flags: 2,
        tuples: &[
            TO_FIRST,
            IndexTuple {
                block: 2,
                ..BELOW_NINE
            },
        ],
        ..LONE_LEAF
    },
];

// Writes the fields of a page's header and its special space.
fn put_fields(bytes: &mut [u8; 8192], fields: &[(u16, u16)]) {
    for (at, half) in fields {
        put(bytes, *at, &half.to_le_bytes());
    }
}

// Writes a tuple at a place of a page.
fn put_tuple(bytes: &mut [u8; 8192], at: u16, tuple: IndexTuple<'_>) {
    for (k, half) in [0, tuple.block, tuple.item, tuple.info].iter().enumerate() {
        put(bytes, at.saturating_add(2 * k as u16), &half.to_le_bytes());
    }
    put(bytes, at.saturating_add(8), tuple.body);
}

// The page. Storage is laid from the special space downward in the order of the tuples.
fn tree_page(page: &TreePage<'_>) -> [u8; 8192] {
    let mut bytes = [0u8; 8192];
    let mut lower = 24u16;
    let mut upper = 8176u16;
    for tuple in page.tuples {
        let len = (15 + tuple.body.len().min(8000) as u16) / 8 * 8;
        upper = upper.saturating_sub(len);
        put_tuple(&mut bytes, upper, *tuple);
        let pointer = u32::from(upper) + 0x8000 + u32::from(len) * 0x20000;
        put(&mut bytes, lower, &pointer.to_le_bytes());
        lower = lower.saturating_add(4);
    }
    put_fields(
        &mut bytes,
        &[
            (12, lower),
            (14, upper),
            (16, 8176),
            (18, 0x2004),
            (8176, u16::from(page.prev)),
            (8180, u16::from(page.next)),
            (8184, u16::from(page.level)),
            (8188, u16::from(page.flags)),
        ],
    );
    bytes
}

// A metapage that names this root, which has this level and is the fast root too.
fn metapage(root: u8, level: u8) -> [u8; 8192] {
    let mut bytes = [0u8; 8192];
    put_fields(
        &mut bytes,
        &[
            (12, 72),
            (14, 8176),
            (16, 8176),
            (18, 0x2004),
            (24, 0x3162),
            (26, 5),
            (28, 4),
            (32, u16::from(root)),
            (36, u16::from(level)),
            (40, u16::from(root)),
            (44, u16::from(level)),
            (8188, 8),
        ],
    );
    bytes
}

/// The file of an index: a metapage that names the last of these pages as the root, and the pages.
pub fn index_file(alloc: Global, pages: &[TreePage<'_>]) -> Result<Vec<u8>, Fail> {
    let level = match pages.last() {
        Some(root) => root.level,
        None => 0,
    };
    let mut bytes = Vec::from_slice(alloc, &metapage(pages.len().min(255) as u8, level))?;
    for page in pages {
        bytes.extend_from_slice(&tree_page(page))?;
    }
    Ok(bytes)
}

/// Writes bytes at a place of a block, as far as they fit into the file.
pub fn put_over(bytes: &mut [u8], block: u8, at: u16, piece: &[u8]) {
    for (k, byte) in piece.iter().enumerate() {
        let place = 8192 * block as usize + at as usize + k;
        if place < bytes.len() {
            bytes[place] = *byte;
        }
    }
}

/// The files of a case with these columns, whose index has this order.
pub fn indexed_files(
    alloc: Global,
    columns: &str,
    order: &str,
    heap: &[u8],
    index: &[u8],
) -> Result<MemFiles, Fail> {
    let text = format!(in alloc; "{CLUSTER}{columns}{INDEX}{order}")?;
    let mut files = case_files(alloc, text.as_str(), heap)?;
    files.add("i", Part::Segment(0), index)?;
    Ok(files)
}
