//! The rows that the entries of a leaf name, to be read before the first of them is looked at.

use bt_steps::is_live_leaf;
use bt_tuples::plain_entry;
use key_orders::Tid;
use page_layout::{PageKind, PageView};

// No page has more entries of one TID each.
const MOST: usize = 512;

// What is kept of the rows of so many blocks is at hand without further ado, once a few of them were looked at.
const NEAR: u32 = 64;

/// Whether the rows that the first and the last entry of a leaf name are of blocks far from each other, so that those
/// of its entries are to be read ahead. In an index in the order of its rows they are near.
#[inline]
pub fn are_far(first: Tid, last: Tid) -> bool {
    NEAR < first.block.abs_diff(last.block)
}

/// The line pointers that entries of a leaf name, at most 512 of them. What they are means nothing for an answer: what
/// is kept of their rows is read ahead.
#[derive(Drop)]
pub struct RowsAhead {
    tids: [Tid; MOST],
    count: usize,
}

impl RowsAhead {
    /// None yet.
    pub fn new() -> RowsAhead {
        RowsAhead {
            tids: [Tid { block: 0, item: 0 }; MOST],
            count: 0,
        }
    }

    /// Forgets them.
    pub fn clear(&mut self) {
        self.count = 0;
    }

    /// Adds one, where there is room.
    #[inline]
    pub fn add(&mut self, tid: Tid) {
        self.add_if(tid, true);
    }

    /// Adds one, where there is room and it is one of them. It is written in any case.
    #[inline]
    pub fn add_if(&mut self, tid: Tid, is_one: bool) {
        if self.count < MOST {
            self.tids[self.count] = tid;
            self.count += is_one as usize;
        }
    }

    /// Adds those that the entries of a leaf name which are items of their own.
    pub fn add_page(&mut self, page: &[u8; 8192]) {
        let page = PageView::new(page);
        if !is_live_leaf(page) || page.page_rule(PageKind::Tree).is_some() {
            return;
        }
        for k in 0..page.item_count() {
            if let Some(entry) = plain_entry(page, k + 1) {
                self.add(entry.tid);
            }
        }
    }

    /// The line pointers; none where the first and the last aren't far from each other.
    pub fn as_slice(&self) -> &[Tid] {
        let tids = &self.tids[..self.count.min(MOST)];
        match (tids.first(), tids.last()) {
            (Some(first), Some(last)) if are_far(*first, *last) => tids,
            _ => &[],
        }
    }
}
