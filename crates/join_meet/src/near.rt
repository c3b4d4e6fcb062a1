//! The entries of a leaf that name rows of a range of heap blocks, told by a glance at each; the rows that they meet.
ghost use Rattle.std.specs.Prelude.{◌≡◌, ◌≤◌, ◌<◌, ◌&&◌, None, nat_le, nat_lt, true};
ghost use Rattle.page_layout.specs.Page.{count_of, page_rule_of};
ghost use Rattle.page_layout.specs.View.{page_bytes};
ghost use Rattle.key_attrs.specs.Columns.{tree_columns};
ghost use Rattle.bt_image.specs.Image.{page_entries};
ghost use Rattle.bt_steps.specs.Pages.{IsReadable, is_live_leaf};
ghost use Rattle.join_meet.specs.Meeting.{HaveMetSome, leaf_entries};

use crate::ahead::RowsAhead;
use crate::meet::meet_item;
use bt_image::first_data;
use bt_steps::is_live_leaf;
use join_slots::RowSlots;
use key_attrs::IndexColumns;
use key_orders::Tid;
use page_layout::{PageKind, PageView};

// No page of an index has more items.
const MOST: usize = 512;

// The last place at which an item has 8 bytes, as the head of an index tuple takes.
const LAST_HEAD: usize = 8184;

// The bit of a tuple's last two bytes of head that says that its TID names no line pointer of the heap, but that the
// tuple is a pivot or has a list (`access/nbtree.h`, `INDEX_ALT_TID_MASK`).
const OTHER_TID: u32 = 0x2000_0000;

/// Heap blocks that follow one another: from the first up to the end, which isn't one of them.
#[derive(Clone, Copy)]
pub struct HeapRange {
    pub first: u32,
    pub end: u32,
}

impl HeapRange {
    /// Whether it has a block.
    #[inline]
    pub fn has(self, block: u32) -> bool
        ensures { result ≡ (nat_le self.first block && nat_lt block self.end) }
    {
        self.first <= block && block < self.end
    }
}

/// Items of a leaf that may name rows of a range, at most 512 of them, as a glance at each says. What they are means
/// nothing for an answer: of an item that isn't among them no entry meets a row.
#[derive(Drop)]
pub struct Near {
    items: [u16; MOST],
    count: usize,
    rows: RowsAhead,
}

/// The TID in the head of an item of an index page, counted from 1, where its bits say that it is one entry, at a
/// glance: no answer may hang on it.
#[inline(always)]
pub fn glanced_tid(page: PageView<'_>, i: u16) -> Option<Tid>
    requires page { page_rule_of PageKind.Tree (page_bytes page) ≡ None }
    requires first { 1 ≤ i }
    requires last { i ≤ count_of (page_bytes page) }
{
    let off = page.item(i).off as usize;
    if LAST_HEAD < off {
        return None;
    }
    let block = page.u32_at(off);
    let rest = page.u32_at(off + 4);
    if rest & OTHER_TID != 0 {
        return None;
    }
    Some(Tid {
        block: block << 16 | block >> 16,
        item: (rest % 0x1_0000) as u16,
    })
}

impl Near {
    /// None yet.
    pub fn new() -> Near {
        Near {
            items: [0; MOST],
            count: 0,
            rows: RowsAhead::new(),
        }
    }

    // Adds an item, where there is room, if it is near. It is written in any case: which items are near no processor
    // can foretell, so that a jump would be waited for.
    #[inline]
    fn add(&mut self, i: u16, is_near: bool) {
        if self.count < MOST {
            self.items[self.count] = i;
            self.count += is_near as usize;
        }
    }

    // Adds an item if it may name rows of the range.
    #[inline]
    fn glance(&mut self, page: PageView<'_>, range: HeapRange, i: u16)
        requires page { page_rule_of PageKind.Tree (page_bytes page) ≡ None }
        requires first { 1 ≤ i }
        requires last { i ≤ count_of (page_bytes page) }
    {
        let Some(tid) = glanced_tid(page, i) else {
            self.add(i, true);
            return;
        };
        let is_near = range.has(tid.block);
        self.add(i, is_near);
        self.rows.add_if(tid, is_near);
    }

    // Takes the items of a page that may name rows of the range.
    fn take_items(&mut self, page: PageView<'_>, range: HeapRange)
        requires page { page_rule_of PageKind.Tree (page_bytes page) ≡ None }
    {
        self.count = 0;
        self.rows.clear();
        for k in 0..page.item_count() {
            self.glance(page, range, k + 1);
        }
    }

    // The items.
    fn items(&self) -> &[u16] {
        &self.items[..self.count.min(MOST)]
    }
}

// Meets the rows that these items of a page name, of those that are data items.
fn meet_some_items(
    slots: &mut RowSlots,
    columns: &IndexColumns<'_>,
    page: PageView<'_>,
    items: &[u16],
)
    requires page { page_rule_of PageKind.Tree (page_bytes page) ≡ None }
    ensures { IsReadable (tree_columns columns.now) (page_bytes page.entry)
        → is_live_leaf (page_bytes page.entry) ≡ true
        → HaveMetSome (page_entries columns.now.specs.now columns.now.more.now (page_bytes page.entry))
        slots.old slots.new }
{
    let first = first_data(page);
    let last = page.item_count();
    for k in 0..items.len() {
        let i = items[k];
        if first <= i && i <= last {
            meet_item(slots, columns, page, i);
        }
    }
}

/// Meets rows that entries of a page name, if it is a leaf in use that isn't half-dead: those that items name which may
/// name rows of the range, as a glance at each says. What is kept of these rows is read first, all at once.
pub fn meet_near(
    slots: &mut RowSlots,
    columns: &IndexColumns<'_>,
    page: &[u8; 8192],
    range: HeapRange,
    near: &mut Near,
)
    ensures { (is_live_leaf page.now ≡ true → IsReadable (tree_columns columns.now) page.now)
        → HaveMetSome (leaf_entries (tree_columns columns.now) page.now) slots.old slots.new }
{
    let page = PageView::new(page);
    if !is_live_leaf(page) || page.page_rule(PageKind::Tree).is_some() {
        return;
    }
    near.take_items(page, range);
    slots.touch(near.rows.as_slice());
    meet_some_items(slots, columns, page, near.items());
}
