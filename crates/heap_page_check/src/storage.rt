//! Which bytes of a heap page belong to its items, in cells of 8 bytes.
ghost use Rattle.std.specs.Prelude.{◌≡◌, ◌↔◌, ◌+◌, ◌-◌, ◌≤◌, ◌<◌, ℕ, List, true, false, length, get_or};
ghost use Rattle.std.specs.Prelude.{IfOk, IsTrue};
ghost use Rattle.page_layout.specs.Page.{HasItems, count_of, item_of, upper_of};
ghost use Rattle.page_layout.specs.View.{page_bytes};
ghost use Rattle.heap_page_check.specs.Storage.{AreCells, AreFree, AreMarked, IsTakenBetween, OverlapsLowerItem};
ghost use Rattle.heap_page_check.specs.Storage.{has_storage, meets_item_below, taken_with};

use outside::NoMemory;
use page_layout::{LinePtr, PAGE_BYTES, PageView};
use std::alloc::Global;
use std::marker::Model;

// How many cells a page of 8192 bytes has.
const CELLS: usize = 1024;

/// The items of a page that were added, kept so that it can be asked whether another item's storage
/// meets theirs. Made once, and cleared for each page.
///
/// On most pages each item lies wholly below all items before it, and then the lowest byte of these
/// says that it meets none. Where an item doesn't, it most often meets the lowest of them. Else the
/// items before it are marked in the cells of the page, each of them once.
#[derive(Drop)]
pub struct PageCells {
    // For each cell, whether it belongs to one of the items that are marked.
    taken: Vec<bool>,
    // The items up to this number are marked; 0 where none is.
    marked: u16,
    // No byte of an item that was added lies below this place, in bytes from the page's start.
    lowest: u16,
    // Where the item ends that begins at `lowest`; 0 where no item was added.
    end: u16,
}

impl Model for PageCells {
    ghost use Rattle.std.specs.Prelude.{◌≡◌, length};
    ghost use Rattle.heap_page_check.specs.Storage.{AreFree, Marking};

    ghost Value = { Marking };

    ghost view = { λ cells. record {
      taken = cells.taken.items;
      marked = cells.marked;
      lowest = cells.lowest;
      end = cells.end;
    } };

    ghost invariant = { λ cells. (length cells.taken.items ≡ 1024) × (cells.marked ≡ 0 → AreFree cells.taken.items) };
}

// Marks the cells from `first` to before `end` as taken, and says whether one of them was taken.
#[inline]
fn take_cells(cells: &mut [bool], first: usize, end: usize) -> bool
    requires order { first ≤ end }
    requires within { end ≤ length cells.old }
    ensures found { result ≡ true → IsTakenBetween cells.old first end }
    ensures none { result ≡ false → (k : ℕ) → first ≤ k → k < end → get_or cells.old k false ≡ false }
    ensures long { length cells.new ≡ length cells.old }
    ensures now { (k : ℕ) → get_or cells.new k false ≡ taken_with cells.old first end k }
{
    let mut was_taken = false;
    for k in first..end {
        was_taken |= cells[k];
        cells[k] = true;
    }
    was_taken
}

// Frees all cells.
fn free_cells(cells: &mut [bool])
    ensures { AreFree cells.new }
{
    for cell in cells.iter_mut() {
        *cell = false;
    }
}

// Whether an item of a page with this upper place is a normal one that is where it may be.
#[inline]
fn has_storage(item: LinePtr, upper: u16) -> bool
    ensures { result ≡ has_storage upper item }
{
    item.flag.is_normal() && !item.is_misplaced_heap_item(upper)
}

// Marks item i of the page, which has storage, and says whether its storage meets that of one of the
// items before it, all of which are marked.
#[inline]
fn mark_item(cells: &mut [bool], page: PageView<'_>, i: u16) -> bool
    requires page { HasItems (page_bytes page) }
    requires first { 1 ≤ i }
    requires last { i ≤ count_of (page_bytes page) }
    requires storage { has_storage (upper_of (page_bytes page)) (item_of (page_bytes page) i) ≡ true }
    requires before { AreMarked (page_bytes page) (i - 1) cells.old }
    ensures meets { result ≡ meets_item_below (page_bytes page.entry) (i - 1) (item_of (page_bytes page.entry) i) }
    ensures after { AreMarked (page_bytes page.entry) i cells.new }
{
    let item = page.item(i);
    let first = item.off as usize / 8;
    let end = (item.off as usize + item.len as usize).div_ceil(8);
    take_cells(cells, first, end)
}

// Marks the items of the page from `marked + 1` to `last` that have storage. Those up to `marked` are
// marked already.
#[tactic(auto, unfolding(page_layout::specs::Page::header_of))]
fn mark_items(cells: &mut [bool], page: PageView<'_>, marked: u16, last: u16)
    requires page { HasItems (page_bytes page) }
    requires order { marked ≤ last }
    requires last { last ≤ count_of (page_bytes page) }
    requires before { AreMarked (page_bytes page) marked cells.old }
    ensures after { AreMarked (page_bytes page.entry) last cells.new }
{
    let upper = page.header().upper;
    for k in marked..last {
        if has_storage(page.item(k + 1), upper) {
            mark_item(cells, page, k + 1);
        }
    }
}

impl PageCells {
    /// The cells of a page, to which no item was added.
    pub fn new(alloc: Global) -> Result<PageCells, NoMemory>
        ensures { IfOk result (λ cells. (page : List ℕ) → AreCells page 0 cells) }
    {
        let taken = vec![in alloc; false; CELLS]?;
        Ok(PageCells {
            taken,
            marked: 0,
            lowest: PAGE_BYTES,
            end: 0,
        })
    }

    /// Forgets all items, for another page.
    pub fn clear(&mut self)
        ensures { (page : List ℕ) → AreCells page 0 self.new }
    {
        if self.marked != 0 {
            free_cells(&mut self.taken);
        }
        self.marked = 0;
        self.lowest = PAGE_BYTES;
        self.end = 0;
    }

    /// Adds item i of the page, which has storage, to the items before it, and says whether its
    /// storage meets that of one of them.
    #[inline]
    pub fn add(&mut self, page: PageView<'_>, i: u16) -> bool
        requires page { HasItems (page_bytes page) }
        requires first { 1 ≤ i }
        requires last { i ≤ count_of (page_bytes page) }
        requires storage { has_storage (upper_of (page_bytes page)) (item_of (page_bytes page) i) ≡ true }
        requires before { AreCells (page_bytes page) (i - 1) self.old }
        ensures meets { result ≡ meets_item_below (page_bytes page.entry) (i - 1) (item_of (page_bytes page.entry) i) }
        ensures overlaps { IsTrue result ↔ OverlapsLowerItem (page_bytes page.entry) i }
        ensures after { AreCells (page_bytes page.entry) i self.new }
    {
        let item = page.item(i);
        if item.off + item.len <= self.lowest {
            self.lowest = item.off;
            self.end = item.off + item.len;
            return false;
        }
        self.add_above(page, i, item)
    }

    // Adds item i of the page, which has storage and doesn't lie wholly below the items before it.
    fn add_above(&mut self, page: PageView<'_>, i: u16, item: LinePtr) -> bool
        requires page { HasItems (page_bytes page) }
        requires first { 1 ≤ i }
        requires last { i ≤ count_of (page_bytes page) }
        requires item { item ≡ item_of (page_bytes page) i }
        requires storage { has_storage (upper_of (page_bytes page)) (item_of (page_bytes page) i) ≡ true }
        requires ends { self.old.lowest < item.off + item.len }
        requires before { AreCells (page_bytes page) (i - 1) self.old }
        ensures meets { result ≡ meets_item_below (page_bytes page.entry) (i - 1) (item_of (page_bytes page.entry) i) }
        ensures after { AreCells (page_bytes page.entry) i self.new }
    {
        if self.end <= item.off {
            return self.add_by_cells(page, i, item.off);
        }
        if item.off < self.lowest {
            self.lowest = item.off;
            self.end = item.off + item.len;
        }
        true
    }

    // Adds item i of the page, which has storage and begins at `off`, by its cells: first the items
    // before it are marked that aren't yet.
    fn add_by_cells(&mut self, page: PageView<'_>, i: u16, off: u16) -> bool
        requires page { HasItems (page_bytes page) }
        requires first { 1 ≤ i }
        requires last { i ≤ count_of (page_bytes page) }
        requires storage { has_storage (upper_of (page_bytes page)) (item_of (page_bytes page) i) ≡ true }
        requires place { off ≡ (item_of (page_bytes page) i).off }
        requires above { self.old.end ≤ off }
        requires before { AreCells (page_bytes page) (i - 1) self.old }
        ensures meets { result ≡ meets_item_below (page_bytes page.entry) (i - 1) (item_of (page_bytes page.entry) i) }
        ensures after { AreCells (page_bytes page.entry) i self.new }
    {
        mark_items(&mut self.taken, page, self.marked, i - 1);
        let meets = mark_item(&mut self.taken, page, i);
        self.marked = i;
        self.lowest = self.lowest.min(off);
        meets
    }
}
