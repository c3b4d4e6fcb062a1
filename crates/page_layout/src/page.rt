//! A page of 8192 bytes, seen by its header and its line pointers.
ghost use Rattle.std.specs.Prelude.{◌≡◌, ◌+◌, ◌-◌, ◌*◌, ◌≤◌, ◌↔◌, length, IfSome, IsNone, IsTrue};
ghost use Rattle.page_layout.specs.Page.{HasItems, IsItem, IsPtr, KeepsPageRules, breaks_page_rule, count_of};
ghost use Rattle.page_layout.specs.Page.{has_bad_places, has_good_places, has_items, has_other_version, header_of};
ghost use Rattle.page_layout.specs.Page.{is_new, is_new_but_written, is_written, item_of, page_rule_of, piece_of};
ghost use Rattle.page_layout.specs.Page.{ptr_of, special_for, u16_at, u32_at, upper_of};
ghost use Rattle.page_layout.specs.View.{page_bytes};

use crate::numbers::{u16_at, u32_at};
use crate::rules::Rule;

/// What a page is a page of. The kind decides where its special space begins, and whether line
/// pointers stand after its header.
#[derive(Clone, Copy, Debug, PartialEq, Eq)]
pub enum PageKind {
    /// A page of a table or of its TOAST table: no special space, line pointers to tuples.
    Heap,
    /// A page of a visibility map: no special space and no line pointers, but bits from byte 24 on.
    Map,
    /// A page of a B-tree index: 16 bytes of special space, line pointers to index tuples.
    Tree,
    /// Block 0 of a B-tree index: 16 bytes of special space, no line pointers, but the numbers of
    /// the tree from byte 24 on.
    Meta,
}

/// The fields of the 24 bytes with which a page begins (`storage/bufpage.h`, `PageHeaderData`; the
/// manual's section 'Database Page Layout'). Places are bytes from the page's start.
#[derive(Clone, Copy, Debug, PartialEq, Eq)]
pub struct PageHeader {
    /// The upper half of the place in the write-ahead log that follows the last change.
    pub lsn_high: u32,
    /// Its lower half.
    pub lsn_low: u32,
    /// The page's checksum, which isn't tested.
    pub checksum: u16,
    /// 1: there may be unused line pointers; 2: an update found no room; 4: every tuple is visible
    /// to all.
    pub flags: u16,
    /// The end of the line pointers.
    pub lower: u16,
    /// The start of the tuples' storage; 0 on a page that was never laid out.
    pub upper: u16,
    /// The start of the special space.
    pub special: u16,
    /// The page's size, 8192, and the version of the layout, 4, in one number.
    pub version: u16,
    /// The oldest transaction whose work may have left something to prune, or 0.
    pub prune_xid: u32,
}

/// What a line pointer stands for (`storage/itemid.h`, the `LP_` values).
#[derive(Clone, Copy, Debug, PartialEq, Eq)]
pub enum LineFlag {
    /// Nothing; it may be used again.
    Unused,
    /// A tuple.
    Normal,
    /// On a heap page another item of the page, whose number the offset is.
    Redirect,
    /// On a heap page a tuple that is gone; on a tree page an index tuple that was found to be of
    /// use to nobody.
    Dead,
}

/// A line pointer (`storage/itemid.h`, `ItemIdData`): 15 bits of offset, 2 of flag and 15 of length.
#[derive(Clone, Copy, Debug, PartialEq, Eq)]
pub struct LinePtr {
    pub flag: LineFlag,
    /// Where the storage begins, in bytes from the page's start, below 32768; of a redirect the
    /// number of an item.
    pub off: u16,
    /// How many bytes the storage has, below 32768.
    pub len: u16,
}

/// Where a page says the end of its line pointers, in bytes from its start (storage/bufpage.h).
pub const PD_LOWER: usize = 12;

/// Where a page says the end of its free space, in bytes from its start (storage/bufpage.h).
pub const PD_UPPER: usize = 14;

/// How many bytes the header of a page has (storage/bufpage.h, SizeOfPageHeaderData).
pub const SIZE_OF_PAGE_HEADER: u16 = 24;

/// How many bytes a page has (the server's BLCKSZ, which may be chosen as it is built: no other is judged).
pub const PAGE_BYTES: u16 = 8192;

/// The first transaction number that isn't one of the special ones (access/transam.h, FirstNormalTransactionId).
pub const FIRST_NORMAL_XID: u32 = 3;

/// The most line pointers that a page can have: 8168 bytes behind its header, four for each.
pub const MAX_ITEMS: u16 = 2042;

/// A page that is looked at. Contracts name its 8192 bytes by `page_bytes`.
#[derive(Clone, Copy)]
pub struct PageView<'p> {
    bytes: &'p [u8; 8192],
}

impl<'p> PageView<'p> {
    /// A view of these bytes.
    #[inline]
    pub fn new(bytes: &'p [u8; 8192]) -> PageView<'p>
        ensures { page_bytes result ≡ bytes.now }
    {
        PageView { bytes }
    }

    /// The number in the two bytes at a place, the lowest byte first.
    #[inline]
    pub fn u16_at(self, at: usize) -> u16
        requires { at + 2 ≤ 8192 }
        ensures { result ≡ u16_at (page_bytes self.entry) at }
    {
        let bytes = self.bytes;
        u16_at(bytes, at)
    }

    /// The number in the four bytes at a place, the lowest byte first.
    #[inline]
    pub fn u32_at(self, at: usize) -> u32
        requires { at + 4 ≤ 8192 }
        ensures { result ≡ u32_at (page_bytes self.entry) at }
    {
        let bytes = self.bytes;
        u32_at(bytes, at)
    }

    /// The fields of the header.
    #[inline]
    #[tactic(auto, unfolding(crate::specs::Page::header_of))]
    pub fn header(self) -> PageHeader
        ensures { result ≡ header_of (page_bytes self.entry) }
    {
        PageHeader {
            lsn_high: self.u32_at(0),
            lsn_low: self.u32_at(4),
            checksum: self.u16_at(8),
            flags: self.u16_at(10),
            lower: self.u16_at(PD_LOWER),
            upper: self.u16_at(PD_UPPER),
            special: self.u16_at(16),
            version: self.u16_at(18),
            prune_xid: self.u32_at(20),
        }
    }

    /// The start of the items' storage, in bytes from the page's start; 0 on a page that was never laid out.
    #[inline]
    pub fn upper(self) -> u16
        ensures { result ≡ upper_of (page_bytes self.entry) }
    {
        self.u16_at(PD_UPPER)
    }

    /// Whether the page was added to its file and never laid out: its upper place is 0.
    #[inline]
    pub fn is_new(self) -> bool
        ensures { result ≡ is_new (page_bytes self.entry) }
    {
        self.u16_at(PD_UPPER) == 0
    }

    /// The first of the rules P1 to P4 that a page of this kind breaks, or None where it breaks none
    /// of them.
    #[tactic(auto, unfolding(crate::specs::Page::page_rule_of))]
    pub fn page_rule(self, kind: PageKind) -> Option<Rule>
        ensures value { result ≡ page_rule_of kind (page_bytes self.entry) }
        ensures none { IsNone result ↔ KeepsPageRules kind (page_bytes self.entry) }
        ensures some { IfSome result (λ rule. IsTrue (breaks_page_rule kind (page_bytes self.entry) rule)) }
    {
        if self.has_other_version() {
            return Some(Rule::P1);
        }
        if 8 <= self.u16_at(10) {
            return Some(Rule::P2);
        }
        if self.has_bad_places(kind) {
            return Some(Rule::P3);
        }
        if self.is_new_but_written() {
            return Some(Rule::P4);
        }
        None
    }

    fn has_other_version(self) -> bool
        ensures { result ≡ has_other_version (page_bytes self.entry) }
    {
        !self.is_new() && self.u16_at(18) != 0x2004
    }

    fn has_bad_places(self, kind: PageKind) -> bool
        ensures { result ≡ has_bad_places kind (page_bytes self.entry) }
    {
        !self.is_new() && !self.has_good_places(kind)
    }

    fn is_new_but_written(self) -> bool
        ensures { result ≡ is_new_but_written (page_bytes self.entry) }
    {
        let bytes = self.bytes;
        self.is_new() && is_written(bytes)
    }

    // Whether the places in the header are in order.
    fn has_good_places(self, kind: PageKind) -> bool
        ensures { result ≡ has_good_places kind (page_bytes self.entry) }
    {
        let lower = self.u16_at(PD_LOWER);
        let upper = self.u16_at(PD_UPPER);
        let special = self.u16_at(16);
        24 <= lower
            && lower <= upper
            && upper <= special
            && special == kind.special()
            && (!kind.has_items() || (lower - 24).is_multiple_of(4))
    }

    /// How many line pointers the page has: none on a new page, at most 2042 on any other.
    #[inline]
    #[tactic(auto, unfolding(crate::specs::Page::count_of, crate::specs::Page::page_rule_of))]
    pub fn item_count(self) -> u16
        requires { HasItems (page_bytes self) }
        ensures value { result ≡ count_of (page_bytes self.entry) }
        ensures limit { 24 + 4 * result ≤ 8192 }
    {
        if self.is_new() {
            return 0;
        }
        (self.u16_at(PD_LOWER) - SIZE_OF_PAGE_HEADER) / 4
    }

    /// Line pointer i, counted from 1, of whatever page: nothing is asked of the page's header.
    #[inline]
    #[tactic(auto, unfolding(crate::specs::Page::item_of))]
    pub fn line_pointer(self, i: u16) -> LinePtr
        requires first { 1 ≤ i }
        requires last { i ≤ 2042 }
        ensures equation { IsItem (page_bytes self.entry) i result }
        ensures value { result ≡ item_of (page_bytes self.entry) i }
    {
        let number = self.u32_at(24 + 4 * (i as usize - 1));
        line_ptr(number)
    }

    /// Line pointer i of a page that has so many, counted from 1.
    #[inline]
    #[tactic(auto, unfolding(crate::specs::Page::count_of, crate::specs::Page::page_rule_of))]
    pub fn item(self, i: u16) -> LinePtr
        requires page { HasItems (page_bytes self) }
        requires first { 1 ≤ i }
        requires last { i ≤ count_of (page_bytes self) }
        ensures equation { IsItem (page_bytes self.entry) i result }
        ensures value { result ≡ item_of (page_bytes self.entry) i }
    {
        self.line_pointer(i)
    }

    /// So many bytes of the page from a place on.
    #[inline]
    pub fn piece(self, off: u16, len: u16) -> &'p [u8]
        requires { off + len ≤ 8192 }
        ensures bytes { result.now ≡ piece_of (page_bytes self.entry) off len }
        ensures length { length result.now ≡ len }
    {
        let bytes = self.bytes;
        let start = off as usize;
        &bytes[start..start + len as usize]
    }
}

impl PageKind {
    // Where the special space begins.
    fn special(self) -> u16
        ensures { result ≡ special_for self }
    {
        match self {
            PageKind::Heap | PageKind::Map => 8192,
            PageKind::Tree | PageKind::Meta => 8176,
        }
    }

    // Whether such a page has line pointers.
    fn has_items(self) -> bool
        ensures { result ≡ has_items self }
    {
        match self {
            PageKind::Heap | PageKind::Tree => true,
            PageKind::Map | PageKind::Meta => false,
        }
    }
}

// Whether a byte isn't 0.
fn is_written(bytes: &[u8]) -> bool
    ensures { result ≡ is_written bytes.now }
{
    bytes.iter().any(|b| *b != 0)
}

// The parts of a line pointer's number.
fn line_ptr(number: u32) -> LinePtr
    ensures equation { IsPtr number result }
    ensures value { result ≡ ptr_of number }
{
    let flag = match number / 32768 % 4 {
        0 => LineFlag::Unused,
        1 => LineFlag::Normal,
        2 => LineFlag::Redirect,
        _ => LineFlag::Dead,
    };
    LinePtr {
        flag,
        off: (number % 32768) as u16,
        len: (number / 131072) as u16,
    }
}
