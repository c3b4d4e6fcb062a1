//! A page that is laid out, item by item.
ghost use Rattle.std.specs.Prelude.{◌↔◌, IsTrue, ◌≡◌, ◌+◌, ◌≤◌, ℕ, List, [], ◌∷◌, ◌++◌, length};
ghost use Rattle.page_layout.specs.Page.{max_align};
ghost use Rattle.page_layout.specs.Writes.{header_bytes, with_bytes};
ghost use Rattle.page_write.specs.Pages.{header_with, opaque_bytes, pointer_bytes, zeros};

use bt_meta::{Opaque, TREE_SPECIAL};
use page_layout::{PageHeader, max_align, put_header, put_u16, put_u32};

/// A page that is being laid out, as a server lays one: line pointers grow from the header upward, and the
/// items' storage from the special space downward, each item at a multiple of 8 (`storage/bufpage.h`,
/// `PageAddItemExtended`). Contracts say by `HoldsItems` which items it has.
#[derive(Drop)]
pub struct PageWriter {
    bytes: [u8; 8192],
    lower: u16,
    upper: u16,
    special: u16,
    ghost order: { lower ≤ upper },
    ghost within: { upper ≤ 8192 },
}

// A page of zeros.
pub(crate) fn blank_page() -> [u8; 8192]
    ensures { result ≡ zeros 8192 }
{
    [0u8; 8192]
}

// A header that says no more than where things are.
#[tactic(auto, unfolding(crate::specs::Pages::header_with))]
pub(crate) fn header_with(lower: u16, upper: u16, special: u16) -> PageHeader
    ensures { result ≡ header_with lower upper special }
{
    PageHeader {
        lsn_high: 0,
        lsn_low: 0,
        checksum: 0,
        flags: 0,
        lower,
        upper,
        special,
        version: 0x2004,
        prune_xid: 0,
    }
}

// Writes bytes at a place of a page.
fn put_bytes(page: &mut [u8; 8192], at: u16, bytes: &[u8])
    requires { at + length bytes.now ≤ 8192 }
    ensures { page.new ≡ with_bytes page.old at bytes.now }
{
    let start = at as usize;
    page[start..start + bytes.len()].copy_from_slice(bytes);
}

// Writes a line pointer to storage in use.
#[tactic(auto, unfolding(crate::specs::Pages::pointer_bytes))]
fn put_pointer(page: &mut [u8; 8192], at: u16, off: u16, len: u16)
    requires within { at + 4 ≤ 8192 }
    requires off { off ≤ 8192 }
    requires len { len ≤ 8192 }
    ensures { page.new ≡ with_bytes page.old at (pointer_bytes off len) }
{
    put_u32(
        page,
        at as usize,
        u32::from(off) + 32768 + 131072 * u32::from(len),
    );
}

// Writes the special space of a tree page.
pub(crate) fn put_opaque(page: &mut [u8; 8192], special: Opaque)
    ensures { page.new ≡ with_bytes page.old 8176 (opaque_bytes special) }
{
    put_u32(page, 8176, special.prev);
    put_u32(page, 8180, special.next);
    put_u32(page, 8184, special.level);
    put_u16(page, 8188, special.flags);
    put_u16(page, 8190, special.cycle);
}

impl PageWriter {
    ghost use Rattle.page_write.specs.Pages.{heap_page, tree_page};
    ghost use Rattle.page_write.specs.Writing.{HasRoom, HoldsItems, free_bytes};

    /// A page of a table, without items.
    pub fn heap() -> PageWriter
        ensures { HoldsItems result 8192 [] }
    {
        PageWriter {
            bytes: blank_page(),
            lower: 24,
            upper: 8192,
            special: 8192,
        }
    }

    /// A page of a tree, without items.
    pub fn tree() -> PageWriter
        ensures { HoldsItems result 8176 [] }
    {
        PageWriter {
            bytes: blank_page(),
            lower: 24,
            upper: TREE_SPECIAL,
            special: TREE_SPECIAL,
        }
    }

    /// Whether there is room for a line pointer and an item of so many bytes.
    pub fn has_room(&self, len: usize) -> bool
        ensures { IsTrue result ↔ HasRoom self.now len }
    {
        len <= 8192 && 4 + max_align(len as u16) <= self.upper - self.lower
    }

    /// Adds an item after those that are there.
    pub fn add(&mut self, item: &[u8])
        requires { HasRoom self.old (length item.now) }
        ensures items { (special : ℕ) (items : List (List ℕ)) → HoldsItems self.old special items
            → HoldsItems self.new special (items ++ item.now ∷ []) }
        ensures room { free_bytes self.new + 4 + max_align (length item.now) ≡ free_bytes self.old }
    {
        let len = item.len() as u16;
        let off = self.upper - max_align(len);
        put_pointer(&mut self.bytes, self.lower, off, len);
        put_bytes(&mut self.bytes, off, item);
        self.lower += 4;
        self.upper = off;
    }

    // The page with its header.
    fn finish(self) -> [u8; 8192]
        ensures { result ≡ with_bytes self.bytes 0 (header_bytes (header_with self.lower self.upper self.special)) }
    {
        let mut page = self.bytes;
        put_header(&mut page, header_with(self.lower, self.upper, self.special));
        page
    }

    /// The page of a table with these items.
    pub fn heap_page(self) -> [u8; 8192]
        ensures { (items : List (List ℕ)) → HoldsItems self 8192 items → result ≡ heap_page items }
    {
        self.finish()
    }

    /// The page of a tree with these items and this special space.
    pub fn tree_page(self, special: Opaque) -> [u8; 8192]
        ensures { (items : List (List ℕ)) → HoldsItems self 8176 items → result ≡ tree_page items special }
    {
        let mut page = self.finish();
        put_opaque(&mut page, special);
        page
    }
}
