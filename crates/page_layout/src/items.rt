//! Line pointers that point to no place where a tuple can be.
ghost use Rattle.std.specs.Prelude.{◌≡◌, false, true};
ghost use Rattle.page_layout.specs.Items.{HasStorage, has_bad_storage, is_misplaced_heap_item};
ghost use Rattle.page_layout.specs.Items.{is_misplaced_tree_item, is_normal, is_normal_or_dead};

use crate::page::{LineFlag, LinePtr};

impl LineFlag {
    /// Whether an item is a tuple in use.
    #[inline]
    pub fn is_normal(self) -> bool
        ensures { result ≡ is_normal self }
    {
        matches!(self, LineFlag::Normal)
    }

    /// Whether a line pointer of a tree page says where an index tuple is: a killed one does too.
    #[inline]
    pub fn is_normal_or_dead(self) -> bool
        ensures { result ≡ is_normal_or_dead self }
    {
        matches!(self, LineFlag::Normal | LineFlag::Dead)
    }
}

impl LinePtr {
    /// Whether the line pointer of a heap page breaks H1: it is normal, and its offset isn't a
    /// multiple of 8 or is below `upper`, the page's upper place, or its storage ends past the
    /// page's 8192 bytes, or is shorter than the 24 bytes of a tuple's header (`access/htup_details.h`).
    #[inline]
    #[tactic(auto, unfolding(crate::specs::Items::is_misplaced_heap_item))]
    pub fn is_misplaced_heap_item(self, upper: u16) -> bool
        ensures test { result ≡ is_misplaced_heap_item upper self }
        // What isn't misplaced may be read.
        ensures storage { result ≡ false → is_normal self.flag ≡ true → HasStorage upper 8192 24 self }
    {
        self.flag.is_normal() && self.has_bad_storage(upper, 8192, 24)
    }

    /// Whether the line pointer of a tree page breaks B5: it is neither normal nor dead, or its
    /// offset isn't a multiple of 8 or is below `upper`, the page's upper place, or its storage ends
    /// past the start of the special space, 8176, or is shorter than the 8 bytes of an index tuple's
    /// header (`access/itup.h`).
    #[inline]
    #[tactic(auto, unfolding(crate::specs::Items::is_misplaced_tree_item))]
    pub fn is_misplaced_tree_item(self, upper: u16) -> bool
        ensures test { result ≡ is_misplaced_tree_item upper self }
        // What isn't misplaced may be read.
        ensures storage { result ≡ false → HasStorage upper 8176 8 self }
        ensures flag { result ≡ false → is_normal_or_dead self.flag ≡ true }
    {
        !self.flag.is_normal_or_dead() || self.has_bad_storage(upper, 8176, 8)
    }

    // Whether the storage isn't at a multiple of 8 within these bounds, or is shorter than `least`.
    #[inline]
    fn has_bad_storage(self, upper: u16, end: u32, least: u16) -> bool
        ensures test { result ≡ has_bad_storage upper end least self }
        ensures storage { result ≡ false → HasStorage upper end least self }
    {
        !self.off.is_multiple_of(8)
            || self.off < upper
            || self.off as u32 + self.len as u32 > end
            || self.len < least
    }
}
