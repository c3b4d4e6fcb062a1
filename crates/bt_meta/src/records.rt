//! What stands at fixed places of a tree's pages and tuples.
ghost use Rattle.std.specs.Prelude.{◌≡◌};
ghost use Rattle.bt_meta.specs.Flags.{is_deleted, is_half_dead, is_leaf, is_meta, is_split_unfinished};

use crate::layout::{BTP_DELETED, BTP_HALF_DEAD, BTP_INCOMPLETE_SPLIT, BTP_LEAF, BTP_META};
use page_layout::has_bit;

/// The numbers of a tree in its metapage, block 0 (`access/nbtree.h`, `BTMetaPageData`; its later
/// fields aren't read). Blocks and levels count from 0, levels from the leaves upward.
#[derive(Clone, Copy, Debug, PartialEq, Eq)]
pub struct Meta {
    /// 0x00053162 in every B-tree (`BTREE_MAGIC`).
    pub magic: u32,
    /// The version of the tree's format: 2, 3 or 4.
    pub version: u32,
    /// The block of the root; 0 in an empty tree without pages.
    pub root: u32,
    /// The level of the root.
    pub level: u32,
    /// The block of the fast root, where searches begin; 0 where the root is.
    pub fastroot: u32,
    /// The level of the fast root.
    pub fastlevel: u32,
}

/// The 16 bytes of special space at the end of a tree page (`access/nbtree.h`,
/// `BTPageOpaqueData`).
#[derive(Clone, Copy, Debug, PartialEq, Eq)]
pub struct Opaque {
    /// The block of the left sibling, 0 where there is none.
    pub prev: u32,
    /// The block of the right sibling, 0 where there is none.
    pub next: u32,
    /// The level, 0 for a leaf.
    pub level: u32,
    /// The `BTP_` flags.
    pub flags: u16,
    /// Of the vacuum that last split the page, which isn't tested.
    pub cycle: u16,
}

/// The form of an index tuple (nbtree README, the notes on suffix truncation and on deduplication).
#[derive(Clone, Copy, Debug, PartialEq, Eq)]
pub enum HeadKind {
    /// A separator: a high key, or an item of an internal page.
    Pivot,
    /// An entry of a leaf, with one TID.
    Plain,
    /// An entry of a leaf with a list of TIDs.
    Posting,
}

/// The 8 bytes with which an index tuple begins (`access/itup.h`, `IndexTupleData`).
#[derive(Clone, Copy, Debug, PartialEq, Eq)]
pub struct TreeHead {
    /// The block of a plain tuple's TID; a pivot's downlink; the place, in bytes from the tuple's
    /// start, of a posting tuple's list.
    pub block: u32,
    /// The item of a plain tuple's TID, counted from 1; else flags and, in its low 12 bits, the
    /// number of values that a pivot keeps, or of TIDs in a posting tuple's list.
    pub item: u16,
    /// Flags, and in the low 13 bits the tuple's size in bytes.
    pub info: u16,
    /// The form that the flags tell.
    pub kind: HeadKind,
}

impl Opaque {
    /// Whether the page is a leaf (`BTP_LEAF`).
    #[inline]
    #[tactic(auto, unfolding(crate::specs::Flags::is_leaf))]
    pub fn is_leaf(self) -> bool
        ensures { result ≡ is_leaf self }
    {
        has_bit(self.flags, BTP_LEAF)
    }

    /// Whether the page was deleted from the tree (`BTP_DELETED`).
    #[inline]
    #[tactic(auto, unfolding(crate::specs::Flags::is_deleted))]
    pub fn is_deleted(self) -> bool
        ensures { result ≡ is_deleted self }
    {
        has_bit(self.flags, BTP_DELETED)
    }

    /// Whether the page is marked as the metapage (`BTP_META`).
    #[inline]
    #[tactic(auto, unfolding(crate::specs::Flags::is_meta))]
    pub fn is_meta(self) -> bool
        ensures { result ≡ is_meta self }
    {
        has_bit(self.flags, BTP_META)
    }

    /// Whether the page's deletion was begun and not finished (`BTP_HALF_DEAD`).
    #[inline]
    #[tactic(auto, unfolding(crate::specs::Flags::is_half_dead))]
    pub fn is_half_dead(self) -> bool
        ensures { result ≡ is_half_dead self }
    {
        has_bit(self.flags, BTP_HALF_DEAD)
    }

    /// Whether the page was split, and its right half isn't linked from the level above yet
    /// (`BTP_INCOMPLETE_SPLIT`).
    #[inline]
    #[tactic(auto, unfolding(crate::specs::Flags::is_split_unfinished))]
    pub fn is_split_unfinished(self) -> bool
        ensures { result ≡ is_split_unfinished self }
    {
        has_bit(self.flags, BTP_INCOMPLETE_SPLIT)
    }
}
