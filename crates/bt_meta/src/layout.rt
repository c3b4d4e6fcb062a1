//! The bits and places of a B-tree's pages and tuples, named as in the server's headers. What other crates read or
//! write is public.

// Where the fields of a page's special space stand (access/nbtree.h, BTPageOpaqueData).
pub(crate) const BTPO_PREV: usize = 8176;

pub(crate) const BTPO_NEXT: usize = 8180;

pub(crate) const BTPO_LEVEL: usize = 8184;

pub(crate) const BTPO_FLAGS: usize = 8188;

pub(crate) const BTPO_CYCLEID: usize = 8190;

/// Where the special space of a tree page begins, in bytes from the page's start; it goes to the page's end.
pub const TREE_SPECIAL: u16 = 8176;

/// A flag of a page: it is a leaf (access/nbtree.h).
pub const BTP_LEAF: u16 = 0x0001;

/// A flag of a page: it is the root (access/nbtree.h).
pub const BTP_ROOT: u16 = 0x0002;

// Further flags of a page.
pub(crate) const BTP_DELETED: u16 = 0x0004;

pub(crate) const BTP_META: u16 = 0x0008;

pub(crate) const BTP_HALF_DEAD: u16 = 0x0010;

pub(crate) const BTP_INCOMPLETE_SPLIT: u16 = 0x0080;

// Where the numbers of a tree stand in its block 0 (access/nbtree.h, BTMetaPageData).
pub(crate) const BTM_MAGIC: usize = 24;

pub(crate) const BTM_VERSION: usize = 28;

pub(crate) const BTM_ROOT: usize = 32;

pub(crate) const BTM_LEVEL: usize = 36;

pub(crate) const BTM_FASTROOT: usize = 40;

pub(crate) const BTM_FASTLEVEL: usize = 44;

/// The magic number of a B-tree (access/nbtree.h).
pub const BTREE_MAGIC: u32 = 0x0005_3162;

// The oldest version of its format.
pub(crate) const BTREE_MIN_VERSION: u32 = 2;

/// The newest version of its format, whose pages alone are judged (access/nbtree.h).
pub const BTREE_VERSION: u32 = 4;

// Where the fields of an index tuple's head stand, in bytes from the tuple's start (access/itup.h,
// IndexTupleData): the block and the item of its TID, and its info word.
pub(crate) const TID_BLOCK: usize = 0;

pub(crate) const TID_ITEM: usize = 4;

pub(crate) const T_INFO: usize = 6;

/// How many bytes a TID has (access/itemptr.h, ItemPointerData).
pub const TID_LEN: usize = 6;

/// The size of an index tuple is in the bits of its info word below this one (access/itup.h, INDEX_SIZE_MASK).
pub const INDEX_SIZE_LIMIT: u16 = 0x2000;

/// A bit of the info word: the TID is none, and its item number has flags (access/nbtree.h).
pub const INDEX_ALT_TID_MASK: u16 = 0x2000;

/// A bit of the info word: a value has variable width (access/itup.h).
pub const INDEX_VAR_MASK: u16 = 0x4000;

/// A bit of the info word: a value is null, and null bits stand behind the head (access/itup.h).
pub const INDEX_NULL_MASK: u16 = 0x8000;

/// A number is in the bits of the item number of such a TID below this one (access/nbtree.h, BT_OFFSET_MASK).
pub const BT_OFFSET_LIMIT: u16 = 0x1000;

/// A bit of such an item number: the tuple is a pivot that keeps a TID (access/nbtree.h).
pub const BT_PIVOT_HEAP_TID_ATTR: u16 = 0x1000;

/// A bit of such an item number: the tuple has a list of TIDs (access/nbtree.h).
pub const BT_IS_POSTING: u16 = 0x2000;
