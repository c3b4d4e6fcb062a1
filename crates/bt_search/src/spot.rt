//! Where a reader stands, and what it reads there.
use key_orders::{KeyRefs, Tid};

/// How many pages were looked at. Each visit to a page raises the count by one, also one that fails.
#[derive(Clone, Copy, Debug, PartialEq, Eq)]
pub struct Visits {
    pub count: u64,
}

/// A place on a leaf: the block of its page, an item of that, counted from 1, and a TID of the item,
/// counted from 0. Behind the last entry the item is the count of items plus 1. Block 0 is no leaf: a
/// spot of it says that the tree is empty.
#[derive(Clone, Copy, Debug, PartialEq, Eq)]
pub struct Spot {
    pub block: u32,
    pub item: u16,
    pub nth: u16,
}

/// An entry of a leaf, where it lies.
#[derive(Drop)]
pub struct EntryRef<'p> {
    pub key: KeyRefs<'p>,
    pub tid: Tid,
}

// No place.
pub const NOWHERE: Spot = Spot {
    block: 0,
    item: 0,
    nth: 0,
};
