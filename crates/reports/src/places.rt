//! What a report lists, and where.
use key_orders::Tid;
use page_layout::Rule;

/// A relation of the case: its heap, the heap's visibility map, its TOAST table, or an index,
/// counted from 1 in the order of the case.
#[derive(Clone, Copy, Debug, PartialEq, Eq)]
pub enum Rel {
    Heap,
    Map,
    Toast,
    Index(u16),
}

/// Where a rule is broken, or can't be judged. Segments, blocks and the TIDs of a posting list count
/// from 0; items, columns and indexes from 1.
#[derive(Clone, Copy, Debug, PartialEq, Eq)]
pub enum Place {
    /// A segment of a relation.
    Segment(Rel, u32),
    /// A block of a relation.
    Block(Rel, u32),
    /// A line pointer of a block, and what it points to.
    Item(Rel, u32, u16),
    /// A column of the heap tuple at a block and an item.
    Column(u32, u16, u16),
    /// A live heap tuple, as an index should know it.
    Tuple(u16, Tid),
    /// An entry of an index: the index, the block and item that hold it, and the TID that it names.
    Entry(u16, u32, u16, Tid),
}

/// A rule that is broken at a place.
#[derive(Clone, Copy, Debug, PartialEq, Eq)]
pub struct Finding {
    pub rule: Rule,
    pub place: Place,
}

/// Why a place can't be judged.
#[derive(Clone, Copy, Debug, PartialEq, Eq)]
pub enum Reason {
    /// A tuple header in a form of before 9.0, or with an object id.
    U1,
    /// A multixact whose members were never finished.
    U2,
    /// A multixact of more than 65536 members.
    U3,
    /// An index of nbtree version 2 or 3.
    U4,
    /// A compressed value in an index item.
    U5,
    /// A live tuple with a compressed value in a key column.
    U6,
}

/// A place that can't be judged, with the reason.
#[derive(Clone, Copy, Debug, PartialEq, Eq)]
pub struct UnjudgedPlace {
    pub reason: Reason,
    pub place: Place,
}

/// What a report says in one word.
#[derive(Clone, Copy, Debug, PartialEq, Eq)]
pub enum Verdict {
    /// No finding, and nothing unjudged.
    Clean,
    /// At least one finding.
    Findings,
    /// No finding, but a place that can't be judged.
    Unjudged,
}
