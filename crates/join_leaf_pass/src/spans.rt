//! Which heap blocks the entries of each leaf of an index name. What is kept of them means nothing for an answer: a
//! leaf that is passed over leaves rows unmet, and where one is left, all leaves are looked at.

use join_meet::HeapRange;
use outside::NoMemory;
use std::alloc::Global;

/// The lowest and the highest heap block that entries name.
#[derive(Clone, Copy)]
pub struct Span {
    lowest: u32,
    highest: u32,
}

impl Span {
    /// That of no entry.
    pub fn none() -> Span {
        Span {
            lowest: u32::MAX,
            highest: 0,
        }
    }

    // That of entries of which nothing is known.
    fn any() -> Span {
        Span {
            lowest: 0,
            highest: u32::MAX,
        }
    }

    /// Adds a block that an entry names.
    #[inline]
    pub fn add(&mut self, block: u32) {
        self.lowest = self.lowest.min(block);
        self.highest = self.highest.max(block);
    }

    // Whether a block of the range stands in it.
    fn meets(self, range: HeapRange) -> bool {
        self.lowest < range.end && range.first <= self.highest
    }
}

/// For each block of an index, from 0, the heap blocks that its entries name, if it is a leaf: 8 bytes each.
#[derive(Drop)]
pub struct Spans {
    spans: Vec<Span>,
}

impl Spans {
    /// Of no index: nothing is known of any block.
    pub fn new(alloc: Global) -> Spans {
        Spans {
            spans: Vec::new(alloc),
        }
    }

    /// Begins an index of so many blocks; nothing is known of any. After `NoMemory` it is so too.
    pub fn begin(&mut self, blocks: u32) -> Result<(), NoMemory> {
        self.spans.clear();
        self.spans.resize(blocks as usize, Span::any())?;
        Ok(())
    }

    /// Keeps what the entries of a block of the index name.
    pub fn keep(&mut self, b: u32, span: Span) {
        if let Some(place) = self.spans.get_mut(b as usize) {
            *place = span;
        }
    }

    /// Whether entries of a block of the index may name a block of the range.
    pub fn may_name(&self, b: u32, range: HeapRange) -> bool {
        match self.spans.get(b as usize) {
            Some(span) => span.meets(range),
            None => true,
        }
    }
}
