//! Which line pointers of a heap may be the root of a live row.
ghost use Rattle.std.specs.Prelude.{◌≡◌, ◌+◌, ◌*◌, ◌%◌, ◌==◌, ◌||◌};
ghost use Rattle.key_orders.specs.declared.Tid.{Tid as Place};
ghost use Rattle.join_unique.specs.Roots.{may_be, place_of};

use key_orders::Tid;
use outside::NoMemory;
use page_layout::{is_set, set_bit};
use std::alloc::Global;

// How many bits, and bytes, a block has. A server makes at most 291 line pointers on a heap page.
const BLOCK_BITS: usize = 320;

const BLOCK_BYTES: usize = 40;

/// A set of line pointers of a heap, which has all that were put into it. Of a page with more than 320 line pointers it
/// may have others too, those whose numbers are 320 apart.
#[derive(Drop)]
pub(crate) struct Roots {
    pub(crate) bits: Vec<u8>,
}

// The place of a line pointer's bit.
fn place_of(tid: Tid) -> usize
    ensures { result ≡ tid.block * 320 + tid.item % 320 }
{
    tid.block as usize * BLOCK_BITS + tid.item as usize % BLOCK_BITS
}

// Whether a line pointer's bit is set, or there is none.
#[tactic(auto, unfolding(crate::specs::Roots::may_be))]
fn may_be(bits: &[u8], tid: Tid) -> bool
    ensures { result ≡ may_be bits.now tid }
{
    let place = place_of(tid);
    bits.len() <= place / 8 || is_set(bits, place)
}

// Sets a line pointer's bit, if there is one.
fn set_root(bits: &mut [u8], tid: Tid)
    ensures { (t : Place) → may_be bits.new t ≡ ((place_of t == place_of tid) || may_be bits.old t) }
{
    let place = place_of(tid);
    if place / 8 < bits.len() {
        set_bit(bits, place);
    }
}

impl Roots {
    ghost use Rattle.join_unique.specs.Roots.{is_root_in, place_of};

    /// No line pointer of a heap of so many blocks.
    pub(crate) fn new(alloc: Global, blocks: u32) -> Result<Roots, NoMemory> {
        let bits = vec![in alloc; 0; blocks as usize * BLOCK_BYTES]?;
        Ok(Roots { bits })
    }

    /// Adds a line pointer.
    pub(crate) fn insert(&mut self, tid: Tid)
        ensures { (t : Place) → is_root_in self.new t ≡ ((place_of t == place_of tid) || is_root_in self.old t) }
    {
        set_root(&mut self.bits, tid);
    }

    /// Whether the set has a line pointer.
    pub(crate) fn has(&self, tid: Tid) -> bool
        ensures { result ≡ is_root_in self.now tid }
    {
        may_be(&self.bits, tid)
    }
}
