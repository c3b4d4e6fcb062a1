//! Tuples of an index.
ghost use Rattle.std.specs.Prelude.{◌≡◌, ◌≤◌, ◌<◌, ◌++◌, length, OnOk};
ghost use Rattle.page_write.specs.Tuples.{index_head_bytes, index_size, kept_tid_bytes, padded_body, pivot_tuple};
ghost use Rattle.page_write.specs.Tuples.{plain_tuple, tid_mask, tid_room};

use crate::words::{push_block, push_bytes, push_tid, push_u16, push_zeros};
use bt_meta::{BT_PIVOT_HEAP_TID_ATTR, INDEX_ALT_TID_MASK, INDEX_NULL_MASK, INDEX_VAR_MASK};
use key_orders::Tid;
use outside::NoMemory;
use page_layout::max_align;

/// What the head of an index tuple says of the body after it.
#[derive(Clone, Copy, Debug, PartialEq, Eq)]
pub struct BodyFlags {
    /// A value is null: the body begins with 4 bytes of null bits and 4 of padding.
    pub nulls: bool,
    /// A value has variable width.
    pub varwidth: bool,
}

impl BodyFlags {
    ghost use Rattle.page_write.specs.Tuples.{masks_of};

    // The bits of the info word.
    pub(crate) fn masks(self) -> u16
        ensures value { result ≡ masks_of self }
        ensures most { result ≤ 0xC000 }
    {
        match (self.nulls, self.varwidth) {
            (true, true) => INDEX_NULL_MASK + INDEX_VAR_MASK,
            (true, false) => INDEX_NULL_MASK,
            (false, true) => INDEX_VAR_MASK,
            (false, false) => 0,
        }
    }
}

// Adds the head of a tuple.
#[tactic(auto, unfolding(crate::specs::Tuples::index_head_bytes))]
pub(crate) fn push_index_head(
    out: &mut Vec<u8>,
    block: u32,
    item: u16,
    info: u16,
) -> Result<(), NoMemory>
    ensures { OnOk result (out.new.items ≡ out.old.items ++ index_head_bytes block item info) }
{
    push_block(out, block)?;
    push_u16(out, item)?;
    push_u16(out, info)
}

// The bytes of a head and a body, rounded up.
pub(crate) fn index_size(body: &[u8]) -> u16
    requires { length body.now ≤ 8160 }
    ensures value { result ≡ index_size (length body.now) }
    ensures most { result ≤ 8168 }
{
    max_align(8 + body.len() as u16)
}

// Adds a body and its padding.
#[tactic(auto, unfolding(crate::specs::Tuples::padded_body))]
pub(crate) fn push_body(out: &mut Vec<u8>, body: &[u8]) -> Result<(), NoMemory>
    requires { length body.now ≤ 8160 }
    ensures { OnOk result (out.new.items ≡ out.old.items ++ padded_body body.now) }
{
    let padding = index_size(body) - (8 + body.len() as u16);
    push_bytes(out, body)?;
    push_zeros(out, padding)
}

/// Puts an entry of a leaf with one TID in the place of what the buffer held (`access/itup.h`). The body has
/// the null bits, if there are any, and the values, each at its alignment.
#[tactic(auto, unfolding(crate::specs::Tuples::plain_tuple))]
pub fn put_plain_tuple(
    out: &mut Vec<u8>,
    tid: Tid,
    flags: BodyFlags,
    body: &[u8],
) -> Result<(), NoMemory>
    requires { length body.now ≤ 8160 }
    ensures { OnOk result (out.new.items ≡ plain_tuple tid flags body.now) }
{
    out.clear();
    push_index_head(out, tid.block, tid.item, flags.masks() + index_size(body))?;
    push_body(out, body)
}

// The bits of an item number that say whether a TID is kept, and the bytes that it takes.
fn tid_mask(tid: Option<Tid>) -> u16
    ensures value { result ≡ tid_mask tid }
    ensures most { result ≤ 0x1000 }
{
    match tid {
        Some(_) => BT_PIVOT_HEAP_TID_ATTR,
        None => 0,
    }
}

fn tid_room(tid: Option<Tid>) -> u16
    ensures value { result ≡ tid_room tid }
    ensures most { result ≤ 8 }
{
    match tid {
        Some(_) => 8,
        None => 0,
    }
}

// Adds the TID of a pivot, if it keeps one.
#[tactic(auto, unfolding(crate::specs::Tuples::kept_tid_bytes))]
fn push_kept_tid(out: &mut Vec<u8>, tid: Option<Tid>) -> Result<(), NoMemory>
    ensures { OnOk result (out.new.items ≡ out.old.items ++ kept_tid_bytes tid) }
{
    match tid {
        Some(tid) => {
            push_zeros(out, 2)?;
            push_tid(out, tid)
        }
        None => Ok(()),
    }
}

/// What a pivot keeps of a key beside its values: how many there are, and perhaps a TID.
#[derive(Clone, Copy, Debug, PartialEq, Eq)]
pub struct Kept {
    /// How many values it keeps.
    pub count: u16,
    pub tid: Option<Tid>,
}

/// Puts a separator with a downlink, 0 for a high key, in the place of what the buffer held (nbtree README,
/// "Notes about suffix truncation"). The body has the null bits, if there are any, and the values that are kept,
/// fewer than 4096.
#[tactic(auto, unfolding(crate::specs::Tuples::pivot_tuple))]
pub fn put_pivot_tuple(
    out: &mut Vec<u8>,
    down: u32,
    kept: Kept,
    flags: BodyFlags,
    body: &[u8],
) -> Result<(), NoMemory>
    requires few { kept.count < 0x1000 }
    requires short { length body.now ≤ 8160 }
    ensures { OnOk result (out.new.items ≡ pivot_tuple down kept.count kept.tid flags body.now) }
{
    let size = index_size(body) + tid_room(kept.tid);
    out.clear();
    push_index_head(
        out,
        down,
        kept.count + tid_mask(kept.tid),
        INDEX_ALT_TID_MASK + flags.masks() + size,
    )?;
    push_body(out, body)?;
    push_kept_tid(out, kept.tid)
}
