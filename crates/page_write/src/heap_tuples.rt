//! Tuples of a table.
ghost use Rattle.std.specs.Prelude.{◌≡◌, ◌+◌, ◌≤◌, ◌++◌, length, OnOk};
ghost use Rattle.page_write.specs.Tuples.{heap_head_bytes, heap_tuple};

use crate::words::{push_block, push_bytes, push_u16, push_u32, push_zeros};
use outside::NoMemory;
use tuple_head::HeapHead;

// Adds the 23 bytes of a header.
#[tactic(auto, unfolding(crate::specs::Tuples::heap_head_bytes))]
fn push_heap_head(out: &mut Vec<u8>, head: HeapHead) -> Result<(), NoMemory>
    ensures { OnOk result (out.new.items ≡ out.old.items ++ heap_head_bytes head) }
{
    push_u32(out, head.xmin)?;
    push_u32(out, head.xmax)?;
    push_u32(out, head.field3)?;
    push_block(out, head.ctid.block)?;
    push_u16(out, head.ctid.item)?;
    push_u16(out, head.infomask2)?;
    push_u16(out, head.infomask)?;
    out.push(head.hoff)?;
    Ok(())
}

/// Puts a tuple of a table in the place of what the buffer held: its header, its null bits, if it has any,
/// and its attributes at the place that the header names (`access/htup_details.h`).
#[tactic(auto, unfolding(crate::specs::Tuples::heap_tuple))]
pub fn put_heap_tuple(
    out: &mut Vec<u8>,
    head: HeapHead,
    nulls: &[u8],
    body: &[u8],
) -> Result<(), NoMemory>
    requires { 23 + length nulls.now ≤ head.hoff }
    ensures { OnOk result (out.new.items ≡ heap_tuple head nulls.now body.now) }
{
    out.clear();
    push_heap_head(out, head)?;
    push_bytes(out, nulls)?;
    push_zeros(out, u16::from(head.hoff) - 23 - nulls.len() as u16)?;
    push_bytes(out, body)
}
