//! Numbers, block numbers and zeros that are added at the end of bytes, the lowest byte of a number first.
ghost use Rattle.std.specs.Prelude.{◌≡◌, ◌++◌, OnOk};
ghost use Rattle.page_layout.specs.Writes.{block_bytes, u16_bytes, u32_bytes};
ghost use Rattle.page_write.specs.Pages.{zeros};
ghost use Rattle.page_write.specs.Tuples.{tid_bytes};

use key_orders::Tid;
use outside::NoMemory;

/// Adds bytes at the end.
pub fn push_bytes(out: &mut Vec<u8>, bytes: &[u8]) -> Result<(), NoMemory>
    ensures { OnOk result (out.new.items ≡ out.old.items ++ bytes.now) }
{
    out.extend_from_slice(bytes)?;
    Ok(())
}

// Adds the two bytes of a number.
#[tactic(auto, unfolding(page_layout::specs::Writes::u16_bytes))]
pub(crate) fn push_u16(out: &mut Vec<u8>, number: u16) -> Result<(), NoMemory>
    ensures { OnOk result (out.new.items ≡ out.old.items ++ u16_bytes number) }
{
    push_bytes(out, &number.to_le_bytes())
}

// Adds the four bytes of a number.
#[tactic(auto, unfolding(page_layout::specs::Writes::u32_bytes))]
pub(crate) fn push_u32(out: &mut Vec<u8>, number: u32) -> Result<(), NoMemory>
    ensures { OnOk result (out.new.items ≡ out.old.items ++ u32_bytes number) }
{
    push_bytes(out, &number.to_le_bytes())
}

// Adds the four bytes of a block number.
#[tactic(auto, unfolding(page_layout::specs::Writes::block_bytes))]
pub(crate) fn push_block(out: &mut Vec<u8>, block: u32) -> Result<(), NoMemory>
    ensures { OnOk result (out.new.items ≡ out.old.items ++ block_bytes block) }
{
    push_u16(out, (block / 65536) as u16)?;
    push_u16(out, (block % 65536) as u16)
}

// Adds the six bytes of a TID.
#[tactic(auto, unfolding(crate::specs::Tuples::tid_bytes))]
pub(crate) fn push_tid(out: &mut Vec<u8>, tid: Tid) -> Result<(), NoMemory>
    ensures { OnOk result (out.new.items ≡ out.old.items ++ tid_bytes tid) }
{
    push_block(out, tid.block)?;
    push_u16(out, tid.item)
}

/// Adds so many bytes that are 0 at the end.
pub fn push_zeros(out: &mut Vec<u8>, count: u16) -> Result<(), NoMemory>
    ensures { OnOk result (out.new.items ≡ out.old.items ++ zeros count) }
{
    out.resize(out.len() + count as usize, 0)?;
    Ok(())
}
