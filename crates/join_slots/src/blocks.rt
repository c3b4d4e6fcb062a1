//! A block more.
ghost use Rattle.std.specs.Prelude.{◌≡◌, ◌+◌, ◌-◌, ◌∷◌, ◌++◌, ◌<◌, ◌||◌, [], ℕ, List, length};
ghost use Rattle.std.specs.Prelude.{OnErr, OnOk, vec_capacity, vec_len};
ghost use Rattle.key_orders.specs.declared.Tid.{Tid as Place};
ghost use Rattle.page_layout.specs.Bits.{is_set};
ghost use Rattle.join_slots.specs.Slots.{AddsBlock, AreBits, AreStarts};

use outside::NoMemory;
use page_layout::make_room;

// Adds an item where there is room, which takes no memory.
fn push_in_room(items: &mut Vec<u32>, item: u32)
    requires { vec_len items.old < vec_capacity items.old }
    ensures items { items.new.items ≡ items.old.items ++ item ∷ [] }
{
    let _ = items.push(item);
}

// Adds the slots of the next block, none of which has a row.
pub(crate) fn add_block_in(
    starts: &mut Vec<u32>,
    records: &mut Vec<u32>,
    bits: &mut Vec<u8>,
    items: u16,
) -> Result<(), NoMemory>
    requires starts { AreStarts starts.old.items records.old.items }
    requires bits { AreBits records.old.items bits.old.items }
    ensures ok { OnOk result (AddsBlock starts.old.items records.old.items items starts.new.items records.new.items) }
    ensures starts { OnErr result (starts.new.items ≡ starts.old.items) }
    ensures records { OnErr result (records.new.items ≡ records.old.items) }
    ensures bits { AreBits records.new.items bits.new.items }
    ensures same { (p : ℕ) → is_set bits.new.items p ≡ is_set bits.old.items p }
{
    let end = records.len() + items as usize;
    let Ok(next) = u32::try_from(end) else {
        return Err(NoMemory);
    };
    make_room(bits, end)?;
    starts.reserve(1)?;
    records.resize(end, 0)?;
    push_in_room(starts, next);
    Ok(())
}
