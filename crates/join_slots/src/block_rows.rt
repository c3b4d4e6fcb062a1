//! Rows of a block that are kept at once, in slots one after another.
ghost use Rattle.std.specs.Prelude.{◌≡◌, ◌+◌, ◌-◌, ◌<◌, ◌≤◌, ◌==◌, ℕ, All, cond, drop, length};
ghost use Rattle.std.specs.Prelude.{IfSome, None, OnErr, OnOk, Some};
ghost use Rattle.std.specs.Bool.{OnFalse, OnTrue};
ghost use Rattle.key_storage.specs.RowLists.{LiesAt, LiesFrom, NUMBERS, keys_read, number_bytes};
ghost use Rattle.key_storage.specs.Stored.{key_read};
ghost use Rattle.join_slots.specs.BlockRows.{AreFree, AreSlots, key_at, rows_at};
ghost use Rattle.join_slots.specs.Slots.{AreKept};

use key_storage::{NUMBERS, RowBytes};
use outside::NoMemory;

/// The slot of item 1 of a block, where the range has so many line pointers of it.
pub(crate) fn block_slots(first: u32, starts: &[u32], block: u32, count: usize) -> Option<usize>
    ensures some { IfSome result (λ slot. AreSlots first starts.now block count slot) }
    ensures none { result ≡ None → (slot : ℕ) → AreSlots first starts.now block count slot → ⊥ }
{
    if block < first {
        return None;
    }
    let at = (block - first) as usize;
    if starts.len() <= at + 1 {
        return None;
    }
    let slot = starts[at] as usize;
    let end = starts[at + 1] as usize;
    if end < slot {
        return None;
    }
    if end - slot < count {
        return None;
    }
    Some(slot)
}

/// Whether no row is kept in so many slots from one on.
pub(crate) fn are_free(records: &[u32], slot: usize, count: usize) -> bool
    requires { slot + count ≤ length records.now }
    ensures free { OnTrue result (AreFree records.now slot count) }
    ensures used { OnFalse result (AreFree records.now slot count → ⊥) }
{
    for i in 0..count {
        if records[slot + i] != 0 {
            return false;
        }
    }
    true
}

// Says in a slot what the key of its row is: a number, or where it lies, so many bytes behind a base.
#[inline]
fn put_row(records: &mut [u32], arena: &[u8], slot: usize, base: u32, start: u32)
    requires slot { slot < length records.old }
    requires lies { start < NUMBERS → LiesAt arena.now (base + start) }
    requires low { start < NUMBERS → base + start + 1 < NUMBERS }
    requires kept { AreKept records.old arena.now }
    ensures kept { AreKept records.new arena.now }
    ensures place { start < NUMBERS → (k : ℕ) → key_at records.new arena.now k
        ≡ cond (k == slot) (Some (key_read (drop (base + start) arena.now))) (key_at records.old arena.now k) }
    ensures number { NUMBERS ≤ start → (k : ℕ) → key_at records.new arena.now k
        ≡ cond (k == slot) (Some (key_read (number_bytes (start - NUMBERS)))) (key_at records.old arena.now k) }
{
    if NUMBERS <= start {
        records[slot] = start;
        return;
    }
    records[slot] = base + start + 1;
}

/// Keeps rows at slots one after another. After `NoMemory` no slot has changed.
pub(crate) fn keep_in(
    records: &mut [u32],
    arena: &mut Vec<u8>,
    slot: usize,
    rows: RowBytes<'_>,
) -> Result<(), NoMemory>
    requires slots { slot + length rows.starts.now ≤ length records.old }
    requires lie { All (LiesFrom rows.bytes.now) rows.starts.now }
    requires kept { AreKept records.old arena.old.items }
    ensures kept { AreKept records.new arena.new.items }
    ensures keys { OnOk result ((k : ℕ) → key_at records.new arena.new.items k
        ≡ rows_at records.old arena.old.items slot (keys_read rows.entry.starts.now rows.entry.bytes.now)
        (length rows.entry.starts.now) k) }
    ensures err { OnErr result (records.new ≡ records.old) }
{
    let used = arena.len();
    if NUMBERS as usize <= used || NUMBERS as usize - used <= rows.bytes.len() {
        return Err(NoMemory);
    }
    let base = used as u32;
    arena.extend_from_slice(rows.bytes)?;
    for i in 0..rows.starts.len() {
        put_row(records, arena, slot + i, base, rows.starts[i]);
    }
    Ok(())
}
