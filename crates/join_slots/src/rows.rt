//! The slots of a range of heap blocks.
ghost use Rattle.std.specs.Prelude.{◌≡◌, ◌≢◌, ◌∷◌, ◌++◌, ◌-◌, ◌*◌, ◌≤◌, ◌&&◌, [], ℕ, List, None, Some, false, length};
ghost use Rattle.std.specs.Prelude.{nat_le, nat_lt, true};
ghost use Rattle.std.specs.Prelude.{IfOk, IfSome, OnErr, OnOk};
ghost use Rattle.std.specs.Bool.{OnFalse, OnTrue};
ghost use Rattle.key_orders.specs.declared.Tid.{Tid as Place};
ghost use Rattle.key_orders.specs.declared.columns.Value.{Value as Shown};
ghost use Rattle.key_orders.specs.declared.columns.Value.TheVariants.{Int};
ghost use Rattle.key_orders.specs.Values.{value_shown};
ghost use Rattle.key_storage.specs.Rows.{row_values};
ghost use Rattle.key_storage.specs.Stored.{shown_bytes};
ghost use Rattle.key_attrs.specs.Columns.{tree_columns};
ghost use Rattle.join_slots.specs.Met.{keyed, met_by};
ghost use Rattle.join_slots.specs.declared.slots.BegunRow.{BegunRow as Row};
ghost use Rattle.join_slots.specs.Slots.{AreAllMet, AreAllSet, HasBlock, IsBegun, IsBegunRow, IsWrittenRow, SameRange};
ghost use Rattle.join_slots.specs.Slots.{blocks_in, has_in, is_item_of, keys_in, keys_with, keys_with_rows, met_in};
ghost use Rattle.join_slots.specs.Told.{TellsKey};

use crate::block_rows::{are_free, block_slots, keep_in};
use crate::blocks::add_block_in;
use crate::slots::{
    BegunRow, Kept, begin_at, find, is_kept_in, is_met_in, meet_in, meet_number_in, meet_plain_in,
    read_ahead,
};
use key_attrs::IndexColumns;
use key_orders::{Tid, ValueRef};
use key_storage::{LONGEST_VALUE, RowValues, StoredRows, push_value};
use outside::NoMemory;
use page_layout::is_set;
use std::alloc::Global;

// Whether the bits of all places that have a number are set.
fn are_all_set(numbers: &[u32], bits: &[u8]) -> bool
    requires { length numbers.now ≤ 8 * length bits.now }
    ensures { OnTrue result (AreAllSet numbers.now bits.now (length numbers.now)) }
{
    for k in 0..numbers.len() {
        if numbers[k] != 0 && !is_set(bits, k) {
            return false;
        }
    }
    true
}

use std::marker::Model;

/// The rows of a range of heap blocks, each by the line pointer at which it is rooted, with its key and with whether an
/// entry met it. Contracts see functions of a TID, and the blocks of the range.
#[derive(Drop)]
pub struct RowSlots {
    first: u32,
    // For each block its first slot, and last the end of the last block.
    starts: Vec<u32>,
    // For each slot 0, or one more than the place of the key of the row that is rooted there, or what says that it is
    // one number.
    records: Vec<u32>,
    // The keys that aren't said in slots.
    arena: Vec<u8>,
    // A bit for each slot, 1 where its row was met.
    bits: Vec<u8>,
    // What was read ahead, which means nothing.
    touched: u8,
}

impl Model for RowSlots {
    ghost use Rattle.join_slots.specs.Slots.{AreBits, AreKept, AreStarts, Tables};

    ghost Value = { Tables };

    ghost view = { λ r. record {
      first = r.first;
      starts = r.starts.items;
      records = r.records.items;
      arena = r.arena.items;
      bits = r.bits.items;
    } };

    ghost invariant = { λ r. AreStarts r.starts.items r.records.items × AreBits r.records.items r.bits.items
        × AreKept r.records.items r.arena.items };
}

impl RowSlots {
    /// No blocks yet; the first that is added is this one. A further range takes new slots.
    pub fn new(alloc: Global, first: u32) -> Result<RowSlots, NoMemory>
        ensures { IfOk result (λ slots. IsBegun first slots) }
    {
        let mut starts = Vec::new(alloc);
        starts.push(0)?;
        Ok(RowSlots {
            first,
            starts,
            records: Vec::new(alloc),
            arena: Vec::new(alloc),
            bits: Vec::new(alloc),
            touched: 0,
        })
    }

    /// Forgets the rows and blocks; the first block that is added then is this one.
    pub fn begin(&mut self, first: u32)
        ensures { IsBegun first self.new }
    {
        self.first = first;
        self.starts.truncate(1);
        self.records.clear();
        self.arena.clear();
        self.bits.clear();
        self.starts[0] = 0;
    }

    /// How many bytes are in use.
    pub fn bytes(&self) -> usize {
        let slots = self.records.len().saturating_add(self.starts.len());
        self.arena.len().saturating_add(slots.saturating_mul(4))
    }

    /// Adds the line pointers of the next block, from item 1 on. After `NoMemory` the slots are as they were.
    pub fn add_block(&mut self, items: u16) -> Result<(), NoMemory>
        ensures ok { OnOk result (HasBlock self.old items self.new) }
        ensures range { OnErr result (SameRange self.old self.new) }
        ensures keys { OnErr result (keys_in self.new ≡ keys_in self.old) }
        ensures met { OnErr result (met_in self.new ≡ met_in self.old) }
    {
        add_block_in(&mut self.starts, &mut self.records, &mut self.bits, items)?;
        Ok(())
    }

    /// Begins to write the values of the row that is rooted at a line pointer, which will be so many; none exactly
    /// where the range has no such line pointer, or a row is kept there already. No row is kept by this.
    pub fn begin_row(&mut self, tid: Tid, count: u8) -> Result<Option<BegunRow>, NoMemory>
        ensures begun { IfOk result (λ found. IfSome found (λ row. IsBegunRow self.new row tid count [])) }
        ensures fresh { IfOk result (λ found. IfSome found (λ row. keys_in self.old tid ≡ None)) }
        ensures none { IfOk result (λ found. found ≡ None → has_in self.old tid ≡ true → keys_in self.old tid ≢ None) }
        ensures keys { keys_in self.new ≡ keys_in self.old }
        ensures met { met_in self.new ≡ met_in self.old }
        ensures range { SameRange self.old self.new }
    {
        let Some(slot) = find(self.first, &self.starts, tid) else {
            return Ok(None);
        };
        if self.records[slot] != 0 {
            return Ok(None);
        }
        let row = begin_at(slot, &mut self.arena, count)?;
        Ok(Some(row))
    }

    /// Writes one more value of the row that was begun last; `false` exactly where it is longer than a value of an
    /// index.
    pub fn add_value(&mut self, value: ValueRef<'_>) -> Result<bool, NoMemory>
        ensures added { IfOk result (λ added. added ≡ true
            → (row : Row) (tid : Place) (count : ℕ) (values : List Shown) → IsBegunRow self.old row tid count values
            → IsBegunRow self.new row tid count (values ++ value_shown value.entry ∷ [])) }
        ensures fits { IfOk result (λ added. added ≡ nat_le (length (shown_bytes value.entry)) LONGEST_VALUE) }
        ensures keys { keys_in self.new ≡ keys_in self.old }
        ensures met { met_in self.new ≡ met_in self.old }
        ensures range { SameRange self.old self.new }
    {
        let added = push_value(&mut self.arena, value)?;
        Ok(added)
    }

    /// Keeps the row that was begun last, all of whose values are written.
    pub fn keep_row(&mut self, row: BegunRow)
        requires { IsWrittenRow self.old row }
        ensures kept { (tid : Place) (values : List Shown) → IsBegunRow self.old row tid (length values) values
            → keys_in self.new ≡ keys_with (keys_in self.old) tid values }
        ensures met { met_in self.new ≡ met_in self.old }
        ensures range { SameRange self.old self.new }
    {
        self.records[row.slot] = row.place;
    }

    /// Keeps rows that are rooted at the line pointers of a block of the range from item 1 on, with these values;
    /// whether it did. `false` comes only where the range doesn't have so many line pointers of the block, or a row is
    /// kept at one of them already, and then nothing changes. Of no rows either answer may come.
    pub fn keep_rows(&mut self, block: u32, rows: &StoredRows) -> Result<bool, NoMemory>
        ensures kept { IfOk result (λ kept. kept ≡ true
            → keys_in self.new ≡ keys_with_rows (keys_in self.old) block rows.now) }
        ensures fresh { IfOk result (λ kept. kept ≡ true → (tid : Place)
            → is_item_of block (length rows.now) tid ≡ true → keys_in self.old tid ≡ None) }
        ensures same { IfOk result (λ kept. kept ≡ false → keys_in self.new ≡ keys_in self.old) }
        ensures refused { IfOk result (λ kept. kept ≡ false → ((tid : Place)
            → is_item_of block (length rows.now) tid ≡ true
            → (has_in self.old tid ≡ true) × (keys_in self.old tid ≡ None)) → length rows.now ≡ 0) }
        ensures met { met_in self.new ≡ met_in self.old }
        ensures range { SameRange self.old self.new }
    {
        let rows = rows.as_bytes();
        let count = rows.starts.len();
        let Some(slot) = block_slots(self.first, &self.starts, block, count) else {
            return Ok(false);
        };
        if !are_free(&self.records, slot, count) {
            return Ok(false);
        }
        keep_in(&mut self.records, &mut self.arena, slot, rows)?;
        Ok(true)
    }

    /// Reads what looks for the rows that are rooted at these line pointers will read, of the first 512 of them, so
    /// that it is at hand then: first all slots and bits and then all keys, so that none of them is waited for alone.
    pub fn touch(&mut self, tids: &[Tid])
        ensures { self.new ≡ self.old }
    {
        let kept = Kept {
            first: self.first,
            starts: &self.starts,
            records: &self.records,
            arena: &self.arena,
        };
        self.touched ^= read_ahead(kept, &self.bits, tids);
    }

    /// Meets the row that is rooted at a line pointer, if there is one and its values are these: numbers that are
    /// equal, and bytes of the same length and content. All else stays.
    pub fn meet(&mut self, tid: Tid, values: RowValues<'_>)
        ensures met { met_in self.new
            ≡ met_by (keys_in self.old) (met_in self.old) (keyed tid (row_values values.entry)) }
        ensures keys { keys_in self.new ≡ keys_in self.old }
        ensures range { SameRange self.old self.new }
    {
        let kept = Kept {
            first: self.first,
            starts: &self.starts,
            records: &self.records,
            arena: &self.arena,
        };
        meet_in(kept, &mut self.bits, tid, values);
    }

    /// Does the same for the key of an index tuple without null bits, which has this body, where its bytes tell as they
    /// lie whether it is the row's. `false` says that they don't, and then nothing changes.
    #[inline]
    pub fn meet_plain(&mut self, tid: Tid, columns: &IndexColumns<'_>, body: &[u8]) -> bool
        ensures met { OnTrue result ((key : List Shown) → TellsKey (tree_columns columns.now) body.now key
            → met_in self.new ≡ met_by (keys_in self.old) (met_in self.old) (keyed tid key)) }
        ensures same { OnFalse result (met_in self.new ≡ met_in self.old) }
        ensures keys { keys_in self.new ≡ keys_in self.old }
        ensures range { SameRange self.old self.new }
    {
        let kept = Kept {
            first: self.first,
            starts: &self.starts,
            records: &self.records,
            arena: &self.arena,
        };
        meet_plain_in(kept, &mut self.bits, tid, columns, body)
    }

    /// Does the same for a row whose one value is this number, where its bytes tell as they lie that it is. `false`
    /// changes nothing, and says nothing else.
    #[inline]
    pub fn meet_number(&mut self, tid: Tid, number: i64) -> bool
        ensures is { OnTrue result (keys_in self.old tid ≡ Some (Int number ∷ [])) }
        ensures met { OnTrue result (met_in self.new
            ≡ met_by (keys_in self.old) (met_in self.old) (keyed tid (Int number ∷ []))) }
        ensures same { OnFalse result (met_in self.new ≡ met_in self.old) }
        ensures keys { keys_in self.new ≡ keys_in self.old }
        ensures range { SameRange self.old self.new }
    {
        let kept = Kept {
            first: self.first,
            starts: &self.starts,
            records: &self.records,
            arena: &self.arena,
        };
        meet_number_in(kept, &mut self.bits, tid, number)
    }

    /// Whether a block is one of the range.
    #[inline]
    pub fn covers(&self, block: u32) -> bool
        ensures { result ≡ (nat_le self.now.first block && nat_lt (block - self.now.first) (blocks_in self.now)) }
    {
        self.first <= block && ((block - self.first) as usize) < self.starts.len() - 1
    }

    /// Whether the row that is rooted at a line pointer and has this key was met; `None` where no such row is kept.
    pub fn is_met(&self, tid: Tid, values: RowValues<'_>) -> Option<bool>
        ensures { IfSome result (λ met. (keys_in self.now tid ≡ Some (row_values values.entry))
            × (met ≡ met_in self.now tid)) }
    {
        let kept = Kept {
            first: self.first,
            starts: &self.starts,
            records: &self.records,
            arena: &self.arena,
        };
        if !is_kept_in(kept, tid, values) {
            return None;
        }
        Some(is_met_in(kept, &self.bits, tid))
    }

    /// Whether each row that is kept was met.
    pub fn are_all_met(&self) -> bool
        ensures { OnTrue result (AreAllMet self.now) }
    {
        are_all_set(&self.records, &self.bits)
    }
}
