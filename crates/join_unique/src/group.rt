//! What is kept of the entries with one key while one after another comes.
ghost use Rattle.std.specs.Prelude.{◌≡◌, ◌<◌, ◌^◌, [], All, false, length, map, OnOk};
ghost use Rattle.std.specs.List.{list_any};
ghost use Rattle.outside.specs.Counting.{one_more};
ghost use Rattle.key_orders.specs.Values.{value_shown};
ghost use Rattle.key_storage.specs.Same.{same_key};
ghost use Rattle.join_rules.specs.Unique.{counts, is_null};

use case_file::Unique;
use key_orders::{Tid, ValueRef};
use key_storage::{RowValues, is_stored, keys_are_read_back, write_key};
use outside::NoMemory;
use std::alloc::Global;
use std::marker::Model;

/// The entries of one key so far, and the rows of which an earlier one with the same key was met, of this key and of
/// those before. Contracts see a `Group`.
#[derive(Drop)]
pub(crate) struct KeyGroup {
    // The key, stored.
    key: Vec<u8>,
    // Whether the index may have it once alone.
    counted: bool,
    // How many entries may be of a row: 0, 1, or 2 for more.
    count: u8,
    // The block that the last of these names.
    block: u32,
    // Whether a row of the key was met.
    some: bool,
    // The numbers of the rows before which one was met.
    later: Vec<u64>,
    // How many times the rows of a block were gone over.
    looks: u64,
}

impl Model for KeyGroup {
    ghost use Rattle.std.specs.Prelude.{◌<◌, ◌^◌, All};
    ghost use Rattle.key_storage.specs.Stored.{key_read};
    ghost use Rattle.join_unique.specs.Groups.{Group};

    ghost Value = { Group };

    ghost view = { λ g. record {
      key = key_read g.key.items;
      counted = g.counted;
      count = g.count;
      block = g.block;
      met = record { some = g.some; later = g.later.items };
      looks = g.looks;
    } };

    // Each is the number of a TID.
    ghost invariant = { λ g. All (λ n. n < 2 ^ 48) g.later.items };
}

// Whether a value is null.
fn is_null(value: &ValueRef<'_>) -> bool
    ensures { result ≡ is_null (value_shown value.now) }
{
    matches!(value, ValueRef::Null)
}

// Whether one of these values is null.
fn has_null(key: &[ValueRef<'_>]) -> bool
    ensures { result ≡ list_any (λ v. is_null (value_shown v)) key.now }
{
    key.iter().any(is_null)
}

/// Whether an index of this kind may have a key once alone.
#[tactic(auto, using(crate::proofs::Steps::any_mapped))]
pub(crate) fn counts(unique: Unique, key: &[ValueRef<'_>]) -> bool
    ensures { result ≡ counts unique (map value_shown key.now) }
{
    match unique {
        Unique::No => false,
        Unique::NullsDistinct => !has_null(key),
        Unique::NullsEqual => true,
    }
}

impl KeyGroup {
    ghost use Rattle.join_unique.specs.Groups.{first_group, leaves_block, next_count, with_row};
    ghost use Rattle.std.specs.Prelude.{nat_lt};

    /// Before the first entry.
    pub(crate) fn new(alloc: Global, unique: Unique) -> KeyGroup
        ensures { result ≡ first_group unique }
    {
        KeyGroup {
            key: Vec::new(alloc),
            counted: counts(unique, &[]),
            count: 0,
            block: 0,
            some: false,
            later: Vec::new(alloc),
            looks: 0,
        }
    }

    /// Whether this is the key.
    pub(crate) fn has_key(&self, key: &[ValueRef<'_>]) -> bool
        ensures { result ≡ same_key self.now.key (map value_shown key.now) }
    {
        is_stored(&self.key, RowValues { key, more: &[] })
    }

    /// Whether the index may have the key once alone.
    pub(crate) fn is_counted(&self) -> bool
        ensures { result ≡ self.now.counted }
    {
        self.counted
    }

    /// Whether more than one entry may be of a row.
    pub(crate) fn is_several(&self) -> bool
        ensures { result ≡ nat_lt 1 self.now.count }
    {
        1 < self.count
    }

    /// The block that the last of them names.
    pub(crate) fn block(&self) -> u32
        ensures { result ≡ self.now.block }
    {
        self.block
    }

    /// Whether there is one, and it names another block than this.
    pub(crate) fn leaves_block(&self, block: u32) -> bool
        ensures { result ≡ leaves_block block self.now }
    {
        0 < self.count && self.block != block
    }

    /// Begins with another key. After `NoMemory` the key isn't known.
    pub(crate) fn begin(&mut self, key: &[ValueRef<'_>], counted: bool) -> Result<(), NoMemory>
        requires few { length key.now < 256 }
        ensures ok { OnOk result (self.new ≡ record {
          key = map value_shown key.now;
          counted = counted;
          count = 0;
          block = self.old.block;
          met = record { some = false; later = self.old.met.later };
          looks = self.old.looks;
        }) }
    {
        keys_are_read_back();
        self.key.clear();
        write_key(&mut self.key, RowValues { key, more: &[] })?;
        self.counted = counted;
        self.count = 0;
        self.some = false;
        Ok(())
    }

    /// Takes an entry that names this block, and may be of a row.
    pub(crate) fn name(&mut self, block: u32)
        ensures { self.new ≡ record self.old { count = next_count self.old.count; block = block } }
    {
        self.count = if self.count == 0 { 1 } else { 2 };
        self.block = block;
    }

    /// Counts that the rows of a block are gone over.
    pub(crate) fn look(&mut self)
        ensures { self.new ≡ record self.old { looks = one_more self.old.looks } }
    {
        self.looks = self.looks.saturating_add(1);
    }

    /// How many times the rows of a block were gone over.
    pub(crate) fn looks(&self) -> u64
        ensures { result ≡ self.now.looks }
    {
        self.looks
    }

    /// Takes a row that has the key.
    pub(crate) fn meet(&mut self, tid: Tid) -> Result<(), NoMemory>
        ensures { OnOk result (self.new ≡ record self.old { met = with_row tid self.old.met }) }
    {
        if self.some {
            self.later.push(tid.block as u64 * 65536 + tid.item as u64)?;
        }
        self.some = true;
        Ok(())
    }

    /// The numbers of the rows before which one with the same key was met.
    pub(crate) fn into_later(self) -> Vec<u64>
        ensures later { result.items ≡ self.met.later }
        ensures tids { All (λ n. n < 2 ^ 48) result.items }
    {
        self.later
    }
}
