//! Keys of rows, one after another.
ghost use Rattle.std.specs.Prelude.{◌≡◌, ◌++◌, ◌∷◌, ◌<◌, [], All, IfOk, IfSome, OnErr, OnOk, length};
ghost use Rattle.key_orders.specs.declared.columns.Value.TheVariants.{Int};
ghost use Rattle.key_storage.specs.RowLists.{HasMore, LiesFrom, NUMBERS, keys_read, number_bytes};
ghost use Rattle.key_storage.specs.Rows.{row_values};
ghost use Rattle.key_storage.specs.Stored.{IsStorable, key_read, stored_key};

use crate::values::RowValues;
use crate::write::{store_key, store_number};
use key_orders::ValueRef;
use outside::NoMemory;
use std::alloc::Global;
use std::marker::Model;

/// No place among bytes is this or more: from here on a number in place of one says that the key is one number, which
/// the rest is.
pub const NUMBERS: u32 = 0x8000_0000;

/// The values that rows have in an index, row by row, as they are stored. Contracts see a list of lists of values. It
/// keeps its memory, so that it serves one page after another.
#[derive(Drop)]
pub struct StoredRows {
    starts: Vec<u32>,
    bytes: Vec<u8>,
}

/// The same, as they lie: where each row begins among bytes, or the number that its key is, with [`NUMBERS`] added.
#[derive(Clone, Copy)]
pub struct RowBytes<'a> {
    pub starts: &'a [u32],
    pub bytes: &'a [u8],
}

impl Model for StoredRows {
    ghost use Rattle.std.specs.Prelude.{List, All};
    ghost use Rattle.key_orders.specs.declared.columns.Value.{Value as Shown};
    ghost use Rattle.key_storage.specs.RowLists.{LiesFrom, keys_read};

    ghost Value = { List (List Shown) };

    ghost view = { λ r. keys_read r.starts.items r.bytes.items };

    ghost invariant = { λ r. All (LiesFrom r.bytes.items) r.starts.items };
}

// The value of a row that has one, if that is a number.
#[inline]
fn one_number(values: RowValues<'_>) -> Option<i64>
    ensures { IfSome result (λ n. row_values values.entry ≡ Int n ∷ []) }
{
    if values.key.len() != 1 || !values.more.is_empty() {
        return None;
    }
    match values.key[0] {
        ValueRef::Int(n) => Some(n),
        ValueRef::Null | ValueRef::Bool(_) | ValueRef::Bytes(_) => None,
    }
}

// The value of a row that has one, if that is a number which stands in place of a place.
#[inline]
fn small_number(values: RowValues<'_>) -> Option<u32>
    ensures is { IfSome result (λ n. key_read (number_bytes n) ≡ row_values values.entry) }
    ensures low { IfSome result (λ n. n < NUMBERS) }
{
    let bits = one_number(values)?.cast_unsigned();
    if bits < NUMBERS as u64 {
        Some(bits as u32)
    } else {
        None
    }
}

// Adds a row behind the bytes, a number alone all at once, and gives its place. After `NoMemory` a part of it may have
// been added.
#[inline]
fn store_row(arena: &mut Vec<u8>, values: RowValues<'_>) -> Result<u32, NoMemory>
    requires few { length (row_values values) < 256 }
    ensures place { IfOk result (λ start. start ≡ length arena.old.items) }
    ensures low { IfOk result (λ start. start < NUMBERS) }
    ensures ok { OnOk result (arena.new.items ≡ arena.old.items ++ stored_key (row_values values.entry)) }
    ensures storable { OnOk result (All IsStorable (row_values values.entry)) }
    ensures err { OnErr result (HasMore arena.old.items arena.new.items) }
{
    let used = arena.len();
    if NUMBERS as usize <= used {
        return Err(NoMemory);
    }
    match one_number(values) {
        Some(n) => store_number(arena, n)?,
        None => store_key(arena, values)?,
    }
    Ok(used as u32)
}

impl StoredRows {
    /// No rows.
    pub fn new(alloc: Global) -> StoredRows
        ensures { result ≡ [] }
    {
        StoredRows {
            starts: Vec::new(alloc),
            bytes: Vec::new(alloc),
        }
    }

    /// Leaves no rows.
    pub fn clear(&mut self)
        ensures { self.new ≡ [] }
    {
        self.starts.clear();
        self.bytes.clear();
    }

    /// Adds a row. After `NoMemory` the rows are as they were.
    #[inline]
    pub fn push(&mut self, values: RowValues<'_>) -> Result<(), NoMemory>
        requires few { length (row_values values) < 256 }
        ensures ok { OnOk result (self.new ≡ self.old ++ row_values values.entry ∷ []) }
        ensures err { OnErr result (self.new ≡ self.old) }
    {
        if let Some(number) = small_number(values) {
            self.starts.push(NUMBERS + number)?;
            return Ok(());
        }
        let start = store_row(&mut self.bytes, values)?;
        self.starts.push(start)?;
        Ok(())
    }

    /// The rows as they lie.
    pub fn as_bytes(&self) -> RowBytes<'_>
        ensures keys { keys_read result.starts.now result.bytes.now ≡ self.now }
        ensures lie { All (LiesFrom result.bytes.now) result.starts.now }
    {
        RowBytes {
            starts: &self.starts,
            bytes: &self.bytes,
        }
    }
}
