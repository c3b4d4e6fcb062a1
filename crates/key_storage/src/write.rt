//! Keys, written behind one another.
ghost use Rattle.std.specs.Prelude.{◌≡◌, ◌+◌, ◌<◌, ◌≤◌, ◌^◌, ◌++◌, All, length, vec_capacity, vec_len};
ghost use Rattle.std.specs.Prelude.{[], ◌∷◌, if◌then◌else◌, IfOk, IfSome, OnErr, OnOk, nat_le, true};
ghost use Rattle.std.specs.List.{flat_map};
ghost use Rattle.key_orders.specs.Values.{value_shown};
ghost use Rattle.key_storage.specs.RowLists.{HasMore};
ghost use Rattle.key_storage.specs.Rows.{row_values};
ghost use Rattle.key_storage.specs.Stored.{IsStorable, shown_bytes, stored_bytes, stored_key, stored_value};

use crate::values::RowValues;
use key_orders::{Value, ValueRef};
use outside::NoMemory;

// Where a key may begin at most, so that it has a place in 32 bits; and how long a value may be.
const MOST: usize = 0xffff_fff0;

/// How many bytes a value takes at most that an index may have: no page holds a longer one.
pub const LONGEST_VALUE: usize = 8197;

// The first number that doesn't fit in 4 bytes.
const LARGE: u64 = 0x1_0000_0000;

// Adds bytes where there is room, which takes no memory.
fn push_bytes(arena: &mut Vec<u8>, bytes: &[u8])
    requires { vec_len arena.old + length bytes.now ≤ vec_capacity arena.old }
    ensures items { arena.new.items ≡ arena.old.items ++ bytes.now }
    ensures capacity { vec_capacity arena.old ≤ vec_capacity arena.new }
{
    arena.extend_from_slice(bytes).unwrap();
}

fn write_value(arena: &mut Vec<u8>, v: ValueRef<'_>)
    requires room { vec_len arena.old + length (shown_bytes v) ≤ vec_capacity arena.old }
    requires short { length (shown_bytes v) < 2 ^ 32 }
    ensures items { arena.new.items ≡ arena.old.items ++ shown_bytes v.entry }
    ensures capacity { vec_capacity arena.old ≤ vec_capacity arena.new }
    ensures storable { IsStorable (value_shown v.entry) }
{
    match v {
        ValueRef::Null => push_bytes(arena, &[0]),
        ValueRef::Bool(b) => push_bytes(arena, if b { &[2] } else { &[1] }),
        ValueRef::Int(n) => write_int(arena, n),
        ValueRef::Bytes(bytes) => write_bytes(arena, bytes),
    }
}

fn write_int(arena: &mut Vec<u8>, n: i64)
    requires { vec_len arena.old + length (stored_value (Value.Int n)) ≤ vec_capacity arena.old }
    ensures items { arena.new.items ≡ arena.old.items ++ stored_value (Value.Int n) }
    ensures capacity { vec_capacity arena.old ≤ vec_capacity arena.new }
    ensures storable { IsStorable (Value.Int n) }
{
    let bits = n.cast_unsigned();
    if bits < LARGE {
        let b = (bits as u32).to_le_bytes();
        push_bytes(arena, &[6, b[0], b[1], b[2], b[3]]);
    } else {
        let b = bits.to_le_bytes();
        push_bytes(arena, &[3, b[0], b[1], b[2], b[3], b[4], b[5], b[6], b[7]]);
    }
}

fn write_bytes(arena: &mut Vec<u8>, bytes: &[u8])
    requires room { vec_len arena.old + length (stored_bytes bytes.now) ≤ vec_capacity arena.old }
    requires short { length bytes.now < 2 ^ 32 }
    ensures items { arena.new.items ≡ arena.old.items ++ stored_bytes bytes.now }
    ensures capacity { vec_capacity arena.old ≤ vec_capacity arena.new }
{
    if bytes.len() < 256 {
        push_bytes(arena, &[5, bytes.len() as u8]);
    } else {
        let b = (bytes.len() as u32).to_le_bytes();
        push_bytes(arena, &[4, b[0], b[1], b[2], b[3]]);
    }
    push_bytes(arena, bytes);
}

fn int_len(n: i64) -> usize
    ensures { result ≡ length (stored_value (Value.Int n)) }
{
    if n.cast_unsigned() < LARGE { 5 } else { 9 }
}

fn bytes_len(bytes: &[u8]) -> usize
    ensures { result ≡ length (stored_bytes bytes.now) }
{
    if bytes.len() < 256 {
        2 + bytes.len()
    } else {
        5 + bytes.len()
    }
}

fn stored_len(v: ValueRef<'_>) -> usize
    ensures { result ≡ length (shown_bytes v.entry) }
{
    match v {
        ValueRef::Null | ValueRef::Bool(_) => 1,
        ValueRef::Int(n) => int_len(n),
        ValueRef::Bytes(bytes) => bytes_len(bytes),
    }
}

// Adds a value behind the bytes, if memory is there.
#[inline]
fn store_value(arena: &mut Vec<u8>, value: ValueRef<'_>) -> Result<(), NoMemory>
    ensures ok { OnOk result (arena.new.items ≡ arena.old.items ++ shown_bytes value.entry) }
    ensures storable { OnOk result (IsStorable (value_shown value.entry)) }
    ensures err { OnErr result (arena.new.items ≡ arena.old.items) }
{
    let len = stored_len(value);
    if MOST < len {
        return Err(NoMemory);
    }
    arena.reserve(len)?;
    write_value(arena, value);
    Ok(())
}

// Adds values behind the bytes. After `NoMemory` some may have been added.
fn store_values(arena: &mut Vec<u8>, values: &[ValueRef<'_>]) -> Result<(), NoMemory>
    ensures ok { OnOk result (arena.new.items ≡ arena.old.items ++ flat_map shown_bytes values.now) }
    ensures storable { OnOk result (All (λ v. IsStorable (value_shown v)) values.now) }
    ensures err { OnErr result (HasMore arena.old.items arena.new.items) }
{
    for i in 0..values.len() {
        store_value(arena, values[i])?;
    }
    Ok(())
}

/// Adds these values behind the bytes, if memory is there. After `NoMemory` a part of them may have been added.
pub(crate) fn store_key(arena: &mut Vec<u8>, values: RowValues<'_>) -> Result<(), NoMemory>
    requires few { length (row_values values) < 256 }
    ensures ok { OnOk result (arena.new.items ≡ arena.old.items ++ stored_key (row_values values.entry)) }
    ensures storable { OnOk result (All IsStorable (row_values values.entry)) }
    ensures err { OnErr result (HasMore arena.old.items arena.new.items) }
{
    arena.push((values.key.len() + values.more.len()) as u8)?;
    store_values(arena, values.key)?;
    store_values(arena, values.more)?;
    Ok(())
}

/// Adds these values behind the bytes, if memory is there and these end below 4 GiB. After `NoMemory` nothing changed.
pub fn write_key(arena: &mut Vec<u8>, values: RowValues<'_>) -> Result<(), NoMemory>
    requires few { length (row_values values) < 256 }
    ensures ok { OnOk result (arena.new.items ≡ arena.old.items ++ stored_key (row_values values.entry)) }
    ensures short { OnOk result (vec_len arena.old + 1 < 2 ^ 32) }
    ensures storable { OnOk result (All IsStorable (row_values values.entry)) }
    ensures err { OnErr result (arena.new.items ≡ arena.old.items) }
{
    let used = arena.len();
    if MOST < used {
        return Err(NoMemory);
    }
    let stored = store_key(arena, values);
    if stored.is_err() {
        arena.truncate(used);
    }
    stored
}

/// Adds the key that is this number behind the bytes, all of it at once.
#[inline]
pub(crate) fn store_number(arena: &mut Vec<u8>, number: i64) -> Result<(), NoMemory>
    ensures ok { OnOk result (arena.new.items ≡ arena.old.items ++ stored_key (Value.Int number ∷ [])) }
    ensures err { OnErr result (HasMore arena.old.items arena.new.items) }
{
    let bits = number.cast_unsigned();
    if bits < LARGE {
        let b = (bits as u32).to_le_bytes();
        arena.extend_from_slice(&[1, 6, b[0], b[1], b[2], b[3]])?;
    } else {
        let b = bits.to_le_bytes();
        arena.extend_from_slice(&[1, 3, b[0], b[1], b[2], b[3], b[4], b[5], b[6], b[7]])?;
    }
    Ok(())
}

/// Adds one value behind the bytes, as the values of a key lie, if memory is there. `false` exactly where it takes more
/// bytes than a value of an index, and then nothing changes.
pub fn push_value(arena: &mut Vec<u8>, value: ValueRef<'_>) -> Result<bool, NoMemory>
    ensures pushed { IfOk result (λ pushed.
        arena.new.items ≡ arena.old.items ++ (if pushed then shown_bytes value.entry else [])) }
    ensures fits { IfOk result (λ pushed. pushed ≡ nat_le (length (shown_bytes value.entry)) LONGEST_VALUE) }
    ensures storable { IfOk result (λ pushed. pushed ≡ true → IsStorable (value_shown value.entry)) }
    ensures err { OnErr result (arena.new.items ≡ arena.old.items) }
{
    let len = stored_len(value);
    if LONGEST_VALUE < len {
        return Ok(false);
    }
    arena.reserve(len)?;
    write_value(arena, value);
    Ok(true)
}
