//! Whether a key that lies among bytes is one that is at hand.
ghost use Rattle.std.specs.Prelude.{◌≡◌, ◌∷◌, [], IfSome, is_some, length, map};
ghost use Rattle.std.specs.Bool.{OnTrue};
ghost use Rattle.key_orders.specs.Values.{value_shown};
ghost use Rattle.key_orders.specs.declared.columns.Value.TheVariants as Shown;
ghost use Rattle.key_storage.specs.Same.{same_key, same_value};
ghost use Rattle.key_storage.specs.Rows.{row_values};
ghost use Rattle.key_storage.specs.Stored.{key_read, value_read, values_left, values_read};

use crate::read::{read_int, read_small, read_value};
use crate::values::RowValues;
use key_orders::ValueRef;

// Whether two values are the same.
#[inline(always)]
fn same_value(a: ValueRef<'_>, b: ValueRef<'_>) -> bool
    ensures test { result ≡ same_value (value_shown a.entry) (value_shown b.entry) }
    ensures same { OnTrue result (value_shown a.entry ≡ value_shown b.entry) }
{
    match (a, b) {
        (ValueRef::Null, ValueRef::Null) => true,
        (ValueRef::Bool(a), ValueRef::Bool(b)) => a == b,
        (ValueRef::Int(a), ValueRef::Int(b)) => a == b,
        (ValueRef::Bytes(a), ValueRef::Bytes(b)) => a == b,
        _ => false,
    }
}

/// Whether these values are the same: numbers that are equal, and bytes of the same length and content.
pub fn same_values(a: &[ValueRef<'_>], b: &[ValueRef<'_>]) -> bool
    ensures { result ≡ same_key (map value_shown a.now) (map value_shown b.now) }
{
    if a.len() != b.len() {
        return false;
    }
    for i in 0..a.len() {
        if !same_value(a[i], b[i]) {
            return false;
        }
    }
    true
}

// What is left behind the values at the beginning, if they are these.
fn after_values<'s>(bytes: &'s [u8], values: &[ValueRef<'_>]) -> Option<&'s [u8]>
    ensures some { is_some result
        ≡ same_key (values_read (length values.now) bytes.now) (map value_shown values.now) }
    ensures rest { IfSome result (λ rest. rest.now ≡ values_left (length values.now) bytes.now) }
{
    let mut left = bytes;
    for i in 0..values.len() {
        let (held, rest) = read_value(left);
        if !same_value(held, values[i]) {
            return None;
        }
        left = rest;
    }
    Some(left)
}

// Whether these values are read one after the other.
fn are_stored(bytes: &[u8], values: RowValues<'_>) -> bool
    ensures { result ≡ same_key (values_read (length (row_values values.entry)) bytes.now) (row_values values.entry) }
{
    match after_values(bytes, values.key) {
        Some(rest) => after_values(rest, values.more).is_some(),
        None => false,
    }
}

/// Whether what is read at the beginning are these values.
#[tactic(auto, unfolding(crate::specs::Stored::key_read))]
pub fn is_stored(bytes: &[u8], values: RowValues<'_>) -> bool
    ensures { result ≡ same_key (key_read bytes.now) (row_values values.entry) }
{
    let count = values.key.len() + values.more.len();
    match bytes.split_first() {
        Some((held, rest)) => *held as usize == count && are_stored(rest, values),
        None => count == 0,
    }
}

/// Whether what lies at the beginning is the key that is this number, as it is written. `false` says nothing.
#[inline]
#[tactic(auto, unfolding(crate::specs::Stored::key_read, crate::specs::Stored::value_read))]
pub fn is_number(bytes: &[u8], number: i64) -> bool
    ensures { OnTrue result (key_read bytes.now ≡ Shown.Int number ∷ []) }
{
    let Some((count, values)) = bytes.split_first() else {
        return false;
    };
    let Some((tag, left)) = values.split_first() else {
        return false;
    };
    if *count != 1 {
        return false;
    }
    let number = ValueRef::Int(number);
    if *tag == 6 {
        return same_value(read_small(left).0, number);
    }
    *tag == 3 && same_value(read_int(left).0, number)
}

// What is left behind these bytes, if they stand at the beginning as fewer than 256 bytes do.
#[inline(always)]
#[tactic(auto, unfolding(crate::specs::Stored::value_read))]
fn after_short<'s>(stored: &'s [u8], content: &[u8]) -> Option<&'s [u8]>
    ensures value { IfSome result (λ rest. (value_read stored.now).0 ≡ Shown.Bytes content.now) }
    ensures rest { IfSome result (λ rest. rest.now ≡ (value_read stored.now).1) }
{
    let (tag, left) = stored.split_first()?;
    let (len, left) = left.split_first()?;
    if *tag != 5 || *len as usize != content.len() {
        return None;
    }
    let (held, rest) = left.split_at_checked(content.len())?;
    if held == content { Some(rest) } else { None }
}

/// What is left behind the value at the beginning, if it is this one. `None` says nothing.
#[inline(always)]
pub fn after_value<'s>(stored: &'s [u8], value: ValueRef<'_>) -> Option<&'s [u8]>
    ensures value { IfSome result (λ rest. (value_read stored.now).0 ≡ value_shown value.entry) }
    ensures rest { IfSome result (λ rest. rest.now ≡ (value_read stored.now).1) }
{
    if let ValueRef::Bytes(content) = value {
        return after_short(stored, content);
    }
    let (held, rest) = read_value(stored);
    if same_value(held, value) {
        Some(rest)
    } else {
        None
    }
}
