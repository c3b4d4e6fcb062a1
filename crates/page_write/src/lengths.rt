//! How many bytes the bodies of index tuples have, without laying them.
ghost use Rattle.std.specs.Prelude.{ℕ, ℤ, List, ◌≡◌, ◌≤◌, ◌<◌, ◌+◌, ◌*◌, ◌^◌, ◌++◌, All, length, map};
ghost use Rattle.key_orders.specs.Types.{HasAlignment};
ghost use Rattle.key_orders.specs.Values.{value_shown};
ghost use Rattle.page_write.specs.Bodies.{IsShortEnough, index_body, null_part, number_bytes, octet_bytes};
ghost use Rattle.page_write.specs.Bodies.{stored_value, varlena_bytes, with_value, with_values};

use crate::bodies::{SHORT_MAX, has_null, padding_before};
use key_orders::{ColType, ValueRef};

// How many bytes the lowest ones of a number are.
fn number_length(len: Option<u16>) -> usize
    ensures is { (number : ℤ) → length (number_bytes len number) ≡ result }
    ensures few { result ≤ 8 }
{
    match len {
        Some(len) => usize::min(len as usize, 8),
        None => 0,
    }
}

// How many bytes a varlena has with its header.
fn varlena_length(bytes: &[u8]) -> usize
    requires { length bytes.now < 1073741820 }
    ensures is { length (varlena_bytes bytes.now) ≡ result }
    ensures few { result < 1073741824 }
{
    if bytes.len() <= SHORT_MAX {
        bytes.len() + 1
    } else {
        bytes.len() + 4
    }
}

// How many bytes these are as bytes of a fixed length, or as a varlena.
fn octets_length(len: Option<u16>, bytes: &[u8]) -> usize
    requires { length bytes.now < 1073741820 }
    ensures is { length (octet_bytes len bytes.now) ≡ result }
    ensures few { result < 1073741824 }
{
    match len {
        Some(_) => bytes.len(),
        None => varlena_length(bytes),
    }
}

// How many bytes a value has.
#[tactic(auto, unfolding(crate::specs::Bodies::stored_value))]
fn stored_length(ctype: ColType, value: ValueRef<'_>) -> usize
    requires { IsShortEnough (value_shown value) }
    ensures is { length (stored_value ctype (value_shown value.entry)) ≡ result }
    ensures few { result < 1073741824 }
{
    match value {
        ValueRef::Null => 0,
        ValueRef::Bool(_) => 1,
        ValueRef::Int(_) => number_length(ctype.fixed_length()),
        ValueRef::Bytes(bytes) => octets_length(ctype.fixed_length(), bytes),
    }
}

// Where a body ends with one more value, whose end stood at a place.
fn value_end(ctype: ColType, value: ValueRef<'_>, place: usize) -> usize
    requires aligned { HasAlignment ctype }
    requires short { IsShortEnough (value_shown value) }
    requires place { place + 2000000000 < 2 ^ 64 }
    ensures is { (body : List ℕ) → length body ≡ place
        → length (with_value ctype (value_shown value.entry) body) ≡ result }
    ensures few { result ≤ place + 1100000000 }
{
    place + padding_before(ctype, value, place) as usize + stored_length(ctype, value)
}

// Where a body ends with the values of these columns after it, whose end stood at a place.
fn values_end(types: &[ColType], values: &[ValueRef<'_>], place: usize) -> usize
    requires count { length values.now ≡ length types.now }
    requires few { length values.now ≤ 32 }
    requires aligned { All HasAlignment types.now }
    requires short { All (λ v. IsShortEnough (value_shown v)) values.now }
    requires place { place ≤ 100000000000 }
    ensures is { (body : List ℕ) → length body ≡ place
        → length (with_values types.now (map value_shown values.now) body) ≡ result }
    ensures few { result ≤ place + length values.now * 1100000000 }
{
    let mut end = place;
    for (k, value) in values.iter().enumerate() {
        end = value_end(types[k], *value, end);
    }
    end
}

// How many bytes null bits take, if a value of either list is null.
fn null_length(first: &[ValueRef<'_>], rest: &[ValueRef<'_>]) -> usize
    ensures is { length (null_part (map value_shown first.now ++ map value_shown rest.now)) ≡ result }
    ensures few { result ≤ 8 }
{
    if has_null(first) {
        return 8;
    }
    if has_null(rest) {
        return 8;
    }
    0
}

/// How many bytes the body of an index tuple has (`put_index_body`), whose values are given in two parts.
pub fn index_body_length(types: &[ColType], first: &[ValueRef<'_>], rest: &[ValueRef<'_>]) -> usize
    requires count { length first.now + length rest.now ≡ length types.now }
    requires few { length types.now ≤ 32 }
    requires aligned { All HasAlignment types.now }
    requires first { All (λ v. IsShortEnough (value_shown v)) first.now }
    requires rest { All (λ v. IsShortEnough (value_shown v)) rest.now }
    ensures { result ≡ length (index_body types.now (map value_shown first.now ++ map value_shown rest.now)) }
{
    let (first_types, rest_types) = types.split_at(first.len());
    let middle = values_end(first_types, first, null_length(first, rest));
    values_end(rest_types, rest, middle)
}
