//! Bodies of index tuples.
ghost use Rattle.std.specs.Prelude.{◌≡◌, ◌+◌, ◌<◌, ◌≤◌, ◌^◌, ◌++◌, ◌∷◌, [], length, map, All, OnOk, if◌then◌else◌};
ghost use Rattle.key_orders.specs.Types.{HasAlignment};
ghost use Rattle.key_orders.specs.Values.{value_shown};
ghost use Rattle.page_write.specs.Bodies.{IsShortEnough, body_flags, has_null, has_varwidth, index_body};
ghost use Rattle.page_write.specs.Bodies.{is_aligned_value, is_null, is_varwidth, null_part, number_bytes};
ghost use Rattle.page_write.specs.Bodies.{octet_bytes, padding_before, presence_bits, stored_value};
ghost use Rattle.page_write.specs.Bodies.{varlena_bytes, with_value, with_values};

use crate::index_tuples::BodyFlags;
use crate::words::{push_bytes, push_u32, push_zeros};
use key_orders::{ColType, ValueRef};
use outside::NoMemory;

// A varlena of more bytes than these has a header of 4 bytes (varatt.h, VARATT_SHORT_MAX).
pub(crate) const SHORT_MAX: usize = 126;

// Adds one byte.
fn push_byte(out: &mut Vec<u8>, byte: u8) -> Result<(), NoMemory>
    ensures { OnOk result (out.new.items ≡ out.old.items ++ byte ∷ []) }
{
    out.push(byte)?;
    Ok(())
}

// Adds the lowest bytes of a number.
fn push_number(out: &mut Vec<u8>, len: Option<u16>, number: i64) -> Result<(), NoMemory>
    ensures { OnOk result (out.new.items ≡ out.old.items ++ number_bytes len number) }
{
    match len {
        Some(len) => {
            let bytes = number.to_le_bytes();
            push_bytes(out, &bytes[..usize::min(len as usize, 8)])
        }
        None => Ok(()),
    }
}

// Adds a varlena with its header.
#[tactic(auto, unfolding(crate::specs::Bodies::varlena_bytes))]
fn push_varlena(out: &mut Vec<u8>, bytes: &[u8]) -> Result<(), NoMemory>
    requires { length bytes.now < 1073741820 }
    ensures { OnOk result (out.new.items ≡ out.old.items ++ varlena_bytes bytes.now) }
{
    let len = bytes.len();
    if len <= SHORT_MAX {
        push_byte(out, (2 * len + 3) as u8)?;
        return push_bytes(out, bytes);
    }
    push_u32(out, (4 * len + 16) as u32)?;
    push_bytes(out, bytes)
}

// Adds bytes of a fixed length, or a varlena.
fn push_octets(out: &mut Vec<u8>, len: Option<u16>, bytes: &[u8]) -> Result<(), NoMemory>
    requires { length bytes.now < 1073741820 }
    ensures { OnOk result (out.new.items ≡ out.old.items ++ octet_bytes len bytes.now) }
{
    match len {
        Some(_) => push_bytes(out, bytes),
        None => push_varlena(out, bytes),
    }
}

// Adds the bytes of a value.
#[tactic(auto, unfolding(crate::specs::Bodies::stored_value))]
fn push_stored(out: &mut Vec<u8>, ctype: ColType, value: ValueRef<'_>) -> Result<(), NoMemory>
    requires { IsShortEnough (value_shown value) }
    ensures { OnOk result (out.new.items ≡ out.old.items ++ stored_value ctype (value_shown value.entry)) }
{
    match value {
        ValueRef::Null => Ok(()),
        ValueRef::Bool(b) => push_byte(out, u8::from(b)),
        ValueRef::Int(n) => push_number(out, ctype.fixed_length(), n),
        ValueRef::Bytes(bytes) => push_octets(out, ctype.fixed_length(), bytes),
    }
}

// Whether a value begins at a multiple of its type's alignment.
fn is_aligned_value(ctype: ColType, value: ValueRef<'_>) -> bool
    ensures { result ≡ is_aligned_value ctype (value_shown value.entry) }
{
    match value {
        ValueRef::Null => false,
        ValueRef::Bool(_) | ValueRef::Int(_) => true,
        ValueRef::Bytes(bytes) => ctype.fixed_length().is_some() || SHORT_MAX < bytes.len(),
    }
}

// How many bytes stand between a place and a value that comes next.
#[tactic(auto, unfolding(crate::specs::Bodies::padding_before))]
pub(crate) fn padding_before(ctype: ColType, value: ValueRef<'_>, place: usize) -> u16
    requires aligned { HasAlignment ctype }
    requires place { place + 8 < 2 ^ 64 }
    ensures { result ≡ padding_before ctype (value_shown value.entry) place }
{
    if !is_aligned_value(ctype, value) {
        return 0;
    }
    let alignment = ctype.alignment() as usize;
    ((place + (alignment - 1)) / alignment * alignment - place) as u16
}

// Adds a value at its place.
#[tactic(auto, unfolding(crate::specs::Bodies::with_value))]
fn push_value(out: &mut Vec<u8>, ctype: ColType, value: ValueRef<'_>) -> Result<(), NoMemory>
    requires aligned { HasAlignment ctype }
    requires short { IsShortEnough (value_shown value) }
    ensures { OnOk result (out.new.items ≡ with_value ctype (value_shown value.entry) out.old.items) }
{
    let padding = padding_before(ctype, value, out.len());
    push_zeros(out, padding)?;
    push_stored(out, ctype, value)
}

fn is_null(value: ValueRef<'_>) -> bool
    ensures { result ≡ is_null (value_shown value.entry) }
{
    matches!(value, ValueRef::Null)
}

// Whether a value is null.
pub(crate) fn has_null(values: &[ValueRef<'_>]) -> bool
    ensures { result ≡ has_null (map value_shown values.now) }
{
    for value in values {
        if is_null(*value) {
            return true;
        }
    }
    false
}

// The bit of a value that is there, and none of a null.
fn presence_bit(value: ValueRef<'_>, bit: u64) -> u64
    ensures { result ≡ (if is_null (value_shown value.entry) then 0 else bit) }
{
    if is_null(value) { 0 } else { bit }
}

// The number whose bits say of each value whether it is there.
fn presence_bits(values: &[ValueRef<'_>]) -> u32
    requires { length values.now ≤ 32 }
    ensures { result ≡ presence_bits (map value_shown values.now) }
{
    let mut bits = 0u64;
    let mut bit = 1u64;
    for value in values {
        bits += presence_bit(*value, bit);
        bit *= 2;
    }
    bits as u32
}

// Puts null bits in the place of what the buffer held, if a value is null.
#[tactic(auto, unfolding(crate::specs::Bodies::null_part))]
fn put_null_part(out: &mut Vec<u8>, values: &[ValueRef<'_>]) -> Result<(), NoMemory>
    requires { length values.now ≤ 32 }
    ensures { OnOk result (out.new.items ≡ null_part (map value_shown values.now)) }
{
    out.clear();
    if !has_null(values) {
        return Ok(());
    }
    push_u32(out, presence_bits(values))?;
    push_zeros(out, 4)
}

// Adds values, each in its column.
fn push_values(
    out: &mut Vec<u8>,
    types: &[ColType],
    values: &[ValueRef<'_>],
) -> Result<(), NoMemory>
    requires count { length values.now ≡ length types.now }
    requires aligned { All HasAlignment types.now }
    requires short { All (λ v. IsShortEnough (value_shown v)) values.now }
    ensures { OnOk result (out.new.items ≡ with_values types.now (map value_shown values.now) out.old.items) }
{
    for (k, value) in values.iter().enumerate() {
        push_value(out, types[k], *value)?;
    }
    Ok(())
}

fn is_varwidth(ctype: ColType, value: ValueRef<'_>) -> bool
    ensures { result ≡ is_varwidth ctype (value_shown value.entry) }
{
    !is_null(value) && ctype.fixed_length().is_none()
}

// Whether a value of variable width is there.
fn has_varwidth(types: &[ColType], values: &[ValueRef<'_>]) -> bool
    requires { length values.now ≡ length types.now }
    ensures { result ≡ has_varwidth types.now (map value_shown values.now) }
{
    for (k, value) in values.iter().enumerate() {
        if is_varwidth(types[k], *value) {
            return true;
        }
    }
    false
}

/// What the head of an index tuple says of the body of these values.
#[tactic(auto, unfolding(crate::specs::Bodies::body_flags))]
pub fn body_flags(types: &[ColType], values: &[ValueRef<'_>]) -> BodyFlags
    requires { length values.now ≡ length types.now }
    ensures { result ≡ body_flags types.now (map value_shown values.now) }
{
    BodyFlags {
        nulls: has_null(values),
        varwidth: has_varwidth(types, values),
    }
}

/// Puts the body of an index tuple in the place of what the buffer held: null bits, if a value is null, and the
/// values, each in its column and at its alignment (`index_form_tuple`). A varlena of up to 126 bytes has a
/// header of one byte. There are at most 32 values, each of fewer than 1073741820 bytes.
#[tactic(auto, unfolding(crate::specs::Bodies::index_body))]
pub fn put_index_body(
    out: &mut Vec<u8>,
    types: &[ColType],
    values: &[ValueRef<'_>],
) -> Result<(), NoMemory>
    requires few { length values.now ≤ 32 }
    requires count { length values.now ≡ length types.now }
    requires aligned { All HasAlignment types.now }
    requires short { All (λ v. IsShortEnough (value_shown v)) values.now }
    ensures { OnOk result (out.new.items ≡ index_body types.now (map value_shown values.now)) }
{
    put_null_part(out, values)?;
    push_values(out, types, values)
}
