//! A value, read where it lies.
ghost use Rattle.std.specs.Prelude.{◌≡◌};
ghost use Rattle.key_orders.specs.Values.{value_shown};
ghost use Rattle.key_storage.specs.Stored.{bytes_read, int_read, short_read, sized_read, small_read};
ghost use Rattle.key_storage.specs.Stored.{tagged_read, value_read};

use key_orders::ValueRef;

#[inline]
pub(crate) fn read_int(bytes: &[u8]) -> (ValueRef<'_>, &[u8])
    ensures value { value_shown result.0 ≡ (int_read bytes.now).0 }
    ensures rest { result.1.now ≡ (int_read bytes.now).1 }
{
    match bytes.split_first_chunk::<8>() {
        Some((number, rest)) => (
            ValueRef::Int(u64::from_le_bytes(*number).cast_signed()),
            rest,
        ),
        None => (ValueRef::Null, &[]),
    }
}

#[inline]
pub(crate) fn read_small(bytes: &[u8]) -> (ValueRef<'_>, &[u8])
    ensures value { value_shown result.0 ≡ (small_read bytes.now).0 }
    ensures rest { result.1.now ≡ (small_read bytes.now).1 }
{
    match bytes.split_first_chunk::<4>() {
        Some((number, rest)) => (
            ValueRef::Int(u64::from(u32::from_le_bytes(*number)).cast_signed()),
            rest,
        ),
        None => (ValueRef::Null, &[]),
    }
}

fn read_sized(len: usize, bytes: &[u8]) -> (ValueRef<'_>, &[u8])
    ensures value { value_shown result.0 ≡ (sized_read len bytes.now).0 }
    ensures rest { result.1.now ≡ (sized_read len bytes.now).1 }
{
    match bytes.split_at_checked(len) {
        Some((content, rest)) => (ValueRef::Bytes(content), rest),
        None => (ValueRef::Null, &[]),
    }
}

fn read_bytes(bytes: &[u8]) -> (ValueRef<'_>, &[u8])
    ensures value { value_shown result.0 ≡ (bytes_read bytes.now).0 }
    ensures rest { result.1.now ≡ (bytes_read bytes.now).1 }
{
    match bytes.split_first_chunk::<4>() {
        Some((len, rest)) => read_sized(u32::from_le_bytes(*len) as usize, rest),
        None => (ValueRef::Null, &[]),
    }
}

fn read_short(bytes: &[u8]) -> (ValueRef<'_>, &[u8])
    ensures value { value_shown result.0 ≡ (short_read bytes.now).0 }
    ensures rest { result.1.now ≡ (short_read bytes.now).1 }
{
    match bytes.split_first() {
        Some((len, rest)) => read_sized(*len as usize, rest),
        None => (ValueRef::Null, bytes),
    }
}

fn read_tagged(tag: u8, bytes: &[u8]) -> (ValueRef<'_>, &[u8])
    ensures value { value_shown result.0 ≡ (tagged_read tag bytes.now).0 }
    ensures rest { result.1.now ≡ (tagged_read tag bytes.now).1 }
{
    if tag == 1 {
        (ValueRef::Bool(false), bytes)
    } else if tag == 2 {
        (ValueRef::Bool(true), bytes)
    } else if tag == 3 {
        read_int(bytes)
    } else if tag == 4 {
        read_bytes(bytes)
    } else if tag == 5 {
        read_short(bytes)
    } else if tag == 6 {
        read_small(bytes)
    } else {
        (ValueRef::Null, bytes)
    }
}

/// The value at the beginning, and what is left.
#[tactic(auto, unfolding(crate::specs::Stored::value_read))]
pub fn read_value(bytes: &[u8]) -> (ValueRef<'_>, &[u8])
    ensures value { value_shown result.0 ≡ (value_read bytes.now).0 }
    ensures rest { result.1.now ≡ (value_read bytes.now).1 }
{
    match bytes.split_first() {
        Some((tag, rest)) => read_tagged(*tag, rest),
        None => (ValueRef::Null, bytes),
    }
}
