//! The number that the first eight bytes of a list are.
ghost use Rattle.std.specs.Prelude.{◌≡◌, ◌<◌, ◌+◌, ◌*◌, ℕ, length, slice_index};
ghost use Rattle.std.specs.Int.{from_be_bytes, w32};
ghost use Rattle.key_orders.specs.Leading.{eight_number};

// The number that the first eight bytes are, the first one highest; zeros stand for those that are missing.
#[inline]
pub(crate) fn eight_number(bytes: &[u8]) -> u64
    ensures number { result ≡ eight_number bytes.now }
    ensures small { (k : ℕ) → slice_index bytes.now k < 256 }
{
    match bytes.first_chunk::<8>() {
        Some(first) => u64::from_be_bytes(*first),
        None => short_number(bytes),
    }
}

// The same of fewer than eight bytes: four of them at once, if there are as many, and the others.
#[inline]
fn short_number(bytes: &[u8]) -> u64
    requires { length bytes.now < 8 }
    ensures { result ≡ eight_number bytes.now }
{
    match bytes.split_first_chunk::<4>() {
        Some((first, others)) => { joined(u32::from_be_bytes(*first), four_number(others)) }
        None => joined(four_number(bytes), 0),
    }
}

// Two numbers of four bytes as one of eight.
#[inline]
fn joined(high: u32, low: u32) -> u64
    ensures { result ≡ high * 4294967296 + low }
{
    u64::from(high) * 4294967296 + u64::from(low)
}

// The number that fewer than four bytes are the beginning of, with zeros for those that are missing.
#[inline]
fn four_number(bytes: &[u8]) -> u32
    requires { length bytes.now < 4 }
    ensures { result ≡ from_be_bytes w32 bytes.now }
{
    match bytes {
        [a, b, c] => u32::from_be_bytes([*a, *b, *c, 0]),
        [a, b] => u32::from_be_bytes([*a, *b, 0, 0]),
        [a] => u32::from_be_bytes([*a, 0, 0, 0]),
        _ => 0,
    }
}
