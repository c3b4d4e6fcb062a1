//! Bits side by side in bytes, each in its byte from the lowest up. Places count from 0.
ghost use Rattle.std.specs.Prelude.{◌≡◌, ◌*◌, ◌<◌, ◌≤◌, ℕ, ◌==◌, ◌||◌, length, vec_len, OnOk};
ghost use Rattle.page_layout.specs.Bits.{is_set};

use outside::NoMemory;

/// Whether the bit at a place is set.
#[inline]
#[tactic(auto, unfolding(crate::specs::Bits::is_set))]
pub fn is_set(bits: &[u8], place: usize) -> bool
    requires { place < 8 * length bits.now }
    ensures { result ≡ is_set bits.now place }
{
    (bits[place / 8] >> (place % 8)) % 2 == 1
}

/// Sets the bit at a place.
#[inline]
pub fn set_bit(bits: &mut [u8], place: usize)
    requires { place < 8 * length bits.old }
    ensures { (p : ℕ) → is_set bits.new p ≡ ((p == place) || is_set bits.old p) }
{
    bits[place / 8] |= 1 << (place % 8);
}

/// Makes room for so many bits. Those that come are not set, and none changes, with memory or without.
pub fn make_room(bits: &mut Vec<u8>, places: usize) -> Result<(), NoMemory>
    ensures room { OnOk result (places ≤ 8 * vec_len bits.new) }
    ensures longer { vec_len bits.old ≤ vec_len bits.new }
    ensures same { (p : ℕ) → is_set bits.new.items p ≡ is_set bits.old.items p }
{
    let bytes = places.div_ceil(8);
    if bits.len() < bytes {
        bits.resize(bytes, 0)?;
    }
    Ok(())
}
