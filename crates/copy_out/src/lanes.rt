//! The bytes of a text, 32 at a time.
ghost use Rattle.std.specs.Prelude.{◌≡◌, ◌==◌, ◌+◌, ◌<◌, ◌≤◌, ℕ, None, false, length, slice_index};
ghost use Rattle.copy_out.specs.Escapes.{letter_of};

use std::simd::prelude::*;

// A bit for each lane below 14; 0 where there is none.
#[inline(always)]
fn low_lanes(v: u8x32) -> u64
    ensures { result ≡ 0 → (k : ℕ) → k < 32 → 14 ≤ slice_index v k }
{
    v.simd_lt(u8x32::splat(14)).to_bitmask()
}

// A bit for each lane that is a backslash; 0 where there is none.
#[inline(always)]
fn backslash_lanes(v: u8x32) -> u64
    ensures { result ≡ 0 → (k : ℕ) → k < 32 → (slice_index v k == 92) ≡ false }
{
    v.simd_eq(u8x32::splat(92)).to_bitmask()
}

/// Whether a letter may stand for one of the 32 bytes from a place on; if not, none does.
#[inline(always)]
pub(crate) fn may_have_letters(bytes: &[u8], at: usize) -> bool
    requires { at + 32 ≤ length bytes.now }
    ensures { result ≡ false → (k : ℕ) → at ≤ k → k < at + 32 → letter_of (slice_index bytes.now k) ≡ None }
{
    let v = u8x32::from_slice(&bytes[at..]);
    low_lanes(v) != 0 || backslash_lanes(v) != 0
}
