//! The order of lists of bytes, by the numbers that the first eight of each are.
ghost use Rattle.std.specs.Prelude.{◌≡◌, ◌<◌, ℕ, slice_index};
ghost use Rattle.std.specs.Cmp.Lexicographic.{slice_cmp};
ghost use Rattle.std.specs.Int.{from_be_bytes, w64};
ghost use Rattle.std.specs.Ordering.{nat_cmp};

use std::cmp::Ordering;

// Byte by byte, without sign, a prefix first. Where both have eight bytes and these differ, their numbers decide.
#[inline]
pub fn compare_bytes(a: &[u8], b: &[u8]) -> Ordering
    ensures { result ≡ slice_cmp nat_cmp a.now b.now }
{
    match (a.split_first_chunk::<8>(), b.split_first_chunk::<8>()) {
        (Some((first_a, others_a)), Some((first_b, others_b))) => {
            let left = chunk_number(first_a);
            let right = chunk_number(first_b);
            if left != right {
                left.cmp(&right)
            } else {
                others_a.cmp(others_b)
            }
        }
        _ => a.cmp(b),
    }
}

// The number that eight bytes are, the first one highest.
#[inline]
fn chunk_number(bytes: &[u8; 8]) -> u64
    ensures number { result ≡ from_be_bytes w64 bytes.now }
    ensures small { (k : ℕ) → slice_index bytes.now k < 256 }
{
    u64::from_be_bytes(*bytes)
}
