//! The numbers that words write.
ghost use Rattle.std.specs.Prelude.{◌≡◌, ◌^◌, ◌↔◌, ℕ, None, Some, nat_lt, if◌then◌else◌};
ghost use Rattle.cmd_line.specs.Numbers.{WritesU32, WritesU64, number_written, u32_written, u64_written};

use itoa::Buffer;

/// The number of 64 bits that a word writes: in decimal, without a sign or a leading zero, and at most
/// 18446744073709551615. No other word writes one.
#[tactic(auto, unfolding(crate::specs::Numbers::number_written))]
pub fn u64_written(word: &str) -> Option<u64>
    ensures written { result ≡ u64_written word.now }
    ensures means { (n : ℕ) → (result ≡ Some n) ↔ WritesU64 word.now n }
{
    let number = word.parse::<u64>().ok()?;
    let mut buffer = Buffer::new();
    if buffer.format(number) == word {
        Some(number)
    } else {
        None
    }
}

// A number, if it is one of 32 bits.
fn of_32_bits(number: u64) -> Option<u32>
    ensures { result ≡ (if nat_lt number (2 ^ 32) then Some number else None) }
{
    if number <= u32::MAX as u64 {
        Some(number as u32)
    } else {
        None
    }
}

/// The number of 32 bits that a word writes, in the same way: at most 4294967295.
pub fn u32_written(word: &str) -> Option<u32>
    ensures written { result ≡ u32_written word.now }
    ensures means { (n : ℕ) → (result ≡ Some n) ↔ WritesU32 word.now n }
{
    of_32_bits(u64_written(word)?)
}
