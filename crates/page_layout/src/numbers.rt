//! Numbers in bytes, the lowest byte first, bits of numbers, and lengths that are rounded up.
ghost use Rattle.std.specs.Prelude.{◌≡◌, ◌+◌, ◌%◌, ◌<◌, ◌≤◌, length};
ghost use Rattle.page_layout.specs.Page.{block_at, has_bit, max_align, u16_at, u32_at};

use byteorder::{ByteOrder, LittleEndian};

/// The number in the two bytes at a place, the lowest byte first.
#[inline]
#[tactic(auto, unfolding(crate::specs::Page::u16_at))]
pub fn u16_at(bytes: &[u8], at: usize) -> u16
    requires { at + 2 ≤ length bytes.now }
    ensures { result ≡ u16_at bytes.now at }
{
    LittleEndian::read_u16(&bytes[at..])
}

/// The number in the four bytes at a place, the lowest byte first.
#[inline]
#[tactic(auto, unfolding(crate::specs::Page::u32_at))]
pub fn u32_at(bytes: &[u8], at: usize) -> u32
    requires { at + 4 ≤ length bytes.now }
    ensures { result ≡ u32_at bytes.now at }
{
    LittleEndian::read_u32(&bytes[at..])
}

/// The block number in the four bytes at a place of a tuple's header: its high half before its low
/// half, the lowest byte of each first (`storage/block.h`, `BlockIdData`).
#[inline]
#[tactic(auto, unfolding(crate::specs::Page::block_at))]
pub fn block_at(bytes: &[u8], at: usize) -> u32
    requires { at + 4 ≤ length bytes.now }
    ensures { result ≡ block_at bytes.now at }
{
    u32::from(u16_at(bytes, at)) * 65536 + u32::from(u16_at(bytes, at + 2))
}

/// Whether a bit of a word of flags is set. The bit is given by its value, as 0x0800; of several bits
/// it says whether one of them is.
#[inline]
#[tactic(auto, unfolding(crate::specs::Page::has_bit))]
pub fn has_bit(word: u16, bit: u16) -> bool
    ensures { result ≡ has_bit word bit }
{
    word & bit != 0
}

/// A length rounded up to a multiple of 8, the strictest alignment of any type (`c.h`, `MAXALIGN`).
#[inline]
pub fn max_align(len: u16) -> u16
    requires { len + 7 < 65536 }
    ensures value { result ≡ max_align len }
    ensures aligned { result % 8 ≡ 0 }
    ensures least { len ≤ result }
    ensures most { result < len + 8 }
{
    (len + 7) / 8 * 8
}
