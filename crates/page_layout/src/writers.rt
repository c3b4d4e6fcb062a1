//! Writers of numbers and of a page's header into bytes, the lowest byte of a number first.
ghost use Rattle.std.specs.Prelude.{◌≡◌, ◌+◌, ◌≤◌, ℕ, List, length};
ghost use Rattle.page_layout.specs.Page.{block_at, header_of, u16_at, u32_at};
ghost use Rattle.page_layout.specs.Writes.{AreApart, block_bytes, header_bytes, u16_bytes, u32_bytes, with_bytes};

use crate::page::PageHeader;
use byteorder::{ByteOrder, LittleEndian};

/// Writes a number into the two bytes at a place, the lowest byte first.
#[inline]
pub fn put_u16(bytes: &mut [u8], at: usize, number: u16)
    requires { at + 2 ≤ length bytes.old }
    ensures bytes { bytes.new ≡ with_bytes bytes.old at (u16_bytes number) }
    ensures reads_back { u16_at bytes.new at ≡ number }
{
    LittleEndian::write_u16(&mut bytes[at..], number);
}

/// Writes a number into the four bytes at a place, the lowest byte first.
#[inline]
pub fn put_u32(bytes: &mut [u8], at: usize, number: u32)
    requires { at + 4 ≤ length bytes.old }
    ensures bytes { bytes.new ≡ with_bytes bytes.old at (u32_bytes number) }
    ensures reads_back { u32_at bytes.new at ≡ number }
{
    LittleEndian::write_u32(&mut bytes[at..], number);
}

/// Writes a block number into the four bytes at a place of a tuple's header, as `block_at` reads it.
#[inline]
pub fn put_block(bytes: &mut [u8], at: usize, block: u32)
    requires { at + 4 ≤ length bytes.old }
    ensures bytes { bytes.new ≡ with_bytes bytes.old at (block_bytes block) }
    ensures reads_back { block_at bytes.new at ≡ block }
{
    put_u16(bytes, at, (block / 65536) as u16);
    put_u16(bytes, at + 2, (block % 65536) as u16);
}

/// Writes the header of a page, its first 24 bytes.
pub fn put_header(page: &mut [u8; 8192], header: PageHeader)
    ensures bytes { page.new ≡ with_bytes page.old 0 (header_bytes header) }
    ensures reads_back { header_of page.new ≡ header }
{
    put_u32(page, 0, header.lsn_high);
    put_u32(page, 4, header.lsn_low);
    put_u16(page, 8, header.checksum);
    put_u16(page, 10, header.flags);
    put_u16(page, 12, header.lower);
    put_u16(page, 14, header.upper);
    put_u16(page, 16, header.special);
    put_u16(page, 18, header.version);
    put_u32(page, 20, header.prune_xid);
}

/// What is written at a place leaves the count of bytes as it is, and each number that stands apart
/// from it.
pub fn writes_leave_the_rest()
    ensures length { (bytes piece : List ℕ) (at : ℕ) → at + length piece ≤ length bytes →
        length (with_bytes bytes at piece) ≡ length bytes }
    ensures two { (bytes piece : List ℕ) (at place : ℕ) → at + length piece ≤ length bytes →
        AreApart place 2 at (length piece) → u16_at (with_bytes bytes at piece) place ≡ u16_at bytes place }
    ensures four { (bytes piece : List ℕ) (at place : ℕ) → at + length piece ≤ length bytes →
        AreApart place 4 at (length piece) → u32_at (with_bytes bytes at piece) place ≡ u32_at bytes place }
{}
