//! CRC-32C, the checksum of the control file and of maps (`port/pg_crc32c.h`).
ghost use Rattle.std.specs.Prelude.{◌≡◌, ◌==◌, ◌+◌, ◌≤◌, ℕ, List, length, take};
ghost use Rattle.page_layout.specs.Page.{u32_at};
ghost use Rattle.cluster_control.specs.Crc.{IsCrc, Shifts, crc_of};

use page_layout::u32_at;

// The coefficients of the polynomial below x^32: that of x^31 in the lowest bit.
const BELOW_LEADING: u32 = 0x82F6_3B78;

// One step of the division: takes the coefficient of the highest degree away.
fn shift(register: u32) -> u32
    ensures { Shifts 1 register result }
{
    if register % 2 == 1 {
        BELOW_LEADING ^ (register / 2)
    } else {
        register / 2
    }
}

// Eight of them.
fn shift_byte(register: u32) -> u32
    ensures { Shifts 8 register result }
{
    let mut shifted = register;
    for _done in 0..8u8 {
        shifted = shift(shifted);
    }
    shifted
}

/// The CRC-32C of bytes: with their bits as coefficients, the lowest of each byte first, what is left when the
/// message times x^32, its first 32 bits turned, is divided by x^32 + x^28 + x^27 + x^26 + x^25 + x^23 + x^22 + x^20
/// + x^19 + x^18 + x^14 + x^13 + x^11 + x^10 + x^9 + x^8 + x^6 + 1, with all its bits turned. That of no bytes is 0.
pub fn crc32c(bytes: &[u8]) -> u32
    ensures { result ≡ crc_of bytes.now }
{
    let mut register = u32::MAX;
    for byte in bytes {
        register = shift_byte(register ^ u32::from(*byte));
    }
    u32::MAX ^ register
}

/// Whether the four bytes at a place, the lowest first, are the CRC-32C of all bytes before it.
pub fn has_crc_behind(bytes: &[u8], at: usize) -> bool
    requires { at + 4 ≤ length bytes.now }
    ensures { result ≡ (u32_at bytes.now at == crc_of (take at bytes.now)) }
{
    u32_at(bytes, at) == crc32c(&bytes[..at])
}

/// What `crc32c` gives is a CRC-32C by the definition over polynomials, and no other number is.
pub fn crc_is_the_division()
    ensures is { (bytes : List ℕ) → IsCrc bytes (crc_of bytes) }
    ensures alone { (bytes : List ℕ) (crc : ℕ) → IsCrc bytes crc → crc ≡ crc_of bytes }
{}
