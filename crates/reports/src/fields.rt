//! Names with numbers after them, put at the end of a text.
ghost use Rattle.std.specs.Prelude.{◌≡◌, ◌++◌, OnOk};
ghost use Rattle.reports.specs.Fields.{decimal_field, hex_field, hex_number, hex_word, long_hex_field, tid_text};

use key_orders::{Octets, Tid};
use outside::NoMemory;

// The four hexadecimal digits of a word.
#[tactic(auto, unfolding(crate::specs::Fields::hex_word))]
fn hex_word(n: u16) -> [u8; 4]
    ensures { result ≡ hex_word n }
{
    let mut digits = [0u8; 4];
    hex::encode_to_slice(n.to_be_bytes(), &mut digits).unwrap();
    digits
}

// The eight hexadecimal digits of a number.
#[tactic(auto, unfolding(crate::specs::Fields::hex_number))]
fn hex_number(n: u32) -> [u8; 8]
    ensures { result ≡ hex_number n }
{
    let mut digits = [0u8; 8];
    hex::encode_to_slice(n.to_be_bytes(), &mut digits).unwrap();
    digits
}

// A name and a number after it, in decimal.
#[tactic(auto, unfolding(crate::specs::Fields::decimal_field))]
pub fn push_decimal_field(text: &mut Octets, name: &[u8], n: u32) -> Result<(), NoMemory>
    ensures { OnOk result (text.new ≡ text.old ++ decimal_field name.now n) }
{
    text.push_slice(name)?;
    text.push_decimal(n as u64)
}

// A name and a word after it, in hexadecimal.
#[tactic(auto, unfolding(crate::specs::Fields::hex_field))]
pub fn push_hex_field(text: &mut Octets, name: &[u8], n: u16) -> Result<(), NoMemory>
    ensures { OnOk result (text.new ≡ text.old ++ hex_field name.now n) }
{
    text.push_slice(name)?;
    text.push_slice(&hex_word(n))
}

// A name and a number after it, in hexadecimal.
#[tactic(auto, unfolding(crate::specs::Fields::long_hex_field))]
pub fn push_long_hex_field(text: &mut Octets, name: &[u8], n: u32) -> Result<(), NoMemory>
    ensures { OnOk result (text.new ≡ text.old ++ long_hex_field name.now n) }
{
    text.push_slice(name)?;
    text.push_slice(&hex_number(n))
}

/// Puts a TID at the end of a text: its block and its item, with a space between them.
#[tactic(auto, unfolding(crate::specs::Fields::tid_text))]
pub fn push_tid(text: &mut Octets, tid: Tid) -> Result<(), NoMemory>
    ensures { OnOk result (text.new ≡ text.old ++ tid_text tid) }
{
    text.push_decimal(tid.block as u64)?;
    push_decimal_field(text, b" ", tid.item as u32)
}
