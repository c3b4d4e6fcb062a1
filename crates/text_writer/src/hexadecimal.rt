//! Bytes in hexadecimal.
ghost use Rattle.std.specs.Prelude.{◌≡◌, ◌++◌, ◌≤◌, length, OnOk};
ghost use Rattle.hex.specs.Hex.{encode_lower};

use crate::writer::TextWriter;
use outside::NoMemory;

// Adds the digits of a few bytes.
fn push_few_digits(text: &mut TextWriter, bytes: &[u8]) -> Result<(), NoMemory>
    requires { length bytes.now ≤ 64 }
    ensures { OnOk result (text.new ≡ text.old ++ encode_lower bytes.now) }
{
    let mut digits = [0u8; 128];
    let room = &mut digits[..2 * bytes.len()];
    hex::encode_to_slice(bytes, room).unwrap();
    text.push_slice(room)
}

/// Adds bytes in lower-case hexadecimal, two digits each.
pub fn push_hexadecimal(text: &mut TextWriter, bytes: &[u8]) -> Result<(), NoMemory>
    ensures { OnOk result (text.new ≡ text.old ++ encode_lower bytes.now) }
{
    let mut rest = bytes;
    while rest.len() > 64 {
        let (part, after) = rest.split_at(64);
        push_few_digits(text, part)?;
        rest = after;
    }
    push_few_digits(text, rest)
}
