//! The bytes of a text with escapes.
ghost use Rattle.std.specs.Prelude.{◌≡◌, ◌≤◌, ◌++◌, None, OnOk, false, length};
ghost use Rattle.copy_out.specs.Escapes.{escaped, letter_of};

use crate::lanes::may_have_letters;
use outside::NoMemory;
use text_writer::TextWriter;

// The letter that stands for a byte behind a backslash, where one does.
#[inline]
#[tactic(auto, unfolding(crate::specs::Escapes::letter_of))]
fn letter_of(b: u8) -> Option<u8>
    ensures { result ≡ letter_of b }
{
    match b {
        b'\\' => Some(b'\\'),
        8 => Some(b'b'),
        9 => Some(b't'),
        10 => Some(b'n'),
        11 => Some(b'v'),
        12 => Some(b'f'),
        13 => Some(b'r'),
        _ => None,
    }
}

// Whether a letter may stand for a byte; if not, none does.
#[inline]
fn may_have_letter(b: u8) -> bool
    ensures { result ≡ false → letter_of b ≡ None }
{
    b == b'\\' || (8 <= b && b <= 13)
}

// Whether one may stand for any of a few bytes.
fn may_have_in_few(bytes: &[u8]) -> bool
    ensures { result ≡ false → escaped bytes.now ≡ bytes.now }
{
    let mut found = false;
    for b in bytes {
        found = found | may_have_letter(*b);
    }
    found
}

// Whether one may stand for any of 32 bytes or more. The last 32 are looked at as a whole, whatever was seen of them.
fn may_have_in_many(bytes: &[u8]) -> bool
    requires { 32 ≤ length bytes.now }
    ensures { result ≡ false → escaped bytes.now ≡ bytes.now }
{
    let last = bytes.len() - 32;
    let mut at: usize = 0;
    while at < last {
        if may_have_letters(bytes, at) {
            return true;
        }
        at += 32;
    }
    may_have_letters(bytes, last)
}

// Whether one may stand for any of these.
#[inline]
fn may_have_escapes(bytes: &[u8]) -> bool
    ensures { result ≡ false → escaped bytes.now ≡ bytes.now }
{
    if bytes.len() < 32 {
        may_have_in_few(bytes)
    } else {
        may_have_in_many(bytes)
    }
}

// Adds the bytes of a text with their escapes. What lies between two escapes is added as a whole.
fn push_with_escapes(text: &mut TextWriter, bytes: &[u8]) -> Result<(), NoMemory>
    ensures { OnOk result (text.new ≡ text.old ++ escaped bytes.now) }
{
    let mut done: usize = 0;
    for (i, b) in bytes.iter().enumerate() {
        if let Some(letter) = letter_of(*b) {
            text.push_slice(&bytes[done..i])?;
            text.push_slice(&[b'\\', letter])?;
            done = i + 1;
        }
    }
    text.push_slice(&bytes[done..])
}

/// Adds the bytes of a text with their escapes. Most texts have none, and are added as they are.
pub(crate) fn push_escaped(text: &mut TextWriter, bytes: &[u8]) -> Result<(), NoMemory>
    ensures { OnOk result (text.new ≡ text.old ++ escaped bytes.now) }
{
    if may_have_escapes(bytes) {
        push_with_escapes(text, bytes)
    } else {
        text.push_slice(bytes)
    }
}
