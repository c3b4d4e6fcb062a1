//! A text that grows by short fields.
ghost use Rattle.std.specs.Prelude.{◌≡◌, ◌+◌, ◌++◌, ◌≤◌, ◌<◌, ◌∷◌, [], IfOk, OnOk, length};
ghost use Rattle.std.specs.Fmt.{decimal, signed_decimal};
ghost use Rattle.text_writer.specs.Writer.{bytes_of};

use itoa::write_digits;
use key_orders::Octets;
use outside::NoMemory;
use std::alloc::Global;
use std::marker::Model;

// How many bytes may wait.
const ROOM: usize = 1024;

// The most bytes that a number takes.
const NUMBER: usize = 20;

// How many digits a number has.
#[inline]
fn digit_count(n: u64) -> usize
    ensures { result ≡ length (decimal n) }
{
    let mut left = n;
    let mut count: usize = 0;
    while left >= 10_000 {
        left /= 10_000;
        count += 4;
    }
    count + short_count(left)
}

// How many digits a number below 10000 has.
#[inline]
fn short_count(n: u64) -> usize
    requires { n < 10000 }
    ensures { result ≡ length (decimal n) }
{
    if n < 10 {
        1
    } else if n < 100 {
        2
    } else if n < 1000 {
        3
    } else {
        4
    }
}

// Bytes that wait: the first of these, so many.
#[derive(Drop)]
struct Waiting {
    bytes: [u8; ROOM],
    used: usize,
}

impl Waiting {
    // None.
    #[inline]
    fn none() -> Waiting
        ensures { result.used ≡ 0 }
    {
        Waiting {
            bytes: [0; ROOM],
            used: 0,
        }
    }

    // How many there are.
    #[inline]
    fn count(&self) -> usize
        requires { self.now.used ≤ 1024 }
        ensures { result ≡ length (bytes_of self.now) }
    {
        self.used
    }

    // One more.
    #[inline]
    fn put(&mut self, b: u8)
        requires { self.old.used + 1 ≤ 1024 }
        ensures bytes { bytes_of self.new ≡ bytes_of self.old ++ b ∷ [] }
        ensures used { self.new.used ≡ self.old.used + 1 }
    {
        self.bytes[self.used] = b;
        self.used += 1;
    }

    // More of them.
    #[inline]
    fn put_slice(&mut self, bytes: &[u8])
        requires { self.old.used + length bytes.now ≤ 1024 }
        ensures bytes { bytes_of self.new ≡ bytes_of self.old ++ bytes.now }
        ensures few { self.new.used ≤ 1024 }
    {
        let end = self.used + bytes.len();
        self.bytes[self.used..end].copy_from_slice(bytes);
        self.used = end;
    }

    // The digits of a number.
    #[inline]
    fn put_digits(&mut self, n: u64)
        requires { self.old.used + length (decimal n) ≤ 1024 }
        ensures bytes { bytes_of self.new ≡ bytes_of self.old ++ decimal n }
        ensures few { self.new.used ≤ 1024 }
    {
        let end = self.used + digit_count(n);
        let _start = write_digits(n, &mut self.bytes, end);
        self.used = end;
    }

    // A number in decimal.
    #[inline]
    fn put_number(&mut self, n: i64)
        requires { self.old.used + 20 ≤ 1024 }
        ensures bytes { bytes_of self.new ≡ bytes_of self.old ++ signed_decimal n }
        ensures few { self.new.used ≤ 1024 }
    {
        if n >= 0 {
            self.put_digits(n.unsigned_abs());
            return;
        }
        self.put(b'-');
        self.put_digits(n.unsigned_abs());
    }
}

// Lets none wait.
fn flush(text: &mut Vec<u8>, waiting: &mut Waiting) -> Result<(), NoMemory>
    requires { waiting.old.used ≤ 1024 }
    ensures bytes { OnOk result (text.new.items ≡ text.old.items ++ bytes_of waiting.old) }
    ensures none { OnOk result (waiting.new.used ≡ 0) }
    ensures few { waiting.new.used ≤ 1024 }
{
    text.extend_from_slice(&waiting.bytes[..waiting.used])?;
    waiting.used = 0;
    Ok(())
}

// Makes room for so many more to wait.
#[inline]
fn make_room(text: &mut Vec<u8>, waiting: &mut Waiting, count: usize) -> Result<(), NoMemory>
    requires kept { waiting.old.used ≤ 1024 }
    requires fits { count ≤ 1024 }
    ensures same { OnOk result (text.new.items ++ bytes_of waiting.new ≡ text.old.items ++ bytes_of waiting.old) }
    ensures room { OnOk result (waiting.new.used + count ≤ 1024) }
    ensures few { waiting.new.used ≤ 1024 }
{
    if ROOM - waiting.used < count {
        flush(text, waiting)?;
        return Ok(());
    }
    Ok(())
}

/// A text that grows by short fields: these wait in a buffer, and the text takes many of them at once. Contracts see
/// the list of its bytes.
#[derive(Drop)]
pub struct TextWriter {
    text: Vec<u8>,
    waiting: Waiting,
}

impl Model for TextWriter {
    ghost use Rattle.std.specs.Prelude.{◌≤◌, ◌++◌, List, ℕ};
    ghost use Rattle.text_writer.specs.Writer.{bytes_of};

    ghost Value = { List ℕ };

    ghost view = { λ w. w.text.items ++ bytes_of w.waiting };

    ghost invariant = { λ w. w.waiting.used ≤ 1024 };
}

impl TextWriter {
    /// An empty text.
    #[inline]
    pub fn new(alloc: Global) -> TextWriter
        ensures { result ≡ [] }
    {
        TextWriter {
            text: Vec::new(alloc),
            waiting: Waiting::none(),
        }
    }

    /// The whole text.
    pub fn finish(self) -> Result<Octets, NoMemory>
        ensures { IfOk result (λ o. o ≡ self) }
    {
        let TextWriter {
            mut text,
            mut waiting,
        } = self;
        flush(&mut text, &mut waiting)?;
        Ok(Octets::from_vec(text))
    }

    /// How many bytes it has.
    pub fn len(&self) -> u64
        ensures { result ≡ length self.now }
    {
        self.text.len() as u64 + self.waiting.count() as u64
    }

    /// Adds a byte.
    #[inline]
    pub fn push(&mut self, b: u8) -> Result<(), NoMemory>
        ensures { OnOk result (self.new ≡ self.old ++ b ∷ []) }
    {
        make_room(&mut self.text, &mut self.waiting, 1)?;
        self.waiting.put(b);
        Ok(())
    }

    /// Adds a number in decimal.
    #[inline]
    pub fn push_number(&mut self, n: i64) -> Result<(), NoMemory>
        ensures { OnOk result (self.new ≡ self.old ++ signed_decimal n) }
    {
        make_room(&mut self.text, &mut self.waiting, NUMBER)?;
        self.waiting.put_number(n);
        Ok(())
    }

    /// Adds a number without a sign in decimal.
    #[inline]
    pub fn push_decimal(&mut self, n: u64) -> Result<(), NoMemory>
        ensures { OnOk result (self.new ≡ self.old ++ decimal n) }
    {
        make_room(&mut self.text, &mut self.waiting, NUMBER)?;
        self.waiting.put_digits(n);
        Ok(())
    }

    // Adds more bytes than may wait.
    fn push_long(&mut self, bytes: &[u8]) -> Result<(), NoMemory>
        ensures { OnOk result (self.new ≡ self.old ++ bytes.now) }
    {
        flush(&mut self.text, &mut self.waiting)?;
        self.text.extend_from_slice(bytes)?;
        Ok(())
    }

    /// Adds bytes.
    #[inline]
    pub fn push_slice(&mut self, bytes: &[u8]) -> Result<(), NoMemory>
        ensures { OnOk result (self.new ≡ self.old ++ bytes.now) }
    {
        if ROOM < bytes.len() {
            return self.push_long(bytes);
        }
        make_room(&mut self.text, &mut self.waiting, bytes.len())?;
        self.waiting.put_slice(bytes);
        Ok(())
    }
}
