//! The words of a scan: its bounds and its direction. They are read by hand, and take no memory until a scan is made.
ghost use Rattle.std.specs.Prelude.{◌≡◌, ◌+◌, ◌^◌, IfOk, is_some};
ghost use Rattle.std.specs.List.{list_all};
ghost use Rattle.std.specs.Option.{option_map};
ghost use Rattle.hex.specs.Hex.{decode_of};
ghost use Rattle.cmd_line.specs.Bounds.{are_pairs, are_values, below_zero, bound_in, bound_written, bytes_or_none};
ghost use Rattle.cmd_line.specs.Bounds.{direction_written, inclusion_of, integer_written, is_lower_digit};
ghost use Rattle.cmd_line.specs.Bounds.{parts_written, value_in, value_written, values_in};
ghost use Rattle.cmd_line.specs.Numbers.{number_written};
ghost use Rattle.cmd_line.specs.Read.{bound_read, parts_shown, value_told};
ghost use Rattle.cmd_line.specs.Seen.{scan_seen};
ghost use Rattle.cmd_line.specs.Words.{scan_by};
ghost use Rattle.cmd_line.specs.declared.bounds.Side.TheVariants.{Low, High};

use crate::numbers::u64_written;
use hex::FromHexError;
use key_orders::{Octets, ScanDirection, Value};
use outside::NoMemory;
use std::alloc::Global;

/// Which of a scan's two bounds a word is.
#[derive(Clone, Copy, Debug, PartialEq, Eq)]
pub enum Side {
    /// The low one: `-`, or `ge:` or `gt:` and values.
    Low,
    /// The high one: `-`, or `le:` or `lt:` and values.
    High,
}

/// The words of a scan, each of which has its form.
#[derive(Clone, Copy)]
pub struct ScanWords<'w> {
    /// The case's file.
    pub case: &'w str,
    /// The index's name.
    pub name: &'w str,
    /// The low bound.
    pub low: &'w str,
    /// The high bound.
    pub high: &'w str,
    /// Which way the scan goes.
    pub direction: ScanDirection,
}

/// The values of a bound, in memory of their own. Without values it is none.
#[derive(Drop)]
pub struct ReadBound {
    /// The values, for the first columns of the key.
    pub values: Vec<Value>,
    /// Whether an entry whose columns equal them is within.
    pub inclusive: bool,
}

// A value as its word tells it.
#[derive(Clone, Copy)]
enum ToldValue<'w> {
    Null,
    Bool(bool),
    Int(i64),
    // Bytes, by their hexadecimal digits.
    Digits(&'w str),
}

// The number below zero whose digits these are, behind its minus.
fn below_zero(digits: &str) -> Option<i64>
    ensures { result ≡ below_zero (number_written (2 ^ 63 + 1) digits.now) }
{
    let number = u64_written(digits)?;
    if number == 0 || number > 1 << 63 {
        return None;
    }
    Some(-1 - (number - 1) as i64)
}

// The number with its sign that a word writes.
#[tactic(auto, unfolding(crate::specs::Bounds::integer_written))]
fn integer_written(word: &str) -> Option<i64>
    ensures { result ≡ integer_written word.now }
{
    if let Some(digits) = word.strip_prefix('-') {
        return below_zero(digits);
    }
    let number = u64_written(word)?;
    if number >= 1 << 63 {
        return None;
    }
    Some(number as i64)
}

// Whether this is a lower-case hexadecimal digit.
fn is_lower_digit(c: u8) -> bool
    ensures { result ≡ is_lower_digit c }
{
    matches!(c, b'0'..=b'9' | b'a'..=b'f')
}

// Whether all of these are.
fn are_lower_digits(digits: &[u8]) -> bool
    ensures { result ≡ list_all is_lower_digit digits.now }
{
    for c in digits {
        if !is_lower_digit(*c) {
            return false;
        }
    }
    true
}

// Whether these are lower-case hexadecimal digits, two for each byte.
fn are_pairs(digits: &[u8]) -> bool
    ensures { result ≡ are_pairs digits.now }
{
    digits.len() % 2 == 0 && are_lower_digits(digits)
}

// The value that a word writes.
#[tactic(auto, unfolding(crate::specs::Bounds::value_written))]
fn value_written(word: &str) -> Option<ToldValue<'_>>
    ensures { option_map value_told result ≡ value_written word.now }
{
    if word == "null" {
        return Some(ToldValue::Null);
    }
    if word == "false" {
        return Some(ToldValue::Bool(false));
    }
    if word == "true" {
        return Some(ToldValue::Bool(true));
    }
    if let Some(number) = integer_written(word) {
        return Some(ToldValue::Int(number));
    }
    let digits = word.strip_prefix('x')?;
    if are_pairs(digits.as_bytes()) {
        Some(ToldValue::Digits(digits))
    } else {
        None
    }
}

// Whether a word writes values, with commas between them.
#[tactic(auto, unfolding(crate::specs::Bounds::are_values))]
fn are_values(word: &str) -> bool
    ensures { result ≡ are_values word.now }
{
    let mut rest = word;
    'parts: while let Some((part, more)) = rest.split_once(',') {
        if value_written(part).is_none() {
            return false;
        }
        rest = more;
    }
    value_written(rest).is_some()
}

// Whether a bound's two letters say that it is inclusive.
#[tactic(auto, unfolding(crate::specs::Bounds::inclusion_of))]
fn inclusion_of(side: Side, name: &str) -> Option<bool>
    ensures { result ≡ inclusion_of side name.now }
{
    let (inclusive, exclusive) = match side {
        Side::Low => ("ge", "gt"),
        Side::High => ("le", "lt"),
    };
    if name == inclusive {
        Some(true)
    } else if name == exclusive {
        Some(false)
    } else {
        None
    }
}

// Whether a bound with values is inclusive, and the word of these.
fn bound_parts(side: Side, word: &str) -> Option<(bool, &str)>
    ensures { option_map parts_shown result ≡ parts_written side word.now }
{
    let (name, values) = word.split_once(':')?;
    let inclusive = inclusion_of(side, name)?;
    if are_values(values) {
        Some((inclusive, values))
    } else {
        None
    }
}

/// Whether a word writes a bound.
#[tactic(auto, unfolding(crate::specs::Bounds::bound_written))]
pub fn is_bound(side: Side, word: &str) -> bool
    ensures { result ≡ is_some (bound_written side word.now) }
{
    if word == "-" {
        return true;
    }
    bound_parts(side, word).is_some()
}

/// The direction that a word names.
#[tactic(auto, unfolding(crate::specs::Bounds::direction_written))]
pub fn direction_written(word: &str) -> Option<ScanDirection>
    ensures { result ≡ direction_written word.now }
{
    if word == "forward" {
        return Some(ScanDirection::Forward);
    }
    if word == "backward" {
        return Some(ScanDirection::Backward);
    }
    None
}

/// The words of a scan: a case and a name, two bounds, a direction. None where one of them hasn't its form.
pub fn scan_words<'w>(
    case: &'w str,
    name: &'w str,
    low: &'w str,
    high: &'w str,
    direction: &str,
) -> Option<ScanWords<'w>>
    ensures { option_map scan_seen result ≡ scan_by case.now name.now (bound_written Low low.now)
        (bound_written High high.now) (direction_written direction.now) }
{
    if case.is_empty() || name.is_empty() {
        return None;
    }
    if !is_bound(Side::Low, low) || !is_bound(Side::High, high) {
        return None;
    }
    let direction = direction_written(direction)?;
    Some(ScanWords {
        case,
        name,
        low,
        high,
        direction,
    })
}

// The bytes of some digits, in memory of their own.
fn octets_of(alloc: Global, digits: &str) -> Result<Octets, NoMemory>
    ensures { IfOk result (λ octets. octets ≡ bytes_or_none (decode_of digits.now)) }
{
    match hex::decode(alloc, digits) {
        Ok(bytes) => Ok(Octets::from_vec(bytes)),
        Err(FromHexError::OutOfMemory) => Err(NoMemory),
        Err(_) => Ok(Octets::new(alloc)),
    }
}

// The value, in memory of its own; null where the word writes none.
fn value_of(alloc: Global, word: &str) -> Result<Value, NoMemory>
    ensures { IfOk result (λ value. value ≡ value_in word.now) }
{
    match value_written(word) {
        None => Ok(Value::Null),
        Some(ToldValue::Null) => Ok(Value::Null),
        Some(ToldValue::Bool(b)) => Ok(Value::Bool(b)),
        Some(ToldValue::Int(n)) => Ok(Value::Int(n)),
        Some(ToldValue::Digits(digits)) => Ok(Value::Bytes(octets_of(alloc, digits)?)),
    }
}

// The values of a word, in memory of their own.
#[tactic(auto, unfolding(crate::specs::Bounds::values_in))]
fn values_of(alloc: Global, word: &str) -> Result<Vec<Value>, NoMemory>
    ensures { IfOk result (λ values. values.items ≡ values_in word.now) }
{
    let mut values = Vec::new(alloc);
    let mut rest = word;
    'parts: while let Some((part, more)) = rest.split_once(',') {
        values.push(value_of(alloc, part)?)?;
        rest = more;
    }
    values.push(value_of(alloc, rest)?)?;
    Ok(values)
}

/// The bound that a word writes, in memory of its own; none where it writes none.
pub fn read_bound(alloc: Global, side: Side, word: &str) -> Result<ReadBound, NoMemory>
    ensures { IfOk result (λ bound. bound_read bound ≡ bound_in side word.now) }
{
    match bound_parts(side, word) {
        None => Ok(ReadBound {
            values: Vec::new(alloc),
            inclusive: true,
        }),
        Some((inclusive, values)) => {
            let values = values_of(alloc, values)?;
            Ok(ReadBound { values, inclusive })
        }
    }
}
