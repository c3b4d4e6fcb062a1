//! Texts that are changed by chance, read back, and judged by a reader of its own.
use case_file::Column;
use copy_out::{LineFault, read_copy};
use key_orders::{ColType, Value};
use outside::NoMemory;
use std::alloc::Global;
use std::process::Abort;
use std::test::Fail;

// Rows of a bool, an int2, a text, a bytea and a uuid.
const ROWS: &[u8] = b"t\t0\t\t\\\\x\t00112233-4455-6677-8899-aabbccddeeff\n\
f\t-32768\ta\\t\\\\\t\\\\x00ff\t\\N\n\\N\t32767\t\\N\t\\N\tffffffff-ffff-ffff-ffff-ffffffffffff\n\
t\t-1\t\\#\t\\#\t\\N\nf\t10\t\\b\\n\\v\\f\\rxyz\t\\\\x0a0b\t\\N\n";

// Bytes that stand in such rows, or nearly do.
const LIKELY: &[u8] = b"\t\n\\N#tf0123-xabvnrg \x08\x0b\xff";

// The next number by chance.
fn next(chance: u64) -> u64 {
    chance
        .wrapping_mul(6364136223846793005)
        .wrapping_add(1442695040888963407)
}

// A byte by chance, mostly one of those.
fn byte_by(chance: u64) -> u8 {
    let number = (chance >> 33) as usize;
    if number % 4 == 0 {
        return (number / 4 % 256) as u8;
    }
    LIKELY[number / 4 % LIKELY.len()]
}

fn is_digit(b: u8) -> bool {
    b'0' <= b && b <= b'9'
}

fn is_hex(b: u8) -> bool {
    is_digit(b) || (b'a' <= b && b <= b'f')
}

fn are_digits(bytes: &[u8]) -> bool {
    for b in bytes {
        if !is_digit(*b) {
            return false;
        }
    }
    true
}

fn are_hex(bytes: &[u8]) -> bool {
    for b in bytes {
        if !is_hex(*b) {
            return false;
        }
    }
    true
}

// A number of at most 16 bits without a sign, with at most five digits of which the first isn't 0.
fn is_size(digits: &[u8], most: u32) -> bool {
    let mut number = 0u32;
    for b in digits {
        number = number.wrapping_mul(10).wrapping_add(u32::from(*b) % 48);
    }
    match digits {
        [b'0'] => true,
        [b'0', ..] | [] => false,
        _ => digits.len() <= 5 && are_digits(digits) && number <= most,
    }
}

fn is_int2(field: &[u8]) -> bool {
    match field {
        [b'-', b'0', ..] => false,
        [b'-', digits @ ..] => is_size(digits, 32768),
        _ => is_size(field, 32767),
    }
}

fn is_text(field: &[u8]) -> bool {
    let mut behind = false;
    for b in field {
        if behind {
            if !b"\\btnvfr".contains(b) {
                return false;
            }
            behind = false;
        } else if *b == b'\\' {
            behind = true;
        } else if 8 <= *b && *b <= 13 {
            return false;
        }
    }
    !behind
}

fn is_bytea(field: &[u8]) -> bool {
    match field {
        [b'\\', b'\\', b'x', digits @ ..] => digits.len() % 2 == 0 && are_hex(digits),
        _ => false,
    }
}

fn is_uuid(field: &[u8]) -> bool {
    for (i, b) in field.iter().enumerate() {
        let hyphen = i == 8 || i == 13 || i == 18 || i == 23;
        if hyphen != (*b == b'-') || (!hyphen && !is_hex(*b)) {
            return false;
        }
    }
    field.len() == 36
}

// Whether this is a field of the column with this number.
fn is_field(column: u32, field: &[u8]) -> bool {
    if field == b"\\N".as_slice() {
        return true;
    }
    if field == b"\\#".as_slice() {
        return column == 2 || column == 3;
    }
    match column {
        0 => matches!(field, [b't' | b'f']),
        1 => is_int2(field),
        2 => is_text(field),
        3 => is_bytea(field),
        4 => is_uuid(field),
        _ => false,
    }
}

// Whether this is a row, without its line feed.
fn is_row(line: &[u8]) -> bool {
    let mut column = 0u32;
    let mut begin = 0usize;
    for (i, b) in line.iter().enumerate() {
        if *b == b'\t' {
            if !is_field(column, &line[begin.min(i)..i]) {
                return false;
            }
            column = column.saturating_add(1);
            begin = i + 1;
        }
    }
    column == 4 && is_field(column, &line[begin.min(line.len())..])
}

// The first line that is no row, counted from 1; 0 where there is none.
fn first_wrong(text: &[u8]) -> u64 {
    let mut number = 0u64;
    let mut begin = 0usize;
    for (i, b) in text.iter().enumerate() {
        if *b == b'\n' {
            number = number.saturating_add(1);
            if !is_row(&text[begin.min(i)..i]) {
                return number;
            }
            begin = i + 1;
        }
    }
    if begin < text.len() {
        return number.saturating_add(1);
    }
    0
}

// The line at which a text is refused, 0 where it isn't.
fn refused(alloc: Global, columns: &[Column], text: &[u8]) -> Result<u64, NoMemory> {
    match read_copy(alloc, columns, text) {
        Ok(_) => Ok(0),
        Err(LineFault::Refused { line }) => Ok(line),
        Err(LineFault::NoMemory) => Err(NoMemory),
    }
}

// The columns of the rows.
fn columns(alloc: Global) -> Result<Vec<Column>, NoMemory> {
    let mut columns = Vec::new(alloc);
    for ctype in [
        ColType::Bool,
        ColType::Int2,
        ColType::Text,
        ColType::Bytea,
        ColType::Uuid,
    ] {
        let missing = Value::Null;
        columns.push(Column { ctype, missing })?;
    }
    Ok(columns)
}

// The rows with a byte changed, put in or taken out.
fn changed(alloc: Global, chance: u64) -> Result<Vec<u8>, NoMemory> {
    let mut text = Vec::from_slice(alloc, ROWS)?;
    let at = (chance >> 40) as usize % ROWS.len();
    let byte = byte_by(next(chance));
    match chance >> 33 & 3 {
        0 => {
            text.remove(at);
        }
        1 => text.insert(at, byte)?,
        _ => text[at] = byte,
    }
    Ok(text)
}

// Compares the line at which a text is refused with what the reader of this file says.
fn expect_same(
    rt: &impl Abort,
    alloc: Global,
    columns: &[Column],
    text: &[u8],
) -> Result<(), Fail> {
    assert_eq!(rt; refused(alloc, columns, text)?, first_wrong(text));
    Ok(())
}

#[test]
fn changed_rows_are_read_or_refused(rt: HostRuntime) -> Result<(), Fail> {
    let alloc = rt.alloc();
    let columns = columns(alloc)?;
    assert_eq!(rt; refused(alloc, &columns, ROWS)?, 0);
    let mut chance = 7u64;
    for _ in 0..4000 {
        chance = next(chance);
        let text = changed(alloc, chance)?;
        expect_same(&rt, alloc, &columns, &text)?;
    }
    Ok(())
}

// A few bytes by chance, a new line for each length.
#[test]
fn bytes_by_chance_are_read_or_refused(rt: HostRuntime) -> Result<(), Fail> {
    let alloc = rt.alloc();
    let columns = columns(alloc)?;
    let mut chance = 11u64;
    let mut text = Vec::new(alloc);
    for n in 0..4000u32 {
        chance = next(chance);
        text.push(byte_by(chance))?;
        expect_same(&rt, alloc, &columns, &text)?;
        if n % 40 == 39 {
            text.clear();
        }
    }
    Ok(())
}
