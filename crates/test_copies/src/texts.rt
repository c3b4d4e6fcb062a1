//! Texts that are read back as rows, and lines that are refused.
use case_file::Column;
use copy_out::{CopyRows, LineFault, read_copy, refusals_are_right, texts_tell_rows};
use heap_rows::Cell;
use key_orders::{ColType, Value};
use outside::NoMemory;
use std::alloc::Global;
use std::test::Fail;

// A column without a missing value.
fn column(ctype: ColType) -> Column {
    Column {
        ctype,
        missing: Value::Null,
    }
}

// Whether these are one row: this text, and a null.
fn are_text_and_null(rows: &CopyRows, text: &[u8]) -> bool {
    if rows.len() != 1 {
        return false;
    }
    match rows.row(0).as_slice() {
        [Cell::Held(Value::Bytes(bytes)), Cell::Held(Value::Null)] => bytes.as_slice() == text,
        _ => false,
    }
}

#[test]
fn rows_are_read(rt: HostRuntime) -> Result<(), Fail> {
    let alloc = rt.alloc();
    texts_tell_rows();
    refusals_are_right();
    let two = [column(ColType::Text), column(ColType::Text)];
    let rows = read_copy(alloc, &two, b"a\\t\\\\\t\\N\n")?;
    assert!(rt; are_text_and_null(&rows, b"a\t\\"));
    let none = read_copy(alloc, &two, b"")?;
    assert_eq!(rt; none.len(), 0);
    Ok(())
}

// The line at which a text of one column is refused, 0 where it isn't.
fn refused(alloc: Global, ctype: ColType, text: &[u8]) -> Result<u64, NoMemory> {
    match read_copy(alloc, &[column(ctype)], text) {
        Ok(_) => Ok(0),
        Err(LineFault::Refused { line }) => Ok(line),
        Err(LineFault::NoMemory) => Err(NoMemory),
    }
}

const FIXED: ColType = ColType::Fixed { len: 2, align: 1 };

// The type of a column, a text, and the line at which it is refused, 0 where it isn't.
const TEXTS: [(ColType, &[u8], u64); 27] = [
    (ColType::Text, b"a\tb\n", 1),
    (ColType::Text, b"a\n\nb\n", 0),
    (ColType::Text, b"a\nb", 2),
    (ColType::Text, b"a\n\\q\nb", 2),
    (ColType::Text, b"\\\n", 1),
    (ColType::Text, b"\x08\n", 1),
    (ColType::Text, b"\\.\n", 1),
    (ColType::Text, b"\\N\n\\#\n\\\\N\n", 0),
    (ColType::Int2, b"1\n2\n32768\n", 3),
    (ColType::Int4, b"01\n", 1),
    (ColType::Int4, b"-0\n", 1),
    (ColType::Int4, b"+5\n", 1),
    (ColType::Int4, b"\n", 1),
    (ColType::Int4, b"\\#\n", 1),
    (ColType::Int4, b"\\N\n", 0),
    (
        ColType::Int8,
        b"-9223372036854775808\n9223372036854775808\n",
        2,
    ),
    (ColType::Oid, b"-1\n", 1),
    (ColType::Oid, b"4294967295\n", 0),
    (ColType::Date, b"-1\n", 0),
    (ColType::Bool, b"t\nf\ntrue\n", 3),
    (ColType::Bytea, b"\\\\x0\n", 1),
    (ColType::Bytea, b"\\\\xAB\n", 1),
    (ColType::Bytea, b"\\x00\n", 1),
    (ColType::Bytea, b"\\\\x\n", 0),
    (FIXED, b"\\\\x0001\n\\\\x00\n", 2),
    (ColType::Uuid, b"0011-22334455-6677-8899-aabbccddeeff\n", 1),
    (ColType::Uuid, b"00112233-4455-6677-8899-aabbccddeeff\n", 0),
];

#[test]
fn other_texts_are_refused(rt: HostRuntime) -> Result<(), Fail> {
    for (ctype, text, line) in TEXTS {
        assert_eq!(rt; refused(rt.alloc(), ctype, text)?, line);
    }
    Ok(())
}
