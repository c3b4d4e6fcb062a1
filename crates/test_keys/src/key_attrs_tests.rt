//! Index tuples by hand, with the values that a server reads in them.
ghost use Rattle.std.specs.Prelude.{◌≤◌, All, length};
ghost use Rattle.key_orders.specs.Types.{HasAlignment};
ghost use Rattle.key_attrs.specs.Keyed.{key_types};

use crate::checks::{holds, same};
use key_attrs::{IndexColumns, KeyFault, entry_attributes, key_attributes};
use key_orders::{ColType, KeySpec, MoreSpec, ValueRef};
use std::process::Abort;
use std::test::Fail;

const NUMBER: KeySpec = KeySpec {
    column: 0,
    ctype: ColType::Int4,
    desc: false,
    nulls_first: false,
};

const TEXT: KeySpec = KeySpec {
    column: 0,
    ctype: ColType::Text,
    desc: false,
    nulls_first: false,
};

fn is_number(value: ValueRef<'_>, want: Option<i64>) -> bool {
    match value {
        ValueRef::Null => want.is_none(),
        ValueRef::Int(n) => want == Some(n),
        ValueRef::Bool(_) | ValueRef::Bytes(_) => false,
    }
}

fn is_text(value: ValueRef<'_>, want: &[u8]) -> bool {
    match value {
        ValueRef::Bytes(bytes) => bytes == want,
        ValueRef::Null | ValueRef::Bool(_) | ValueRef::Int(_) => false,
    }
}

fn are_number_and_text(values: &[ValueRef<'_>], number: Option<i64>, text: &[u8]) -> bool {
    match values {
        [first, second] => is_number(*first, number) && is_text(*second, text),
        _ => false,
    }
}

// A number and a text in an index tuple, by its body and its null bits.
type KeyRow = (
    &'static [u8],
    Option<&'static [u8]>,
    Result<(Option<i64>, &'static [u8]), KeyFault>,
);

fn expect_keys(rt: &impl Abort, specs: &[KeySpec], rows: &[KeyRow])
    requires two { 2 ≤ length specs.now }
    requires few { length specs.now ≤ 8 }
    requires aligned { All HasAlignment (key_types specs.now) }
{
    let columns = IndexColumns::new(specs, &[]);
    let mut row = 0u32;
    for (body, nulls, want) in rows {
        row = row.wrapping_add(1);
        let same = match (key_attributes(&columns, body, *nulls, 2), want) {
            (Ok(key), Ok((number, text))) => are_number_and_text(key.as_slice(), *number, text),
            (Err(fault), Err(other)) => fault == *other,
            (Ok(_), Err(_)) | (Err(_), Ok(_)) => false,
        };
        holds(rt, same, row);
    }
}

const NUMBERS_AND_TEXTS: [KeyRow; 8] = [
    (b"\x05\0\0\0\x07hi", None, Ok((Some(5), b"hi"))),
    (b"\x07hi", Some(b"\x02"), Ok((None, b"hi"))),
    // compressed in place
    (
        b"\x05\0\0\0\x26\0\0\0\x09\0\0\0x",
        None,
        Err(KeyFault::Packed { column: 2 }),
    ),
    // elsewhere, by a pointer, by another tag, and by one that passes the end
    (
        b"\x05\0\0\0\x01\x12\xd1\x07\0\0\xcd\x07\0\0\x74\x40\0\0\x10\x40\0\0",
        None,
        Err(KeyFault::External { column: 2 }),
    ),
    (
        b"\x05\0\0\0\x01\x11",
        None,
        Err(KeyFault::External { column: 2 }),
    ),
    (
        b"\x05\0\0\0\x01\x12",
        None,
        Err(KeyFault::PastEnd { column: 2 }),
    ),
    (
        b"\x05\0\0\0\x0c\0\0\0",
        None,
        Err(KeyFault::BadHeader { column: 2 }),
    ),
    (b"\x05\0\0", None, Err(KeyFault::PastEnd { column: 1 })),
];

#[test]
fn keys_of_index_tuples(rt: HostRuntime) {
    expect_keys(&rt, &[NUMBER, TEXT], &NUMBERS_AND_TEXTS);
}

const COMPRESSED: [KeyRow; 2] = [
    (
        b"\x22\0\0\0\0\0\0\0\x22\0\0\0\0\0\0\0",
        None,
        Err(KeyFault::Packed { column: 1 }),
    ),
    (
        b"\x22\0\0\0\0\0\0\0",
        None,
        Err(KeyFault::PastEnd { column: 2 }),
    ),
];

#[test]
fn compressed_columns_come_last(rt: HostRuntime) {
    expect_keys(&rt, &[TEXT, TEXT, NUMBER], &COMPRESSED);
}

const MORE: MoreSpec = MoreSpec {
    column: 1,
    ctype: ColType::Text,
};

#[test]
fn included_columns(rt: HostRuntime) -> Result<(), Fail> {
    let columns = IndexColumns::new(&[NUMBER], &[MORE]);
    let Ok((key, rest)) = entry_attributes(&columns, b"\x05\0\0\0\x07hi", None) else {
        return Err(Fail::from("no values"));
    };
    let both = match (key.as_slice(), rest.as_slice()) {
        ([number], [text]) => is_number(*number, Some(5)) && is_text(*text, b"hi"),
        _ => false,
    };
    holds(&rt, both, 0);
    let Err(fault) = entry_attributes(&columns, b"\x05\0\0\0", None) else {
        return Err(Fail::from("no fault"));
    };
    same(&rt, &fault, &KeyFault::PastEnd { column: 2 }, 1);
    Ok(())
}
