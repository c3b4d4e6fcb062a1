//! Tables of values, keys and separators, with what PostgreSQL makes of them.
use crate::checks::{holds, same};
use key_orders::{
    BoolOrder, BytesOrder, ColType, IntOrder, KeyOrder, KeySpec, MoreRefs, NullPlace, Octets,
    Reversed, Value, ValueRef, fits_type, key_prefix, value_of,
};
use std::cmp::Ordering::{self, Equal, Greater, Less};
use std::process::Abort;
use std::test::Fail;

pub const NULL: ValueRef<'static> = ValueRef::Null;

pub const NO: ValueRef<'static> = ValueRef::Bool(false);

pub const YES: ValueRef<'static> = ValueRef::Bool(true);

pub const A: ValueRef<'static> = ValueRef::Bytes(b"a");

pub const AB: ValueRef<'static> = ValueRef::Bytes(b"ab");

const HIGH_BYTE: ValueRef<'static> = ValueRef::Bytes(b"\x80");

use ValueRef::{Bytes, Int};

/// A column of a key.
pub fn column(ctype: ColType, desc: bool, nulls_first: bool) -> KeySpec {
    KeySpec {
        column: 0,
        ctype,
        desc,
        nulls_first,
    }
}

// By the bound alone; None where a value doesn't fit.
fn compared<O: KeyOrder>(order: &O, a: ValueRef<'_>, b: ValueRef<'_>) -> Option<Ordering> {
    if order.fits(a) && order.fits(b) {
        Some(order.compare(a, b))
    } else {
        None
    }
}

// Two values and how they compare.
type Pair = (ValueRef<'static>, ValueRef<'static>, Option<Ordering>);

fn expect_order<O: KeyOrder>(rt: &impl Abort, order: &O, pairs: &[Pair]) {
    let mut row = 0u32;
    for (a, b, want) in pairs {
        row = row.wrapping_add(1);
        same(rt, &compared(order, *a, *b), want, row);
    }
}

const BOOLS: [Pair; 3] = [
    (NO, YES, Some(Less)),
    (YES, YES, Some(Equal)),
    (NO, Int(1), None),
];

const INTS: [Pair; 3] = [
    (Int(-1), Int(1), Some(Less)),
    (Int(i64::MAX), Int(i64::MIN), Some(Greater)),
    (Int(1), NULL, None),
];

const TEXTS: [Pair; 4] = [
    (A, AB, Some(Less)),
    (HIGH_BYTE, AB, Some(Greater)),
    (AB, AB, Some(Equal)),
    (AB, YES, None),
];

#[test]
fn orders_of_a_type(rt: HostRuntime) {
    expect_order(&rt, &BoolOrder, &BOOLS);
    expect_order(&rt, &IntOrder, &INTS);
    expect_order(&rt, &BytesOrder, &TEXTS);
}

const FALLING: [Pair; 2] = [(Int(1), Int(2), Some(Greater)), (NULL, Int(2), None)];

// Values that rise with nulls first, and with nulls last.
const RISES_FIRST: [Pair; 2] = [(Int(1), Int(2), Some(Less)), (NULL, Int(2), Some(Less))];

const RISES_LAST: [Pair; 2] = [(Int(1), Int(2), Some(Less)), (NULL, Int(2), Some(Greater))];

// Values that fall.
const FALLS_FIRST: [Pair; 5] = [
    (Int(1), Int(2), Some(Greater)),
    (NULL, Int(2), Some(Less)),
    (Int(1), NULL, Some(Greater)),
    (NULL, NULL, Some(Equal)),
    (NULL, A, None),
];

const FALLS_LAST: [Pair; 5] = [
    (Int(1), Int(2), Some(Greater)),
    (NULL, Int(2), Some(Greater)),
    (Int(1), NULL, Some(Less)),
    (NULL, NULL, Some(Equal)),
    (NULL, A, None),
];

// Tries the order of integers with nulls at one place, rising and falling.
fn expect_nulls(rt: &impl Abort, first: bool, rising: &[Pair], falling: &[Pair]) {
    let rises = NullPlace {
        first,
        inner: IntOrder,
    };
    expect_order(rt, &rises, rising);
    let falls = NullPlace {
        first,
        inner: Reversed { inner: IntOrder },
    };
    expect_order(rt, &falls, falling);
}

#[test]
fn direction_and_place_of_nulls(rt: HostRuntime) {
    expect_order(&rt, &Reversed { inner: IntOrder }, &FALLING);
    expect_nulls(&rt, true, &RISES_FIRST, &FALLS_FIRST);
    expect_nulls(&rt, false, &RISES_LAST, &FALLS_LAST);
}

// Each is below the next.
const AROUND_EIGHT: [&[u8]; 17] = [
    b"",
    b"\0",
    b"\0\0",
    b"\0\0\0\0\0\0\0",
    b"\0\0\0\0\0\0\0\0",
    b"\0\0\0\0\0\0\0\0\0",
    b"\0\0\0\0\0\0\0\x01",
    b"\x01",
    b"abc",
    b"abcd",
    b"abcdef\0",
    b"abcdefgh",
    b"abcdefgh0",
    b"abcdefgh01",
    b"abcdefgh1",
    b"abcde\xff",
    b"\xff",
];

#[test]
fn bytes_around_eight(rt: HostRuntime) {
    let mut i = 0u32;
    for a in AROUND_EIGHT {
        i = i.wrapping_add(1);
        let mut j = 0u32;
        for b in AROUND_EIGHT {
            j = j.wrapping_add(1);
            let found = compared(&BytesOrder, Bytes(a), Bytes(b));
            same(&rt, &found, &Some(i.cmp(&j)), i);
        }
    }
}

// Values and the numbers that they begin with.
const PREFIXES: [(ColType, ValueRef<'static>, u64); 18] = [
    (ColType::Bool, NO, 0),
    (ColType::Bool, YES, 1),
    (ColType::Int8, Int(i64::MIN), 0),
    (ColType::Int8, Int(-1), 0x7fff_ffff_ffff_ffff),
    (ColType::Int4, Int(0), 0x8000_0000_0000_0000),
    (ColType::Oid, Int(258), 0x8000_0000_0000_0102),
    (ColType::Timestamp, Int(i64::MAX), u64::MAX),
    (ColType::Text, Bytes(b""), 0),
    (ColType::Text, A, 0x6100_0000_0000_0000),
    (ColType::Text, AB, 0x6162_0000_0000_0000),
    (ColType::Text, Bytes(b"abc"), 0x6162_6300_0000_0000),
    (ColType::Text, Bytes(b"abcd"), 0x6162_6364_0000_0000),
    (ColType::Text, Bytes(b"abcde"), 0x6162_6364_6500_0000),
    (ColType::Text, Bytes(b"abcdef"), 0x6162_6364_6566_0000),
    (ColType::Text, Bytes(b"abcdefg"), 0x6162_6364_6566_6700),
    (ColType::Bytea, Bytes(b"abcdefgh"), 0x6162_6364_6566_6768),
    (ColType::Bytea, Bytes(b"abcdefghi"), 0x6162_6364_6566_6768),
    (ColType::Bytea, HIGH_BYTE, 0x8000_0000_0000_0000),
];

fn expect_prefix(
    rt: &impl Abort,
    ctype: ColType,
    value: ValueRef<'_>,
    nulls_first: bool,
    want: u64,
) {
    let rises = column(ctype, false, nulls_first);
    let falls = column(ctype, true, nulls_first);
    holds(rt, key_prefix(&[rises], &[value]) == want, 0);
    holds(rt, key_prefix(&[falls, rises], &[value, NULL]) == !want, 1);
}

fn expect_null_prefix(rt: &impl Abort, desc: bool) {
    let first = column(ColType::Text, desc, true);
    let last = column(ColType::Text, desc, false);
    holds(rt, key_prefix(&[first], &[NULL]) == 0, 2);
    holds(rt, key_prefix(&[last], &[NULL]) == u64::MAX, 3);
    holds(rt, key_prefix(&[last], &[]) == 0, 4);
}

#[test]
fn prefixes_of_values(rt: HostRuntime) {
    for (ctype, value, number) in PREFIXES {
        expect_prefix(&rt, ctype, value, false, number);
        expect_prefix(&rt, ctype, value, true, number);
    }
    expect_null_prefix(&rt, false);
    expect_null_prefix(&rt, true);
    holds(&rt, key_prefix(&[], &[]) == 0, 5);
}

// Values, and whether they fit a column.
const FITS: [(ColType, ValueRef<'static>, bool); 26] = [
    (ColType::Bool, YES, true),
    (ColType::Bool, Int(1), false),
    (ColType::Int2, Int(-32768), true),
    (ColType::Int2, Int(32768), false),
    (ColType::Int4, Int(2147483647), true),
    (ColType::Int4, Int(-2147483649), false),
    (ColType::Int8, Int(i64::MIN), true),
    (ColType::Int8, A, false),
    (ColType::Uuid, Bytes(b"0123456789abcdef"), true),
    (ColType::Uuid, A, false),
    (ColType::Uuid, NULL, true),
    (ColType::Text, A, true),
    (ColType::Text, YES, false),
    (ColType::Bytea, HIGH_BYTE, true),
    (ColType::Bytea, Int(1), false),
    (ColType::Oid, Int(4294967295), true),
    (ColType::Oid, Int(4294967296), false),
    (ColType::Oid, Int(-1), false),
    (ColType::Date, Int(-2147483648), true),
    (ColType::Date, Int(2147483648), false),
    (ColType::Timestamp, Int(i64::MIN), true),
    (ColType::Timestamp, A, false),
    (ColType::Timestamptz, Int(i64::MAX), true),
    (ColType::Fixed { len: 1, align: 1 }, A, true),
    (ColType::Fixed { len: 1, align: 1 }, AB, false),
    (ColType::Varlena { align: 8 }, AB, true),
];

#[test]
fn values_fit_their_columns(rt: HostRuntime) {
    let mut row = 0u32;
    for (ctype, value, fits) in FITS {
        row = row.wrapping_add(1);
        holds(&rt, fits_type(ctype, value) == fits, row);
    }
}

// The length and the alignment of a type, and whether it may be one of a key's.
const STORED: [(ColType, Option<u16>, u8, bool); 13] = [
    (ColType::Bool, Some(1), 1, true),
    (ColType::Int2, Some(2), 2, true),
    (ColType::Int4, Some(4), 4, true),
    (ColType::Int8, Some(8), 8, true),
    (ColType::Uuid, Some(16), 1, true),
    (ColType::Text, None, 4, true),
    (ColType::Bytea, None, 4, true),
    (ColType::Oid, Some(4), 4, true),
    (ColType::Date, Some(4), 4, true),
    (ColType::Timestamp, Some(8), 8, true),
    (ColType::Timestamptz, Some(8), 8, true),
    (ColType::Fixed { len: 6, align: 2 }, Some(6), 2, false),
    (ColType::Varlena { align: 8 }, None, 8, false),
];

#[test]
fn types_are_stored_so(rt: HostRuntime) {
    let mut row = 0u32;
    for (ctype, len, alignment, may_be_key) in STORED {
        row = row.wrapping_add(1);
        let found = (ctype.fixed_length(), ctype.alignment(), ctype.may_be_key());
        same(&rt, &found, &(len, alignment, may_be_key), row);
    }
}

// A value's number, where it is one.
fn number_of(value: ValueRef<'_>) -> Option<i64> {
    match value {
        Int(n) => Some(n),
        ValueRef::Bool(flag) => Some(flag.into()),
        ValueRef::Null | Bytes(_) => None,
    }
}

// The number that some bytes are in a column of a type, where they have its length.
fn number_in(ctype: ColType, bytes: &[u8]) -> Option<i64> {
    match ctype.fixed_length() {
        Some(len) if len as usize == bytes.len() => number_of(value_of(ctype, bytes)),
        _ => None,
    }
}

// Bytes of a column, and the number that they are.
const NUMBERS: [(ColType, &[u8], i64); 9] = [
    (ColType::Bool, b"\x02", 1),
    (ColType::Bool, b"\0", 0),
    (ColType::Int2, b"\xfe\xff", -2),
    (ColType::Int4, b"\0\0\0\x80", -2147483648),
    (ColType::Date, b"\0\0\0\x80", -2147483648),
    (ColType::Oid, b"\0\0\0\x80", 2147483648),
    (ColType::Int8, b"\x01\0\0\0\x01\0\0\0", 4294967297),
    (ColType::Timestamp, b"\x01\0\0\0\x01\0\0\0", 4294967297),
    (ColType::Timestamptz, b"\x01\0\0\0\x01\0\0\0", 4294967297),
];

#[test]
fn bytes_are_values(rt: HostRuntime) {
    let mut row = 0u32;
    for (ctype, bytes, want) in NUMBERS {
        row = row.wrapping_add(1);
        same(&rt, &number_in(ctype, bytes), &Some(want), row);
    }
    holds(
        &rt,
        matches!(value_of(ColType::Bool, b"\x02"), ValueRef::Bool(true)),
        9,
    );
    holds(
        &rt,
        matches!(value_of(ColType::Text, b"hi"), Bytes(b"hi")),
        10,
    );
}

#[test]
fn included_values(rt: HostRuntime) {
    let mut more = MoreRefs::new();
    holds(&rt, more.as_slice().is_empty(), 0);
    more.push(NULL);
    more.push(A);
    holds(
        &rt,
        matches!(more.as_slice(), [ValueRef::Null, Bytes(b"a")]),
        1,
    );
}

#[test]
fn octets_are_put_together(rt: HostRuntime) -> Result<(), Fail> {
    let mut text = Octets::new(rt.alloc());
    text.push_slice(b"item ")?;
    text.push_decimal(4294967295)?;
    holds(&rt, text.as_slice() == b"item 4294967295".as_slice(), 0);
    let bytes = Octets::from_vec(b"ab".as_slice().to_vec(rt.alloc())?);
    holds(&rt, bytes.as_slice() == b"ab".as_slice(), 1);
    Ok(())
}

#[test]
fn octets_are_lent(rt: HostRuntime) -> Result<(), Fail> {
    let octets = Octets::from_slice(rt.alloc(), b"ab")?;
    holds(&rt, octets.as_slice() == b"ab".as_slice(), 0);
    let lent = Value::Bytes(octets);
    same(
        &rt,
        &compared(&BytesOrder, lent.as_ref(), AB),
        &Some(Equal),
        1,
    );
    Ok(())
}
