//! Bodies of rows by hand, with the attributes that a server reads in them.
ghost use Rattle.std.specs.Prelude.{All};
ghost use Rattle.key_orders.specs.Types.{HasAlignment};

use crate::checks::{holds, same};
use key_orders::{ColType, ValueRef, value_of};
use std::alloc::Global;
use std::process::Abort;
use std::test::Fail;
use varlena_attrs::AttrFault::{BadHeader, BadTag, PastEnd};
use varlena_attrs::AttrPlace::{External, Missing, Null, Packed, Plain};
use varlena_attrs::{
    Attr, AttrBuffer, AttrFault, AttrPlace, ColumnLayout, ToastPointer, TupleColumns, attributes,
    pointer_at,
};

// A body of two columns, and their attributes or the reason why there are none.
type Row<'a> = (&'a [u8], Result<[AttrPlace; 2], AttrFault>);

// Whether what was read of a tuple is as wanted.
fn is_so(
    outcome: Result<(), AttrFault>,
    places: &[AttrPlace],
    want: Result<&[AttrPlace], AttrFault>,
) -> bool {
    match want {
        Ok(wanted) => outcome.is_ok() && places == wanted,
        Err(fault) => outcome == Err(fault) && places.is_empty(),
    }
}

// Tuples that store two columns have these attributes.
fn tries(rt: &impl Abort, alloc: Global, columns: &[ColType], rows: &[Row<'_>])
    requires { All HasAlignment columns.now }
{
    let mut buffer = AttrBuffer::new(alloc);
    let mut row = 0u32;
    for (body, want) in rows {
        row = row.wrapping_add(1);
        let outcome = buffer.read(columns, body, None, 2);
        let same = match want {
            Ok(places) => is_so(outcome, buffer.as_slice(), Ok(places)),
            Err(fault) => is_so(outcome, buffer.as_slice(), Err(*fault)),
        };
        holds(rt, same, row);
    }
}

// Row bodies as a server writes them: `true, 'hi'` in both forms, a value that is cut off, and one with an unknown tag.
const BOOL_AND_TEXT: [Row<'static>; 4] = [
    (
        b"\x01\x07hi",
        Ok([Plain { start: 0, len: 1 }, Plain { start: 2, len: 2 }]),
    ),
    (
        b"\x01\0\0\0\x18\0\0\0hi",
        Ok([Plain { start: 0, len: 1 }, Plain { start: 8, len: 2 }]),
    ),
    (b"\x01\0\0\0\x18\0\0\0h", Err(PastEnd { column: 2 })),
    (b"\x01\x01\x07", Err(BadTag { column: 2 })),
];

#[test]
fn rows_of_bool_and_text(rt: HostRuntime) {
    tries(
        &rt,
        rt.alloc(),
        &[ColType::Bool, ColType::Text],
        &BOOL_AND_TEXT,
    );
}

const FORMS: [Row<'static>; 12] = [
    // Values of no bytes. A long header isn't aligned where its first byte isn't 0.
    (
        b"\x03\x03",
        Ok([Plain { start: 1, len: 0 }, Plain { start: 2, len: 0 }]),
    ),
    (
        b"\x03\0\0\0\x10\0\0\0",
        Ok([Plain { start: 1, len: 0 }, Plain { start: 8, len: 0 }]),
    ),
    (
        b"\x03\x14\0\0\0a",
        Ok([Plain { start: 1, len: 0 }, Plain { start: 5, len: 1 }]),
    ),
    // A value compressed in place, of the least length, and of one less.
    (
        b"\x05a\0\0\x22\0\0\0\x05\0\0\0",
        Ok([Plain { start: 1, len: 1 }, Packed { start: 4, len: 8 }]),
    ),
    (
        b"\x05a\0\0\x1e\0\0\0\x05\0\0\0",
        Err(BadHeader { column: 2 }),
    ),
    (b"\x05a\0\0\x22\0\0\0\x05\0\0", Err(PastEnd { column: 2 })),
    // Nothing left, a header or a content cut off, a low length, also before a content cut off.
    (b"", Err(PastEnd { column: 1 })),
    (b"\x03", Err(PastEnd { column: 2 })),
    (b"\x03\0\0\0\x10\0\0", Err(PastEnd { column: 2 })),
    (b"\x03\x05", Err(PastEnd { column: 2 })),
    (b"\x0c\0\0\0\0", Err(BadHeader { column: 1 })),
    (b"\x03\x0e\0\0\0", Err(BadHeader { column: 2 })),
];

#[test]
fn varlena_forms(rt: HostRuntime) {
    // The length of a long header in all four bytes, and a short value at its end.
    let mut long = [0u8; 72];
    long[1] = 1;
    long[64] = 0x11;
    let want = [Plain { start: 4, len: 60 }, Plain { start: 65, len: 7 }];
    let columns = [ColType::Text, ColType::Bytea];
    tries(&rt, rt.alloc(), &columns, &[(&long, Ok(want))]);
    tries(&rt, rt.alloc(), &columns, &FORMS);
}

// 16 bytes of a UUID, and a pointer.
const POINTED: [u8; 34] = *b"\xff\xff\xff\xff\xff\xff\xff\xff\xff\xff\xff\xff\xff\xff\xff\xff\
    \x01\x12\xd1\x07\0\0\xcd\x07\0\0\x74\x40\0\0\x10\x40\0\0";

// The same with a negative size, and with another tag.
const NEGATIVE: [u8; 34] = *b"\xff\xff\xff\xff\xff\xff\xff\xff\xff\xff\xff\xff\xff\xff\xff\xff\
    \x01\x12\xd1\x07\0\x80\xcd\x07\0\0\x74\x40\0\0\x10\x40\0\0";

const TAGGED: [u8; 34] = *b"\xff\xff\xff\xff\xff\xff\xff\xff\xff\xff\xff\xff\xff\xff\xff\xff\
    \x01\x13\xd1\x07\0\0\xcd\x07\0\0\x74\x40\0\0\x10\x40\0\0";

const POINTER: ToastPointer = ToastPointer {
    raw_size: 2001,
    ext_info: 1997,
    value_id: 16500,
    relation: 16400,
};

const BELOW: ToastPointer = ToastPointer {
    raw_size: -2147481647,
    ..POINTER
};

const EXTERNAL: [AttrPlace; 2] = [Plain { start: 0, len: 16 }, External { start: 18 }];

// A pointer at the tuple's very end, one that is cut off in its content and in its tag, one with a negative size, and
// one with another tag, which is named before a content that is cut off.
#[test]
fn toast_pointers(rt: HostRuntime) {
    let rows = [
        (POINTED.as_slice(), Ok(EXTERNAL)),
        (&POINTED[..33], Err(PastEnd { column: 2 })),
        (&POINTED[..17], Err(PastEnd { column: 2 })),
        (NEGATIVE.as_slice(), Ok(EXTERNAL)),
        (&TAGGED[..18], Err(BadTag { column: 2 })),
    ];
    let columns = [ColType::Uuid, ColType::Varlena { align: 8 }];
    tries(&rt, rt.alloc(), &columns, &rows);
    same(&rt, &pointer_at(&POINTED, 18), &POINTER, 5);
    same(&rt, &pointer_at(&NEGATIVE, 18), &BELOW, 6);
}

// A body, its null bits, how many columns it stores, and their attributes.
type Stored = (
    &'static [u8],
    Option<&'static [u8]>,
    u16,
    Result<&'static [AttrPlace], AttrFault>,
);

// Tuples have these attributes.
fn reads(rt: &impl Abort, alloc: Global, columns: &[ColType], rows: &[Stored])
    requires { All HasAlignment columns.now }
{
    let mut buffer = AttrBuffer::new(alloc);
    let mut row = 0u32;
    for (body, nulls, natts, want) in rows {
        row = row.wrapping_add(1);
        let outcome = buffer.read(columns, body, *nulls, *natts);
        holds(rt, is_so(outcome, buffer.as_slice(), *want), row);
    }
}

// Each fixed length at its alignment, and a last column that is cut off.
const FIXED_COLUMNS: [ColType; 9] = [
    ColType::Fixed { len: 3, align: 1 },
    ColType::Int2,
    ColType::Int4,
    ColType::Int8,
    ColType::Bool,
    ColType::Uuid,
    ColType::Fixed { len: 6, align: 2 },
    ColType::Fixed { len: 5, align: 4 },
    ColType::Fixed { len: 8, align: 8 },
];

const FIXED: [Stored; 3] = [
    (
        &[7; 64],
        None,
        9,
        Ok(&[
            Plain { start: 0, len: 3 },
            Plain { start: 4, len: 2 },
            Plain { start: 8, len: 4 },
            Plain { start: 16, len: 8 },
            Plain { start: 24, len: 1 },
            Plain { start: 25, len: 16 },
            Plain { start: 42, len: 6 },
            Plain { start: 48, len: 5 },
            Plain { start: 56, len: 8 },
        ]),
    ),
    (&[7; 63], None, 9, Err(PastEnd { column: 9 })),
    (&[7; 55], None, 9, Err(PastEnd { column: 9 })),
];

#[test]
fn fixed_lengths(rt: HostRuntime) {
    reads(&rt, rt.alloc(), &FIXED_COLUMNS, &FIXED);
}

const NULLS: [Stored; 4] = [
    (
        b"abcdefgh",
        Some(b"\x05"),
        3,
        Ok(&[Plain { start: 0, len: 4 }, Null, Plain { start: 4, len: 4 }]),
    ),
    (b"", Some(b"\xfc"), 2, Ok(&[Null, Null, Missing])),
    (
        b"abcd",
        None,
        1,
        Ok(&[Plain { start: 0, len: 4 }, Missing, Missing]),
    ),
    (b"", None, 0, Ok(&[Missing, Missing, Missing])),
];

const NUMBER_TEXT_NUMBER: [ColType; 3] = [ColType::Int4, ColType::Text, ColType::Int4];

#[test]
fn nulls_and_missing_columns(rt: HostRuntime) {
    reads(&rt, rt.alloc(), &NUMBER_TEXT_NUMBER, &NULLS);
}

// The ninth null bit stands in the second byte.
const NINE: [Stored; 1] = [(
    b"abcdefgh",
    Some(b"\x7f\xfe"),
    9,
    Ok(&[
        Plain { start: 0, len: 1 },
        Plain { start: 1, len: 1 },
        Plain { start: 2, len: 1 },
        Plain { start: 3, len: 1 },
        Plain { start: 4, len: 1 },
        Plain { start: 5, len: 1 },
        Plain { start: 6, len: 1 },
        Null,
        Null,
    ]),
)];

#[test]
fn nine_columns(rt: HostRuntime) {
    reads(&rt, rt.alloc(), &[ColType::Bool; 9], &NINE);
}

// Tests whether the values of some tuples are stored in line.
fn expect_inline(rt: &impl Abort, columns: &[ColType], rows: &[(u16, Option<u8>, &[u8], bool)])
    requires { All HasAlignment columns.now }
{
    let layout = ColumnLayout::new(columns);
    holds(rt, layout.as_slice().len() == columns.len(), 99);
    let mut row = 0u32;
    for (natts, nulls, body, want) in rows {
        row = row.wrapping_add(1);
        let inline = match nulls {
            Some(bits) => layout.are_inline(body, Some(&[*bits]), *natts),
            None => layout.are_inline(body, None, *natts),
        };
        holds(rt, inline == *want, row);
    }
}

const IN_LINE: [(u16, Option<u8>, &[u8], bool); 9] = [
    (3, None, b"abcd\x07hi\0abcd", true),
    (3, None, b"abcd\x07hi\0abc", false),
    (
        3,
        None,
        b"abcd\x01\x12\xd1\x07\0\0\xcd\x07\0\0\x74\x40\0\0\x10\x40\0\0\0\0abcd",
        false,
    ),
    (3, Some(0b101), b"abcdabcd", true),
    (1, None, b"abcd", true),
    (1, None, b"abc", false),
    // a length below that of its header
    (2, None, b"abcd\x0c\0\0\0", false),
    // compressed in place
    (2, None, b"abcd\x26\0\0\0\x09\0\0\0x", true),
    // another tag
    (
        2,
        None,
        b"abcd\x01\x11\xd1\x07\0\0\xcd\x07\0\0\x74\x40\0\0\x10\x40\0\0",
        false,
    ),
];

#[test]
fn values_in_line(rt: HostRuntime) {
    expect_inline(&rt, &NUMBER_TEXT_NUMBER, &IN_LINE);
}

const KNOWN: [(u16, Option<u8>, &[u8], bool); 7] = [
    (4, None, b"abcdefgh\x01...abcd\x05i", true),
    // the text begins at the end, past it, or ends past it
    (4, None, b"abcdefgh\x01...abcd", false),
    (4, None, b"abcdefgh\x01...abc", false),
    (4, None, b"abcdefgh\x01...abcd\x07i", false),
    // fewer columns are stored than have known places
    (2, None, b"abcdefgh\x01", true),
    (3, None, b"abcdefgh\x01..", false),
    // the first is null, so that the next stands in its place
    (4, Some(0b1110), b"\x01...abcd\x05i", true),
];

#[test]
fn columns_of_known_places(rt: HostRuntime) {
    let columns = [ColType::Int8, ColType::Bool, ColType::Int4, ColType::Text];
    expect_inline(&rt, &columns, &KNOWN);
}

#[test]
fn attributes_and_values(rt: HostRuntime) -> Result<(), Fail> {
    let columns = [ColType::Bool, ColType::Text];
    let attrs = attributes(rt.alloc(), &columns, b"\x02\x07hi", None, 2)?;
    let list = attrs.as_slice();
    assert_eq!(rt; list.len(), 2);
    let (Attr::Plain(flag), Attr::Plain(text)) = (list[0], list[1]) else {
        return Err(Fail::from("not plain"));
    };
    assert_eq!(rt; flag.len(), 1);
    assert_eq!(rt; text, b"hi".as_slice());
    assert!(rt; matches!(value_of(ColType::Bool, flag), ValueRef::Bool(true)));
    assert!(rt; matches!(value_of(ColType::Text, text), ValueRef::Bytes(b"hi")));
    Ok(())
}

// The places of a tuple's attributes, whichever is asked for first.
#[test]
fn attributes_in_turn(rt: HostRuntime) {
    let mut whole = TupleColumns::new(&NUMBER_TEXT_NUMBER, b"abcd\x07hi\0abcd", None, 3);
    same(
        &rt,
        &whole.attribute(2),
        &Some(Plain { start: 8, len: 4 }),
        2,
    );
    same(
        &rt,
        &whole.attribute(0),
        &Some(Plain { start: 0, len: 4 }),
        0,
    );
    same(
        &rt,
        &whole.attribute(1),
        &Some(Plain { start: 5, len: 2 }),
        1,
    );
    holds(&rt, whole.body().len() == 12, 3);
}

// Those of one that is cut off, up to the column that passes its end.
#[test]
fn attributes_in_turn_up_to_the_end(rt: HostRuntime) {
    let mut cut = TupleColumns::new(&NUMBER_TEXT_NUMBER, b"abcd\x07hi\0abc", None, 3);
    same(&rt, &cut.attribute(2), &None, 2);
    same(&rt, &cut.attribute(1), &Some(Plain { start: 5, len: 2 }), 1);
}
