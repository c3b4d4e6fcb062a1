//! Heap tuples by hand: their values, and items of a page that are tuples or aren't.
use crate::checks::{holds, same};
use crate::pages::{Piece, page_of, put};
use heap_tuples::{are_inline, read_tuple, tuple_at, tuple_columns};
use key_orders::ColType;
use outside::NoMemory;
use std::alloc::Global;
use std::process::Abort;
use std::test::Fail;
use tuple_head::heap_head;
use varlena_attrs::AttrPlace::{Null, Plain};
use varlena_attrs::{AttrBuffer, AttrFault, AttrPlace, ColumnLayout};

const COLUMNS: [ColType; 3] = [ColType::Int4, ColType::Text, ColType::Int4];

// The number of attributes that are stored, the null bits and the body.
type Tuple = (u16, Option<u8>, &'static [u8]);

// A heap tuple with a header of 24 bytes, whose last is the byte of null bits, if there is one.
fn tuple_of(alloc: Global, (natts, nulls, body): Tuple) -> Result<Vec<u8>, NoMemory> {
    let mut head = [0u8; 24];
    put(&mut head, &[(18, &natts.to_le_bytes()), (22, &[24])]);
    if let Some(bits) = nulls {
        put(&mut head, &[(20, &[1]), (23, &[bits])]);
    }
    let mut tuple = head.to_vec(alloc)?;
    tuple.extend_from_slice(body)?;
    Ok(tuple)
}

// The bytes of a body and the last place in it, or the fault.
type Outcome = Result<(usize, Option<AttrPlace>), AttrFault>;

// What is read of a tuple, and whether its values are all stored in line.
fn outcome(rt: &impl Abort, alloc: Global, tuple: &[u8]) -> (Outcome, bool) {
    assert!(rt; 24 <= tuple.len());
    let head = heap_head(tuple);
    assert!(rt; 23 <= head.hoff && head.hoff as usize <= tuple.len());
    let layout = ColumnLayout::new(&COLUMNS);
    let inline = are_inline(&layout, tuple, &head);
    let mut buffer = AttrBuffer::new(alloc);
    match read_tuple(&mut buffer, &COLUMNS, tuple, &head) {
        Ok(body) => (Ok((body.len(), buffer.as_slice().last().copied())), inline),
        Err(fault) => (Err(fault), inline),
    }
}

// How many attributes are stored, the null bits, or 255 for none, the body, what is read of the tuple, and whether all
// of it is stored in line.
const TUPLES: [(u16, u8, &[u8], &str, bool); 6] = [
    (
        3,
        255,
        b"abcd\x07hi\0abcd",
        "Ok((12, Some(Plain { start: 8, len: 4 })))",
        true,
    ),
    (
        3,
        255,
        b"abcd\x07hi\0abc",
        "Err(PastEnd { column: 3 })",
        false,
    ),
    (
        3,
        255,
        b"abcd\x01\x12\xd1\x07\0\0\xcd\x07\0\0\x74\x40\0\0\x10\x40\0\0\0\0abcd",
        "Ok((28, Some(Plain { start: 24, len: 4 })))",
        false,
    ),
    (
        3,
        0b101,
        b"abcdabcd",
        "Ok((8, Some(Plain { start: 4, len: 4 })))",
        true,
    ),
    (1, 255, b"abcd", "Ok((4, Some(Missing)))", true),
    (3, 0b011, b"abcd\x03", "Ok((5, Some(Null)))", true),
];

// Whether that is read of a tuple.
fn reads(
    rt: &impl Abort,
    alloc: Global,
    tuple: &[u8],
    (want, inline): (&str, bool),
) -> Result<bool, Fail> {
    let (found, is_inline) = outcome(rt, alloc, tuple);
    let found = format!(in alloc; "{found:?}")?;
    Ok(found.as_str() == want && is_inline == inline)
}

#[test]
fn tuples_with_and_without_nulls(rt: HostRuntime) -> Result<(), Fail> {
    for (natts, bits, body, want, inline) in TUPLES {
        let nulls = if bits == 255 { None } else { Some(bits) };
        let tuple = tuple_of(rt.alloc(), (natts, nulls, body))?;
        assert!(rt; reads(&rt, rt.alloc(), &tuple, (want, inline))?, "{want}");
    }
    Ok(())
}

#[test]
fn attributes_one_after_the_other(rt: HostRuntime) -> Result<(), Fail> {
    let tuple = tuple_of(rt.alloc(), (3, Some(0b101), b"abcdabcd"))?;
    assert!(rt; 24 <= tuple.len());
    let mut attrs = tuple_columns(&COLUMNS, &tuple).ok_or("no columns")?;
    same(&rt, &attrs.attribute(1), &Some(Null), 1);
    same(
        &rt,
        &attrs.attribute(2),
        &Some(Plain { start: 4, len: 4 }),
        2,
    );
    Ok(())
}

const NORMAL: u32 = 8160 + 32768 + 131072 * 32;

// A page with an item of 32 bytes at its end.
const PAGE: [Piece<'static>; 2] = [(12, b"\x1c\0\xe0\x1f\0\x20\x04\x20"), (8160, &[7])];

// The length of the tuple that an item of such a page is, by the line pointer of the first, and its first byte.
fn found(pointer: u32, upper: u16, item: u16) -> Option<(usize, Option<u8>)> {
    let mut page = page_of(&PAGE);
    put(
        &mut page,
        &[(24, &pointer.to_le_bytes()), (14, &upper.to_le_bytes())],
    );
    let tuple = tuple_at(&page, item)?;
    Some((tuple.len(), tuple.first().copied()))
}

// Line pointers, upper places, items, and whether these are tuples.
const ITEMS: [(u32, u16, u16, bool); 7] = [
    (NORMAL, 8160, 1, true),
    (NORMAL, 8160, 0, false),
    (NORMAL, 8160, 2, false),
    // Dead, too short, past the end, and on a page whose bounds cross.
    (NORMAL + 2 * 32768, 8160, 1, false),
    (8160 + 32768 + 131072 * 23, 8160, 1, false),
    (8168 + 32768 + 131072 * 32, 8160, 1, false),
    (NORMAL, 24, 1, false),
];

#[test]
fn items_that_are_tuples(rt: HostRuntime) {
    let mut row = 0u32;
    for (pointer, upper, item, is_tuple) in ITEMS {
        row = row.wrapping_add(1);
        let want = is_tuple.then_some((32, Some(7)));
        holds(&rt, found(pointer, upper, item) == want, row);
    }
}
