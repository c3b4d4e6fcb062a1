//! Pages, tuples and bodies against bytes that were laid by hand.
ghost use Rattle.std.specs.Prelude.{◌≡◌, All, length};
ghost use Rattle.key_orders.specs.Values.{value_shown};
ghost use Rattle.page_write.specs.Bodies.{IsShortEnough};

use crate::checks::{holds, same};
use crate::pages::Piece;
use bt_meta::{Meta, Opaque};
use key_orders::{ColType, Tid, ValueRef};
use outside::NoMemory;
use page_write::{
    BodyFlags, Kept, PageWriter, body_flags, meta_page, put_heap_tuple, put_index_body,
    put_pivot_tuple, put_plain_tuple, put_posting_tuple,
};
use std::alloc::Global;
use std::process::Abort;
use std::test::Fail;
use tuple_head::HeapHead;

const FIXED: BodyFlags = BodyFlags {
    nulls: false,
    varwidth: false,
};

const BOTH: BodyFlags = BodyFlags {
    nulls: true,
    varwidth: true,
};

// A tuple with one int4, as a transaction with hints wrote it.
fn tuple_of(alloc: Global, item: u16, value: u8) -> Result<Vec<u8>, NoMemory> {
    let head = HeapHead {
        xmin: 700,
        xmax: 0,
        field3: 0,
        ctid: Tid { block: 0, item },
        infomask2: 1,
        infomask: 0x0900,
        hoff: 24,
    };
    let mut tuple = Vec::new(alloc);
    put_heap_tuple(&mut tuple, head, &[], &[value, 0, 0, 0])?;
    Ok(tuple)
}

// An entry with one int4.
fn entry_of(alloc: Global, item: u16, value: u8) -> Result<Vec<u8>, NoMemory> {
    let mut tuple = Vec::new(alloc);
    put_plain_tuple(&mut tuple, Tid { block: 0, item }, FIXED, &[value, 0, 0, 0])?;
    Ok(tuple)
}

fn add(rt: &impl Abort, page: &mut PageWriter, tuple: &[u8]) {
    assert!(rt; page.has_room(tuple.len()));
    page.add(tuple);
}

// The rows of the pages: their items and values.
const ROWS: [(u16, u8); 3] = [(1, 5), (2, 7), (3, 9)];

// Whether a page has these pieces, and so many bytes that aren't 0.
fn has_pieces(page: &[u8; 8192], pieces: &[Piece<'_>], written: u32) -> bool {
    for (at, bytes) in pieces {
        if 8192 < *at || !page[*at..].starts_with(bytes) {
            return false;
        }
    }
    count_written(page) == written
}

// How many bytes of a page aren't 0.
fn count_written(page: &[u8; 8192]) -> u32 {
    let mut count = 0u32;
    for byte in page {
        if *byte != 0 {
            count = count.wrapping_add(1);
        }
    }
    count
}

const HEAP_PAGE: [Piece<'static>; 3] = [
    (12, b"\x24\0\xa0\x1f\0\x20\x04\x20"),
    (24, b"\xe0\x9f\x38\0\xc0\x9f\x38\0\xa0\x9f\x38\0"),
    (
        8128,
        b"\xbc\x02\0\0\0\0\0\0\0\0\0\0\0\0\0\0\x02\0\x01\0\0\x09\x18\0\x07\0\0\0",
    ),
];

// The bytes of a table's page with the rows 5, 7 and 9.
#[test]
fn a_heap_page(rt: HostRuntime) -> Result<(), Fail> {
    let mut page = PageWriter::heap();
    for (item, value) in ROWS {
        add(&rt, &mut page, &tuple_of(rt.alloc(), item, value)?);
    }
    let page = page.heap_page();
    holds(&rt, has_pieces(&page, &HEAP_PAGE, 6 + 9 + 3 * 7), 0);
    Ok(())
}

const LEAF: [Piece<'static>; 4] = [
    (12, b"\x24\0\xc0\x1f\xf0\x1f\x04\x20"),
    (24, b"\xe0\x9f\x20\0\xd0\x9f\x20\0\xc0\x9f\x20\0"),
    (8144, b"\0\0\0\0\x02\0\x10\0\x07\0\0\0\0\0\0\0"),
    (8188, &[3]),
];

const OPAQUE: Opaque = Opaque {
    prev: 0,
    next: 0,
    level: 0,
    flags: 3,
    cycle: 0,
};

// The bytes of the one leaf of an index with the keys 5, 7 and 9.
#[test]
fn a_leaf(rt: HostRuntime) -> Result<(), Fail> {
    let mut page = PageWriter::tree();
    for (item, value) in ROWS {
        add(&rt, &mut page, &entry_of(rt.alloc(), item, value)?);
    }
    let leaf = page.tree_page(OPAQUE);
    holds(&rt, has_pieces(&leaf, &LEAF, 7 + 9 + 3 * 3 + 1), 0);
    Ok(())
}

const META: Meta = Meta {
    magic: 0x00053162,
    version: 4,
    root: 1,
    level: 0,
    fastroot: 1,
    fastlevel: 0,
};

const META_PAGE: [Piece<'static>; 4] = [
    (12, b"\x48\0\xf0\x1f\xf0\x1f\x04\x20"),
    (24, b"\x62\x31\x05\0\x04\0\0\0\x01\0"),
    (40, &[1]),
    (8188, &[8]),
];

// The bytes of its metapage.
#[test]
fn a_metapage(rt: HostRuntime) {
    holds(
        &rt,
        has_pieces(&meta_page(META), &META_PAGE, 7 + 3 + 1 + 1 + 1 + 1),
        0,
    );
}

// A separator's downlink, how many values it keeps, the item of the TID that it keeps, or 0, its body, and its bytes.
type Pivot = (u32, u16, u16, &'static [u8], &'static [u8]);

// Separators with and without a TID, and the first item of an internal page.
const PIVOTS: [Pivot; 3] = [
    (
        0,
        1,
        2,
        b"\x07\0\0\0",
        b"\0\0\0\0\x01\x10\x18\x20\x07\0\0\0\0\0\0\0\0\0\0\0\0\0\x02\0",
    ),
    (
        65538,
        1,
        0,
        b"\x05\0\0\0",
        b"\x01\0\x02\0\x01\0\x10\x20\x05\0\0\0\0\0\0\0",
    ),
    (1, 0, 0, b"", b"\0\0\x01\0\0\0\x08\x20"),
];

// Puts a separator in the place of what the buffer held.
fn put_pivot(
    rt: &impl Abort,
    tuple: &mut Vec<u8>,
    (down, count): (u32, u16),
    item: u16,
    body: &[u8],
) -> Result<(), NoMemory> {
    assert!(rt; count < 4096 && body.len() <= 8160);
    let tid = if item == 0 {
        None
    } else {
        Some(Tid { block: 0, item })
    };
    put_pivot_tuple(tuple, down, Kept { count, tid }, FIXED, body)
}

#[test]
fn separators(rt: HostRuntime) -> Result<(), Fail> {
    let mut tuple = Vec::new(rt.alloc());
    for (down, count, item, body, want) in PIVOTS {
        put_pivot(&rt, &mut tuple, (down, count), item, body)?;
        holds(&rt, tuple.as_slice() == want, down);
    }
    Ok(())
}

// A body with a null and a text, in the place of what the buffer held.
#[test]
fn an_entry(rt: HostRuntime) -> Result<(), Fail> {
    let mut tuple = vec![in rt.alloc(); 1u8; 3]?;
    let body = b"\x02\0\0\0\0\0\0\0\x07hi";
    put_plain_tuple(&mut tuple, Tid { block: 0, item: 1 }, BOTH, body)?;
    let want = b"\0\0\0\0\x01\0\x18\xc0\x02\0\0\0\0\0\0\0\x07hi\0\0\0\0\0";
    holds(&rt, tuple.as_slice() == want.as_slice(), 0);
    Ok(())
}

// One int4 with two TIDs.
#[test]
fn a_list_of_two(rt: HostRuntime) -> Result<(), Fail> {
    let mut tuple = vec![in rt.alloc(); 1u8; 3]?;
    let tids = [Tid { block: 0, item: 1 }, Tid { block: 0, item: 2 }];
    put_posting_tuple(&mut tuple, &tids, FIXED, b"\x07\0\0\0")?;
    let want = b"\0\0\x10\0\x02\x20\x20\x20\x07\0\0\0\0\0\0\0\0\0\0\0\x01\0\0\0\0\0\x02\0\0\0\0\0";
    holds(&rt, tuple.as_slice() == want.as_slice(), 0);
    Ok(())
}

const TYPES: [ColType; 4] = [ColType::Bool, ColType::Int2, ColType::Text, ColType::Int8];

// A body's length, how it begins, and whether a value is null or has variable width.
type Body = (usize, &'static [u8], bool, bool);

fn expect_body(
    rt: &impl Abort,
    alloc: Global,
    values: &[ValueRef<'_>],
    want: Body,
) -> Result<(), Fail>
    requires four { length values.now ≡ 4 }
    requires short { All (λ v. IsShortEnough (value_shown v)) values.now }
{
    let mut body = Vec::new(alloc);
    put_index_body(&mut body, &TYPES, values)?;
    let flags = body_flags(&TYPES, values);
    let (len, begin, nulls, varwidth) = want;
    same(rt, &flags, &BodyFlags { nulls, varwidth }, 0);
    holds(
        rt,
        body.len() == len && body.as_slice().starts_with(begin),
        1,
    );
    Ok(())
}

#[test]
fn a_body_without_nulls(rt: HostRuntime) -> Result<(), Fail> {
    let values = [
        ValueRef::Bool(true),
        ValueRef::Int(-2),
        ValueRef::Bytes(b"hi"),
        ValueRef::Int(258),
    ];
    let want = b"\x01\0\xfe\xff\x07hi\0\x02\x01\0\0\0\0\0\0";
    expect_body(&rt, rt.alloc(), &values, (16, want, false, true))
}

#[test]
fn a_body_with_nulls(rt: HostRuntime) -> Result<(), Fail> {
    let values = [
        ValueRef::Null,
        ValueRef::Int(3),
        ValueRef::Null,
        ValueRef::Int(4),
    ];
    let want = b"\x0a\0\0\0\0\0\0\0\x03\0\0\0\0\0\0\0\x04\0\0\0\0\0\0\0";
    expect_body(&rt, rt.alloc(), &values, (24, want, true, false))
}

// A text that has a header of 4 bytes.
#[test]
fn a_long_body(rt: HostRuntime) -> Result<(), Fail> {
    let text = [7u8; 127];
    let values = [
        ValueRef::Bool(false),
        ValueRef::Int(0),
        ValueRef::Bytes(&text),
        ValueRef::Int(0),
    ];
    expect_body(
        &rt,
        rt.alloc(),
        &values,
        (144, b"\0\0\0\0\x0c\x02\0\0\x07", false, true),
    )
}
