//! Pointers, and worked rows and values of the TOAST table.
use crate::checks::{holds, same};
use key_orders::Tid;
use std::alloc::Global;
use std::process::Abort;
use std::test::Fail;
use toast_chunks::{ChunkRow, TOAST_COLUMNS, ToastMap, chunk_row, pointer_rule};
use varlena_attrs::{AttrBuffer, AttrFault, ToastPointer};

/// The value that all tests speak of.
pub const ID: u32 = 16500;

/// A pointer to it.
pub fn pointer(raw_size: i32, ext_info: u32) -> ToastPointer {
    ToastPointer {
        raw_size,
        ext_info,
        value_id: ID,
        relation: 16400,
    }
}

const POINTERS: [(i32, u32, bool); 11] = [
    (4, 0, true),
    (3, 0, false),
    (-1, 0, false),
    (2000, 1996, true),
    (2000, 1997, false),
    // Compressed by pglz, by LZ4, and by a method that there isn't.
    (2001, 1996, true),
    (2001, 0x4000_0000 + 1996, true),
    (2001, 0x8000_0000 + 1996, false),
    // The method counts only where the value is compressed.
    (2000, 0xc000_0000 + 1996, true),
    (1073741823, 1073741819, true),
    (1073741824, 1073741820, false),
];

#[test]
fn pointers(rt: HostRuntime) {
    let mut row = 0u32;
    for (raw_size, ext_info, keeps) in POINTERS {
        row = row.wrapping_add(1);
        holds(&rt, pointer_rule(pointer(raw_size, ext_info)) == keeps, row);
    }
}

// The chunks of a text, each by its number and its size, or `-` where it has none.
fn add_chunks(map: &mut ToastMap, chunks: &str) -> Result<(), Fail> {
    let tid = Tid { block: 0, item: 1 };
    for chunk in chunks.split_whitespace() {
        let (seq, size) = chunk.split_once(":").ok_or("no size")?;
        let seq = seq.parse::<i32>().ok().ok_or("no number")?;
        map.add(ID, seq, tid, size.parse::<u32>().ok())?;
    }
    Ok(())
}

// A map with these chunks of the value, and one of the values before and after it.
fn map_of(alloc: Global, stored: u32, chunks: &str) -> Result<ToastMap, Fail> {
    let mut map = ToastMap::new(alloc);
    let tid = Tid { block: 0, item: 1 };
    map.add(ID - 1, 0, tid, Some(stored))?;
    add_chunks(&mut map, chunks)?;
    map.add(ID + 1, 1, tid, None)?;
    Ok(map)
}

// Whether a value of so many bytes is whole that has these chunks.
fn is_whole(alloc: Global, stored: u16, chunks: &str) -> Result<bool, Fail> {
    let map = map_of(alloc, u32::from(stored), chunks)?;
    let p = pointer(i32::from(stored) + 4, u32::from(stored));
    Ok(map.whole(p))
}

const WHOLE: [(u16, &str); 11] = [
    (0, ""),
    (1, "0:1"),
    (1996, "0:1996"),
    (1997, "0:1996 1:1"),
    (3992, "1:1996 0:1996"),
    // Three chunks in any order.
    (4000, "0:1996 1:1996 2:8"),
    (4000, "0:1996 2:8 1:1996"),
    (4000, "1:1996 0:1996 2:8"),
    (4000, "1:1996 2:8 0:1996"),
    (4000, "2:8 0:1996 1:1996"),
    (4000, "2:8 1:1996 0:1996"),
];

#[test]
fn whole_values(rt: HostRuntime) -> Result<(), Fail> {
    for (stored, chunks) in WHOLE {
        assert!(rt; is_whole(rt.alloc(), stored, chunks)?, "{stored}: {chunks}");
    }
    Ok(())
}

const BROKEN: [(u16, &str); 25] = [
    // A chunk where there should be none, and none, or another one, where there should be one.
    (0, "0:0"),
    (0, "0:-"),
    (1, ""),
    (1, "1:1"),
    (1, "2147483647:1"),
    (1, "0:-"),
    // A negative number.
    (0, "-1:0"),
    (1, "-1:1"),
    (1, "-2147483648:1 0:1"),
    (4000, "0:1996 1:1996 2:8 -1:1996"),
    // Another size: of the only chunk, of the first, of a middle one and of the last.
    (1, "0:2"),
    (1997, "0:1995 1:1"),
    (4000, "0:1996 1:1995 2:8"),
    (4000, "2:8 1:1997 0:1996"),
    (4000, "2:9 1:1996 0:1996"),
    // A chunk too few: the first, a middle one and the last.
    (4000, "2:8 1:1996"),
    (4000, "0:1996 2:8"),
    (4000, "1:1996 0:1996"),
    // Another one in place of the last.
    (4000, "0:1996 1:1996 3:8"),
    // A chunk too many, and a number twice, in place of another one or besides.
    (1996, "0:1996 1:0"),
    (4000, "2:8 3:8 0:1996 1:1996"),
    (3992, "0:1996 0:1996"),
    (4000, "0:1996 2:8 2:8"),
    (4000, "2:8 0:1996 1:1996 1:1996"),
    (4000, "0:1996 1:1996 2:8 0:-"),
];

#[test]
fn broken_values(rt: HostRuntime) -> Result<(), Fail> {
    for (stored, chunks) in BROKEN {
        assert!(rt;
            !is_whole(rt.alloc(), stored, chunks)?,
            "{stored}: {chunks}"
        );
    }
    Ok(())
}

// A row's body, its null bits, if it has some, how many columns it stores, and the number and the size of the chunk
// that it is: -1 stands for no chunk, and for no size.
type Row = (&'static [u8], &'static [u8], u16, i32, i64);

// Whole, without a number, without a value, and without bytes that are stored.
const ROWS: [Row; 4] = [
    (b"\x74\x40\0\0\x02\0\0\0\x07ab", b"", 3, 2, 2),
    (b"\x74\x40\0\0\x07ab", b"\x05", 3, 0, -1),
    (b"\x02\0\0\0\x07ab", b"\x06", 3, -1, -1),
    (b"\x74\x40\0\0\x02\0\0\0", b"", 2, 2, -1),
];

// The chunk that a row is.
fn chunk_of(
    rt: &impl Abort,
    alloc: Global,
    body: &[u8],
    nulls: Option<&[u8]>,
    natts: u16,
) -> Result<Option<ChunkRow>, AttrFault> {
    let mut buffer = AttrBuffer::new(alloc);
    buffer.read(&TOAST_COLUMNS, body, nulls, natts)?;
    assert!(rt; body.len() <= 8192);
    Ok(chunk_row(body, buffer.as_slice()))
}

fn chunk_with(seq: i32, size: i64) -> Option<ChunkRow> {
    if seq < 0 {
        return None;
    }
    let size = u32::try_from(size).ok();
    Some(ChunkRow { id: ID, seq, size })
}

#[test]
fn rows(rt: HostRuntime) {
    for (body, nulls, natts, seq, size) in ROWS {
        let nulls = if nulls.is_empty() { None } else { Some(nulls) };
        let found = chunk_of(&rt, rt.alloc(), body, nulls, natts);
        same(&rt, &found, &Ok(chunk_with(seq, size)), natts.into());
    }
}
