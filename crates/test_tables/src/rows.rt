//! The live rows of files in memory.
ghost use Rattle.std.specs.Prelude.{◌≡◌};
ghost use Rattle.heap_table_check.specs.Files.{BelongTo, files_of};
ghost use Rattle.heap_rows.specs.RowCursor.{heap_at};

use crate::sound::sound_heap;
use case_file::Case;
use heap_check::{Cell, LiveRow, LiveRows, RowCursor, RowPlace, SoundHeap};
use key_orders::{Tid, Value};
use outside::Part;
use std::alloc::Global;
use std::test::Fail;
use test_fixtures::{HeapHead, UntoldFiles, case_with, heap_page};

// A table of one text column, with a TOAST table.
const TEXTS: &str =
    "toast_file = \"tt\"\ntoast_oid = 16400\n[[column]]\nname = \"a\"\ntype = \"text\"\n";

// Its one row.
const FIRST: RowPlace = RowPlace {
    tid: Tid { block: 0, item: 1 },
    root: Tid { block: 0, item: 1 },
};

// A page with one tuple, of transaction 700, with these bits in its header and so many attributes.
fn page(alloc: Global, infomask: u16, natts: u16, body: &[u8]) -> Result<Vec<u8>, Fail> {
    let head = HeapHead {
        xmin: 700,
        xmax: 0,
        block: 0,
        item: 1,
        infomask2: natts,
        infomask,
    };
    Ok(Vec::from_slice(alloc, &heap_page(head, body))?)
}

// The files of a table: its heap, its TOAST table and the states of transactions, of which all have committed.
fn held(alloc: Global, heap: Vec<u8>, toast: Vec<u8>) -> Result<UntoldFiles, Fail> {
    let mut files = UntoldFiles::new(alloc);
    let xact = Vec::from_slice(alloc, &[0x55u8; 8192])?;
    files.add("t", Part::Segment(0), heap)?;
    files.add("tt", Part::Segment(0), toast)?;
    files.add("xact", Part::Slru(0), xact)?;
    Ok(files)
}

// One row, whose value of 1996 zero bytes stands in the TOAST table as one chunk; the row's header has
// these bits.
fn toasted(alloc: Global, infomask: u16) -> Result<UntoldFiles, Fail> {
    let pointer = b"\x01\x12\xd0\x07\0\0\xcc\x07\0\0\x74\x40\0\0\x10\x40\0\0";
    let mut chunk = [0u8; 2008];
    chunk[0..12].copy_from_slice(b"\x74\x40\0\0\0\0\0\0\x40\x1f\0\0");
    let heap = page(alloc, infomask, 1, pointer)?;
    held(alloc, heap, page(alloc, 0x0902, 3, &chunk)?)
}

// Whether these are so many zero bytes.
fn are_zeros(bytes: &[u8], len: usize) -> bool {
    for byte in bytes {
        if *byte != 0 {
            return false;
        }
    }
    bytes.len() == len
}

// Whether a row is the first item, its own root, with one cell of so many zero bytes.
fn is_zeros(row: &LiveRow, len: usize) -> bool {
    match row.cells.as_slice() {
        [Cell::Held(Value::Bytes(bytes))] => {
            row.tid == FIRST.tid && row.root == FIRST.root && are_zeros(bytes.as_slice(), len)
        }
        _ => false,
    }
}

// Whether the next row is the one of 1996 zero bytes.
fn is_zeros_next(
    alloc: Global,
    files: &mut UntoldFiles,
    rows: &mut LiveRows<'_>,
) -> Result<bool, Fail> {
    match rows.next_row(alloc, files)? {
        Some(row) => Ok(is_zeros(&row, 1996)),
        None => Ok(false),
    }
}

// Whether no row is left.
fn is_at_end(
    alloc: Global,
    files: &mut UntoldFiles,
    rows: &mut LiveRows<'_>,
) -> Result<bool, Fail> {
    Ok(rows.next_row(alloc, files)?.is_none())
}

// Whether a heap has one row, of so many zero bytes, on its first block.
fn is_one_row(
    alloc: Global,
    files: &mut UntoldFiles,
    case: &Case,
    heap: &SoundHeap,
) -> Result<bool, Fail>
    requires { BelongTo case.now (files_of heap.now) }
{
    let mut rows = LiveRows::new(alloc, case, heap)?;
    let first = is_zeros_next(alloc, files, &mut rows)?;
    let end = is_at_end(alloc, files, &mut rows)?;
    rows.seek_block(1);
    let behind = is_at_end(alloc, files, &mut rows)?;
    rows.seek_block(0);
    Ok(first && end && behind && is_zeros_next(alloc, files, &mut rows)?)
}

// Whether the one row of a table is read whose value stands in the TOAST table, and whose header has these bits.
fn is_joined(alloc: Global, infomask: u16) -> Result<bool, Fail> {
    let case = case_with(alloc, TEXTS).ok_or("refused")?;
    let mut files = toasted(alloc, infomask)?;
    let heap = sound_heap(alloc, &mut files, &case)?;
    is_one_row(alloc, &mut files, &case, &heap)
}

// No hint of the second says that the row's inserter committed: pg_xact does.
#[test]
fn a_value_in_the_toast_table_is_joined(rt: HostRuntime) -> Result<(), Fail> {
    for infomask in [0x0906, 0x0806] {
        assert!(rt; is_joined(rt.alloc(), infomask)?);
    }
    Ok(())
}

// Whether this is the first item, its own root.
fn is_first(place: Option<RowPlace>) -> bool {
    match place {
        Some(place) => place.tid == FIRST.tid && place.root == FIRST.root,
        None => false,
    }
}

// Whether the first item of block 0 is a row, and the only one.
fn is_first_alone(
    files: &mut UntoldFiles,
    cursor: &mut RowCursor<'_>,
    heap: &SoundHeap,
) -> Result<bool, Fail>
    requires { heap_at cursor.old ≡ heap.now }
    ensures { heap_at cursor.new ≡ heap.now }
{
    cursor.go_to(0);
    if heap.heap().blocks() == 0 {
        return Ok(false);
    }
    cursor.take_block(files)?;
    let found = cursor.find_in_block(files)?;
    if let Some(_) = found {
        cursor.pass();
    }
    let next = cursor.find_in_block(files)?;
    Ok(is_first(found) && next.is_none())
}

// Whether a block is gone over again, with the same row.
fn is_gone_over_again(
    alloc: Global,
    files: &mut UntoldFiles,
    case: &Case,
    heap: &SoundHeap,
) -> Result<bool, Fail>
    requires { BelongTo case.now (files_of heap.now) }
{
    let mut cursor = RowCursor::new(alloc, case, heap, &[])?;
    let once = is_first_alone(files, &mut cursor, heap)?;
    let again = is_first_alone(files, &mut cursor, heap)?;
    Ok(once && again)
}

// The files of a table of one short row.
fn short_row(alloc: Global) -> Result<UntoldFiles, Fail> {
    held(alloc, page(alloc, 0x0902, 1, b"\x07ab")?, Vec::new(alloc))
}

#[test]
fn a_block_is_gone_over_again(rt: HostRuntime) -> Result<(), Fail> {
    let alloc = rt.alloc();
    let mut files = short_row(alloc)?;
    let case = case_with(alloc, TEXTS).ok_or("refused")?;
    let heap = sound_heap(alloc, &mut files, &case)?;
    assert!(rt; is_gone_over_again(alloc, &mut files, &case, &heap)?);
    Ok(())
}
