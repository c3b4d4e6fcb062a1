//! Runs of `copy` on small cases: rows of each type, and what is written where there are none.
use crate::expected::{PACKED, TEXT_COLUMN, expect, files_of};
use memory_files::MemFiles;
use outside::Part;
use std::alloc::Global;
use std::process::Abort;
use std::test::Fail;
use test_run_fixtures::{
    BOOL_AND_TEXT, EXTERNAL, INT_COLUMN, Item, LIVE, SUCCESSOR, TEXT_IN_TOAST, Tuple, UPDATED,
    chunk_page, page_of,
};

// Two columns of text.
const TWO_TEXTS: &str =
    "[[column]]\nname = \"a\"\ntype = \"text\"\n[[column]]\nname = \"b\"\ntype = \"text\"\n";

// A column of each type, in an order without padding but before those of 8 bytes.
const EACH_TYPE: &str = "[[column]]\nname = \"a\"\ntype = \"int8\"\n\
[[column]]\nname = \"b\"\ntype = \"timestamp\"\n\
[[column]]\nname = \"c\"\ntype = \"timestamptz\"\n[[column]]\nname = \"d\"\ntype = \"int4\"\n\
[[column]]\nname = \"e\"\ntype = \"oid\"\n[[column]]\nname = \"f\"\ntype = \"date\"\n\
[[column]]\nname = \"g\"\ntype = \"int2\"\n[[column]]\nname = \"h\"\ntype = \"bool\"\n\
[[column]]\nname = \"i\"\ntype = \"uuid\"\n[[column]]\nname = \"j\"\ntype = \"bytea\"\n\
[[column]]\nname = \"k\"\ntype = \"fixed\"\nlen = 3\nalign = 1\n\
[[column]]\nname = \"l\"\ntype = \"varlena\"\nalign = 4\n\
[[column]]\nname = \"m\"\ntype = \"text\"\nmissing = \"0a\"\n";

// A row of them, without the last column.
const EACH_VALUE: &[u8] = b"\xff\xff\xff\xff\xff\xff\xff\xff\x40\x42\x0f\0\0\0\0\0\
\0\0\0\0\0\0\0\x80\0\0\0\x80\xff\xff\xff\xff\0\0\0\0\0\x80\x02\
\0\x11\x22\x33\x44\x55\x66\x77\x88\x99\xaa\xbb\xcc\xdd\xee\xff\x07\0\xab\x01\x02\xf0\x05\x0a";

// Runs `copy` over the files of a case, and compares what is answered and written.
fn expect_text(
    rt: &impl Abort,
    alloc: Global,
    files: &mut MemFiles,
    code: u8,
    text: &[u8],
) -> Result<(), Fail> {
    expect(rt, alloc, &["copy", "case.toml"], files, code, text)
}

// The same over a table with these columns and this heap.
fn expect_of_heap(
    rt: &impl Abort,
    alloc: Global,
    columns: &str,
    heap: &[u8],
    code: u8,
    text: &[u8],
) -> Result<(), Fail> {
    let mut files = files_of(alloc, columns, "", heap)?;
    expect_text(rt, alloc, &mut files, code, text)
}

// A page with a row: its words infomask2 and infomask, and its bytes.
fn row_page((infomask2, infomask, body): (u16, u16, &[u8])) -> [u8; 8192] {
    let tuple = Tuple {
        infomask2,
        infomask,
        body,
        ..LIVE
    };
    page_of(0, &[Item::Tuple(tuple)])
}

// The columns of a table, its one row, and the status and the text of its copy.
const ROWS: [(&str, (u16, u16, &[u8]), u8, &[u8]); 4] = [
    (TEXT_COLUMN, (1, 0x0902, PACKED), 2, b"\\#\n"),
    (
        EACH_TYPE,
        (12, 0x0902, EACH_VALUE),
        0,
        b"-1\t1000000\t-9223372036854775808\t-2147483648\t4294967295\t0\t-32768\tt\t\
00112233-4455-6677-8899-aabbccddeeff\t\\\\x00ab\t\\\\x0102f0\t\\\\x0a\t\\n\n",
    ),
    // Where something is found, or is in doubt, there are no rows.
    (
        INT_COLUMN,
        (2, 0x0900, b"\x07\0\0\0"),
        1,
        b"finding H4 heap block 0 item 1\nfindings 1 unjudged 0\nverdict findings\n",
    ),
    (
        INT_COLUMN,
        (1, 0x4900, b"\x07\0\0\0"),
        2,
        b"unjudged U1 heap block 0 item 1\nfindings 0 unjudged 1\nverdict unjudged\n",
    ),
];

#[test]
fn rows_are_written(rt: HostRuntime) -> Result<(), Fail> {
    for (columns, row, code, text) in ROWS {
        expect_of_heap(&rt, rt.alloc(), columns, &row_page(row), code, text)?;
    }
    Ok(())
}

// Two rows, of which the second keeps the length of its text in four bytes.
const TWO_ROWS: [Item<'static>; 2] = [
    Item::Tuple(Tuple {
        infomask2: 2,
        infomask: 0x0902,
        body: b"\x01\x07hi",
        ..LIVE
    }),
    Item::Tuple(Tuple {
        item: 2,
        infomask2: 2,
        infomask: 0x0902,
        body: b"\x01\0\0\0\x18\0\0\0hi",
        ..LIVE
    }),
];

#[test]
fn rows_are_written_in_turn(rt: HostRuntime) -> Result<(), Fail> {
    let page = page_of(0, &TWO_ROWS);
    let text = b"t\thi\nt\thi\n";
    expect_of_heap(&rt, rt.alloc(), BOOL_AND_TEXT, &page, 0, text)
}

// A tab and a backslash in a text, and a null.
#[test]
fn bytes_are_escaped(rt: HostRuntime) -> Result<(), Fail> {
    let mut page = row_page((2, 0x0903, b"\x09a\x09\\"));
    page[8183] = 1;
    let text = b"a\\t\\\\\t\\N\n";
    expect_of_heap(&rt, rt.alloc(), TWO_TEXTS, &page, 0, text)
}

const UPDATED_ROW: [Item<'static>; 2] = [Item::Tuple(UPDATED), Item::Tuple(SUCCESSOR)];

// The old version of a row isn't written. A table without rows is copied, and one without columns isn't.
#[test]
fn live_rows_are_written(rt: HostRuntime) -> Result<(), Fail> {
    let alloc = rt.alloc();
    let page = page_of(0, &UPDATED_ROW);
    expect_of_heap(&rt, alloc, INT_COLUMN, &page, 0, b"7\n")?;
    expect_of_heap(&rt, alloc, INT_COLUMN, &[], 0, b"")?;
    expect_of_heap(&rt, alloc, "", &[], 4, b"refused case C2 column\n")
}

#[test]
fn a_value_in_the_toast_table_is_written(rt: HostRuntime) -> Result<(), Fail> {
    let alloc = rt.alloc();
    let page = page_of(0, &[Item::Tuple(EXTERNAL)]);
    let mut files = files_of(alloc, TEXT_IN_TOAST, "", &page)?;
    files.add("tt", Part::Segment(0), &chunk_page(0, 1996))?;
    let mut line = [0u8; 1997];
    line[1996] = b'\n';
    expect_text(&rt, alloc, &mut files, 0, &line)
}

#[test]
fn a_table_that_is_not_there(rt: HostRuntime) -> Result<(), Fail> {
    let alloc = rt.alloc();
    let mut files = files_of(alloc, INT_COLUMN, "", &[])?;
    assert!(rt; files.forget("t", Part::Segment(0)));
    expect_text(&rt, alloc, &mut files, 5, b"refused no file t\n")
}

// Each read of a run fails in turn, and nothing is written. The heap is read once to be judged, and once for its rows.
const READS: [(u64, u8, &[u8]); 4] = [(1, 7, b""), (2, 7, b""), (3, 7, b""), (4, 0, b"7\n")];

fn expect_read(rt: &impl Abort, alloc: Global, n: u64, code: u8, text: &[u8]) -> Result<(), Fail> {
    let page = page_of(0, &[Item::Tuple(LIVE)]);
    let mut files = files_of(alloc, INT_COLUMN, "", &page)?;
    files.fail_read(n)?;
    expect_text(rt, alloc, &mut files, code, text)
}

#[test]
fn reads_that_fail_leave_nothing_written(rt: HostRuntime) -> Result<(), Fail> {
    for (n, code, text) in READS {
        expect_read(&rt, rt.alloc(), n, code, text)?;
    }
    Ok(())
}
