//! Runs of `reindex`: the files of small indexes byte by byte, and what is written where there is none. No case's index
//! file is there before, so a run that asks for it is refused.
use crate::expected::{PACKED, TEXT_COLUMN, expect, files_of};
use memory_files::{MemFiles, MemSink};
use outside::Part;
use std::alloc::Global;
use std::process::Abort;
use std::test::Fail;
use test_fixtures::{Kind, Table, UntoldFiles, Wrong};
use test_run_fixtures::{
    CLEAN, CLUSTER, INDEX, INT_COLUMN, IndexTuple, Item, LIVE, LONE_LEAF, THREE, THREE_ROWS,
    TreePage, Tuple, index_file, indexed_files, page_of, run_words,
};

// A second index on the column.
const SECOND_INDEX: &str =
    "[[index]]\nname = \"t_b\"\nfile = \"j\"\n[[index.key]]\ncolumn = \"a\"\n";

// Two rows of 7.
const TWO_ROWS: [Item<'static>; 2] = [Item::Tuple(LIVE), Item::Tuple(Tuple { item: 2, ..LIVE })];

// A leaf with their entry: a list of their TIDs at byte 16, behind the key.
const SEVENS: TreePage<'static> = TreePage {
    tuples: &[IndexTuple {
        block: 16,
        item: 0x2002,
        info: 0x2020,
        body: &[7, 0, 0, 0, 0, 0, 0, 0, 0, 0, 0, 0, 1, 0, 0, 0, 0, 0, 2, 0],
    }],
    ..LONE_LEAF
};

// Runs `reindex` over the files of a case, and compares what is answered and written.
fn expect_made(
    rt: &impl Abort,
    alloc: Global,
    files: &mut MemFiles,
    code: u8,
    bytes: &[u8],
) -> Result<(), Fail> {
    let words = ["reindex", "case.toml", "t_a"];
    expect(rt, alloc, &words, files, code, bytes)
}

// The same over a table with these columns and this heap.
fn expect_of_heap(
    rt: &impl Abort,
    alloc: Global,
    columns: &str,
    heap: &[u8],
    code: u8,
    bytes: &[u8],
) -> Result<(), Fail> {
    let mut files = files_of(alloc, columns, INDEX, heap)?;
    expect_made(rt, alloc, &mut files, code, bytes)
}

// The same over a table of one number, whose index has these pages.
fn expect_pages(
    rt: &impl Abort,
    alloc: Global,
    heap: &[u8],
    pages: &[TreePage<'_>],
) -> Result<(), Fail> {
    let index = index_file(alloc, pages)?;
    expect_of_heap(rt, alloc, INT_COLUMN, heap, 0, index.as_slice())
}

#[test]
fn indexes_are_written(rt: HostRuntime) -> Result<(), Fail> {
    let alloc = rt.alloc();
    expect_pages(&rt, alloc, &page_of(0, &THREE_ROWS), &[THREE])?;
    expect_pages(&rt, alloc, &page_of(0, &TWO_ROWS), &[SEVENS])?;
    expect_pages(&rt, alloc, &[], &[])
}

#[test]
fn an_index_without_entries_is_clean(rt: HostRuntime) -> Result<(), Fail> {
    let alloc = rt.alloc();
    let empty = index_file(alloc, &[])?;
    let mut files = indexed_files(alloc, INT_COLUMN, "", &[], empty.as_slice())?;
    let words = ["index", "case.toml", "t_a"];
    expect(&rt, alloc, &words, &mut files, 0, CLEAN.as_bytes())
}

// A page with one text.
fn text_page(body: &[u8]) -> [u8; 8192] {
    let tuple = Tuple {
        infomask: 0x0902,
        body,
        ..LIVE
    };
    page_of(0, &[Item::Tuple(tuple)])
}

// A page with a text of 3000 bytes, which has no place on a leaf.
fn long_page() -> [u8; 8192] {
    let mut body = [0x61u8; 3004];
    body[..4].copy_from_slice(&(4 * 3004u32).to_le_bytes());
    text_page(&body)
}

// The same, a text that is compressed, and a table in which something is found.
#[test]
fn where_there_is_no_index(rt: HostRuntime) -> Result<(), Fail> {
    let alloc = rt.alloc();
    let text = b"refused key too large 0 1\n";
    expect_of_heap(&rt, alloc, TEXT_COLUMN, &long_page(), 12, text)?;
    let text = b"unjudged U6 index 1 tuple 0 1\nfindings 0 unjudged 1\nverdict unjudged\n";
    expect_of_heap(&rt, alloc, TEXT_COLUMN, &text_page(PACKED), 2, text)?;
    let text = b"finding P2 heap block 0\nfindings 1 unjudged 0\nverdict findings\n";
    expect_of_heap(&rt, alloc, INT_COLUMN, &page_of(8, &THREE_ROWS), 1, text)
}

// Words, their status and what they write: a name is missing, or is no index's, or a table has no file.
const REFUSED: [(&[&str], u8, &[u8]); 3] = [
    (&["reindex", "case.toml"], 3, b"refused usage\n"),
    (
        &["reindex", "case.toml", "t_b"],
        4,
        b"refused case C5 index.name\n",
    ),
    (&["reindex", "case.toml", "t_a"], 5, b"refused no file t\n"),
];

#[test]
fn words_and_files_are_refused(rt: HostRuntime) -> Result<(), Fail> {
    let alloc = rt.alloc();
    let mut files = files_of(alloc, INT_COLUMN, INDEX, &[])?;
    assert!(rt; files.forget("t", Part::Segment(0)));
    for (words, code, text) in REFUSED {
        expect(&rt, alloc, words, &mut files, code, text)?;
    }
    Ok(())
}

// The table of three rows, where a read with a number fails.
fn expect_read(rt: &impl Abort, alloc: Global, n: u64, code: u8, bytes: &[u8]) -> Result<(), Fail> {
    let mut files = files_of(alloc, INT_COLUMN, INDEX, &page_of(0, &THREE_ROWS))?;
    files.fail_read(n)?;
    expect_made(rt, alloc, &mut files, code, bytes)
}

// Each read of a run fails in turn, and nothing is written. The heap is read once to be judged, and once for its rows.
#[test]
fn reads_that_fail_leave_no_index(rt: HostRuntime) -> Result<(), Fail> {
    let alloc = rt.alloc();
    for n in 1..4 {
        expect_read(&rt, alloc, n, 7, b"")?;
    }
    let three = index_file(alloc, &[THREE])?;
    expect_read(&rt, alloc, 4, 0, three.as_slice())
}

// A table of 5000 rows on 50 blocks.
fn table_of(kind: Kind, updated: bool) -> Table {
    Table {
        kind,
        across: 1,
        down: 5000,
        on_block: 100,
        on_leaf: 250,
        updated,
        wrong: Wrong::Nothing,
    }
}

// The case of a table with two indexes.
fn table_case(alloc: Global, kind: Kind) -> Result<Vec<u8>, Fail> {
    let ctype = match kind {
        Kind::Int4 => "int4",
        Kind::Uuid => "uuid",
        Kind::Text => "text",
    };
    let column = format!(in alloc; "[[column]]\nname = \"a\"\ntype = \"{ctype}\"\n")?;
    let text = format!(in alloc; "{CLUSTER}{column}{INDEX}{SECOND_INDEX}")?;
    Ok(Vec::from_slice(alloc, text.as_bytes())?)
}

// The files of this case, of which the second index's isn't there.
fn table_files(alloc: Global, kind: Kind, updated: bool) -> Result<UntoldFiles, Fail> {
    let text = table_case(alloc, kind)?;
    let mut files = table_of(kind, updated).files(alloc)?;
    files.add("case.toml", Part::Segment(0), text)?;
    Ok(files)
}

// What a run of the words over the files writes, whose status must be 0.
fn written(
    rt: &impl Abort,
    alloc: Global,
    words: &[&str],
    files: &mut UntoldFiles,
) -> Result<Vec<u8>, Fail> {
    let mut sink = MemSink::new(alloc, 16)?;
    let code = run_words(alloc, words, files, &mut sink)?;
    assert_eq!(rt; code, 0);
    Ok(Vec::from_slice(alloc, sink.bytes())?)
}

// Makes the second index, of which nothing may be found, nor of the first.
fn expect_clean(rt: &impl Abort, alloc: Global, files: &mut UntoldFiles) -> Result<(), Fail> {
    let index = written(rt, alloc, &["reindex", "case.toml", "t_b"], files)?;
    files.add("j", Part::Segment(0), index)?;
    let report = written(rt, alloc, &["all", "case.toml"], files)?;
    assert_eq!(rt; report.as_slice(), CLEAN.as_bytes());
    Ok(())
}

#[test]
fn indexes_of_many_rows_are_clean(rt: HostRuntime) -> Result<(), Fail> {
    let alloc = rt.alloc();
    for (kind, updated) in [(Kind::Uuid, false), (Kind::Int4, true), (Kind::Text, false)] {
        let mut files = table_files(alloc, kind, updated)?;
        expect_clean(&rt, alloc, &mut files)?;
    }
    Ok(())
}
