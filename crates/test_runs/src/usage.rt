//! Words, files and cases that are refused; single pages; and calls that fail.
use crate::expected::{Run, expect, expect_first_put, expect_heap, expect_runs};
use cmd_line::HELP;
use memory_files::MemFiles;
use outside::Part;
use std::alloc::Global;
use std::process::Abort;
use std::test::Fail;
use test_run_fixtures::{
    CLEAN, CLUSTER, INT_COLUMN, Item, LIVE, THREE, Tuple, case_files, index_file, page_of,
};

const THREE_TUPLES: [Item<'static>; 3] = [
    Item::Tuple(LIVE),
    Item::Tuple(Tuple { item: 2, ..LIVE }),
    Item::Tuple(Tuple { item: 3, ..LIVE }),
];

// A heap page with three live tuples.
fn three_tuples() -> [u8; 8192] {
    page_of(0, &THREE_TUPLES)
}

// A page of zeros but for one byte.
fn written_new_page() -> [u8; 8192] {
    let mut page = [0u8; 8192];
    page[8000] = 1;
    page
}

// Files of single pages: `t` has one with three live tuples, and `p` one of zeros but for one byte.
fn page_files(alloc: Global) -> Result<MemFiles, Fail> {
    let mut files = MemFiles::new(alloc);
    files.add("t", Part::Segment(0), &three_tuples())?;
    files.add("p", Part::Segment(0), &written_new_page())?;
    Ok(files)
}

const PAGES: [Run; 5] = [
    (&["pages", "t"], 0, CLEAN),
    (
        &["pages", "astray"],
        1,
        "finding H1 heap block 0 item 2\nfindings 1 unjudged 0\nverdict findings\n",
    ),
    (&["pages", "e"], 0, CLEAN),
    (
        &["pages", "p"],
        1,
        "finding P4 heap block 0\nfindings 1 unjudged 0\nverdict findings\n",
    ),
    (&["pages", "q"], 5, "refused no file q\n"),
];

// The storage of the second tuple of `astray` begins a byte too far, and `e` is empty.
#[test]
fn pages_of_a_file(rt: HostRuntime) -> Result<(), Fail> {
    let alloc = rt.alloc();
    let mut astray = three_tuples();
    astray[28] = 0xc1;
    let mut files = page_files(alloc)?;
    files.add("astray", Part::Segment(0), &astray)?;
    files.add("e", Part::Segment(0), &[])?;
    expect_runs(&rt, alloc, &mut files, &PAGES)
}

// Adds a file of 16385 blocks.
fn add_large(alloc: Global, files: &mut MemFiles, base: &str) -> Result<(), Fail> {
    let many = vec![in alloc; 0u8; 16385 * 8192]?;
    files.add(base, Part::Segment(0), &many)?;
    Ok(())
}

const TOO_LARGE: [Run; 2] = [
    (
        &["pages", "b"],
        6,
        "refused too large b blocks 16385 limit 16384\n",
    ),
    (
        &["show", "heap", "b", "16385"],
        6,
        "refused too large b blocks 16385 limit 16384\n",
    ),
];

#[test]
fn a_file_that_is_too_large(rt: HostRuntime) -> Result<(), Fail> {
    let alloc = rt.alloc();
    let mut files = MemFiles::new(alloc);
    add_large(alloc, &mut files, "b")?;
    expect_runs(&rt, alloc, &mut files, &TOO_LARGE)
}

const NO_WORDS: [&[&str]; 17] = [
    &[],
    &["heap"],
    &["pages", ""],
    &["show", "heap", "t", "00"],
    &["show", "heap", "t", "+0"],
    &["show", "heap", "t", "4294967296"],
    &["show", "heap", "t", ""],
    &["show", "heap", "", "0"],
    &["show", "map", "t", "0"],
    &["Show", "heap", "t", "0"],
    &["show", "heap", "t", "--help"],
    &["show", "heap", "t"],
    &["show", "heap", "t", "0", "0"],
    &["--help", "heap"],
    &["--version", ""],
    &["-h"],
    &["help"],
];

#[test]
fn words_are_refused(rt: HostRuntime) -> Result<(), Fail> {
    let alloc = rt.alloc();
    let mut files = page_files(alloc)?;
    for words in NO_WORDS {
        expect(&rt, alloc, words, &mut files, (3, "refused usage\n"))?;
    }
    Ok(())
}

#[test]
fn the_program_says_what_it_is(rt: HostRuntime) -> Result<(), Fail> {
    let alloc = rt.alloc();
    let mut files = MemFiles::new(alloc);
    expect(&rt, alloc, &["--help"], &mut files, (0, HELP))?;
    expect(
        &rt,
        alloc,
        &["--version"],
        &mut files,
        (0, "kamzudrev 0.9\n"),
    )
}

#[test]
fn a_put_that_fails_leaves_a_first_part(rt: HostRuntime) -> Result<(), Fail> {
    let alloc = rt.alloc();
    let mut files = page_files(alloc)?;
    expect_first_put(&rt, alloc, &["pages", "t"], &mut files)
}

// Where a case's text is changed.
#[derive(Clone, Copy)]
enum Place {
    // At its top.
    Top,
    // In the line of the oldest transaction.
    Oldest,
    // In the table of the heap.
    Heap,
    // In the line of the column's type.
    Type,
}

// A whole case text with this text at a place.
fn case_text(alloc: Global, place: Place, text: &str) -> Result<String, Fail> {
    let oldest = "oldest_xid = 3\n";
    let int = "type = \"int4\"\n";
    let (top, oldest, heap, column) = match place {
        Place::Top => (text, oldest, "", int),
        Place::Oldest => ("", text, "", int),
        Place::Heap => ("", oldest, text, int),
        Place::Type => ("", oldest, "", text),
    };
    let whole = format!(in alloc;
        "{top}[cluster]\nnext_xid = 1000\n{oldest}next_multi = 10\noldest_multi = 1\n\
next_member = 100\nxact = \"xact\"\noffsets = \"offsets\"\nmembers = \"members\"\n[heap]\nfile = \"t\"\n{heap}\
[[column]]\nname = \"a\"\n{column}"
    )?;
    Ok(whole)
}

// Runs `heap` on this case, and compares what is refused of it.
fn expect_refused(rt: &impl Abort, alloc: Global, text: &str, want: &str) -> Result<(), Fail> {
    let refusal = format!(in alloc; "refused case {want}\n")?;
    let mut files = case_files(alloc, text, &[])?;
    let words = ["heap", "case.toml"];
    expect(rt, alloc, &words, &mut files, (4, refusal.as_str()))
}

// A place, the text there, and the refusal.
const CASES: [(Place, &str, &str); 16] = [
    (Place::Top, "a = ", "C1 text"),
    (Place::Oldest, "", "C2 cluster.oldest_xid"),
    (Place::Heap, "toast_oid = 1\n", "C2 heap.toast_file"),
    (Place::Type, "", "C2 column[0].type"),
    (Place::Top, "segment_blocks = true\n", "C3 segment_blocks"),
    (Place::Top, "index = 1\n", "C3 index"),
    (Place::Top, "segment_blocks = 0\n", "C4 segment_blocks"),
    (Place::Top, "segment_blocks = 131073\n", "C4 segment_blocks"),
    (Place::Oldest, "oldest_xid = 2\n", "C4 cluster.oldest_xid"),
    (
        Place::Type,
        "type = \"int4\"\nmissing = \"0g\"\n",
        "C4 column[0].missing",
    ),
    (Place::Type, "type = \"real\"\n", "C5 column[0].type"),
    (Place::Type, "type = \"Oid\"\n", "C5 column[0].type"),
    (Place::Top, "colour = 1\n", "C6 top"),
    (Place::Heap, "colour = 1\n", "C6 heap"),
    (Place::Type, "type = \"int4\"\nlen = 4\n", "C6 column[0]"),
    (Place::Oldest, "oldest_xid = 2000\n", "C7 cluster"),
];

#[test]
fn cases_are_refused(rt: HostRuntime) -> Result<(), Fail> {
    let alloc = rt.alloc();
    for (place, text, want) in CASES {
        let case = case_text(alloc, place, text)?;
        expect_refused(&rt, alloc, case.as_str(), want)?;
    }
    Ok(())
}

#[test]
fn numbers_of_a_cluster_go_round(rt: HostRuntime) -> Result<(), Fail> {
    let alloc = rt.alloc();
    let text = format!(in alloc;
        "[cluster]\nnext_xid = 10\noldest_xid = 4294967000\nnext_multi = 10\n\
oldest_multi = 1\nnext_member = 100\nxact = \"xact\"\noffsets = \"offsets\"\nmembers = \"members\"\n\
[heap]\nfile = \"t\"\n{INT_COLUMN}"
    )?;
    let heap = page_of(0, &[Item::Tuple(Tuple { xmin: 9, ..LIVE })]);
    let mut files = case_files(alloc, text.as_str(), &heap)?;
    expect_heap(&rt, alloc, &mut files, "")
}

// Files with the case of a table `t`, which isn't there.
fn without_heap(alloc: Global) -> Result<MemFiles, Fail> {
    let text = format!(in alloc; "{CLUSTER}{INT_COLUMN}")?;
    let mut files = MemFiles::new(alloc);
    files.add("case.toml", Part::Segment(0), text.as_bytes())?;
    Ok(files)
}

// Adds a case of a byte too many.
fn add_long_case(alloc: Global, files: &mut MemFiles) -> Result<(), Fail> {
    let long = vec![in alloc; b'#'; 1_048_577]?;
    files.add("long.toml", Part::Segment(0), &long)?;
    Ok(())
}

const ABSENT: [Run; 2] = [
    (&["heap", "case.toml"], 5, "refused no file t\n"),
    (&["heap", "none.toml"], 5, "refused no file none.toml\n"),
];

#[test]
fn files_of_a_case_that_are_not_there(rt: HostRuntime) -> Result<(), Fail> {
    let alloc = rt.alloc();
    let mut files = without_heap(alloc)?;
    expect_runs(&rt, alloc, &mut files, &ABSENT)
}

const SIZES: [Run; 2] = [
    (&["heap", "case.toml"], 0, CLEAN),
    (
        &["heap", "long.toml"],
        6,
        "refused too large long.toml bytes 1048577 limit 1048576\n",
    ),
];

#[test]
fn sizes_of_files_of_a_case(rt: HostRuntime) -> Result<(), Fail> {
    let alloc = rt.alloc();
    let mut files = without_heap(alloc)?;
    add_large(alloc, &mut files, "t")?;
    add_long_case(alloc, &mut files)?;
    expect_runs(&rt, alloc, &mut files, &SIZES)
}

const HEAP_PAGE: &str =
    "page lsn 0 0 checksum 0 flags 0000 lower 36 upper 8096 special 8192 version 2004 prune 0\n\
item 1 normal off 8160 len 28 xmin 700 xmax 0 field3 0 ctid 0 1 infomask2 0001 infomask 0900 hoff 24\n\
item 2 normal off 8128 len 28 xmin 700 xmax 0 field3 0 ctid 0 2 infomask2 0001 infomask 0900 hoff 24\n\
item 3 normal off 8096 len 28 xmin 700 xmax 0 field3 0 ctid 0 3 infomask2 0001 infomask 0900 hoff 24\n";

const METAPAGE: &str = "meta magic 00053162 version 4 root 1 level 0 fastroot 1 fastlevel 0\n";

const LEAF: &str = "page prev 0 next 0 level 0 flags 0003 lower 36 upper 8128 special 8176\n\
item 1 normal off 8160 len 16 tid 0 1 info 0010 plain\n\
item 2 normal off 8144 len 16 tid 0 2 info 0010 plain\n\
item 3 normal off 8128 len 16 tid 0 3 info 0010 plain\n";

const SHOWN: [Run; 8] = [
    (&["show", "heap", "t", "0"], 0, HEAP_PAGE),
    (&["show", "heap", "t", "1"], 10, "refused no block 1 of 1\n"),
    (&["show", "tree", "i", "0"], 0, METAPAGE),
    (&["show", "tree", "i", "1"], 0, LEAF),
    (&["show", "tree", "i", "2"], 10, "refused no block 2 of 2\n"),
    (&["show", "heap", "p", "0"], 0, "page rule P4\n"),
    (
        &["show", "heap", "part", "0"],
        10,
        "refused no block 0 of 0\n",
    ),
    (
        &["show", "tree", "q", "4294967295"],
        5,
        "refused no file q\n",
    ),
];

// The same files with an index of one leaf, and a file of a part of a page.
fn shown_files(alloc: Global) -> Result<MemFiles, Fail> {
    let tree = index_file(alloc, &[THREE])?;
    let mut files = page_files(alloc)?;
    files.add("i", Part::Segment(0), tree.as_slice())?;
    files.add("part", Part::Segment(0), &[0u8; 8191])?;
    Ok(files)
}

#[test]
fn pages_that_are_shown(rt: HostRuntime) -> Result<(), Fail> {
    let alloc = rt.alloc();
    let mut files = shown_files(alloc)?;
    expect_runs(&rt, alloc, &mut files, &SHOWN)
}

// No block but the one that is shown is read.
#[test]
fn one_block_is_read_to_be_shown(rt: HostRuntime) -> Result<(), Fail> {
    let alloc = rt.alloc();
    let words = ["show", "tree", "i", "1"];
    let mut files = shown_files(alloc)?;
    for (read, code, text) in [(1, 7, ""), (2, 0, LEAF)] {
        files.fail_read(read)?;
        expect(&rt, alloc, &words, &mut files, (code, text))?;
    }
    Ok(())
}
