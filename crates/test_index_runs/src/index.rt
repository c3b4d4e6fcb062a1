//! Runs of `index` on small cases: sound indexes, each rule of an index that is judged page by page broken, and what
//! is refused.
use crate::expected::{NUMBER, TEXT, expect_each, expect_in_order, expect_index, expect_laid};
use crate::laid::{THREE, TWO_LEVELS, add_tree, files_of, heap_file, tree_file};
use memory_files::MemFiles;
use outside::Part;
use std::alloc::Global;
use std::process::Abort;
use std::test::Fail;
use test_run_fixtures::{CLUSTER, INDEX, INT_COLUMN, case_files, put_over};

// An index on a number whose order is descending.
const DESCENDING: &str = "[[column]]\nname = \"a\"\ntype = \"int4\"\n\
[[index]]\nname = \"t_a\"\nfile = \"i\"\n[[index.key]]\ncolumn = \"a\"\ndesc = true\n";

// A heap, the tree of an index on its number, and what is told.
const OF_NUMBERS: [(&str, &str, &str); 10] = [
    ("", "0:0:0:0", ""),
    ("", "1:0:1:0; :3", ""),
    ("5 7 9", THREE, ""),
    ("5 7 9", TWO_LEVELS, ""),
    // Lists of TIDs: in order, twice the same, item 0, and more of them than fit.
    ("7 7", "1:0:1:0; :3 7[1,2]2", ""),
    ("7 7", "1:0:1:0; :3 7[1,1]2", "B9 index 1 block 1 item 1"),
    ("7 7", "1:0:1:0; :3 7[1,0]2", "B9 index 1 block 1 item 1"),
    ("7 7", "1:0:1:0; :3 7[1,2]fff", "B9 index 1 block 1 item 1"),
    // The root leads to itself.
    ("5 7 9", "1:1:1:1; :1:2 ->1", "B13 index 1 block 1 item 1"),
    // A value past the end of its tuple.
    ("", "1:0:1:0; :3 0.1.8#", "B8 index 1 block 1 item 1"),
];

#[test]
fn indexes_on_numbers(rt: HostRuntime) -> Result<(), Fail> {
    for (heap, tree, told) in OF_NUMBERS {
        expect_laid(&rt, rt.alloc(), [NUMBER, heap, tree, told])?;
    }
    Ok(())
}

// The text of a case, its heap, its tree, and what is told.
const OF_OTHERS: [[&str; 4]; 3] = [
    // Null, 9 and -9 in a descending order, and null at the end.
    [
        DESCENDING,
        "? 9 2bc.0.0.3.1.900#f7ffffff",
        "1:0:1:0; :3 ?@1 9@2 0.3.10#f7ffffff",
        "",
    ],
    [
        DESCENDING,
        "? 9 2bc.0.0.3.1.900#f7ffffff",
        "1:0:1:0; :3 9@2 0.3.10#f7ffffff ?@1",
        "B10 index 1 block 1 item 3",
    ],
    // A compressed value.
    [
        TEXT,
        "2bc.0.0.1.1.902#320000000000000000000000",
        "1:0:1:0; :3 0.1.4018#320000000000000000000000",
        "U5 index 1 block 1 item 1",
    ],
];

#[test]
fn other_indexes(rt: HostRuntime) -> Result<(), Fail> {
    for row in OF_OTHERS {
        expect_laid(&rt, rt.alloc(), row)?;
    }
    Ok(())
}

// Runs `index` on a heap and a tree with bytes that are put over a block of it, and compares the report: the heap, the
// tree, and what is told.
fn expect_over(
    rt: &impl Abort,
    alloc: Global,
    row: [&str; 3],
    over: (u8, u16, &[u8]),
) -> Result<(), Fail> {
    let [heap, tree, told] = row;
    let mut index = tree_file(alloc, tree)?;
    put_over(&mut index, over.0, over.1, over.2);
    let mut files = files_of(alloc, [NUMBER, heap, tree])?;
    files.add("i", Part::Segment(0), index.as_slice())?;
    expect_index(rt, alloc, &mut files, told)
}

// What is told of TWO_LEVELS with a byte put over it: the block, the place, the byte.
const OVER: [(u8, u16, u8, &str); 21] = [
    // The metapage.
    (0, 24, 0x63, "M1 index 1 block 0"),
    (0, 32, 4, "M2 index 1 block 0"),
    (0, 40, 0, "M2 index 1 block 0"),
    (0, 18, 5, "P1 index 1 block 0"),
    (0, 28, 3, "U4 index 1 block 0"),
    // The other pages.
    (1, 8189, 2, "B1 index 1 block 1"),
    (1, 8188, 0, "B2 index 1 block 1"),
    (2, 8188, 17, "B3 index 1 block 2"),
    (1, 12, 24, "B4 index 1 block 1"),
    (1, 8180, 4, "B12 index 1 block 1; B12 index 1 block 2"),
    (2, 8176, 3, "B12 index 1 block 1; B12 index 1 block 2"),
    (2, 18, 5, "P1 index 1 block 2"),
    // A line pointer that is unused, a size that isn't the length, an item of the root that keeps no value, and a
    // pivot on a leaf.
    (2, 25, 0x1f, "B5 index 1 block 2 item 1"),
    (2, 8166, 24, "B6 index 1 block 2 item 1"),
    (3, 8156, 0, "B7 index 1 block 3 item 2"),
    (2, 8167, 0x20, "B7 index 1 block 2 item 1"),
    // Item 0 of a block.
    (2, 8164, 0, "B9 index 1 block 2 item 1"),
    // 8 before 7, an entry past the high key, and a downlink to the metapage, and to a page of its own level.
    (1, 8152, 8, "B10 index 1 block 1 item 3"),
    (1, 8168, 6, "B11 index 1 block 1 item 1"),
    (3, 8170, 0, "B13 index 1 block 3 item 1"),
    (3, 8154, 3, "B13 index 1 block 3 item 2"),
];

#[test]
fn rules_of_metapages_pages_and_items(rt: HostRuntime) -> Result<(), Fail> {
    for (block, at, byte, told) in OVER {
        let row = ["", TWO_LEVELS, told];
        expect_over(&rt, rt.alloc(), row, (block, at, &[byte]))?;
    }
    Ok(())
}

// The metapage says that the root has a level that no tree has.
#[test]
fn a_level_that_no_tree_has(rt: HostRuntime) -> Result<(), Fail> {
    let row = ["5 7 9", THREE, "L1 index 1 block 0"];
    expect_over(&rt, rt.alloc(), row, (0, 36, &[0xff, 0xff, 0xff, 0xff]))
}

// Runs `index` on a heap and a tree of which a file was cut to a length, and compares the report.
fn expect_cut(rt: &impl Abort, alloc: Global, row: [&str; 4], len: u64) -> Result<(), Fail> {
    let [heap, tree, file, told] = row;
    let mut files = files_of(alloc, [NUMBER, heap, tree])?;
    assert!(rt; files.cut(file, Part::Segment(0), len));
    expect_index(rt, alloc, &mut files, told)
}

const WITHOUT_HEAP: &str = "X2 index 1 block 1 item 1 tid 0 1; X2 index 1 block 1 item 2 tid 0 2; \
X2 index 1 block 1 item 3 tid 0 3";

// The heap, the tree, the file that is cut and what is told; and the length.
const CUT: [([&str; 4], u64); 3] = [
    (["", "0:0:0:0", "i", "M1 index 1 block 0"], 0),
    (["5 7 9", THREE, "i", "M2 index 1 block 0"], 8192),
    (["5 7 9", THREE, "t", WITHOUT_HEAP], 8191),
];

#[test]
fn files_that_were_cut(rt: HostRuntime) -> Result<(), Fail> {
    for (row, len) in CUT {
        expect_cut(&rt, rt.alloc(), row, len)?;
    }
    Ok(())
}

// The files of a case of two blocks a segment, with a heap of one row whose page has a flag that none has, and a tree
// of two leaves.
fn short_segments(alloc: Global) -> Result<MemFiles, Fail> {
    let text = format!(in alloc; "segment_blocks = 2\n{CLUSTER}{INT_COLUMN}{INDEX}")?;
    let heap = heap_file(alloc, "7 :8", 1)?;
    let mut files = case_files(alloc, text.as_str(), &heap)?;
    add_tree(alloc, &mut files, "i", "1:0:1:0; :3; :3")?;
    Ok(files)
}

#[test]
fn the_heap_comes_first(rt: HostRuntime) -> Result<(), Fail> {
    let told = "P2 heap block 0; S1 index 1 segment 0";
    let mut files = short_segments(rt.alloc())?;
    expect_index(&rt, rt.alloc(), &mut files, told)
}

// Words, the status and what is written.
const REFUSED: [(&str, u8, &str); 7] = [
    ("index|case.toml|t_a|t_a", 3, "refused usage\n"),
    ("index|case.toml", 3, "refused usage\n"),
    ("index||t_a", 3, "refused usage\n"),
    ("index|case.toml|", 3, "refused usage\n"),
    ("index|case.toml|nosuch", 4, "refused case C5 index.name\n"),
    ("index|none.toml|t_a", 5, "refused no file none.toml\n"),
    ("index|t|t_a", 4, "refused case C2 cluster\n"),
];

#[test]
fn words_and_names_are_refused(rt: HostRuntime) -> Result<(), Fail> {
    let mut files = files_of(rt.alloc(), [NUMBER, "", "0:0:0:0"])?;
    expect_each(&rt, rt.alloc(), &mut files, &REFUSED)
}

// A TOAST table, and an index on a number.
const TOAST_AND_INDEX: &str = "toast_file = \"tt\"\ntoast_oid = 16400\n\
[[column]]\nname = \"a\"\ntype = \"int4\"\n\
[[index]]\nname = \"t_a\"\nfile = \"i\"\n[[index.key]]\ncolumn = \"a\"\n";

#[test]
fn files_are_refused_in_order(rt: HostRuntime) -> Result<(), Fail> {
    let line = "index|case.toml|t_a";
    let mut files = expect_in_order(&rt, rt.alloc(), TOAST_AND_INDEX, line, "t|tt|i")?;
    expect_index(&rt, rt.alloc(), &mut files, "M1 index 1 block 0")
}
