//! Runs of `index` and `all` on a heap and its indexes together: rows without an entry, keys that can't be read,
//! entries that name what none may, and what is refused.
use crate::expected::{
    NUMBER, TEXT, expect_each, expect_in_order, expect_index, expect_laid, expect_report,
};
use crate::laid::{THREE, add_tree, files_of, heap_file, heap_files};
use memory_files::{MemFiles, MemSink};
use outside::Part;
use std::alloc::Global;
use std::process::Abort;
use std::test::Fail;
use test_fixtures::{Kind, Table, UntoldFiles, Wrong, put};
use test_run_fixtures::{CLEAN, CLUSTER, INDEX, INT_COLUMN, run_words};

// A flag and a text, which the index is on.
const BOOL_AND_KEY: &str =
    "[[column]]\nname = \"b\"\ntype = \"bool\"\n[[column]]\nname = \"a\"\ntype = \"text\"\n\
[[index]]\nname = \"t_a\"\nfile = \"i\"\n[[index.key]]\ncolumn = \"a\"\n";

// Two indexes on a number.
const TWICE: &str = "[[column]]\nname = \"a\"\ntype = \"int4\"\n\
[[index]]\nname = \"t_a\"\nfile = \"i\"\n[[index.key]]\ncolumn = \"a\"\n\
[[index]]\nname = \"t_b\"\nfile = \"j\"\n[[index.key]]\ncolumn = \"a\"\n";

// A row that a member of multixact 5 updated, on the page of its successor, and its successor.
const UPDATED_BY_MEMBER: &str = "2bc.5.0.2.4001.1100#07000000 2c8.0.0.2.8001.2800#09000000";

// A heap, the tree of an index on its number, and what is told.
const OF_NUMBERS: [(&str, &str, &str); 8] = [
    ("5 7 9", THREE, ""),
    ("5 7 9", "1:0:1:0; :3 5@1 9@3", "X1 index 1 tuple 0 2"),
    ("5 7 9", "1:0:1:0; :3 5@1 8@2 9@3", "X1 index 1 tuple 0 2"),
    (
        "5 7 9",
        "1:0:1:0; :3",
        "X1 index 1 tuple 0 1; X1 index 1 tuple 0 2; X1 index 1 tuple 0 3",
    ),
    // A redirect to a tuple at item 4, which index entries don't name.
    (
        "2~4 0~0 0~0 2bd.0.0.4.8001.2900#07000000",
        "1:0:1:0; :3 7@1",
        "",
    ),
    (
        "2~4 0~0 0~0 2bd.0.0.4.8001.2900#07000000",
        "1:0:1:0; :3 7@4",
        "X1 index 1 tuple 0 4; X2 index 1 block 1 item 1 tid 0 4",
    ),
    // A killed entry is none.
    ("7", "1:0:1:0; :3 7!1", "X1 index 1 tuple 0 1"),
    // The updater in a multixact committed, so that 9 is live and found from item 1.
    (UPDATED_BY_MEMBER, "1:0:1:0; :3 9@1", ""),
];

#[test]
fn numbers_and_their_entries(rt: HostRuntime) -> Result<(), Fail> {
    for (heap, tree, told) in OF_NUMBERS {
        expect_laid(&rt, rt.alloc(), [NUMBER, heap, tree, told])?;
    }
    Ok(())
}

// The text of a case, its heap, its tree, and what is told.
const OF_TEXTS: [[&str; 4]; 3] = [
    // A compressed key is in doubt, and the row after it is still looked up.
    [
        TEXT,
        "2bc.0.0.1.1.902#320000000000000000000000 2bc.0.0.2.1.902#076869",
        "1:0:1:0; :3 0.2.4010#076869",
        "U6 index 1 tuple 0 1",
    ],
    [
        TEXT,
        "2bc.0.0.1.1.902#320000000000000000000000 2bc.0.0.2.1.902#076869",
        "1:0:1:0; :3",
        "X1 index 1 tuple 0 2; U6 index 1 tuple 0 1",
    ],
    // The same text with a header of one byte and with one of four.
    [
        BOOL_AND_KEY,
        "2bc.0.0.1.2.902#01076869 2bc.0.0.2.2.902#01000000180000006869",
        "1:0:1:0; :3 0.1.4010#076869 0.2.4010#076869",
        "",
    ],
];

#[test]
fn texts_and_their_entries(rt: HostRuntime) -> Result<(), Fail> {
    for row in OF_TEXTS {
        expect_laid(&rt, rt.alloc(), row)?;
    }
    Ok(())
}

// Where the updater in a multixact didn't commit, 7 is live.
#[test]
fn an_updater_that_did_not_commit(rt: HostRuntime) -> Result<(), Fail> {
    let row = [NUMBER, UPDATED_BY_MEMBER, "1:0:1:0; :3 9@1"];
    let mut files = files_of(rt.alloc(), row)?;
    let mut log = [0x55u8; 8192];
    put(&mut log, 178, &[0x56]);
    files.add("xact", Part::Slru(0), &log)?;
    expect_index(&rt, rt.alloc(), &mut files, "X1 index 1 tuple 0 1")
}

// A type of key, and two of its numbers, the lower one first: an oid has no sign, a date and a time have one.
const COUNTED: [[&str; 3]; 4] = [
    ["oid", "07000000", "00000080"],
    ["date", "00000080", "07000000"],
    ["timestamp", "0000000000000080", "0700000000000000"],
    ["timestamptz", "ffffffffffffffff", "0000000000000000"],
];

// Runs `index` on rows of the higher and of the lower number of a type, and their entries.
fn expect_counted(rt: &impl Abort, alloc: Global, row: [&str; 3]) -> Result<(), Fail> {
    let [ctype, low, high] = row;
    let text = format!(in alloc; "[[column]]\nname = \"a\"\ntype = \"{ctype}\"\n{INDEX}")?;
    let heap = format!(in alloc; "2bc.0.0.1.1.900#{high} 2bc.0.0.2.1.900#{low}")?;
    let tree = format!(in alloc; "1:0:1:0; :3 0.2.10#{low} 0.1.10#{high}")?;
    expect_laid(rt, alloc, [text.as_str(), heap.as_str(), tree.as_str(), ""])
}

#[test]
fn oids_dates_and_times(rt: HostRuntime) -> Result<(), Fail> {
    for row in COUNTED {
        expect_counted(&rt, rt.alloc(), row)?;
    }
    Ok(())
}

// Runs `all` on a heap with two indexes: the heap, their trees, and what is told.
fn expect_both(rt: &impl Abort, alloc: Global, row: [&str; 4]) -> Result<(), Fail> {
    let [heap, first, second, told] = row;
    let mut files = files_of(alloc, [TWICE, heap, first])?;
    add_tree(alloc, &mut files, "j", second)?;
    expect_report(rt, alloc, "all|case.toml", &mut files, told)
}

const BOTH: [[&str; 4]; 6] = [
    ["5 7 9", THREE, THREE, ""],
    [
        "5 7 9",
        "1:0:1:0; :3 7@2 9@3",
        THREE,
        "X1 index 1 tuple 0 1",
    ],
    [
        "5 7 9",
        THREE,
        "1:0:1:0; :3 5@1 7@2",
        "X1 index 2 tuple 0 3",
    ],
    [
        "5 7 9",
        "1:0:1:0; :3 7@2 9@3",
        "1:0:1:0; :3 5@1 7@2",
        "X1 index 1 tuple 0 1; X1 index 2 tuple 0 3",
    ],
    // A tree that breaks a rule of its own isn't joined with the heap; the other one is.
    [
        "5 7 9",
        "1:0:1:0; :3 5@1 9@3; :3",
        "1:0:1:0; :3 5@1 9@3",
        "L9 index 1 block 2; X1 index 2 tuple 0 2",
    ],
    // Of a heap that breaks a rule no row is looked up.
    ["5 7 9 :8", "1:0:1:0; :3", THREE, "P2 heap block 0"],
];

#[test]
fn each_of_two_indexes_is_judged(rt: HostRuntime) -> Result<(), Fail> {
    for row in BOTH {
        expect_both(&rt, rt.alloc(), row)?;
    }
    Ok(())
}

// Runs `all` on a heap without indexes, and compares its report.
fn expect_heap(rt: &impl Abort, alloc: Global, row: [&str; 2]) -> Result<(), Fail> {
    let [heap, told] = row;
    let heap = heap_file(alloc, heap, 1)?;
    let mut files = heap_files(alloc, INT_COLUMN, &heap)?;
    expect_report(rt, alloc, "all|case.toml", &mut files, told)
}

#[test]
fn a_case_without_indexes(rt: HostRuntime) -> Result<(), Fail> {
    for row in [["5 7 9", ""], ["5 7 9 :8", "P2 heap block 0"]] {
        expect_heap(&rt, rt.alloc(), row)?;
    }
    Ok(())
}

// The files of 5000 rows of a uuid on 50 blocks, with an index of 20 leaves under a root.
fn many_blocks(alloc: Global) -> Result<UntoldFiles, Fail> {
    let table = Table {
        kind: Kind::Uuid,
        across: 1,
        down: 5000,
        on_block: 100,
        on_leaf: 250,
        updated: false,
        wrong: Wrong::Nothing,
    };
    let mut files = table.files(alloc)?;
    let column = "[[column]]\nname = \"a\"\ntype = \"uuid\"\n";
    let text = format!(in alloc; "{CLUSTER}{column}{INDEX}")?;
    let text = Vec::from_slice(alloc, text.as_bytes())?;
    files.add("case.toml", Part::Segment(0), text)?;
    Ok(files)
}

#[test]
fn a_table_of_many_blocks(rt: HostRuntime) -> Result<(), Fail> {
    let alloc = rt.alloc();
    let mut files = many_blocks(alloc)?;
    let mut sink = MemSink::new(alloc, 16)?;
    let code = run_words(alloc, &["all", "case.toml"], &mut files, &mut sink)?;
    assert_eq!(rt; code, 0);
    assert_eq!(rt; sink.bytes(), CLEAN.as_bytes());
    Ok(())
}

// Words, the status and what is written.
const REFUSED: [(&str, u8, &str); 4] = [
    ("all", 3, "refused usage\n"),
    ("all|", 3, "refused usage\n"),
    ("all|case.toml|t_a", 3, "refused usage\n"),
    ("all|none.toml", 5, "refused no file none.toml\n"),
];

#[test]
fn words_of_all_are_refused(rt: HostRuntime) -> Result<(), Fail> {
    let mut files = MemFiles::new(rt.alloc());
    expect_each(&rt, rt.alloc(), &mut files, &REFUSED)
}

// A TOAST table, and two indexes on a number.
const TOAST_AND_TWICE: &str = "toast_file = \"tt\"\ntoast_oid = 16400\n\
[[column]]\nname = \"a\"\ntype = \"int4\"\n\
[[index]]\nname = \"t_a\"\nfile = \"i\"\n[[index.key]]\ncolumn = \"a\"\n\
[[index]]\nname = \"t_b\"\nfile = \"j\"\n[[index.key]]\ncolumn = \"a\"\n";

// Each file is asked for before any is judged.
#[test]
fn files_of_all_are_refused_in_order(rt: HostRuntime) -> Result<(), Fail> {
    let line = "all|case.toml";
    let mut files = expect_in_order(&rt, rt.alloc(), TOAST_AND_TWICE, line, "t|tt|i|j")?;
    let told = "M1 index 1 block 0; M1 index 2 block 0";
    expect_report(&rt, rt.alloc(), line, &mut files, told)
}
