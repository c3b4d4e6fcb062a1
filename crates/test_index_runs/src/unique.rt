//! Runs of `index` where the index is unique: no live row has the key of another.
use crate::expected::{NUMBER, expect_index, expect_laid};
use crate::laid::{THREE, TWO_LEVELS, add_tree, heap_file, heap_files};
use std::alloc::Global;
use std::process::Abort;
use std::test::Fail;

const UNIQUE: &str = "[[column]]\nname = \"a\"\ntype = \"int4\"\n\
[[index]]\nname = \"t_a\"\nfile = \"i\"\nunique = true\n[[index.key]]\ncolumn = \"a\"\n";

// The same where nulls are equal, and where they would be if the index were unique.
const EQUAL_NULLS: &str = "[[column]]\nname = \"a\"\ntype = \"int4\"\n\
[[index]]\nname = \"t_a\"\nfile = \"i\"\nunique = true\nnulls_not_distinct = true\n[[index.key]]\ncolumn = \"a\"\n";

const NOT_UNIQUE: &str = "[[column]]\nname = \"a\"\ntype = \"int4\"\n\
[[index]]\nname = \"t_a\"\nfile = \"i\"\nnulls_not_distinct = true\n[[index.key]]\ncolumn = \"a\"\n";

// The text of a case, its heap, its tree, and what is told.
const LAID: [[&str; 4]; 9] = [
    [UNIQUE, "7 7", "1:0:1:0; :3 7@1 7@2", "X3 index 1 tuple 0 2"],
    [NUMBER, "7 7", "1:0:1:0; :3 7@1 7@2", ""],
    [
        UNIQUE,
        "7 7 7",
        "1:0:1:0; :3 7@1 7@2 7@3",
        "X3 index 1 tuple 0 2; X3 index 1 tuple 0 3",
    ],
    // Where a row has no entry, keys aren't asked.
    [
        UNIQUE,
        "7 7 7",
        "1:0:1:0; :3 7@1 7@2",
        "X1 index 1 tuple 0 3",
    ],
    // A version that another transaction deleted is no live row.
    [
        UNIQUE,
        "2bc.2bd.0.1.1.500#07000000 7",
        "1:0:1:0; :3 7@1 7@2",
        "",
    ],
    // Nor is one that a member of a multixact updated, on the page of its successor.
    [
        UNIQUE,
        "2bc.5.0.2.4001.1100#07000000 2c8.0.0.2.8001.2800#09000000",
        "1:0:1:0; :3 9@1",
        "",
    ],
    [UNIQUE, "? ?", "1:0:1:0; :3 ?@1 ?@2", ""],
    [
        EQUAL_NULLS,
        "? ?",
        "1:0:1:0; :3 ?@1 ?@2",
        "X3 index 1 tuple 0 2",
    ],
    [NOT_UNIQUE, "? ?", "1:0:1:0; :3 ?@1 ?@2", ""],
];

#[test]
fn keys_of_a_page(rt: HostRuntime) -> Result<(), Fail> {
    for row in LAID {
        expect_laid(&rt, rt.alloc(), row)?;
    }
    Ok(())
}

// Two leaves of one entry of 7 each, and their root. The high key of the first keeps the TID of its entry.
const SEVEN_TWICE: &str = "3:1:3:1; :2:0:1 7+1> 7@1; 1:0:0:1 1.1.10#07000000; :1:2 ->1 7+1>2";

// How many blocks the heap has, its pages with rows, the tree, and what is told. In a heap of two blocks rows are
// looked up, and in one of 64 entries meet them.
const ON_BLOCKS: [(u16, [&str; 3]); 7] = [
    // The first entry is the last of its leaf, and the second the first of the next one; the rows are on two pages.
    (
        2,
        [
            "7; 2bc.0.1.1.1.900#07000000",
            SEVEN_TWICE,
            "X3 index 1 tuple 1 1",
        ],
    ),
    (
        64,
        [
            "7; 2bc.0.1.1.1.900#07000000",
            SEVEN_TWICE,
            "X3 index 1 tuple 1 1",
        ],
    ),
    // Where entries meet rows it is also told of each leaf whether its keys differ.
    (64, ["5 7 9", THREE, ""]),
    (64, ["5 7 9", TWO_LEVELS, ""]),
    // Equal keys of two items, and of one that lists their TIDs.
    (64, ["7 7", "1:0:1:0; :3 7@1 7@2", "X3 index 1 tuple 0 2"]),
    (64, ["7 7", "1:0:1:0; :3 7[1,2]2", "X3 index 1 tuple 0 2"]),
    // The entry of a row beside a killed one with its key.
    (64, ["3~0 7", "1:0:1:0; :3 7!1 7@2", ""]),
];

// Runs `index` over a heap of so many blocks with a unique index, and compares the report.
fn expect_on_blocks(
    rt: &impl Abort,
    alloc: Global,
    blocks: u16,
    row: [&str; 3],
) -> Result<(), Fail> {
    let [heap, tree, told] = row;
    let heap = heap_file(alloc, heap, blocks)?;
    let mut files = heap_files(alloc, UNIQUE, &heap)?;
    add_tree(alloc, &mut files, "i", tree)?;
    expect_index(rt, alloc, &mut files, told)
}

#[test]
fn equal_keys_by_look_ups_and_by_entries(rt: HostRuntime) -> Result<(), Fail> {
    for (blocks, row) in ON_BLOCKS {
        expect_on_blocks(&rt, rt.alloc(), blocks, row)?;
    }
    Ok(())
}
