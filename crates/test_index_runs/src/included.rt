//! Runs of `index` where the index includes a column: its values are compared with those of the row, as values.
use crate::expected::{expect, expect_laid};
use crate::laid::files_of;
use std::test::Fail;

// A number and a text, and an index on the number that includes the text.
const INCLUDED: &str =
    "[[column]]\nname = \"a\"\ntype = \"int4\"\n[[column]]\nname = \"b\"\ntype = \"text\"\n\
[[index]]\nname = \"t_a\"\nfile = \"i\"\ninclude = [\"b\"]\n[[index.key]]\ncolumn = \"a\"\n";

// The same where the column that it includes isn't there.
const NOT_THERE: &str =
    "[[column]]\nname = \"a\"\ntype = \"int4\"\n[[column]]\nname = \"b\"\ntype = \"text\"\n\
[[index]]\nname = \"t_a\"\nfile = \"i\"\ninclude = [\"z\"]\n[[index.key]]\ncolumn = \"a\"\n";

// The row of 5 and the text hi, and one leaf with its entry.
const FIVE_HI: &str = "2bc.0.0.1.2.902#05000000076869";

const ENTRY: &str = "1:0:1:0; :3 0.1.4010#05000000076869";

// The rows of 5 and of 7 with the text hi.
const TWO_ROWS: &str = "2bc.0.0.1.2.902#05000000076869 2bc.0.0.2.2.902#07000000076869";

// A heap, its tree, and what is told.
const LAID: [(&str, &str, &str); 8] = [
    (FIVE_HI, ENTRY, ""),
    // The entry has the text ho.
    (
        FIVE_HI,
        "1:0:1:0; :3 0.1.4010#0500000007686f",
        "X1 index 1 tuple 0 1",
    ),
    // The row's text has a header of four bytes.
    ("2bc.0.0.1.2.902#05000000180000006869", ENTRY, ""),
    // It is compressed.
    (
        "2bc.0.0.1.2.902#05000000320000000000000000000000",
        ENTRY,
        "U6 index 1 tuple 0 1",
    ),
    // Both values of the row are null, as those of its entry; a null isn't an empty text.
    ("2bc.0.0.1.2.901#", "1:0:1:0; :3 ?@1", ""),
    (
        "2bc.0.0.1.2.901#",
        "1:0:1:0; :3 0.1.c018#020000000000000003",
        "X1 index 1 tuple 0 1",
    ),
    // A high key with the included value, and one that keeps the columns of the key alone.
    (
        TWO_ROWS,
        "3:1:3:1; :2:0:1 0.2.6010#07000000076869 0.1.4010#05000000076869; \
1:0:0:1 0.2.4010#07000000076869; :1:2 ->1 7>2",
        "B7 index 1 block 1 item 1",
    ),
    (
        TWO_ROWS,
        "3:1:3:1; :2:0:1 7> 0.1.4010#05000000076869; 1:0:0:1 0.2.4010#07000000076869; :1:2 ->1 7>2",
        "",
    ),
];

#[test]
fn included_values(rt: HostRuntime) -> Result<(), Fail> {
    for (heap, tree, told) in LAID {
        expect_laid(&rt, rt.alloc(), [INCLUDED, heap, tree, told])?;
    }
    Ok(())
}

#[test]
fn an_included_column_that_is_not_there(rt: HostRuntime) -> Result<(), Fail> {
    let mut files = files_of(rt.alloc(), [NOT_THERE, FIVE_HI, ENTRY])?;
    let refused = (4, "refused case C5 index[0].include[0]\n");
    expect(&rt, rt.alloc(), "index|case.toml|t_a", &mut files, refused)
}
