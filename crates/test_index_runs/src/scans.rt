//! Runs of `scan`: over the case file and the index's file alone, so that a run that asks for another one is refused.
use crate::expected::{NUMBER, TWO_NUMBERS, expect, expect_each};
use crate::laid::{THREE, add_tree, case_alone};
use crate::levels::{DEAD_FIRST, EQUAL_KEYS, LOST_TID, OF_TWO_NUMBERS};
use std::alloc::Global;
use std::process::Abort;
use std::test::Fail;

// Runs `scan` of an index, and compares what is answered and written: the text of the case, the tree, and two bounds
// and a direction with `|` between them.
fn expect_scan(
    rt: &impl Abort,
    alloc: Global,
    row: [&str; 3],
    want: (u8, &str),
) -> Result<(), Fail> {
    let [text, tree, words] = row;
    let mut files = case_alone(alloc, text)?;
    add_tree(alloc, &mut files, "i", tree)?;
    let line = format!(in alloc; "scan|case.toml|t_a|{words}")?;
    expect(rt, alloc, line.as_str(), &mut files, want)
}

// The text of the case, the tree, the bounds and the direction, the status and what is written.
const SCANS: [([&str; 3], u8, &str); 8] = [
    (
        [NUMBER, EQUAL_KEYS, "ge:7|le:7|backward"],
        0,
        "entry 7 tid 0 3\nentry 7 tid 0 2\nentry 7 tid 0 1\nentries 3\n",
    ),
    (
        [TWO_NUMBERS, OF_TWO_NUMBERS, "gt:4|-|forward"],
        0,
        "entry 5,1 tid 0 3\nentry 5,3 tid 0 4\nentries 2\n",
    ),
    (
        [TWO_NUMBERS, OF_TWO_NUMBERS, "gt:4,1|lt:5,3|backward"],
        0,
        "entry 5,1 tid 0 3\nentry 4,2 tid 0 2\nentries 2\n",
    ),
    (
        [NUMBER, DEAD_FIRST, "-|-|backward"],
        0,
        "entry 9 tid 0 3\nentry 7 tid 0 2\nentry 5 tid 0 1\nentries 3\n",
    ),
    ([NUMBER, DEAD_FIRST, "gt:9|-|forward"], 0, "entries 0\n"),
    // nulls are last here
    ([NUMBER, DEAD_FIRST, "ge:null|-|backward"], 0, "entries 0\n"),
    ([NUMBER, DEAD_FIRST, "-|lt:-9|forward"], 0, "entries 0\n"),
    // an index that isn't sound
    (
        [NUMBER, LOST_TID, "-|-|forward"],
        1,
        "finding L5 index 1 block 2\nfindings 1 unjudged 0\nverdict findings\n",
    ),
];

#[test]
fn entries_between_bounds(rt: HostRuntime) -> Result<(), Fail> {
    for (row, code, text) in SCANS {
        expect_scan(&rt, rt.alloc(), row, (code, text))?;
    }
    Ok(())
}

// Bounds and a direction, the status and what is written.
const REFUSED: [(&str, u8, &str); 15] = [
    // bounds that don't fit
    ("ge:1,2|-|forward", 11, "refused bound\n"),
    ("-|lt:true|forward", 11, "refused bound\n"),
    ("gt:x|-|backward", 11, "refused bound\n"),
    ("-|le:2147483648|backward", 11, "refused bound\n"),
    // words of no scan
    ("ge:|-|forward", 3, "refused usage\n"),
    ("le:1|-|forward", 3, "refused usage\n"),
    ("-|ge:1|forward", 3, "refused usage\n"),
    ("ge:01|-|forward", 3, "refused usage\n"),
    ("ge:-0|-|forward", 3, "refused usage\n"),
    ("ge:1,|-|forward", 3, "refused usage\n"),
    ("-|lt:xA0|forward", 3, "refused usage\n"),
    ("-|lt:xa|forward", 3, "refused usage\n"),
    ("-|lt:9223372036854775808|forward", 3, "refused usage\n"),
    ("-|-|up", 3, "refused usage\n"),
    ("|-|forward", 3, "refused usage\n"),
];

#[test]
fn words_that_are_refused(rt: HostRuntime) -> Result<(), Fail> {
    for (words, code, text) in REFUSED {
        expect_scan(&rt, rt.alloc(), [NUMBER, THREE, words], (code, text))?;
    }
    Ok(())
}

// Words, the status and what is written, where the index's file isn't there: a bound is refused before it.
const WITHOUT_FILE: [(&str, u8, &str); 3] = [
    ("scan|case.toml|t_a|ge:1,2|-|forward", 11, "refused bound\n"),
    (
        "scan|case.toml|t_a|ge:1|-|forward",
        5,
        "refused no file i\n",
    ),
    (
        "scan|case.toml|nosuch|ge:1,2|-|forward",
        4,
        "refused case C5 index.name\n",
    ),
];

#[test]
fn an_index_without_its_file(rt: HostRuntime) -> Result<(), Fail> {
    let mut files = case_alone(rt.alloc(), NUMBER)?;
    expect_each(&rt, rt.alloc(), &mut files, &WITHOUT_FILE)
}
