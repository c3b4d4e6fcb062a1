//! That texts mean what docs/CASE-FILE.md says, by hand-made examples: no clause ties the document's words to these.
use crate::case_texts::{EDITS, FULL};
use crate::checks::holds;
use case_file::{Case, CaseFault, Column, read_case};
use key_orders::Value;
use std::alloc::{AllocError, Global};
use std::process::Abort;
use std::test::Fail;

const CLUSTER: &str =
    "next_xid = 1000\noldest_xid = 700\nnext_multi = 6\noldest_multi = 1\nnext_member = 4\n\
    xact = 'x'\noffsets = 'o'\nmembers = 'm'";

// What marks stand for: so many of a piece.
const MARKS: [(&str, &str, usize); 12] = [
    ("<none>", "", 1),
    ("\\n", "\n", 1),
    ("<cluster>", CLUSTER, 1),
    ("<63x>", "x", 63),
    ("<200x>", "x", 200),
    ("<8000 bytes>", "ab", 8000),
    (
        "<64 columns>",
        "[[column]]\nname = 'a'\ntype = 'int4'\n",
        64,
    ),
    (
        "<32 indexes>",
        "[[index]]\nname = 'a'\nfile = 'i'\nkey = [{ column = 'id' }]\n",
        32,
    ),
    ("<7 keys>", "[[index.key]]\ncolumn = 'id'\n", 7),
    ("<8 keys>", "[[index.key]]\ncolumn = 'id'\n", 8),
    ("<24 names>", "'id', ", 24),
    ("<24 included>", " MoreSpec { column: 0, ctype: Int8 }", 24),
];

// A text with so many of a piece for one mark.
fn with_mark(
    alloc: Global,
    text: &str,
    (mark, piece, count): (&str, &str, usize),
) -> Result<String, AllocError> {
    let many = piece.repeat(alloc, count)?;
    text.replace(alloc, mark, many.as_str())
}

// A text with so many of a piece for each mark.
fn with_many(alloc: Global, text: &str) -> Result<String, AllocError> {
    let mut out = String::from_str(alloc, text)?;
    for mark in MARKS {
        out = with_mark(alloc, out.as_str(), mark)?;
    }
    Ok(out)
}

fn write_missing(alloc: Global, out: &mut String, value: &Value) -> Result<(), AllocError> {
    match value {
        Value::Null => out.push_str("null"),
        Value::Bool(flag) => write!(out, "{flag}"),
        Value::Int(number) => write!(out, "{number}"),
        Value::Bytes(bytes) => out.push_str(hex::encode(alloc, bytes.as_slice())?.as_str()),
    }
}

fn write_column(alloc: Global, out: &mut String, column: &Column) -> Result<(), AllocError> {
    write!(out, " {:?} ", column.ctype)?;
    write_missing(alloc, out, &column.missing)?;
    out.push_str(",")
}

fn write_index(out: &mut String, case: &Case, n: u16) -> Result<(), AllocError> {
    if n < 1 || case.index_count() < n {
        return out.push_str(" no such index");
    }
    write!(out, " index {n} {}", case.index_file(n))?;
    for key in case.index_keys(n) {
        write!(out, " {key:?}")?;
    }
    for more in case.index_more(n) {
        write!(out, " {more:?}")?;
    }
    write!(out, " {:?},", case.index_unique(n))
}

fn write_cluster(out: &mut String, case: &Case) -> Result<(), AllocError> {
    let c = case.cluster();
    write!(out, "ok blocks {}, ", case.segment_blocks())?;
    write!(out, "cluster {} {} ", c.next_xid, c.oldest_xid)?;
    write!(
        out,
        "{} {} {},",
        c.next_multi, c.oldest_multi, c.next_member
    )
}

fn write_files(out: &mut String, case: &Case) -> Result<(), AllocError> {
    let (xact, offsets, members) = (case.xact_dir(), case.offsets_dir(), case.members_dir());
    write!(
        out,
        " dirs {xact} {offsets} {members}, heap {},",
        case.heap_file()
    )?;
    match case.toast() {
        Some((file, oid)) => write!(out, " toast {file} {oid}, columns"),
        None => out.push_str(" no toast, columns"),
    }
}

fn write_lists(alloc: Global, out: &mut String, case: &Case) -> Result<(), AllocError> {
    for column in case.columns() {
        write_column(alloc, out, column)?;
    }
    if case.index_count() == 0 {
        out.push_str(" no index")?;
    }
    for n in 1..=case.index_count() {
        write_index(out, case, n)?;
    }
    Ok(())
}

// What a case says.
fn described(alloc: Global, case: &Case) -> Result<String, AllocError> {
    let mut out = String::new(alloc);
    write_cluster(&mut out, case)?;
    write_files(&mut out, case)?;
    write_lists(alloc, &mut out, case)?;
    Ok(out)
}

fn refusal(alloc: Global, code: &str, place: &[u8]) -> Result<String, Fail> {
    let place = std::str::from_utf8(place).ok().ok_or("no text")?;
    Ok(format!(in alloc; "{code} {place}")?)
}

fn outcome(alloc: Global, text: &[u8]) -> Result<String, Fail> {
    match read_case(alloc, text) {
        Ok(case) => Ok(described(alloc, &case)?),
        Err(CaseFault::Refused { rule, place }) => refusal(alloc, rule.code(), place.as_slice()),
        Err(CaseFault::NoMemory) => Ok(String::from_str(alloc, "no memory")?),
    }
}

// A text with what stands in it replaced.
fn replaced(alloc: Global, text: &str, old: &str, new: &str) -> Result<String, Fail> {
    if !text.contains(old) {
        return Err(Fail::from("an edit of what isn't there"));
    }
    Ok(text.replace(alloc, old, new)?)
}

// A text with an edit.
fn edited(alloc: Global, text: &str, edit: &str) -> Result<String, Fail> {
    let (old, new) = edit.split_once(" -> ").ok_or("an edit without an arrow")?;
    let new = with_many(alloc, new)?;
    if old == "*" {
        return Ok(new);
    }
    let old = with_many(alloc, old)?;
    replaced(alloc, text, old.as_str(), new.as_str())
}

// FULL with the edits of a line.
fn text_of(alloc: Global, line: &str) -> Result<String, Fail> {
    let mut pieces = line.split(" | ");
    let _expected = pieces.next();
    let mut text = String::from_str(alloc, FULL)?;
    for edit in pieces {
        text = edited(alloc, text.as_str(), edit)?;
    }
    Ok(text)
}

// What the text says that the edits of a line lead to.
fn found_by(alloc: Global, line: &str) -> Result<String, Fail> {
    let text = text_of(alloc, line)?;
    outcome(alloc, text.as_str().as_bytes())
}

// Whether that is what the line expects.
fn is_as_expected(alloc: Global, line: &str, found: &str) -> Result<bool, AllocError> {
    let expected = with_many(alloc, line.split(" | ").next().unwrap_or(""))?;
    let expected = expected.as_str();
    Ok(found == expected || (found.starts_with("ok ") && found.contains(expected)))
}

#[test]
fn texts_mean_what_they_say(rt: HostRuntime) -> Result<(), Fail> {
    for line in EDITS.lines() {
        if line.is_empty() {
            continue;
        }
        let found = found_by(rt.alloc(), line)?;
        let same = is_as_expected(rt.alloc(), line, found.as_str())?;
        assert!(rt; same, "{line}: {found}");
    }
    Ok(())
}

// The numbers of the indexes of some names, or 0.
fn expect_indexes(rt: &impl Abort, case: &Case, rows: &[(&str, u16)]) {
    for (name, want) in rows {
        holds(
            rt,
            case.find_index(name).unwrap_or(0) == *want,
            u32::from(*want),
        );
    }
}

const OF_FULL: [(&str, u16); 3] = [("t_note", 2), ("t_not", 0), ("t_nota", 0)];

#[test]
fn other_calls(rt: HostRuntime) -> Result<(), Fail> {
    assert!(rt; outcome(rt.alloc(), b"\xff")?.as_str() == "C1 text");
    let case = read_case(rt.alloc(), FULL.as_bytes())
        .ok()
        .ok_or("refused")?;
    case.sound();
    holds(&rt, case.column_types().len() == 5, 3);
    expect_indexes(&rt, &case, &OF_FULL);
    Ok(())
}

#[test]
fn a_generated_case(rt: HostRuntime) -> Result<(), Fail> {
    let case = Case::generated(rt.alloc())?;
    case.sound();
    expect_indexes(&rt, &case, &[("t_id", 1), ("t_grp", 2)]);
    holds(&rt, case.index_count() == 2, 2);
    let text = described(rt.alloc(), &case)?;
    let want = "ok blocks 131072, cluster 4 3 1 1 0, dirs xact offsets members, heap t, no toast, \
        columns Int8 null, Int4 null,";
    holds(&rt, text.as_str().starts_with(want), 3);
    Ok(())
}
