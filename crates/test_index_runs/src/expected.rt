//! Runs, and what they should answer and write.
use crate::laid::{case_alone, files_of};
use memory_files::{MemFiles, MemSink};
use outside::Part;
use std::alloc::Global;
use std::process::Abort;
use std::test::Fail;
use test_run_fixtures::{report_of, run_words};

/// An index on a number, in a case's text.
pub(crate) const NUMBER: &str = "[[column]]\nname = \"a\"\ntype = \"int4\"\n\
[[index]]\nname = \"t_a\"\nfile = \"i\"\n[[index.key]]\ncolumn = \"a\"\n";

/// An index on two numbers.
pub(crate) const TWO_NUMBERS: &str =
    "[[column]]\nname = \"a\"\ntype = \"int4\"\n[[column]]\nname = \"b\"\ntype = \"int4\"\n\
[[index]]\nname = \"t_a\"\nfile = \"i\"\n[[index.key]]\ncolumn = \"a\"\n[[index.key]]\ncolumn = \"b\"\n";

/// An index on a text.
pub(crate) const TEXT: &str = "[[column]]\nname = \"a\"\ntype = \"text\"\n\
[[index]]\nname = \"t_a\"\nfile = \"i\"\n[[index.key]]\ncolumn = \"a\"\n";

// Runs words, with `|` between them, over the files.
fn run_line(
    alloc: Global,
    line: &str,
    files: &mut MemFiles,
    sink: &mut MemSink,
) -> Result<u8, Fail> {
    let mut words = Vec::new(alloc);
    for word in line.split("|") {
        words.push(word)?;
    }
    run_words(alloc, &words, files, sink)
}

/// Runs words, with `|` between them, over the files, and compares what is answered and written.
pub(crate) fn expect(
    rt: &impl Abort,
    alloc: Global,
    line: &str,
    files: &mut MemFiles,
    want: (u8, &str),
) -> Result<(), Fail> {
    let mut sink = MemSink::new(alloc, 16)?;
    let code = run_line(alloc, line, files, &mut sink)?;
    assert_eq!(rt; sink.bytes(), want.1.as_bytes());
    assert_eq!(rt; code, want.0);
    Ok(())
}

/// Runs each of these words over the files: the words, and the status and what is written.
pub(crate) fn expect_each(
    rt: &impl Abort,
    alloc: Global,
    files: &mut MemFiles,
    rows: &[(&str, u8, &str)],
) -> Result<(), Fail> {
    for (line, code, text) in rows {
        expect(rt, alloc, line, files, (*code, text))?;
    }
    Ok(())
}

// Runs words over files of which one isn't there, and then adds it, without bytes.
fn expect_absent(
    rt: &impl Abort,
    alloc: Global,
    line: &str,
    files: &mut MemFiles,
    name: &str,
) -> Result<(), Fail> {
    let refusal = format!(in alloc; "refused no file {name}\n")?;
    expect(rt, alloc, line, files, (5, refusal.as_str()))?;
    files.add(name, Part::Segment(0), &[])?;
    Ok(())
}

/// Runs words over the file of a case, with this text behind the heap's file, and then over more and more of the files
/// that it names, with `|` between them: the absence of each is refused in turn. It gives the files.
pub(crate) fn expect_in_order(
    rt: &impl Abort,
    alloc: Global,
    text: &str,
    line: &str,
    names: &str,
) -> Result<MemFiles, Fail> {
    let mut files = case_alone(alloc, text)?;
    for name in names.split("|") {
        expect_absent(rt, alloc, line, &mut files, name)?;
    }
    Ok(files)
}

/// Runs words over the files, and compares the report: its findings and doubts, with `; ` between them.
pub(crate) fn expect_report(
    rt: &impl Abort,
    alloc: Global,
    line: &str,
    files: &mut MemFiles,
    told: &str,
) -> Result<(), Fail> {
    let (code, text) = report_of(alloc, told)?;
    expect(rt, alloc, line, files, (code, text.as_str()))
}

/// Runs `index` over the files of a case, and compares its report.
pub(crate) fn expect_index(
    rt: &impl Abort,
    alloc: Global,
    files: &mut MemFiles,
    told: &str,
) -> Result<(), Fail> {
    expect_report(rt, alloc, "index|case.toml|t_a", files, told)
}

/// Runs `index` over a case with a heap of one page or none and an index, and compares its report: the text, the heap,
/// the tree, and what is told.
pub(crate) fn expect_laid(rt: &impl Abort, alloc: Global, row: [&str; 4]) -> Result<(), Fail> {
    let [text, heap, tree, told] = row;
    let mut files = files_of(alloc, [text, heap, tree])?;
    expect_index(rt, alloc, &mut files, told)
}
