//! Runs, and what they should answer and write.
use memory_files::{MemFiles, MemSink};
use std::alloc::Global;
use std::process::Abort;
use std::test::Fail;
use test_run_fixtures::{report_of, run_words};

/// A run: its words, its status and what it writes.
pub(crate) type Run = (&'static [&'static str], u8, &'static str);

/// Runs the words over the files into a sink, and compares what is answered and written.
pub(crate) fn expect_in(
    rt: &impl Abort,
    alloc: Global,
    words: &[&str],
    files: &mut MemFiles,
    sink: &mut MemSink,
    code: u8,
    bytes: &[u8],
) -> Result<(), Fail> {
    let answered = run_words(alloc, words, files, sink)?;
    assert_eq!(rt; sink.bytes(), bytes);
    assert_eq!(rt; answered, code);
    Ok(())
}

/// The same with a sink that takes 16 bytes at a time.
pub(crate) fn expect(
    rt: &impl Abort,
    alloc: Global,
    words: &[&str],
    files: &mut MemFiles,
    want: (u8, &str),
) -> Result<(), Fail> {
    let mut sink = MemSink::new(alloc, 16)?;
    let bytes = want.1.as_bytes();
    expect_in(rt, alloc, words, files, &mut sink, want.0, bytes)
}

/// The same, where the second 16 bytes can't be written, and the report is a clean one.
pub(crate) fn expect_first_put(
    rt: &impl Abort,
    alloc: Global,
    words: &[&str],
    files: &mut MemFiles,
) -> Result<(), Fail> {
    let mut sink = MemSink::new(alloc, 16)?;
    sink.fail_put(2)?;
    let first = b"findings 0 unjud";
    expect_in(rt, alloc, words, files, &mut sink, 8, first)
}

/// Each of these runs over the files.
pub(crate) fn expect_runs(
    rt: &impl Abort,
    alloc: Global,
    files: &mut MemFiles,
    runs: &[Run],
) -> Result<(), Fail> {
    for (words, code, text) in runs {
        expect(rt, alloc, *words, files, (*code, *text))?;
    }
    Ok(())
}

/// Runs `heap` over the files of a case, and compares its report: its findings and doubts, with `; ` between them.
pub(crate) fn expect_heap(
    rt: &impl Abort,
    alloc: Global,
    files: &mut MemFiles,
    told: &str,
) -> Result<(), Fail> {
    let (code, text) = report_of(alloc, told)?;
    let words = ["heap", "case.toml"];
    expect(rt, alloc, &words, files, (code, text.as_str()))
}
