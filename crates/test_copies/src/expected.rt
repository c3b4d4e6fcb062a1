//! Runs over small cases, and what they should answer and write.
use memory_files::{MemFiles, MemSink};
use std::alloc::Global;
use std::process::Abort;
use std::test::Fail;
use test_run_fixtures::{CLUSTER, case_files, run_words};

/// One column, a text.
pub(crate) const TEXT_COLUMN: &str = "[[column]]\nname = \"a\"\ntype = \"text\"\n";

/// The bytes of a text that is compressed.
pub(crate) const PACKED: &[u8] = b"\x32\0\0\0\0\0\0\0\0\0\0\0";

/// The files of a case with these columns, this index, if any, and this heap.
pub(crate) fn files_of(
    alloc: Global,
    columns: &str,
    index: &str,
    heap: &[u8],
) -> Result<MemFiles, Fail> {
    let text = format!(in alloc; "{CLUSTER}{columns}{index}")?;
    case_files(alloc, text.as_str(), heap)
}

/// Runs the words over the files, and compares what is answered and written.
pub(crate) fn expect(
    rt: &impl Abort,
    alloc: Global,
    words: &[&str],
    files: &mut MemFiles,
    code: u8,
    bytes: &[u8],
) -> Result<(), Fail> {
    let mut sink = MemSink::new(alloc, 16)?;
    let answered = run_words(alloc, words, files, &mut sink)?;
    assert_eq!(rt; sink.bytes(), bytes);
    assert_eq!(rt; answered, code);
    Ok(())
}
