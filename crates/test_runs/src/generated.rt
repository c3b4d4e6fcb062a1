//! Runs of `gen`, and each check on what is built.
ghost use Rattle.std.specs.Prelude.{◌≤◌, [], IfOk, None, false, length};
ghost use Rattle.heap_table_check.specs.Files.{BelongTo, files_of};

use crate::expected::{Run, expect};
use bt_levels::{TreeFile, check_tree};
use case_file::Case;
use heap_indexed::check_indexed;
use heap_table_check::{HeapFiles, SoundHeap, check_heap};
use join_row_keys::IndexedHeap;
use memory_files::{MemFiles, SureFiles};
use outside::{Failed, FileName, Files};
use rel_build::build_case;
use reports::Report;
use std::alloc::Global;
use std::process::Abort;
use std::test::Fail;
use test_run_fixtures::CLEAN;

// Runs `gen` over files of which each call fails, and compares what is answered and written.
fn expect_gen(
    rt: &impl Abort,
    alloc: Global,
    words: &[&str],
    want: (u8, &str),
) -> Result<(), Fail> {
    let mut files = MemFiles::new(alloc);
    files.fail_length(1)?;
    files.fail_read(1)?;
    expect(rt, alloc, words, &mut files, want)
}

// Runs `gen`, which builds so many rows, a heap of so many blocks, and two indexes of so many.
fn expect_built(
    rt: &impl Abort,
    alloc: Global,
    (seed, rows): (&str, &str),
    (heap, index): (u8, u8),
) -> Result<(), Fail> {
    let of_index = format!(in alloc; "blocks {index} entries {rows}\n")?;
    let text = format!(in alloc;
        "rows {rows}\nheap blocks {heap}\nindex 1 {of_index}index 2 {of_index}{CLEAN}"
    )?;
    expect_gen(rt, alloc, &["gen", seed, rows], (0, text.as_str()))
}

// The number to begin with, the number of rows, and how many blocks the heap has, and each index.
const BUILT: [(&str, &str, u8, u8); 5] = [
    ("7", "0", 0, 1),
    ("7", "1000", 6, 6),
    ("18446744073709551615", "300", 2, 2),
    // Twice the same bytes.
    ("1", "20000", 109, 69),
    ("1", "20000", 109, 69),
];

#[test]
fn what_is_built_is_counted_and_clean(rt: HostRuntime) -> Result<(), Fail> {
    for (seed, rows, heap, index) in BUILT {
        expect_built(&rt, rt.alloc(), (seed, rows), (heap, index))?;
    }
    Ok(())
}

const NUMBERS: [Run; 10] = [
    (
        &["gen", "7", "20001"],
        6,
        "refused too large gen rows 20001 limit 20000\n",
    ),
    (
        &["gen", "7", "4294967295"],
        6,
        "refused too large gen rows 4294967295 limit 20000\n",
    ),
    (&["gen", "7", "4294967296"], 3, "refused usage\n"),
    (&["gen", "18446744073709551616", "1"], 3, "refused usage\n"),
    (&["gen", "07", "1"], 3, "refused usage\n"),
    (&["gen", "7", "+1"], 3, "refused usage\n"),
    (&["gen", "", "1"], 3, "refused usage\n"),
    (&["gen", "7"], 3, "refused usage\n"),
    (&["gen"], 3, "refused usage\n"),
    (&["gen", "7", "1", "1"], 3, "refused usage\n"),
];

#[test]
fn numbers_are_refused(rt: HostRuntime) -> Result<(), Fail> {
    for (words, code, text) in NUMBERS {
        expect_gen(&rt, rt.alloc(), words, (code, text))?;
    }
    Ok(())
}

// Files that don't tell what they hold: then a check asks for nothing that would have to be known of them.
#[derive(Drop)]
struct Untold {
    files: SureFiles,
    reads: u64,
    faults: u64,
}

// Copies bytes of a file, if they are there.
fn copy(files: &mut SureFiles, name: FileName<'_>, at: u64, out: &mut [u8]) -> Result<(), Failed> {
    let Some(length) = files.length(name)? else {
        return Err(Failed);
    };
    if length < at || length - at < out.len() as u64 {
        return Err(Failed);
    }
    files.read_at(name, at, out)
}

impl Files for Untold {
    ghost seen = { λ s. record { held = None; faults = s.faults; refused = false; reads = s.reads; lenders = [] } };

    fn length(&mut self, name: FileName<'_>) -> Result<Option<u64>, Failed> {
        match self.files.length(name) {
            Ok(length) => Ok(length),
            Err(Failed) => Ok(None),
        }
    }

    fn read_at(&mut self, name: FileName<'_>, at: u64, out: &mut [u8]) -> Result<(), Failed> {
        self.reads = self.reads.saturating_add(1);
        let copied = copy(&mut self.files, name, at, out);
        if copied.is_err() {
            self.faults = self.faults.saturating_add(1);
        }
        copied
    }

    fn refused_memory(&self) -> bool {
        false
    }
}

// The heap of what was built, of which nothing may be found.
fn sound_heap(
    alloc: Global,
    files: &mut Untold,
    case: &Case,
    report: &mut Report,
) -> Result<SoundHeap, Fail>
    ensures { IfOk result (λ sound. BelongTo case.now (files_of sound)) }
{
    let at = HeapFiles::attach(alloc, files, case)?;
    match check_heap(alloc, files, case, at, report)? {
        Some(sound) => Ok(sound),
        None => Err("no sound heap".into()),
    }
}

// Judges an index of it by itself and beside the heap.
fn judge_index(
    alloc: Global,
    files: &mut Untold,
    case: &Case,
    heap: &SoundHeap,
    report: &mut Report,
    n: u16,
) -> Result<(), Fail>
    requires heap { BelongTo case.now (files_of heap.now) }
    requires first { 1 ≤ n }
    requires last { n ≤ length case.now.indexes }
{
    let at = TreeFile::attach(alloc, files, case, n)?;
    match check_tree(alloc, files, case, at, report)? {
        Some(tree) => {
            let tree = &tree;
            check_indexed(alloc, files, IndexedHeap { case, heap, tree }, report)?;
            Ok(())
        }
        None => Err("no sound index".into()),
    }
}

// Judges all that was built.
fn judge(alloc: Global, files: &mut Untold, case: &Case, report: &mut Report) -> Result<(), Fail> {
    let heap = sound_heap(alloc, files, case, report)?;
    for before in 0..case.index_count() {
        judge_index(alloc, files, case, &heap, report, before + 1)?;
    }
    Ok(())
}

#[test]
fn what_is_built_passes_each_check(rt: HostRuntime) -> Result<(), Fail> {
    let alloc = rt.alloc();
    let built = build_case(alloc, 7, 1000)?;
    let case = built.case;
    assert_eq!(rt; case.index_count(), 2);
    let mut files = Untold {
        files: built.files,
        reads: 0,
        faults: 0,
    };
    let mut report = Report::new(alloc);
    judge(alloc, &mut files, &case, &mut report)?;
    let (findings, unjudged) = report.counts();
    assert!(rt; findings == 0 && unjudged == 0);
    Ok(())
}
