//! The rows of files in memory as text, by the calls that `copy` is made of.
ghost use Rattle.std.specs.Prelude.{IfOk};
ghost use Rattle.heap_rows.specs.RowFits.{FitColumns};
ghost use Rattle.heap_table_check.specs.Files.{BelongTo, files_of};

use case_file::Case;
use copy_out::{copy_rows, row_line};
use heap_check::{HeapFiles, LiveRow, LiveRows, SoundHeap, check_heap};
use outside::Part;
use rel_files::PageFault;
use reports::Report;
use std::alloc::Global;
use std::test::Fail;
use test_fixtures::{HeapHead, UntoldFiles, case_with, heap_page};

// Two columns of text.
const TWO_TEXTS: &str =
    "[[column]]\nname = \"a\"\ntype = \"text\"\n[[column]]\nname = \"b\"\ntype = \"text\"\n";

// Its one row: a text with a tab and a backslash, and a null.
const LINE: &[u8] = b"a\\t\\\\\t\\N\n";

// The files of that table.
fn two_texts(alloc: Global) -> Result<UntoldFiles, Fail> {
    let head = HeapHead {
        xmin: 700,
        xmax: 0,
        block: 0,
        item: 1,
        infomask2: 2,
        infomask: 0x0903,
    };
    let mut page = heap_page(head, b"\x09a\x09\\");
    page[8183] = 1;
    let mut files = UntoldFiles::new(alloc);
    files.add("t", Part::Segment(0), Vec::from_slice(alloc, &page)?)?;
    Ok(files)
}

// The heap of a case, of which nothing may be found.
fn sound_heap(alloc: Global, files: &mut UntoldFiles, case: &Case) -> Result<SoundHeap, Fail>
    ensures { IfOk result (λ sound. BelongTo case.now (files_of sound)) }
{
    let at = HeapFiles::attach(alloc, files, case)?;
    let mut report = Report::new(alloc);
    match check_heap(alloc, files, case, at, &mut report)? {
        Some(sound) => Ok(sound),
        None => Err("no sound heap".into()),
    }
}

// Whether this is the text of a row.
fn is_line(alloc: Global, case: &Case, row: &LiveRow, text: &[u8]) -> Result<bool, Fail>
    requires { FitColumns case.now.columns row.now.cells }
{
    let line = row_line(alloc, case.columns(), row)?;
    Ok(line.as_slice() == text)
}

// Whether this is the text of the first row of a heap.
fn is_first_line(
    alloc: Global,
    files: &mut UntoldFiles,
    case: &Case,
    heap: &SoundHeap,
    text: &[u8],
) -> Result<bool, Fail>
    requires { BelongTo case.now (files_of heap.now) }
{
    let mut rows = LiveRows::new(alloc, case, heap)?;
    match rows.next_row(alloc, files)? {
        Some(row) => is_line(alloc, case, &row, text),
        None => Ok(false),
    }
}

// Whether this is the text of all its rows, each value of which is read.
fn is_text(
    alloc: Global,
    files: &mut UntoldFiles,
    case: &Case,
    heap: &SoundHeap,
    text: &[u8],
) -> Result<bool, Fail>
    requires { BelongTo case.now (files_of heap.now) }
{
    let copy = copy_rows(alloc, files, case, heap)?;
    Ok(copy.text.as_slice() == text && copy.unread == 0)
}

// Whether they can't be read.
fn is_fault(alloc: Global, files: &mut UntoldFiles, case: &Case, heap: &SoundHeap) -> bool
    requires { BelongTo case.now (files_of heap.now) }
{
    match copy_rows(alloc, files, case, heap) {
        Ok(_) => false,
        Err(fault) => fault == PageFault::ReadFault,
    }
}

#[test]
fn a_row_and_a_table_are_written(rt: HostRuntime) -> Result<(), Fail> {
    let alloc = rt.alloc();
    let case = case_with(alloc, TWO_TEXTS).ok_or("refused")?;
    let mut files = two_texts(alloc)?;
    let heap = sound_heap(alloc, &mut files, &case)?;
    assert!(rt; is_first_line(alloc, &mut files, &case, &heap, LINE)?);
    assert!(rt; is_text(alloc, &mut files, &case, &heap, LINE)?);
    Ok(())
}

// A block that can't be read for its rows is a fault, and no text.
#[test]
fn a_block_that_fails_is_told(rt: HostRuntime) -> Result<(), Fail> {
    let alloc = rt.alloc();
    let case = case_with(alloc, TWO_TEXTS).ok_or("refused")?;
    let mut files = two_texts(alloc)?;
    let heap = sound_heap(alloc, &mut files, &case)?;
    files.fail_from(1);
    assert!(rt; is_fault(alloc, &mut files, &case, &heap));
    Ok(())
}
