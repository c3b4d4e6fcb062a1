//! What is sound in a table's files, for the tests that go on with it.
ghost use Rattle.std.specs.Prelude.{IfOk};
ghost use Rattle.bt_levels.specs.Sound.{IsSoundIndexOf};
ghost use Rattle.heap_table_check.specs.Files.{BelongTo, files_of};

use bt_levels::{SoundTree, TreeFile, check_tree};
use case_file::Case;
use heap_check::{HeapFiles, SoundHeap, check_heap};
use reports::Report;
use std::alloc::Global;
use std::test::Fail;
use test_fixtures::UntoldFiles;

/// The heap of a case, of which nothing may be found.
pub fn sound_heap(alloc: Global, files: &mut UntoldFiles, case: &Case) -> Result<SoundHeap, Fail>
    ensures { IfOk result (λ sound. BelongTo case.now (files_of sound)) }
{
    let at = HeapFiles::attach(alloc, files, case)?;
    let mut report = Report::new(alloc);
    match check_heap(alloc, files, case, at, &mut report)? {
        Some(sound) => Ok(sound),
        None => Err("no sound heap".into()),
    }
}

/// An index of it by its number, counted from 1, of which nothing may be found.
pub fn sound_index(
    alloc: Global,
    files: &mut UntoldFiles,
    case: &Case,
    n: u16,
) -> Result<SoundTree, Fail>
    ensures { IfOk result (IsSoundIndexOf case.now n) }
{
    if n == 0 || case.index_count() < n {
        return Err("no index".into());
    }
    let at = TreeFile::attach(alloc, files, case, n)?;
    let mut report = Report::new(alloc);
    match check_tree(alloc, files, case, at, &mut report)? {
        Some(sound) => Ok(sound),
        None => Err("no sound index".into()),
    }
}

/// Its first index, of which nothing may be found.
pub fn sound_tree(alloc: Global, files: &mut UntoldFiles, case: &Case) -> Result<SoundTree, Fail>
    ensures { IfOk result (IsSoundIndexOf case.now 1) }
{
    sound_index(alloc, files, case, 1)
}
