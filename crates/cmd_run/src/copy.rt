//! The command `copy`: writes the live rows of a case's table as `COPY` writes them.
ghost use Rattle.std.specs.Prelude.{◌≡◌};
ghost use Rattle.outside.specs.Outside.{Asked, IfTold, Tells};
ghost use Rattle.heap_table_check.specs.Files.{BelongTo, IsSoundHeapOf, files_of};
ghost use Rattle.heap_table_check.specs.Found.{IsQuiet};
ghost use Rattle.cmd_run.specs.Copy.{answer_unread, case_copied, copy_outcome, rows_shown};
ghost use Rattle.cmd_answers.specs.Seen.{outcome_seen};

use crate::table::{TableOpening, open_table};
use case_file::Case;
use cmd_answers::{Answer, CaseOpening, Output, RunFault, open_case};
use copy_out::{CopyText, copy_rows};
use heap_table_check::SoundHeap;
use outside::Files;
use std::alloc::Global;

// The answer where so many values aren't read.
fn answer_unread(count: u64) -> Answer
    ensures { result ≡ answer_unread count }
{
    if count == 0 {
        Answer::Clean
    } else {
        Answer::Unread
    }
}

// The rows of a heap in which nothing was found.
#[tactic(auto, unfolding(crate::specs::Copy::rows_shown))]
fn heap_rows_output<F: Files>(
    alloc: Global,
    files: &mut F,
    case: &Case,
    heap: &SoundHeap,
) -> Result<Output, RunFault>
    requires belong { BelongTo case.now (files_of heap.now) }
    requires sound { IfTold F.seen files.old (λ names. IsSoundHeapOf case.now names heap.now) }
    requires quiet { IfTold F.seen files.old (λ names. IsQuiet case.now names) }
    ensures output { Tells F.seen files.old result (λ o names. outcome_seen o ≡ rows_shown names case.now) }
    ensures asked { Asked F.seen files.old files.new result RunFault.ReadFault }
{
    let CopyText { text, unread } = copy_rows(alloc, files, case, heap)?;
    let answer = answer_unread(unread);
    Ok(Output { text, answer })
}

// The rows of a case, or why there are none.
fn case_rows_output<F: Files>(alloc: Global, files: &mut F, case: &Case) -> Result<Output, RunFault>
    ensures output { Tells F.seen files.old result (λ o names. outcome_seen o ≡ case_copied names case.now) }
    ensures asked { Asked F.seen files.old files.new result RunFault.ReadFault }
{
    match open_table(alloc, files, case)? {
        TableOpening::Answered(output) => Ok(output),
        TableOpening::Opened(heap) => heap_rows_output(alloc, files, case, &heap),
    }
}

/// The output of `copy`: the live rows of the heap of the case in a file, where nothing is found of it, or else the
/// report on it; or the refusal that comes first: of the file, of its text, of the heap, or of the TOAST table.
pub fn copy_output<F: Files>(alloc: Global, files: &mut F, file: &str) -> Result<Output, RunFault>
    ensures output { Tells F.seen files.old result (λ o names. outcome_seen o ≡ copy_outcome file.now names) }
    ensures asked { Asked F.seen files.old files.new result RunFault.ReadFault }
{
    match open_case(alloc, files, file)? {
        CaseOpening::Refused(output) => Ok(output),
        CaseOpening::Opened(case) => case_rows_output(alloc, files, &case),
    }
}
