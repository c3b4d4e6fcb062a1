//! The command `heap`: judges the heap of a case, with its visibility map and its TOAST table.
ghost use Rattle.std.specs.Prelude.{◌≡◌};
ghost use Rattle.outside.specs.Outside.{Asked, Tells};
ghost use Rattle.cmd_run.specs.Heap.{case_judged, heap_judged};
ghost use Rattle.cmd_answers.specs.Outcome.{owed_by};
ghost use Rattle.cmd_answers.specs.Seen.{outcome_seen};

use crate::table::report_on_case;
use case_file::Case;
use cmd_answers::{CaseOpening, Output, RunFault, open_case};
use outside::Files;
use std::alloc::Global;

// The report on the table of a case, or why its files can't be judged.
fn table_output<F: Files>(alloc: Global, files: &mut F, case: &Case) -> Result<Output, RunFault>
    ensures output { Tells F.seen files.old result (λ o names.
        outcome_seen o ≡ owed_by (case_judged names case.now)) }
    ensures asked { Asked F.seen files.old files.new result RunFault.ReadFault }
{
    report_on_case(alloc, files, case, 0..0)
}

/// The output of `heap`: the report on the heap of the case in a file, or the refusal that comes
/// first: of the file, of its text, of the heap, or of the TOAST table.
pub fn heap_output<F: Files>(alloc: Global, files: &mut F, file: &str) -> Result<Output, RunFault>
    ensures output { Tells F.seen files.old result (λ o names. outcome_seen o ≡ owed_by (heap_judged file.now names)) }
    ensures asked { Asked F.seen files.old files.new result RunFault.ReadFault }
{
    match open_case(alloc, files, file)? {
        CaseOpening::Refused(output) => Ok(output),
        CaseOpening::Opened(case) => table_output(alloc, files, &case),
    }
}
