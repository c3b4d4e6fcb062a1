//! The command `all`: judges the heap of a case, and each of its indexes by itself and beside the heap.
ghost use Rattle.std.specs.Prelude.{◌≡◌};
ghost use Rattle.outside.specs.Outside.{Asked, Tells};
ghost use Rattle.cmd_run.specs.All.{all_judged, whole_judged};
ghost use Rattle.cmd_answers.specs.Outcome.{owed_by};
ghost use Rattle.cmd_answers.specs.Seen.{outcome_seen};

use crate::table::report_on_case;
use case_file::Case;
use cmd_answers::{CaseOpening, Output, RunFault, open_case};
use outside::Files;
use std::alloc::Global;

/// The report on the heap of a case and on each of its indexes, or why its files can't be judged.
pub fn whole_output<F: Files>(alloc: Global, files: &mut F, case: &Case) -> Result<Output, RunFault>
    ensures output { Tells F.seen files.old result (λ o names.
        outcome_seen o ≡ owed_by (whole_judged names case.now)) }
    ensures asked { Asked F.seen files.old files.new result RunFault.ReadFault }
{
    report_on_case(alloc, files, case, 0..case.index_count())
}

/// The output of `all`: the report on the heap of the case in a file and on each of its indexes, or the refusal
/// that comes first: of the file, of its text, of the heap, of the TOAST table, or of an index.
pub fn all_output<F: Files>(alloc: Global, files: &mut F, file: &str) -> Result<Output, RunFault>
    ensures output { Tells F.seen files.old result (λ o names. outcome_seen o ≡ owed_by (all_judged file.now names)) }
    ensures asked { Asked F.seen files.old files.new result RunFault.ReadFault }
{
    match open_case(alloc, files, file)? {
        CaseOpening::Refused(output) => Ok(output),
        CaseOpening::Opened(case) => whole_output(alloc, files, &case),
    }
}
