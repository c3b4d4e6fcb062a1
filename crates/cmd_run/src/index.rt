//! The command `index`: judges the heap of a case, and one of its indexes by itself and beside the heap.
ghost use Rattle.std.specs.Prelude.{◌≡◌, ◌≤◌, Some, IfOk, length};
ghost use Rattle.outside.specs.Outside.{Asked, Tells};
ghost use Rattle.cmd_run.specs.Index.{index_judged, named_judged, numbered_judged, unknown_index};
ghost use Rattle.cmd_answers.specs.Outcome.{owed_by};
ghost use Rattle.cmd_answers.specs.Seen.{outcome_seen};

use crate::table::report_on_case;
use case_file::{Case, CaseRule};
use cmd_answers::{CaseOpening, Output, RunFault, case_refused_output, open_case};
use key_orders::Octets;
use outside::{Files, NoMemory};
use std::alloc::Global;

/// The refusal of a name that no index of the case has.
pub fn unknown_index(alloc: Global) -> Result<Output, NoMemory>
    ensures { IfOk result (λ o. outcome_seen o ≡ unknown_index) }
{
    let place = Octets::from_slice(alloc, b"index.name")?;
    case_refused_output(alloc, CaseRule::C5, &place)
}

// The report on a case's table and on its index `n`, or why its files can't be judged.
fn numbered_output<F: Files>(
    alloc: Global,
    files: &mut F,
    case: &Case,
    index: u16,
) -> Result<Output, RunFault>
    requires first { 1 ≤ index }
    requires last { index ≤ length case.now.indexes }
    ensures output { Tells F.seen files.old result (λ o names.
        outcome_seen o ≡ owed_by (numbered_judged names case.now (Some index))) }
    ensures asked { Asked F.seen files.old files.new result RunFault.ReadFault }
{
    report_on_case(alloc, files, case, index - 1..index)
}

// The report on a case's table and on its index of a name, or the refusal that comes first.
fn named_output<F: Files>(
    alloc: Global,
    files: &mut F,
    case: &Case,
    name: &str,
) -> Result<Output, RunFault>
    ensures output { Tells F.seen files.old result (λ o names.
        outcome_seen o ≡ owed_by (named_judged name.now names case.now)) }
    ensures asked { Asked F.seen files.old files.new result RunFault.ReadFault }
{
    match case.find_index(name) {
        None => Ok(unknown_index(alloc)?),
        Some(index) => numbered_output(alloc, files, case, index),
    }
}

/// The output of `index`: the report on the heap of the case in a file and on its index of a name, or the
/// refusal that comes first: of the file, of its text, of the name, of the heap, of the TOAST table, or of
/// the index.
pub fn index_output<F: Files>(
    alloc: Global,
    files: &mut F,
    file: &str,
    name: &str,
) -> Result<Output, RunFault>
    ensures output { Tells F.seen files.old result (λ o names.
        outcome_seen o ≡ owed_by (index_judged file.now name.now names)) }
    ensures asked { Asked F.seen files.old files.new result RunFault.ReadFault }
{
    match open_case(alloc, files, file)? {
        CaseOpening::Refused(output) => Ok(output),
        CaseOpening::Opened(case) => named_output(alloc, files, &case, name),
    }
}
