//! A case file: the case that it means, or why it is refused; and why the files of a case are.
ghost use Rattle.std.specs.Prelude.{◌≡◌, ◌≢◌, ℕ, List, Some, Err, length, IfOk, IsErrOf};
ghost use Rattle.outside.specs.declared.files.Part.TheVariants.{Segment};
ghost use Rattle.outside.specs.Outside.{Asked, IsHeldAnd, Names, Tells};
ghost use Rattle.case_file.specs.Case.{case_of};
ghost use Rattle.bt_levels.specs.Index.{index_of};
ghost use Rattle.cmd_answers.specs.Cases.{case_by, case_in, file_named, files_refused, toast_named};
ghost use Rattle.cmd_answers.specs.Seen.{case_seen, outcome_seen};

use crate::fault::RunFault;
use crate::output::{Output, Unit, case_refused_output, no_file_output, too_large_output};
use crate::text::read_text;
use case_file::{Case, CaseFault, read_case};
use outside::{FileName, Files, Part};
use rel_files::{CheckFault, Which};
use std::alloc::Global;

// How many bytes a case file may have.
const TEXT_LIMIT: u64 = 1_048_576;

/// What a case file means.
#[derive(Drop)]
pub enum CaseOpening {
    /// A case, of which no file was asked for yet.
    Opened(Case),
    /// None: it isn't there, is too large, or breaks a rule.
    Refused(Output),
}

// The base name of a case's TOAST table, where it has one.
fn toast_named(case: &Case) -> &str
    ensures { result.now ≡ toast_named case.now.toast }
{
    match case.toast() {
        None => "",
        Some((file, _)) => file,
    }
}

// The base name of the file of an index of a case; none where the case hasn't so many.
// Indexes are numbered from 1: as in its definition, 0 is read as 1.
fn index_named(case: &Case, index: u16) -> &str
    ensures { result.now ≡ (index_of case.now index).file }
{
    let index = index.max(1);
    if index <= case.index_count() {
        case.index_file(index)
    } else {
        ""
    }
}

// The base name of a file of a case.
fn file_named(case: &Case, which: Which) -> &str
    ensures { result.now ≡ file_named case.now which }
{
    match which {
        Which::Heap => case.heap_file(),
        Which::Toast => toast_named(case),
        Which::Index(index) => index_named(case, index),
    }
}

/// The refusal of a case's files, unless a fault kept them from being asked for.
pub fn refuse_files(alloc: Global, case: &Case, fault: CheckFault) -> Result<Output, RunFault>
    ensures output { IfOk result (λ o. (outcome_seen o ≡ files_refused case.now fault)
        × ((fault ≢ CheckFault.ReadFault) × (fault ≢ CheckFault.NoMemory))) }
    ensures only { IsErrOf result RunFault.ReadFault → fault ≡ CheckFault.ReadFault }
{
    match fault {
        CheckFault::NoFile(which) => Ok(no_file_output(alloc, file_named(case, which))?),
        CheckFault::TooLarge {
            which,
            blocks,
            limit,
        } => Ok(too_large_output(
            alloc,
            file_named(case, which),
            Unit::Blocks,
            blocks as u64,
            limit as u64,
        )?),
        CheckFault::ReadFault => Err(RunFault::ReadFault),
        CheckFault::NoMemory => Err(RunFault::NoMemory),
    }
}

// The case that a text means, or its refusal.
fn open_text(alloc: Global, text: &[u8]) -> Result<CaseOpening, RunFault>
    ensures opening { IfOk result (λ o. case_seen o ≡ case_by (case_of text.now)) }
    ensures only { result ≢ Err RunFault.ReadFault }
{
    match read_case(alloc, text) {
        Ok(case) => Ok(CaseOpening::Opened(case)),
        Err(CaseFault::Refused { rule, place }) => Ok(CaseOpening::Refused(case_refused_output(
            alloc, rule, &place,
        )?)),
        Err(CaseFault::NoMemory) => Err(RunFault::NoMemory),
    }
}

// The case in a file of this length, or its refusal.
fn open_long<F: Files>(
    alloc: Global,
    files: &mut F,
    file: &str,
    len: u64,
) -> Result<CaseOpening, RunFault>
    requires { IsHeldAnd F.seen files.old file.now (Segment 0) (λ bytes. length bytes ≡ len) }
    ensures opening { IfOk result (λ o. (names : Names) (bytes : List ℕ) → (F.seen files.old).held ≡ Some names
        → names file.now (Segment 0) ≡ Some bytes → case_seen o ≡ case_by (case_of bytes)) }
    ensures asked { Asked F.seen files.old files.new result RunFault.ReadFault }
{
    let text = read_text(alloc, files, file, len as usize)?;
    open_text(alloc, text.as_slice())
}

/// The case in a file, or its refusal.
#[tactic(auto, unfolding(crate::specs::Cases::case_read))]
pub fn open_case<F: Files>(
    alloc: Global,
    files: &mut F,
    file: &str,
) -> Result<CaseOpening, RunFault>
    ensures opening { Tells F.seen files.old result (λ o names. case_seen o ≡ case_in file.now names) }
    ensures asked { Asked F.seen files.old files.new result RunFault.ReadFault }
{
    let name = FileName {
        base: file,
        part: Part::Segment(0),
    };
    match files.length(name)? {
        None => Ok(CaseOpening::Refused(no_file_output(alloc, file)?)),
        Some(len) if TEXT_LIMIT < len => Ok(CaseOpening::Refused(too_large_output(
            alloc,
            file,
            Unit::Bytes,
            len,
            TEXT_LIMIT,
        )?)),
        Some(len) => open_long(alloc, files, file, len),
    }
}
