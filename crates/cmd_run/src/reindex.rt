//! The command `reindex`: makes the file of an index of a case's live rows.
ghost use Rattle.std.specs.Prelude.{◌≡◌, ◌≤◌, IfOk, Some, length};
ghost use Rattle.outside.specs.Outside.{Asked, IfTold, Tells};
ghost use Rattle.bt_build.specs.Outcome.{MayBeIndexed};
ghost use Rattle.heap_table_check.specs.Files.{BelongTo, IsSoundHeapOf, files_of};
ghost use Rattle.heap_table_check.specs.Found.{IsQuiet};
ghost use Rattle.cmd_run.specs.Reindex.{MayBeMade, MayBeRemade, index_made, index_shown, numbered_reindexed};
ghost use Rattle.cmd_run.specs.Reindex.{reindex_outcome};
ghost use Rattle.cmd_answers.specs.Seen.{outcome_seen};

use crate::index::unknown_index;
use crate::table::{TableOpening, open_table};
use bt_build::{EntryList, IndexFault, MAX_BLOCKS, build_index};
use case_file::Case;
use cmd_answers::{
    Answer, CaseOpening, Output, RunFault, Unit, key_too_large_output, open_case, report_output,
    too_large_output,
};
use heap_table_check::SoundHeap;
use join_row_entries::{RowEntries, row_entries};
use outside::{Files, NoMemory};
use std::alloc::Global;

// The index of these entries, or why there is none; the file is the index's.
#[tactic(auto, unfolding(crate::specs::Reindex::index_made))]
fn entries_index_output(alloc: Global, entries: &EntryList, file: &str) -> Result<Output, NoMemory>
    ensures output { IfOk result (λ o. outcome_seen o ≡ index_made entries.now file.now) }
    ensures made { IfOk result (λ o. (outcome_seen o).code ≡ 0 → MayBeIndexed entries.now) }
{
    match build_index(alloc, entries) {
        Ok(tree) => Ok(Output {
            text: tree.into_octets(),
            answer: Answer::Clean,
        }),
        Err(IndexFault::KeyTooLarge { tid }) => key_too_large_output(alloc, tid),
        Err(IndexFault::TooManyBlocks { blocks }) => {
            too_large_output(alloc, file, Unit::Blocks, blocks, u64::from(MAX_BLOCKS))
        }
        Err(IndexFault::NoMemory) => Err(NoMemory),
    }
}

// The index of a heap in which nothing was found, or the report on the rows that are in doubt.
fn heap_index_output<F: Files>(
    alloc: Global,
    files: &mut F,
    case: &Case,
    heap: &SoundHeap,
    index: u16,
) -> Result<Output, RunFault>
    requires first { 1 ≤ index }
    requires last { index ≤ length case.now.indexes }
    requires belong { BelongTo case.now (files_of heap.now) }
    requires sound { IfTold F.seen files.old (λ names. IsSoundHeapOf case.now names heap.now) }
    requires quiet { IfTold F.seen files.old (λ names. IsQuiet case.now names) }
    ensures output { Tells F.seen files.old result (λ o names. outcome_seen o ≡ index_shown names case.now index) }
    ensures made { Tells F.seen files.old result (λ o names. (outcome_seen o).code ≡ 0
        → MayBeMade names case.now index) }
    ensures asked { Asked F.seen files.old files.new result RunFault.ReadFault }
{
    match row_entries(alloc, files, case, heap, index)? {
        RowEntries::Listed(entries) => Ok(entries_index_output(
            alloc,
            &entries,
            case.index_file(index),
        )?),
        RowEntries::Doubted(report) => Ok(report_output(alloc, &report)?),
    }
}

// The index of a case, or why there is none.
fn case_index_output<F: Files>(
    alloc: Global,
    files: &mut F,
    case: &Case,
    index: u16,
) -> Result<Output, RunFault>
    requires first { 1 ≤ index }
    requires last { index ≤ length case.now.indexes }
    ensures output { Tells F.seen files.old result (λ o names.
        outcome_seen o ≡ numbered_reindexed names case.now (Some index)) }
    ensures made { Tells F.seen files.old result (λ o names. (outcome_seen o).code ≡ 0
        → MayBeMade names case.now index) }
    ensures asked { Asked F.seen files.old files.new result RunFault.ReadFault }
{
    match open_table(alloc, files, case)? {
        TableOpening::Answered(output) => Ok(output),
        TableOpening::Opened(heap) => heap_index_output(alloc, files, case, &heap, index),
    }
}

/// The output of `reindex`: the file of the index of a name, built of the live rows of the heap of the case in a file,
/// where nothing is found of the heap and each value in the index's columns can be read; or else the report; or the
/// refusal that comes first: of the file, of its text, of the name, of the heap, of the TOAST table, of a key that is
/// too large, or of an index of too many blocks. The index's own file isn't asked for.
pub fn reindex_output<F: Files>(
    alloc: Global,
    files: &mut F,
    file: &str,
    name: &str,
) -> Result<Output, RunFault>
    ensures output { Tells F.seen files.old result (λ o names.
        outcome_seen o ≡ reindex_outcome file.now name.now names) }
    ensures made { Tells F.seen files.old result (λ o names. (outcome_seen o).code ≡ 0
        → MayBeRemade file.now name.now names) }
    ensures asked { Asked F.seen files.old files.new result RunFault.ReadFault }
{
    match open_case(alloc, files, file)? {
        CaseOpening::Refused(output) => Ok(output),
        CaseOpening::Opened(case) => match case.find_index(name) {
            None => Ok(unknown_index(alloc)?),
            Some(index) => case_index_output(alloc, files, &case, index),
        },
    }
}
