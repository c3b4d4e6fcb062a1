//! A case's table: its files are attached, with those of indexes where a command judges some, and judged.
ghost use Rattle.std.specs.Prelude.{◌≡◌, ◌++◌, ◌∷◌, ◌-◌, ◌≤◌, [], All, IfOk, Ok, OnOk, length};
ghost use Rattle.rel_files.specs.Refusals.{TellsRefusal};
ghost use Rattle.outside.specs.Outside.{Asked, IfTold, Tells};
ghost use Rattle.heap_table_check.specs.Files.{AreFilesOf, BelongTo};
ghost use Rattle.heap_table_check.specs.Found.{case_found};
ghost use Rattle.bt_levels.specs.Files.{BelongsTo, IsFileOf};
ghost use Rattle.cmd_answers.specs.Outcome.{owed_by};
ghost use Rattle.cmd_answers.specs.Seen.{outcome_seen};
ghost use Rattle.cmd_run.specs.Heap.{case_judged};
ghost use Rattle.cmd_run.specs.Openings.{BelongsIfOpened, IsTableOpening};
ghost use Rattle.cmd_run.specs.Ranges.{indexes_refusal, range_judged, range_refusal};
ghost use Rattle.cmd_run.specs.Tables.{AreTreesBehind, case_seen, heap_seen, trees_found};

use crate::together::{JudgedTable, judge_indexes};
use bt_levels::TreeFile;
use case_file::Case;
use cmd_answers::{Output, RunFault, refuse_files, report_output};
use heap_table_check::{HeapFiles, SoundHeap, check_heap};
use outside::{Files, NoMemory};
use rel_files::CheckFault;
use reports::Report;
use std::alloc::Global;
use std::collections::VecDeque;
use std::ops::Range;

// The files of a case that are judged: those of its table, and those of indexes in their order.
#[derive(Drop)]
struct CaseFiles {
    table: HeapFiles,
    trees: VecDeque<TreeFile>,
}

/// What comes of a case's table before its rows are read.
#[derive(Drop)]
pub enum TableOpening {
    /// The heap, where nothing is found of the table.
    Opened(SoundHeap),
    /// The report on the table, or why its files can't be judged.
    Answered(Output),
}

// Puts the file of an index behind others.
fn push_tree(trees: &mut VecDeque<TreeFile>, tree: TreeFile) -> Result<(), NoMemory>
    ensures { OnOk result (trees.new.items ≡ trees.old.items ++ tree ∷ []) }
{
    trees.push_back(tree)?;
    Ok(())
}

// Attaches the files of the indexes of a case that have the numbers from `start + 1` to `end`.
fn attach_trees<F: Files>(
    alloc: Global,
    files: &mut F,
    case: &Case,
    indexes: Range<u16>,
) -> Result<VecDeque<TreeFile>, CheckFault>
    requires start { indexes.start ≤ indexes.end }
    requires end { indexes.end ≤ length case.now.indexes }
    ensures trees { IfOk result (λ trees.
        AreTreesBehind case.now indexes.start (indexes.end - indexes.start) trees.items) }
    ensures told { Tells F.seen files.old result (λ trees names. All (IsFileOf case.now names) trees.items) }
    ensures refusal { IfTold F.seen files.old (λ names.
        TellsRefusal (indexes_refusal case.now names indexes.start indexes.end) result) }
    ensures asked { Asked F.seen files.old files.new result CheckFault.ReadFault }
{
    let mut trees = VecDeque::new(alloc);
    for before in indexes.start..indexes.end {
        let tree = TreeFile::attach(alloc, files, case, before + 1)?;
        push_tree(&mut trees, tree)?;
    }
    Ok(trees)
}

impl CaseFiles {
    // Attaches the files of a case's table, and then those of the indexes from `start + 1` to `end`.
    fn attach<F: Files>(
        alloc: Global,
        files: &mut F,
        case: &Case,
        indexes: Range<u16>,
    ) -> Result<CaseFiles, CheckFault>
        requires start { indexes.start ≤ indexes.end }
        requires end { indexes.end ≤ length case.now.indexes }
        ensures table { Tells F.seen files.old result (λ at names. AreFilesOf case.now names at.table) }
        ensures belong { IfOk result (λ at. BelongTo case.now at.table) }
        ensures trees { IfOk result (λ at.
            AreTreesBehind case.now indexes.start (indexes.end - indexes.start) at.trees.items) }
        ensures told { Tells F.seen files.old result (λ at names. All (IsFileOf case.now names) at.trees.items) }
        ensures refusal { IfTold F.seen files.old (λ names.
            TellsRefusal (range_refusal case.now names indexes.start indexes.end) result) }
        ensures asked { Asked F.seen files.old files.new result CheckFault.ReadFault }
    {
        let table = HeapFiles::attach(alloc, files, case)?;
        let trees = attach_trees(alloc, files, case, indexes)?;
        Ok(CaseFiles { table, trees })
    }
}

/// The report on a case's table and on its indexes from number `start + 1` to `end`, each by itself and beside the
/// heap, or the refusal that comes first: of the heap, of the TOAST table, or of an index.
pub fn report_on_case<F: Files>(
    alloc: Global,
    files: &mut F,
    case: &Case,
    indexes: Range<u16>,
) -> Result<Output, RunFault>
    requires start { indexes.start ≤ indexes.end }
    requires end { indexes.end ≤ length case.now.indexes }
    ensures output { Tells F.seen files.old result (λ o names.
        outcome_seen o ≡ owed_by (range_judged names case.now indexes.start indexes.end)) }
    ensures asked { Asked F.seen files.old files.new result RunFault.ReadFault }
{
    let CaseFiles { table, trees } = match CaseFiles::attach(alloc, files, case, indexes) {
        Ok(at) => at,
        Err(fault) => return refuse_files(alloc, case, fault),
    };
    let mut report = Report::new(alloc);
    let heap = check_heap(alloc, files, case, table, &mut report)?;
    let judged = JudgedTable::new(case, heap.as_ref());
    judge_indexes(alloc, files, judged, trees, &mut report)?;
    Ok(report_output(alloc, &report)?)
}

// Judges the files of a case's table.
fn judge_table<F: Files>(
    alloc: Global,
    files: &mut F,
    case: &Case,
    at: HeapFiles,
) -> Result<TableOpening, RunFault>
    requires told { IfTold F.seen files.old (λ names. AreFilesOf case.now names at) }
    requires belong { BelongTo case.now at }
    ensures opening { Tells F.seen files.old result (λ o names.
        IsTableOpening case.now names (Ok (case_found case.now names)) o) }
    ensures belong { IfOk result (BelongsIfOpened case.now) }
    ensures asked { Asked F.seen files.old files.new result RunFault.ReadFault }
{
    let mut report = Report::new(alloc);
    match check_heap(alloc, files, case, at, &mut report)? {
        Some(heap) => Ok(TableOpening::Opened(heap)),
        None => Ok(TableOpening::Answered(report_output(alloc, &report)?)),
    }
}

/// Attaches and judges the files of a case's table: its heap comes back where nothing is found, and else the report,
/// or the refusal that comes first, of the heap or of the TOAST table.
pub fn open_table<F: Files>(
    alloc: Global,
    files: &mut F,
    case: &Case,
) -> Result<TableOpening, RunFault>
    ensures opening { Tells F.seen files.old result (λ o names.
        IsTableOpening case.now names (case_judged names case.now) o) }
    ensures belong { IfOk result (BelongsIfOpened case.now) }
    ensures asked { Asked F.seen files.old files.new result RunFault.ReadFault }
{
    match HeapFiles::attach(alloc, files, case) {
        Ok(at) => judge_table(alloc, files, case, at),
        Err(fault) => Ok(TableOpening::Answered(refuse_files(alloc, case, fault)?)),
    }
}
