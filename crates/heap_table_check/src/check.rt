//! Judges a whole case but for its indexes: its visibility map, its heap and its TOAST table.
ghost use Rattle.std.specs.Prelude.{◌≡◌, ◌↔◌, ℕ, List, None, IfOk, IfSome, IsSome, IsTrue, OnOk};
ghost use Rattle.outside.specs.Adds.{AddsIn};
ghost use Rattle.outside.specs.Outside.{Asked, IfTold, Names, Tells};
ghost use Rattle.rel_files.specs.Ahead.{IsAheadOf};
ghost use Rattle.rel_files.specs.declared.relation.Relation.{Relation as Related};
ghost use Rattle.liveness.specs.LogFiles.{log_files_of};
ghost use Rattle.reports.specs.Added.{joined, nothing, report_lists};
ghost use Rattle.heap_page_check.specs.Found.{both_found, only_listed};
ghost use Rattle.heap_table_check.specs.Case.{log_files_in, oid_in};
ghost use Rattle.heap_table_check.specs.Found.{IsQuiet, case_found, chunks_given, chunks_of, heap_found, lists_in};
ghost use Rattle.heap_table_check.specs.Found.{lists_with};
ghost use Rattle.heap_table_check.specs.Found.{map_found, parts_found, toast_found};
ghost use Rattle.heap_table_check.specs.Known.{TellsOfBlocks, TellsOfHeap};
ghost use Rattle.heap_table_check.specs.Relations.{segment_found};
ghost use Rattle.heap_page_check.specs.Table.{Table, chunks_seen, toast_oid_seen};
ghost use Rattle.heap_table_check.specs.CaseLogs.{log_files_kept};
ghost use Rattle.heap_table_check.specs.Files.{AreFilesOf, BelongTo, IsSoundHeapOf, files_of};
ghost use Rattle.heap_table_check.specs.MapPage.{IsOptionalMapInHand};

use crate::files::{HeapFiles, SoundHeap};
use crate::logs::CaseLogs;
use crate::map::MapPage;
use crate::relations::{Hands, JudgedFile, TableFile, judge_table};
use case_file::Case;
use heap_page_check::{Found, TableKind, TableRules, ToastTable};
use liveness::{Memory, Remembering, Transactions};
use outside::{Files, NoMemory};
use page_layout::Rule;
use rel_files::PageFault;
use reports::{Place, Rel, Report};
use std::alloc::Global;
use toast_chunks::{TOAST_COLUMNS, ToastMap};
use varlena_attrs::ColumnLayout;

// Adds the finding of a segment of the visibility map that is too long.
fn add_segment(report: &mut Report, long: Option<u32>) -> Result<(), NoMemory>
    ensures { OnOk result (report.new ≡ joined report.old (segment_found Rel.Map long)) }
{
    match long {
        None => Ok(()),
        Some(segment) => report.add_rule(Place::Segment(Rel::Map, segment), Some(Rule::S1)),
    }
}

// Judges the pages of the visibility map, if there is one. The last is then in hand.
fn judge_map<F: Files>(
    files: &mut F,
    case: &Case,
    at: &HeapFiles,
    hand: &mut MapPage,
    report: &mut Report,
) -> Result<(), PageFault>
    requires told { IfTold F.seen files.old (λ names. AreFilesOf case.now names at.now) }
    requires belong { BelongTo case.now at.now }
    requires hand { IfTold F.seen files.old (λ names. IsOptionalMapInHand names at.now.map hand.old) }
    ensures found { OnOk result (IfTold F.seen files.old (λ names.
        report.new ≡ joined report.old (map_found case.now names))) }
    ensures hand { IfTold F.seen files.old (λ names. IsOptionalMapInHand names at.now.map hand.new) }
    ensures asked { Asked F.seen files.old files.new result PageFault.ReadFault }
{
    case.sound();
    match &at.map {
        None => Ok(()),
        Some(map) => {
            add_segment(report, map.long_segment())?;
            hand.judge_pages(files, map, report)
        }
    }
}

// The rules of a TOAST table, which has these columns.
fn toast_rules<'p>(columns: &'p ColumnLayout<'p>, logs: &'p CaseLogs) -> TableRules<'p>
    ensures kind { result.kind ≡ TableKind.Toast }
    ensures columns { result.columns.now ≡ columns.now }
    ensures toast { result.toast ≡ None }
    ensures logs { log_files_of result.logs ≡ log_files_kept logs.now }
{
    TableRules {
        kind: TableKind::Toast,
        columns,
        toast: None,
        logs: logs.lent(),
    }
}

/// The rules of a heap, which has these columns and this TOAST table.
pub fn heap_rules<'p>(
    columns: &'p ColumnLayout<'p>,
    toast: Option<ToastTable<'p>>,
    logs: &'p CaseLogs,
) -> TableRules<'p>
    ensures kind { result.kind ≡ TableKind.Heap }
    ensures columns { result.columns.now ≡ columns.now }
    ensures toast { result.toast ≡ toast.entry }
    ensures logs { log_files_of result.logs ≡ log_files_kept logs.now }
{
    TableRules {
        kind: TableKind::Heap,
        columns,
        toast,
        logs: logs.lent(),
    }
}

// What is found of the TOAST table of a case, if it has one.
fn judge_toast<F: Transactions>(
    alloc: Global,
    files: &mut F,
    case: &Case,
    logs: &CaseLogs,
    at: &HeapFiles,
) -> Result<Found, PageFault>
    requires told { IfTold F.seen files.old (λ names. AreFilesOf case.now names at.now) }
    requires belong { BelongTo case.now at.now }
    requires logs { log_files_kept logs.now ≡ log_files_in case.now }
    ensures found { Tells F.seen files.old result (λ found names. found ≡ toast_found case.now names) }
    ensures asked { Asked F.seen files.old files.new result PageFault.ReadFault }
{
    match &at.toast {
        None => Ok(Found::new(alloc)),
        Some(relation) => {
            let columns = ColumnLayout::new(&TOAST_COLUMNS);
            let table = toast_rules(&columns, logs);
            let file = TableFile {
                relation,
                map: None,
            };
            let mut hands = Hands::new(alloc)?;
            judge_table(files, &table, file, &mut hands)?;
            Ok(hands.into_judged().found)
        }
    }
}

/// The TOAST table of a case's heap, if it has one, with these chunks.
pub fn toast_table<'p>(case: &Case, chunks: &'p ToastMap) -> Option<ToastTable<'p>>
    ensures oid { toast_oid_seen result ≡ oid_in case.now.toast }
    ensures chunks { chunks_seen result ≡ chunks_given case.now.toast chunks.now }
{
    match case.toast() {
        None => None,
        Some((_, oid)) => Some(ToastTable { oid, chunks }),
    }
}

// Puts what is found of the TOAST table, and its chunks, to what is found of the rest.
fn add_toast(found: &mut Found, toast: Found) -> Result<(), NoMemory>
    ensures { OnOk result (found.new ≡ record {
      listed = joined found.old.listed toast.listed;
      late = found.old.late;
      chunks = toast.chunks;
    }) }
{
    let Found {
        listed,
        late: _,
        chunks,
    } = toast;
    found.chunks = chunks;
    found.listed.append(listed)
}

// A case with the logs of its cluster, the files of its table, and the chunks that were found of its TOAST table.
#[derive(Clone, Copy)]
struct HeapOfCase<'a> {
    case: &'a Case,
    logs: &'a CaseLogs,
    at: &'a HeapFiles,
    chunks: &'a ToastMap,
}

// Judges the heap of a case, once the pages of its map were judged.
fn judge_heap<F: Transactions>(
    files: &mut F,
    of: HeapOfCase<'_>,
    hands: &mut Hands,
) -> Result<(), PageFault>
    requires told { IfTold F.seen files.old (λ names. AreFilesOf of.case.now names of.at.now) }
    requires belong { BelongTo of.case.now of.at.now }
    requires logs { log_files_kept of.logs.now ≡ log_files_in of.case.now }
    requires chunks { IfTold F.seen files.old (λ names. of.chunks.now ≡ chunks_of of.case.now names) }
    requires pages { (names : Names) (r : Related) → IsAheadOf names r hands.old.ahead }
    requires map { IfTold F.seen files.old (λ names. IsOptionalMapInHand names of.at.now.map hands.old.map) }
    requires known { (table : Table) (pages : ℕ → List ℕ) → TellsOfBlocks table pages 0 hands.old.known }
    ensures found { OnOk result (IfTold F.seen files.old (λ names.
        hands.new.work.found ≡ both_found hands.old.work.found (heap_found of.entry.case.now names))) }
    ensures known { OnOk result (IfTold F.seen files.old (λ names.
        TellsOfHeap of.entry.case.now names hands.new.known)) }
    ensures asked { Asked F.seen files.old files.new result PageFault.ReadFault }
{
    let HeapOfCase {
        case,
        logs,
        at,
        chunks,
    } = of;
    case.sound();
    let columns = ColumnLayout::new(case.column_types());
    let table = heap_rules(&columns, toast_table(case, chunks), logs);
    let file = TableFile {
        relation: &at.heap,
        map: at.map.as_ref(),
    };
    judge_table(files, &table, file, hands)?;
    Ok(())
}

// What is found of the map and then of the heap of a case, and what is known of the heap's blocks.
fn judge_mapped<F: Transactions>(
    alloc: Global,
    files: &mut F,
    of: HeapOfCase<'_>,
) -> Result<JudgedFile, PageFault>
    requires told { IfTold F.seen files.old (λ names. AreFilesOf of.case.now names of.at.now) }
    requires belong { BelongTo of.case.now of.at.now }
    requires logs { log_files_kept of.logs.now ≡ log_files_in of.case.now }
    requires chunks { IfTold F.seen files.old (λ names. of.chunks.now ≡ chunks_of of.case.now names) }
    ensures found { Tells F.seen files.old result (λ judged names. judged.found
        ≡ both_found (only_listed (map_found of.entry.case.now names)) (heap_found of.entry.case.now names)) }
    ensures known { Tells F.seen files.old result (λ judged names.
        TellsOfHeap of.entry.case.now names judged.known) }
    ensures asked { Asked F.seen files.old files.new result PageFault.ReadFault }
{
    let mut hands = Hands::new(alloc)?;
    let listed = &mut hands.work.found.listed;
    judge_map(files, of.case, of.at, &mut hands.map, listed)?;
    judge_heap(files, of, &mut hands)?;
    Ok(hands.into_judged())
}

// What is found of the map, the heap and the TOAST table of a case, and what is known of the heap's blocks. The TOAST
// table is judged first, since the heap's values are asked of its chunks, and comes last in the lists.
fn judge_in_turn<F: Transactions>(
    alloc: Global,
    files: &mut F,
    case: &Case,
    logs: &CaseLogs,
    at: &HeapFiles,
) -> Result<JudgedFile, PageFault>
    requires told { IfTold F.seen files.old (λ names. AreFilesOf case.now names at.now) }
    requires belong { BelongTo case.now at.now }
    requires logs { log_files_kept logs.now ≡ log_files_in case.now }
    ensures found { Tells F.seen files.old result (λ judged names. judged.found ≡ parts_found case.now names) }
    ensures known { Tells F.seen files.old result (λ judged names. TellsOfHeap case.now names judged.known) }
    ensures asked { Asked F.seen files.old files.new result PageFault.ReadFault }
{
    let toast = judge_toast(alloc, files, case, logs, at)?;
    let of = HeapOfCase {
        case,
        logs,
        at,
        chunks: &toast.chunks,
    };
    let mut judged = judge_mapped(alloc, files, of)?;
    add_toast(&mut judged.found, toast)?;
    Ok(judged)
}

// The same over files of which it is remembered what was found of transactions.
fn judge_files<F: Files>(
    alloc: Global,
    files: &mut F,
    case: &Case,
    at: &HeapFiles,
) -> Result<JudgedFile, PageFault>
    requires told { IfTold F.seen files.old (λ names. AreFilesOf case.now names at.now) }
    requires belong { BelongTo case.now at.now }
    ensures found { Tells F.seen files.old result (λ judged names. judged.found ≡ parts_found case.now names) }
    ensures known { Tells F.seen files.old result (λ judged names. TellsOfHeap case.now names judged.known) }
    ensures asked { Asked F.seen files.old files.new result PageFault.ReadFault }
{
    let logs = CaseLogs::new(alloc, case)?;
    let mut memory = Memory::new(alloc, &logs.lent())?;
    let mut files = Remembering::new(files, &mut memory);
    judge_in_turn(alloc, &mut files, case, &logs, at)
}

// Adds what is listed in any case to the report, and where that is nothing, what comes late. It says whether both
// are nothing.
fn add_lists(report: &mut Report, listed: Report, late: Report) -> Result<bool, NoMemory>
    ensures added { AddsIn report_lists result report.old report.new (lists_with listed late) }
    ensures none { IfOk result (λ answer. IsTrue answer ↔ (lists_with listed late ≡ nothing)) }
{
    let silent = listed.counts() == (0, 0);
    report.append(listed)?;
    if !silent {
        return Ok(false);
    }
    let whole = late.counts() == (0, 0);
    report.append(late)?;
    Ok(whole)
}

// Adds what was found to the report. The chunks are given back exactly where nothing was added.
fn add_found(report: &mut Report, found: Found) -> Result<Option<ToastMap>, NoMemory>
    ensures added { AddsIn report_lists result report.old report.new (lists_in found) }
    ensures none { IfOk result (λ answer. IsSome answer ↔ (lists_in found ≡ nothing)) }
    ensures chunks { IfOk result (λ answer. IfSome answer (λ chunks. chunks ≡ found.chunks)) }
{
    let Found {
        listed,
        late,
        chunks,
    } = found;
    match add_lists(report, listed, late)? {
        true => Ok(Some(chunks)),
        false => Ok(None),
    }
}

/// Judges the files of a case's table, and adds to the report all that is found of them and all that
/// can't be judged: the pages of the visibility map (S1, P1 to P4); then the heap's segments (S1), the
/// headers of its pages (P1 to P4), where its items lie (H1, H2), the headers of its tuples (U1, H4 to
/// H8), their lives (H9 to H13, U2, U3) and the values of live ones (H17 to H20), how visible its
/// blocks are (V1 to V4) and its chains (H3, H14 to H16); then the TOAST table by the same rules; and
/// where nothing was found of all these, the values that stand in the TOAST table (H21).
///
/// The answer is `None` exactly where something was added. `ReadFault` comes only where the count of
/// the files' faults rose. After an error the report has a first
/// part of what it would have got.
pub fn check_heap<F: Files>(
    alloc: Global,
    files: &mut F,
    case: &Case,
    at: HeapFiles,
    report: &mut Report,
) -> Result<Option<SoundHeap>, PageFault>
    requires told { IfTold F.seen files.old (λ names. AreFilesOf case.now names at) }
    requires belong { BelongTo case.now at }
    ensures found { IfTold F.seen files.old (λ names.
        AddsIn report_lists result report.old report.new (case_found case.now names)) }
    ensures grown { IfOk result (λ answer. IsSome answer ↔ (report.new ≡ report.old)) }
    ensures quiet { Tells F.seen files.old result (λ answer names. IsSome answer ↔ IsQuiet case.now names) }
    ensures sound { IfOk result (λ answer. IfSome answer (λ sound.
        IfTold F.seen files.old (λ names. IsSoundHeapOf case.now names sound))) }
    ensures belong { IfOk result (λ answer. IfSome answer (λ sound. BelongTo case.now (files_of sound))) }
    ensures asked { Asked F.seen files.old files.new result PageFault.ReadFault }
{
    let JudgedFile { found, known } = judge_files(alloc, files, case, &at)?;
    match add_found(report, found)? {
        None => Ok(None),
        Some(chunks) => Ok(Some(SoundHeap {
            files: at,
            chunks,
            known,
        })),
    }
}
