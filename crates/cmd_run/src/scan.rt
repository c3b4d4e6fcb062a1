//! The command `scan`: prints the entries of an index between two bounds, in either direction.
ghost use Rattle.std.specs.Prelude.{◌≡◌, ◌≤◌, IfOk, length};
ghost use Rattle.outside.specs.Outside.{Asked, IfTold, Tells};
ghost use Rattle.key_orders.specs.Scans.{FitsKey};
ghost use Rattle.bt_levels.specs.Files.{BelongsTo, IsFileOf, number_of, refusal_of};
ghost use Rattle.bt_levels.specs.Sound.{HoldsTree, specs_of};
ghost use Rattle.bt_scan_lines.specs.Lines.{in_direction};
ghost use Rattle.bt_scan_lines.specs.Wanted.{wanted_on};
ghost use Rattle.cmd_line.specs.Bounds.{bounds_in};
ghost use Rattle.cmd_run.specs.Scan.{bounded_scanned, entries_shown, file_scanned, keys_of, lines_shown};
ghost use Rattle.cmd_run.specs.Scan.{scan_outcome, tree_scanned};
ghost use Rattle.cmd_answers.specs.Seen.{outcome_seen};

use crate::index::unknown_index;
use bt_levels::{SoundTree, TreeFile, check_tree};
use bt_scan_lines::{ScanLines, scan_lines};
use case_file::Case;
use cmd_answers::{
    Answer, CaseOpening, Output, RunFault, bad_bound_output, open_case, refuse_files, report_output,
};
use cmd_line::{ScanWords, Side, read_bound};
use key_orders::{Scan, ScanDirection, ScanFault};
use outside::{Files, NoMemory};
use reports::Report;
use std::alloc::Global;

// The entries that are shown: their lines, and how many they are.
fn lines_output(lines: ScanLines) -> Result<Output, NoMemory>
    ensures { IfOk result (λ o. outcome_seen o ≡ lines_shown lines.text lines.count) }
{
    let ScanLines { mut text, count } = lines;
    text.push_slice(b"entries ")?;
    text.push_decimal(count)?;
    text.push_slice(b"\n")?;
    Ok(Output {
        text,
        answer: Answer::Clean,
    })
}

// What a scan shows of an index of which nothing was found.
fn tree_entries_output<F: Files>(
    alloc: Global,
    files: &mut F,
    tree: &SoundTree,
    scan: &Scan,
    direction: ScanDirection,
) -> Result<Output, RunFault>
    requires holds { IfTold F.seen files.old (λ names. HoldsTree names tree.now) }
    requires fits { FitsKey (specs_of tree.now) scan.now }
    ensures output { Tells F.seen files.old result (λ o names.
        outcome_seen o ≡ entries_shown (in_direction direction (wanted_on names tree.now scan.now))) }
    ensures asked { Asked F.seen files.old files.new result RunFault.ReadFault }
{
    let lines = scan_lines(alloc, files, tree, scan, direction)?;
    Ok(lines_output(lines)?)
}

// The entries of an index in this file that a scan wants, or the report on it where something is found.
fn entries_or_report<F: Files>(
    alloc: Global,
    files: &mut F,
    case: &Case,
    at: TreeFile,
    asked: (&Scan, ScanDirection),
) -> Result<Output, RunFault>
    requires told { IfTold F.seen files.old (λ names. IsFileOf case.now names at) }
    requires belongs { BelongsTo case.now at }
    requires fits { FitsKey (keys_of case.now (number_of at)) asked.0.now }
    ensures output { Tells F.seen files.old result (λ o names.
        outcome_seen o ≡ tree_scanned case.now names (number_of at) asked.entry.0.now asked.entry.1) }
    ensures asked { Asked F.seen files.old files.new result RunFault.ReadFault }
{
    let (scan, direction) = asked;
    let mut report = Report::new(alloc);
    let tree = check_tree(alloc, files, case, at, &mut report)?;
    match tree {
        None => Ok(report_output(alloc, &report)?),
        Some(tree) => tree_entries_output(alloc, files, &tree, scan, direction),
    }
}

// The same of index `n` of a case, unless its file is refused.
fn index_entries_output<F: Files>(
    alloc: Global,
    files: &mut F,
    case: &Case,
    index: u16,
    asked: (&Scan, ScanDirection),
) -> Result<Output, RunFault>
    requires first { 1 ≤ index }
    requires last { index ≤ length case.now.indexes }
    requires fits { FitsKey (keys_of case.now index) asked.0.now }
    ensures output { Tells F.seen files.old result (λ o names. outcome_seen o ≡ file_scanned
        (refusal_of case.now names index) case.now
        (tree_scanned case.now names index asked.entry.0.now asked.entry.1)) }
    ensures asked { Asked F.seen files.old files.new result RunFault.ReadFault }
{
    match TreeFile::attach(alloc, files, case, index) {
        Ok(at) => entries_or_report(alloc, files, case, at, asked),
        Err(fault) => refuse_files(alloc, case, fault),
    }
}

// The entries of index `n` of a case between the bounds that these words are, unless one doesn't fit its key.
fn bounded_output<F: Files>(
    alloc: Global,
    files: &mut F,
    case: &Case,
    index: u16,
    words: ScanWords<'_>,
) -> Result<Output, RunFault>
    requires first { 1 ≤ index }
    requires last { index ≤ length case.now.indexes }
    ensures output { Tells F.seen files.old result (λ o names. outcome_seen o
        ≡ bounded_scanned case.now names index (bounds_in words.entry.low.now words.entry.high.now)
        words.entry.direction) }
    ensures asked { Asked F.seen files.old files.new result RunFault.ReadFault }
{
    let low = read_bound(alloc, Side::Low, words.low)?;
    let high = read_bound(alloc, Side::High, words.high)?;
    case.sound();
    let keys = case.index_keys(index);
    match Scan::new(
        alloc,
        keys,
        &low.values,
        low.inclusive,
        &high.values,
        high.inclusive,
    ) {
        Ok(scan) => index_entries_output(alloc, files, case, index, (&scan, words.direction)),
        Err(ScanFault::TooLong) => Ok(bad_bound_output(alloc)?),
        Err(ScanFault::WrongKind) => Ok(bad_bound_output(alloc)?),
        Err(ScanFault::NoMemory) => Err(RunFault::NoMemory),
    }
}

/// The output of `scan`: the entries of an index of the case in a file between two bounds, or the report on that index
/// where something is found of it, or the refusal that comes first: of the file, of its text, of the name, of the
/// bounds, or of the index's file. No other file of the case is asked for.
pub fn scan_output<F: Files>(
    alloc: Global,
    files: &mut F,
    words: ScanWords<'_>,
) -> Result<Output, RunFault>
    ensures output { Tells F.seen files.old result (λ o names. outcome_seen o ≡ scan_outcome words.entry.case.now
        words.entry.name.now (bounds_in words.entry.low.now words.entry.high.now) words.entry.direction names) }
    ensures asked { Asked F.seen files.old files.new result RunFault.ReadFault }
{
    match open_case(alloc, files, words.case)? {
        CaseOpening::Refused(output) => Ok(output),
        CaseOpening::Opened(case) => match case.find_index(words.name) {
            None => Ok(unknown_index(alloc)?),
            Some(index) => bounded_output(alloc, files, &case, index, words),
        },
    }
}
