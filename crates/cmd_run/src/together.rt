//! The indexes of a case: each by itself, and then those of which nothing is found beside the heap, all at once.
ghost use Rattle.std.specs.Prelude.{◌≡◌, ◌&&◌, ◌∷◌, ◌++◌, [], All, IfOk, IfSome, List, OnOk, false, is_some, map, true};
ghost use Rattle.std.specs.Option.{option_to_list};
ghost use Rattle.outside.specs.Outside.{Asked, IfTold, Names, Tells};
ghost use Rattle.case_file.specs.Record.{CaseRecord};
ghost use Rattle.reports.specs.Added.{joined};
ghost use Rattle.reports.specs.Lists.{Lists};
ghost use Rattle.bt_levels.specs.Files.{BelongsTo, IsFileOf, number_of};
ghost use Rattle.bt_levels.specs.Index.{tree_lists};
ghost use Rattle.bt_levels.specs.Sound.{HoldsTree, IsSoundIndexOf, file_of};
ghost use Rattle.bt_levels.specs.declared.files.TreeFile.{TreeFile as File};
ghost use Rattle.cmd_run.specs.Tables.{IsHeapIn, IsHeapOf, case_seen, heap_seen, trees_found};
ghost use Rattle.cmd_run.specs.Together.{AreAlone, BelongAlone, found_with, joint_lists, own_report, quiet_numbers};
ghost use Rattle.cmd_run.specs.Together.{tree_number};

use bt_levels::{SoundTree, TreeFile, check_tree};
use case_file::Case;
use cmd_answers::RunFault;
use heap_indexed::check_indexes;
use heap_table_check::SoundHeap;
use join_row_keys::IndexedTable;
use outside::{Files, NoMemory};
use reports::Report;
use std::alloc::Global;
use std::collections::VecDeque;

/// A case whose table was judged, and its heap, where nothing was found of that.
#[derive(Clone, Copy)]
pub struct JudgedTable<'a> {
    pub case: &'a Case,
    pub heap: Option<&'a SoundHeap>,
}

impl<'a> JudgedTable<'a> {
    ghost use Rattle.std.specs.Option.{option_copied};
    ghost use Rattle.cmd_run.specs.Tables.{case_seen, heap_seen};

    /// The case, and its heap, where nothing was found.
    pub fn new(case: &'a Case, heap: Option<&'a SoundHeap>) -> JudgedTable<'a>
        ensures case { case_seen result ≡ case.now }
        ensures heap { heap_seen result ≡ option_copied heap.entry }
    {
        JudgedTable { case, heap }
    }
}

/// What came of judging one index by itself: the report on it, and whether nothing is in that.
#[derive(Drop)]
struct OwnReport {
    report: Report,
    is_sound: bool,
}

/// What came of judging indexes by themselves, and the trees of those of which nothing was found.
#[derive(Drop)]
struct Alone {
    own: VecDeque<OwnReport>,
    trees: Vec<SoundTree>,
}

impl Alone {
    // No index was judged yet.
    fn new(alloc: Global) -> Alone
        ensures none { (case : CaseRecord) (names : Names) → AreAlone case names [] result }
        ensures belong { (case : CaseRecord) → BelongAlone case result }
    {
        Alone {
            own: VecDeque::new(alloc),
            trees: Vec::new(alloc),
        }
    }

    // Puts what came of one more index behind the others.
    fn push(&mut self, report: Report, tree: Option<SoundTree>) -> Result<(), NoMemory>
        ensures own { OnOk result (self.new.own.items ≡ self.old.own.items ++ own_report report (is_some tree) ∷ []) }
        ensures trees { OnOk result (self.new.trees.items ≡ self.old.trees.items ++ option_to_list tree) }
    {
        let is_sound = tree.is_some();
        self.own.push_back(OwnReport { report, is_sound })?;
        if let Some(tree) = tree {
            self.trees.push(tree)?;
        }
        Ok(())
    }

    // Judges one more index by itself.
    fn judge<F: Files>(
        &mut self,
        alloc: Global,
        files: &mut F,
        case: &Case,
        at: TreeFile,
    ) -> Result<(), RunFault>
        requires told { IfTold F.seen files.old (λ names. IsFileOf case.now names at) }
        requires belongs { BelongsTo case.now at }
        requires belong { BelongAlone case.now self.old }
        ensures alone { OnOk result (IfTold F.seen files.old (λ names. (before : List File)
            → AreAlone case.now names before self.old → AreAlone case.now names (before ++ at ∷ []) self.new)) }
        ensures belong { OnOk result (BelongAlone case.now self.new) }
        ensures asked { Asked F.seen files.old files.new result RunFault.ReadFault }
    {
        let mut report = Report::new(alloc);
        let tree = check_tree(alloc, files, case, at, &mut report)?;
        self.push(report, tree)?;
        Ok(())
    }

    // Adds each report, and behind it that on the index beside the heap, where there is one.
    fn append_to(
        self,
        joint: VecDeque<Report>,
        are_joined: bool,
        report: &mut Report,
    ) -> Result<(), NoMemory>
        ensures { OnOk result ((case : CaseRecord) (names : Names) (files : List File)
            → AreAlone case names files self → joint.items
            ≡ joint_lists case names are_joined (quiet_numbers case names files)
            → report.new ≡ joined report.old (found_with case names are_joined files)) }
    {
        let mut alone = self;
        let mut joint = joint;
        while let Some(own) = alone.own.pop_front() {
            append_both(own, &mut joint, are_joined, report)?;
        }
        Ok(())
    }
}

// Adds the report on an index, and behind it, if nothing is in it, the first of these, if there are any.
fn append_both(
    own: OwnReport,
    joint: &mut VecDeque<Report>,
    are_joined: bool,
    report: &mut Report,
) -> Result<(), NoMemory>
    ensures alone { OnOk result ((are_joined && own.is_sound) ≡ false
        → (report.new ≡ joined report.old own.report) × (joint.new.items ≡ joint.old.items)) }
    ensures both { OnOk result ((first : Lists) (rest : List Lists) → (are_joined && own.is_sound) ≡ true
        → joint.old.items ≡ first ∷ rest
        → (report.new ≡ joined (joined report.old own.report) first) × (joint.new.items ≡ rest)) }
{
    let OwnReport {
        report: more,
        is_sound,
    } = own;
    report.append(more)?;
    if !(are_joined && is_sound) {
        return Ok(());
    }
    match joint.pop_front() {
        Some(beside) => report.append(beside),
        None => Ok(()),
    }
}

// Judges indexes by themselves, one after the other.
fn judge_all_alone<F: Files>(
    alloc: Global,
    files: &mut F,
    case: &Case,
    trees: VecDeque<TreeFile>,
) -> Result<Alone, RunFault>
    requires told { IfTold F.seen files.old (λ names. All (IsFileOf case.now names) trees.items) }
    requires belongs { All (BelongsTo case.now) trees.items }
    ensures alone { Tells F.seen files.old result (λ alone names. AreAlone case.now names trees.items alone) }
    ensures belong { IfOk result (BelongAlone case.now) }
    ensures asked { Asked F.seen files.old files.new result RunFault.ReadFault }
{
    let mut alone = Alone::new(alloc);
    let mut trees = trees;
    while let Some(tree) = trees.pop_front() {
        alone.judge(alloc, files, case, tree)?;
    }
    Ok(alone)
}

// The reports on indexes beside the heap, if nothing was found of that; else none. Where there is no index the heap
// isn't read again.
fn join_all<F: Files>(
    alloc: Global,
    files: &mut F,
    table: JudgedTable<'_>,
    trees: &[SoundTree],
) -> Result<VecDeque<Report>, RunFault>
    requires heap { IfTold F.seen files.old (λ names. IsHeapOf (case_seen table) names (heap_seen table)) }
    requires in_case { IsHeapIn (case_seen table) (heap_seen table) }
    requires belong { All (λ t. IsSoundIndexOf (case_seen table) (tree_number t) t) trees.now }
    requires held { IfTold F.seen files.old (λ names.
        All (λ t. IsFileOf (case_seen table) names (file_of t) × HoldsTree names t) trees.now) }
    ensures joint { Tells F.seen files.old result (λ reports names. reports.items
        ≡ joint_lists (case_seen table.entry) names (is_some (heap_seen table.entry)) (map tree_number trees.now)) }
    ensures asked { Asked F.seen files.old files.new result RunFault.ReadFault }
{
    let Some(heap) = table.heap else {
        return Ok(VecDeque::new(alloc));
    };
    if trees.is_empty() {
        return Ok(VecDeque::new(alloc));
    }
    let case = table.case;
    let reports = check_indexes(alloc, files, IndexedTable { case, heap, trees })?;
    Ok(reports)
}

/// Judges the files of indexes, each by itself, and those of which nothing is found beside the heap, where nothing was
/// found of that; adds what is found to the report, one index after the other.
pub fn judge_indexes<F: Files>(
    alloc: Global,
    files: &mut F,
    table: JudgedTable<'_>,
    trees: VecDeque<TreeFile>,
    report: &mut Report,
) -> Result<(), RunFault>
    requires told { IfTold F.seen files.old (λ names. All (IsFileOf (case_seen table) names) trees.items) }
    requires belongs { All (BelongsTo (case_seen table)) trees.items }
    requires heap { IfTold F.seen files.old (λ names. IsHeapOf (case_seen table) names (heap_seen table)) }
    requires belong { IsHeapIn (case_seen table) (heap_seen table) }
    ensures found { OnOk result (IfTold F.seen files.old (λ names.
        report.new ≡ joined report.old (trees_found (case_seen table.entry) names trees.items))) }
    ensures asked { Asked F.seen files.old files.new result RunFault.ReadFault }
{
    let alone = judge_all_alone(alloc, files, table.case, trees)?;
    let joint = join_all(alloc, files, table, &alone.trees)?;
    alone.append_to(joint, table.heap.is_some(), report)?;
    Ok(())
}
