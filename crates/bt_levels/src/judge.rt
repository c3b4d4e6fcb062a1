//! Judges the segments, the blocks and the levels of an index.
ghost use Rattle.std.specs.Prelude.{◌≡◌, ◌+◌, ◌-◌, ◌*◌, ◌<◌, ◌↔◌, IfOk, IfSome, IsSome, OnOk};
ghost use Rattle.std.specs.Prelude.{None, false, length, min, true};
ghost use Rattle.outside.specs.Adds.{AddsIn};
ghost use Rattle.outside.specs.Outside.{Asked, AskedAtMost, IfTold, Tells};
ghost use Rattle.rel_files.specs.Relation.{IsAttached, count_of, long_of};
ghost use Rattle.reports.specs.Added.{report_lists};
ghost use Rattle.bt_pages.specs.Seen.{HasSeen, StaysSeen};
ghost use Rattle.bt_pages.specs.Trees.{tree_seen};
ghost use Rattle.bt_pages.specs.Broken.{AreEmpty};
ghost use Rattle.bt_level_check.specs.Budget.{TakesReads};
ghost use Rattle.bt_level_check.specs.Shape.{IsShapeOf};
ghost use Rattle.bt_level_check.specs.Trees.{HoldsPages, first_broken_in};
ghost use Rattle.bt_level_check.specs.UnderWay.{budget_left};
ghost use Rattle.bt_levels.specs.Lists.{blocks_lists, first_lists, index_lists, is_first_quiet, level_finding_lists};
ghost use Rattle.bt_levels.specs.Lists.{level_lists, other_lists, pages_lists, segment_lists};
ghost use Rattle.bt_levels.specs.OnWay.{IsOnWay, IsWalkOf};

use crate::meta::{first_doubt, first_rule};
use crate::window::Window;
use bt_level_check::{LeafWalk, TreeShape};
use bt_pages::{SeenTree, TreeRules, add_found};
use outside::{Files, NoMemory};
use page_layout::{PageView, Rule};
use rel_files::PageFault;
use reports::{Place, Rel, Report};
use std::alloc::Global;

// Adds the finding of a segment that is too long.
fn add_segment(report: &mut Report, number: u16, long: Option<u32>) -> Result<(), NoMemory>
    ensures { AddsIn report_lists result report.old report.new (segment_lists number long) }
{
    match long {
        None => Ok(()),
        Some(k) => report.add_rule(Place::Segment(Rel::Index(number), k), Some(Rule::S1)),
    }
}

// Judges block 0, the metapage, and says whether nothing was found of it. It is read once, if it is there.
fn judge_first<F: Files>(
    files: &mut F,
    tree: &TreeRules<'_>,
    page: &mut [u8; 8192],
    report: &mut Report,
) -> Result<bool, PageFault>
    requires attached { IfTold F.seen files.old (λ names. IsAttached names tree.now.relation.now) }
    ensures lists { IfTold F.seen files.old (λ names. AddsIn report_lists result report.old report.new
        (first_lists (tree_seen names tree.now))) }
    ensures quiet { Tells F.seen files.old result (λ quiet names. quiet ≡ is_first_quiet (tree_seen names tree.now)) }
    ensures some { IfOk result (λ quiet. quiet ≡ true → 0 < count_of tree.now.relation.now) }
    ensures asked { AskedAtMost (min 1 (count_of tree.now.relation.now)) F.seen files.old files.new result
        PageFault.ReadFault }
{
    let place = Place::Block(Rel::Index(tree.number), 0);
    let blocks = tree.relation.blocks();
    if blocks == 0 {
        add_found(report, place, Some(Rule::M1), None)?;
        return Ok(false);
    }
    tree.relation.read_block(files, 0, page)?;
    let view = PageView::new(page);
    let rule = first_rule(view, blocks);
    let doubt = first_doubt(view, blocks, rule);
    add_found(report, place, rule, doubt)?;
    Ok(rule.is_none() && doubt.is_none())
}

// Judges the blocks from 1 on, one after the other: after one read at most 4081 for each of them, beside those that the
// walk along the leaves takes, which goes on where one of them is next.
fn judge_others<F: Files>(
    alloc: Global,
    files: &mut F,
    tree: &mut SeenTree<'_>,
    walk: &mut LeafWalk<'_>,
    report: &mut Report,
) -> Result<(), PageFault>
    requires attached { IfTold F.seen files.old (λ names. IsAttached names tree.old.rules.relation.now) }
    requires seen { IfTold F.seen files.old (λ names. HasSeen names tree.old) }
    requires walk { IsWalkOf tree.old.rules walk.old }
    ensures lists { IfTold F.seen files.old (λ names. AddsIn report_lists result report.old report.new
        (other_lists (tree_seen names tree.old.rules))) }
    ensures tree { StaysSeen F.seen files.old tree.old tree.new }
    ensures walk { IsWalkOf tree.old.rules walk.new }
    ensures way { OnOk result (IfTold F.seen files.old (λ names.
        IsOnWay names tree.old.rules walk.old → IsOnWay names tree.old.rules walk.new)) }
    ensures taken { TakesReads F.seen files.old files.new (1 + 4081 * (count_of tree.old.rules.relation.now - 1))
        (budget_left walk.old) (budget_left walk.new) }
    ensures asked { Asked F.seen files.old files.new result PageFault.ReadFault }
{
    let mut window = Window::new();
    window.begin(files, tree)?;
    for k in 0..tree.rules.relation.blocks() - 1 {
        walk.follow(alloc, files, window.held(k + 1))?;
        window.judge_next(files, tree, k + 1, report)?;
    }
    Ok(())
}

// Judges block 0, and where nothing is found of it the others, while a walk goes along the leaves; without that walk
// something is found.
fn judge_blocks<'t, F: Files>(
    alloc: Global,
    files: &mut F,
    tree: &TreeRules<'t>,
    report: &mut Report,
) -> Result<Option<LeafWalk<'t>>, PageFault>
    requires attached { IfTold F.seen files.old (λ names. IsAttached names tree.now.relation.now) }
    ensures lists { IfTold F.seen files.old (λ names. AddsIn report_lists result report.old report.new
        (blocks_lists (tree_seen names tree.now))) }
    ensures walk { IfOk result (λ walk. IfSome walk (IsWalkOf tree.now)) }
    ensures way { Tells F.seen files.old result (λ walk names. IfSome walk (IsOnWay names tree.now)) }
    ensures none { Tells F.seen files.old result (λ walk names. walk ≡ None
        → is_first_quiet (tree_seen names tree.now) ≡ false) }
    ensures left { IfOk result (λ walk. IfSome walk (λ w. TakesReads F.seen files.old files.new
        (4087 * count_of tree.now.relation.now) 0 (budget_left w))) }
    ensures asked { AskedAtMost (4087 * count_of tree.now.relation.now) F.seen files.old files.new result
        PageFault.ReadFault }
{
    let mut page = [0u8; 8192];
    if !judge_first(files, tree, &mut page, report)? {
        return Ok(None);
    }
    let mut walk = LeafWalk::begin(alloc, files, tree)?;
    let mut seen = SeenTree::new(alloc, *tree)?;
    judge_others(alloc, files, &mut seen, &mut walk, report)?;
    Ok(Some(walk))
}

// Judges the segments and the blocks, while a walk goes along the leaves; without that walk something is found.
fn judge_pages<'t, F: Files>(
    alloc: Global,
    files: &mut F,
    tree: &TreeRules<'t>,
    report: &mut Report,
) -> Result<Option<LeafWalk<'t>>, PageFault>
    requires attached { IfTold F.seen files.old (λ names. IsAttached names tree.now.relation.now) }
    ensures lists { IfTold F.seen files.old (λ names. AddsIn report_lists result report.old report.new
        (pages_lists (tree_seen names tree.now) (long_of tree.now.relation.now))) }
    ensures walk { IfOk result (λ walk. IfSome walk (IsWalkOf tree.now)) }
    ensures way { Tells F.seen files.old result (λ walk names. IfSome walk (IsOnWay names tree.now)) }
    ensures none { Tells F.seen files.old result (λ walk names. walk ≡ None
        → is_first_quiet (tree_seen names tree.now) ≡ false) }
    ensures left { IfOk result (λ walk. IfSome walk (λ w. TakesReads F.seen files.old files.new
        (4087 * count_of tree.now.relation.now) 0 (budget_left w))) }
    ensures asked { AskedAtMost (4087 * count_of tree.now.relation.now) F.seen files.old files.new result
        PageFault.ReadFault }
{
    add_segment(report, tree.number, tree.relation.long_segment())?;
    judge_blocks(alloc, files, tree, report)
}

// Adds the rule on levels that is broken first.
fn add_level_finding(
    report: &mut Report,
    number: u16,
    finding: Option<(Rule, u32)>,
) -> Result<(), NoMemory>
    ensures { AddsIn report_lists result report.old report.new (level_finding_lists number finding) }
{
    match finding {
        None => Ok(()),
        Some((rule, b)) => report.add_rule(Place::Block(Rel::Index(number), b), Some(rule)),
    }
}

// Judges the levels of an index whose pages keep their rules, with the walk along its leaves so far, and says what a
// search of it needs to know, if nothing is found there.
fn judge_levels<F: Files>(
    alloc: Global,
    files: &mut F,
    tree: &TreeRules<'_>,
    walk: &mut LeafWalk<'_>,
    report: &mut Report,
) -> Result<Option<TreeShape>, PageFault>
    requires walk { IsWalkOf tree.now walk.old }
    requires way { IfTold F.seen files.old (λ names. IsOnWay names tree.now walk.old) }
    requires pages { IfTold F.seen files.old (λ names. HoldsPages names tree.now) }
    ensures lists { IfTold F.seen files.old (λ names. AddsIn report_lists result report.old report.new
        (level_lists (tree_seen names tree.now))) }
    ensures quiet { Tells F.seen files.old result (λ shape names.
        IsSome shape ↔ (first_broken_in (tree_seen names tree.now) ≡ None)) }
    ensures shape { Tells F.seen files.old result (λ shape names.
        IfSome shape (IsShapeOf (tree_seen names tree.now))) }
    ensures asked { AskedAtMost (budget_left walk.old + 2 * count_of tree.now.relation.now) F.seen files.old files.new
        result PageFault.ReadFault }
{
    let found = walk.finish(alloc, files)?;
    add_level_finding(report, tree.number, found.finding)?;
    match found.finding {
        None => Ok(Some(found.shape)),
        Some(_) => Ok(None),
    }
}

// Whether a report has as much as it had with these counts.
fn is_as_before(report: &Report, before: (u64, u64)) -> bool
    ensures { (result ≡ true) ↔ (length report.now.findings ≡ before.0) × (length report.now.unjudged ≡ before.1) }
{
    let counts = report.counts();
    counts.0 == before.0 && counts.1 == before.1
}

/// Judges the file of an index: its segments (S1), block 0 (P1 to P4, M1, M2, U4), where nothing is found of
/// that the other blocks (P1 to P4, B1 to B13, U5), and where nothing is found of those the levels (L1 to L9).
///
/// The answer is `None` exactly where something was added, and else what a search of the index needs to know.
/// After an error the report has a first part of what it would have got. Whatever the files hold, there are
/// at most 4096 reads for each block.
pub fn judge_index<F: Files>(
    alloc: Global,
    files: &mut F,
    tree: &TreeRules<'_>,
    report: &mut Report,
) -> Result<Option<TreeShape>, PageFault>
    requires attached { IfTold F.seen files.old (λ names. IsAttached names tree.now.relation.now) }
    ensures lists { IfTold F.seen files.old (λ names. AddsIn report_lists result report.old report.new
        (index_lists (tree_seen names tree.now) (long_of tree.now.relation.now))) }
    ensures quiet { Tells F.seen files.old result (λ shape names.
        IsSome shape ↔ AreEmpty (index_lists (tree_seen names tree.now) (long_of tree.now.relation.now))) }
    ensures shape { Tells F.seen files.old result (λ shape names.
        IfSome shape (IsShapeOf (tree_seen names tree.now))) }
    ensures asked { AskedAtMost (4096 * count_of tree.now.relation.now) F.seen files.old files.new result
        PageFault.ReadFault }
{
    let before = report.counts();
    let Some(mut walk) = judge_pages(alloc, files, tree, report)? else {
        return Ok(None);
    };
    if !is_as_before(report, before) {
        return Ok(None);
    }
    let shape = judge_levels(alloc, files, tree, &mut walk, report)?;
    Ok(shape)
}
