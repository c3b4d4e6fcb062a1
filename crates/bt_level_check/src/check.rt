//! The rules L1 and L9 of an index, and what the walks along its levels begin with.
ghost use Rattle.std.specs.Prelude.{◌≡◌, ◌<◌, ◌+◌, ◌*◌, ℕ, List, [], None, length, suc, IfOk, OnOk, false};
ghost use Rattle.outside.specs.Outside.{Asked, AskedAtMost, IfTold, Names, Tells};
ghost use Rattle.rel_files.specs.Faults.{read_fault};
ghost use Rattle.rel_files.specs.Relation.{IsAttached, count_of};
ghost use Rattle.laws_search.specs.Levels.{downlinks};
ghost use Rattle.laws_levels.specs.Tests.{are_roots_misplaced, is_misplaced};
ghost use Rattle.laws_levels.specs.Walk.{first_outside, is_outside, unreached_finding};
ghost use Rattle.bt_meta.specs.Pages.{meta_of};
ghost use Rattle.bt_pages.specs.Trees.{tree_seen};
ghost use Rattle.bt_level_check.specs.Budget.{TakesReads};
ghost use Rattle.bt_level_check.specs.Sets.{is_in};
ghost use Rattle.bt_level_check.specs.Trees.{HoldsPages, image_of};
ghost use Rattle.bt_level_step.specs.Pages.{TreeDownlink};
ghost use Rattle.bt_level_check.specs.Downlinks.{turns_of};
ghost use Rattle.bt_level_check.specs.Reading.{IsReading};
ghost use Rattle.bt_level_check.specs.Walked.{ChangesDownlinks, HasEnough, IsReady, IsUnwalked, StandsBefore};
ghost use Rattle.bt_level_check.specs.Walked.{budget_of, dead_of, fastroot_of, tree_of, upper_of};

use crate::block_set::BlockSet;
use crate::downlinks::Downlinks;
use crate::levels::Levels;
use bt_meta::{Meta, meta};
use bt_pages::{TreeRules, glance_at};
use outside::{Files, NoMemory};
use page_layout::{PageView, Rule};
use rel_files::ReadFault;
use std::alloc::Global;

/// What the metapage says.
pub(crate) fn read_meta<F: Files>(files: &mut F, tree: &TreeRules<'_>) -> Result<Meta, ReadFault>
    requires some { 0 < count_of tree.now.relation.now }
    requires attached { IfTold F.seen files.old (λ names. IsAttached names tree.now.relation.now) }
    ensures told { Tells F.seen files.old result (λ meta names. meta ≡ meta_of ((tree_seen names tree.now).block 0)) }
    ensures asked { AskedAtMost 1 F.seen files.old files.new result read_fault }
{
    let mut page = [0u8; 8192];
    tree.relation.read_block(files, 0, &mut page)?;
    Ok(meta(PageView::new(&page)))
}

// Whether a block isn't in use or of another level.
fn is_misplaced<F: Files>(
    files: &mut F,
    tree: &TreeRules<'_>,
    b: u32,
    level: u32,
) -> Result<bool, ReadFault>
    requires attached { IfTold F.seen files.old (λ names. IsAttached names tree.now.relation.now) }
    ensures told { Tells F.seen files.old result (λ misplaced names. b < count_of tree.now.relation.now
        → misplaced ≡ is_misplaced (image_of (tree_seen names tree.now)) b level) }
    ensures asked { AskedAtMost 2 F.seen files.old files.new result read_fault }
{
    if b >= tree.relation.blocks() {
        return Ok(true);
    }
    let page = glance_at(files, tree.relation, b)?;
    Ok(page.idle || page.special.level != level)
}

/// L1.
pub(crate) fn are_roots_misplaced<F: Files>(
    files: &mut F,
    tree: &TreeRules<'_>,
    meta: &Meta,
) -> Result<bool, ReadFault>
    requires attached { IfTold F.seen files.old (λ names. IsAttached names tree.now.relation.now) }
    requires meta { IfTold F.seen files.old (λ names. meta.now ≡ meta_of ((tree_seen names tree.now).block 0)) }
    ensures told { Tells F.seen files.old result (λ misplaced names. HoldsPages names tree.now
        → misplaced ≡ are_roots_misplaced (image_of (tree_seen names tree.now))) }
    ensures asked { AskedAtMost 4 F.seen files.old files.new result read_fault }
{
    let is_root_misplaced = is_misplaced(files, tree, meta.root, meta.level)?;
    let is_fast_misplaced = is_misplaced(files, tree, meta.fastroot, meta.fastlevel)?;
    Ok(is_root_misplaced || (is_fast_misplaced || meta.fastlevel > meta.level))
}

// Whether a block is in use and not in this set.
fn is_outside<F: Files>(
    files: &mut F,
    tree: &TreeRules<'_>,
    stands: &BlockSet,
    b: u32,
) -> Result<bool, ReadFault>
    requires blocks { length stands.now ≡ count_of tree.now.relation.now }
    requires inside { b < count_of tree.now.relation.now }
    requires attached { IfTold F.seen files.old (λ names. IsAttached names tree.now.relation.now) }
    ensures told { Tells F.seen files.old result (λ outside names.
        outside ≡ is_outside (image_of (tree_seen names tree.now)) (is_in stands.now) b) }
    ensures asked { AskedAtMost 2 F.seen files.old files.new result read_fault }
{
    if stands.has(b) {
        return Ok(false);
    }
    let page = glance_at(files, tree.relation, b)?;
    Ok(!page.idle)
}

// The first block from 1 on that is in use and isn't in this set.
fn first_outside<F: Files>(
    files: &mut F,
    tree: &TreeRules<'_>,
    stands: &BlockSet,
) -> Result<Option<u32>, ReadFault>
    requires blocks { length stands.now ≡ count_of tree.now.relation.now }
    requires some { 0 < count_of tree.now.relation.now }
    requires attached { IfTold F.seen files.old (λ names. IsAttached names tree.now.relation.now) }
    ensures told { Tells F.seen files.old result (λ found names.
        found ≡ first_outside (image_of (tree_seen names tree.now)) (is_in stands.now)
        (count_of tree.now.relation.now)) }
    ensures asked { AskedAtMost (2 * count_of tree.now.relation.now) F.seen files.old files.new result read_fault }
{
    for k in 0..tree.relation.blocks() - 1 {
        let b = k + 1;
        if is_outside(files, tree, stands, b)? {
            return Ok(Some(b));
        }
    }
    Ok(None)
}

impl<'t> Levels<'t> {
    /// Before the top level.
    pub(crate) fn new(
        alloc: Global,
        tree: TreeRules<'t>,
        meta: &Meta,
    ) -> Result<Levels<'t>, NoMemory>
        ensures ready { IfOk result IsReady }
        ensures tree { IfOk result (λ levels. tree_of levels ≡ tree.entry) }
        ensures fastroot { IfOk result (λ levels. fastroot_of levels ≡ meta.now.fastroot) }
        ensures top { IfOk result (λ levels. (names : Names)
            → meta.now ≡ meta_of ((tree_seen names tree.entry).block 0)
            → StandsBefore (tree_seen names tree.entry) (image_of (tree_seen names tree.entry)).level levels
            (downlinks (image_of (tree_seen names tree.entry)) 0)) }
        ensures enough { IfOk result (λ levels. (names : Names) (level : ℕ)
            → HasEnough (tree_seen names tree.entry) level levels) }
        ensures budget { IfOk result (λ levels. budget_of levels ≡ 4 * count_of tree.entry.relation.now) }
        ensures unwalked { IfOk result IsUnwalked }
    {
        let blocks = tree.relation.blocks();
        let dead = BlockSet::new(alloc, blocks)?;
        let stands = BlockSet::new(alloc, blocks)?;
        Ok(Levels {
            tree,
            fastroot: meta.fastroot,
            upper: Downlinks::to_root(meta.root, blocks),
            page: [0; 8192],
            lower: None,
            dead,
            stands,
            walks_left: blocks,
            steps_left: blocks,
            right_halves: 0,
            half_dead: 0,
        })
    }

    /// On to the level below the one whose first page this is.
    pub(crate) fn descend<F: Files>(&mut self, files: &mut F, first: u32) -> Result<(), ReadFault>
        requires ready { IsReady self.old }
        requires attached { IfTold F.seen files.old (λ names. IsAttached names (tree_of self.old).relation.now) }
        ensures ready { IsReady self.new }
        ensures downlinks { ChangesDownlinks self.old self.new }
        ensures told { OnOk result (IfTold F.seen files.old (λ names. HoldsPages names (tree_of self.old)
            → (level : ℕ) (left : List TreeDownlink)
            → IsReading (image_of (tree_seen names (tree_of self.old))) (dead_of self.old) (suc level)
            (turns_of (upper_of self.old)) (record { items = []; lower = None; block = first }) left
            → fastroot_of self.old ≡ (image_of (tree_seen names (tree_of self.old))).fastroot
            → StandsBefore (tree_seen names (tree_of self.old)) level self.new left)) }
        ensures taken { TakesReads F.seen files.old files.new 0 (budget_of self.old) (budget_of self.new) }
        ensures asked { Asked F.seen files.old files.new result read_fault }
    {
        self.upper.begin(first);
        self.upper.settle(files, &self.tree, &self.dead)?;
        Ok(())
    }
}

/// L9.
pub(crate) fn first_unreached<F: Files>(
    files: &mut F,
    tree: &TreeRules<'_>,
    stands: &BlockSet,
) -> Result<Option<(Rule, u32)>, ReadFault>
    requires blocks { length stands.now ≡ count_of tree.now.relation.now }
    requires some { 0 < count_of tree.now.relation.now }
    requires attached { IfTold F.seen files.old (λ names. IsAttached names tree.now.relation.now) }
    ensures told { Tells F.seen files.old result (λ found names.
        found ≡ unreached_finding (image_of (tree_seen names tree.now)) (is_in stands.now)) }
    ensures asked { AskedAtMost (2 * count_of tree.now.relation.now) F.seen files.old files.new result read_fault }
{
    match first_outside(files, tree, stands)? {
        Some(b) => Ok(Some((Rule::L9, b))),
        None => Ok(None),
    }
}
