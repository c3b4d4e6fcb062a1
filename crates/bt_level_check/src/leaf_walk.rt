//! The rules L1 to L9 of an index, with a walk along its leaves that goes on while its pages come into hand.
ghost use Rattle.std.specs.Prelude.{◌≡◌, ◌≢◌, ◌<◌, ◌+◌, ◌*◌, false, suc, ℕ, IfOk, OnOk};
ghost use Rattle.outside.specs.Outside.{Asked, AskedAtMost, IfTold, Tells};
ghost use Rattle.rel_files.specs.Relation.{IsAttached, count_of};
ghost use Rattle.laws_search.specs.Levels.{downlinks};
ghost use Rattle.laws_levels.specs.Tests.{are_roots_misplaced};
ghost use Rattle.bt_meta.specs.Pages.{meta_of};
ghost use Rattle.bt_pages.specs.Trees.{tree_seen};
ghost use Rattle.bt_level_check.specs.Budget.{TakesReads};
ghost use Rattle.bt_level_check.specs.Shape.{IsShapeOf};
ghost use Rattle.bt_level_check.specs.Trees.{HoldsPages, first_broken_in, image_of};
ghost use Rattle.bt_level_check.specs.UnderWay.{AtLevel, HasPassedHand, IsAtStage};
ghost use Rattle.bt_level_check.specs.Walked.{HasEnough, IsReady, IsSameIndex, IsTreeJudged, IsUnwalked};
ghost use Rattle.bt_level_check.specs.Walked.{StandsBefore, budget_of, tree_of};

use crate::check::{are_roots_misplaced, first_unreached, read_meta};
use crate::course::{Course, InHand};
use crate::judge::Entered;
use crate::levels::Levels;
use crate::shape::{LevelsFound, TreeShape};
use bt_image::kept_rules_make_a_sound_image;
use bt_meta::Meta;
use bt_pages::TreeRules;
use outside::Files;
use page_layout::Rule;
use rel_files::PageFault;
use std::alloc::Global;

/// How far the levels of an index are judged.
#[derive(Clone, Copy)]
pub(crate) enum Stage {
    /// All of them: the first of L1 to L8 that is broken there, and the block that is named for it.
    Over(Option<(Rule, u32)>),
    /// All above the leaves, along which a walk is under way: nothing is found so far.
    Leaves(Course),
}

/// The levels of an index while they are judged. Those above the leaves were walked along before the first page comes
/// into hand.
#[derive(Drop)]
pub struct LeafWalk<'t> {
    pub(crate) levels: Levels<'t>,
    pub(crate) meta: Meta,
    pub(crate) stage: Stage,
}

impl<'t> Levels<'t> {
    // Enters the leaves.
    fn enter_leaves<F: Files>(&mut self, files: &mut F) -> Result<Stage, PageFault>
        requires ready { IsReady self.old }
        requires attached { IfTold F.seen files.old (λ names. IsAttached names (tree_of self.old).relation.now) }
        ensures ready { IsReady self.new }
        ensures same { IsSameIndex self.old self.new }
        ensures told { Tells F.seen files.old result (λ stage names. let tree = tree_seen names (tree_of self.old) in
            HoldsPages names (tree_of self.old) → (depth : ℕ) → (image_of tree).root ≢ 0
            → are_roots_misplaced (image_of tree) ≡ false → AtLevel tree self.old 0 depth
            → IsAtStage tree self.new stage) }
        ensures taken { TakesReads F.seen files.old files.new 2 (budget_of self.old) (budget_of self.new) }
        ensures asked { Asked F.seen files.old files.new result PageFault.ReadFault }
    {
        kept_rules_make_a_sound_image();
        match self.enter(files)? {
            Entered::Ended(judged) => Ok(Stage::Over(judged.finding)),
            Entered::Before(course) => Ok(Stage::Leaves(course)),
        }
    }

    // L2 to L8 on the levels above the leaves, from the top down, and enters the leaves where nothing is found.
    fn walk_down<F: Files>(
        &mut self,
        alloc: Global,
        files: &mut F,
        meta: &Meta,
    ) -> Result<Stage, PageFault>
        requires ready { IsReady self.old }
        requires attached { IfTold F.seen files.old (λ names. IsAttached names (tree_of self.old).relation.now) }
        requires meta { IfTold F.seen files.old (λ names.
            meta.now ≡ meta_of ((tree_seen names (tree_of self.old)).block 0)) }
        requires unwalked { IsUnwalked self.old }
        ensures ready { IsReady self.new }
        ensures same { IsSameIndex self.old self.new }
        ensures told { Tells F.seen files.old result (λ stage names. let tree = tree_seen names (tree_of self.old) in
            HoldsPages names (tree_of self.old) → (image_of tree).root ≢ 0
            → are_roots_misplaced (image_of tree) ≡ false
            → StandsBefore tree (image_of tree).level self.old (downlinks (image_of tree) 0)
            → HasEnough tree (suc (image_of tree).level) self.old
            → IsAtStage tree self.new stage) }
        ensures taken { TakesReads F.seen files.old files.new (2 * count_of (tree_of self.old).relation.now)
            (budget_of self.old) (budget_of self.new) }
        ensures asked { Asked F.seen files.old files.new result PageFault.ReadFault }
    {
        kept_rules_make_a_sound_image();
        for k in 0..self.tree.relation.blocks() {
            let level = meta.level - k;
            if level == 0 {
                let stage = self.enter_leaves(files)?;
                return Ok(stage);
            }
            let judged = self.judge(alloc, files, level == meta.fastlevel)?;
            if judged.finding.is_some() {
                return Ok(Stage::Over(judged.finding));
            }
            self.descend(files, judged.first)?;
        }
        Ok(Stage::Over(None))
    }

    // L1, and the same.
    fn begin<F: Files>(
        &mut self,
        alloc: Global,
        files: &mut F,
        meta: &Meta,
    ) -> Result<Stage, PageFault>
        requires ready { IsReady self.old }
        requires attached { IfTold F.seen files.old (λ names. IsAttached names (tree_of self.old).relation.now) }
        requires meta { IfTold F.seen files.old (λ names.
            meta.now ≡ meta_of ((tree_seen names (tree_of self.old)).block 0)) }
        requires unwalked { IsUnwalked self.old }
        requires top { IfTold F.seen files.old (λ names. let tree = tree_seen names (tree_of self.old) in
            StandsBefore tree (image_of tree).level self.old (downlinks (image_of tree) 0)) }
        requires enough { IfTold F.seen files.old (λ names. let tree = tree_seen names (tree_of self.old) in
            HasEnough tree (suc (image_of tree).level) self.old) }
        ensures ready { IsReady self.new }
        ensures same { IsSameIndex self.old self.new }
        ensures told { Tells F.seen files.old result (λ stage names. HoldsPages names (tree_of self.old)
            → IsAtStage (tree_seen names (tree_of self.old)) self.new stage) }
        ensures taken { TakesReads F.seen files.old files.new (2 * count_of (tree_of self.old).relation.now + 4)
            (budget_of self.old) (budget_of self.new) }
        ensures asked { Asked F.seen files.old files.new result PageFault.ReadFault }
    {
        kept_rules_make_a_sound_image();
        if meta.root == 0 {
            return Ok(Stage::Over(None));
        }
        if are_roots_misplaced(files, &self.tree, meta)? {
            return Ok(Stage::Over(Some((Rule::L1, 0))));
        }
        let stage = self.walk_down(alloc, files, meta)?;
        Ok(stage)
    }
}

impl<'t> LeafWalk<'t> {
    ghost use Rattle.bt_level_check.specs.UnderWay.{IsOnItsWay, IsReadyWalk, budget_left, index_of};

    /// Reads the metapage, and walks along the levels above the leaves (L1, and L2 to L8 there).
    pub fn begin<F: Files>(
        alloc: Global,
        files: &mut F,
        tree: &TreeRules<'t>,
    ) -> Result<LeafWalk<'t>, PageFault>
        requires some { 0 < count_of tree.now.relation.now }
        requires attached { IfTold F.seen files.old (λ names. IsAttached names tree.now.relation.now) }
        ensures ready { IfOk result IsReadyWalk }
        ensures index { IfOk result (λ walk. index_of walk ≡ tree.now) }
        ensures told { Tells F.seen files.old result (λ walk names. HoldsPages names tree.now
            → IsOnItsWay (tree_seen names tree.now) walk) }
        ensures left { IfOk result (λ walk. TakesReads F.seen files.old files.new
            (6 * count_of tree.now.relation.now + 5) 0 (budget_left walk)) }
        ensures asked { AskedAtMost (6 * count_of tree.now.relation.now + 5) F.seen files.old files.new result
            PageFault.ReadFault }
    {
        let meta = read_meta(files, tree)?;
        let mut levels = Levels::new(alloc, *tree, &meta)?;
        let stage = levels.begin(alloc, files, &meta)?;
        Ok(LeafWalk {
            levels,
            meta,
            stage,
        })
    }

    /// Goes on along the leaves up to a page that is in hand, or to the first that stands behind it in the file. Of
    /// leaves that stand before it those that weren't passed are read.
    pub fn follow<F: Files>(
        &mut self,
        alloc: Global,
        files: &mut F,
        hand: InHand<'_>,
    ) -> Result<(), PageFault>
        requires ready { IsReadyWalk self.old }
        requires attached { IfTold F.seen files.old (λ names. IsAttached names (index_of self.old).relation.now) }
        requires hand { IfTold F.seen files.old (λ names.
            hand.page.now ≡ (tree_seen names (index_of self.old)).block hand.block) }
        ensures ready { IsReadyWalk self.new }
        ensures index { index_of self.new ≡ index_of self.old }
        ensures told { OnOk result (IfTold F.seen files.old (λ names. HoldsPages names (index_of self.old)
            → IsOnItsWay (tree_seen names (index_of self.old)) self.old
            → IsOnItsWay (tree_seen names (index_of self.old)) self.new)) }
        ensures past { OnOk result (IfTold F.seen files.old (λ names. HoldsPages names (index_of self.old)
            → IsOnItsWay (tree_seen names (index_of self.old)) self.old → HasPassedHand hand.entry self.new.stage)) }
        ensures taken { TakesReads F.seen files.old files.new 0 (budget_left self.old) (budget_left self.new) }
        ensures asked { Asked F.seen files.old files.new result PageFault.ReadFault }
    {
        match self.stage {
            Stage::Over(_) => {}
            Stage::Leaves(course) => {
                let course = self.levels.walk(alloc, files, course, Some(hand))?;
                self.stage = Stage::Leaves(course);
            }
        }
        Ok(())
    }

    // The first of L1 to L8 that is broken, once the walk along the leaves is at its end.
    fn judge_leaves<F: Files>(
        &mut self,
        alloc: Global,
        files: &mut F,
    ) -> Result<Option<(Rule, u32)>, PageFault>
        requires ready { IsReadyWalk self.old }
        requires attached { IfTold F.seen files.old (λ names. IsAttached names (index_of self.old).relation.now) }
        ensures ready { IsReadyWalk self.new }
        ensures index { index_of self.new ≡ index_of self.old }
        ensures meta { self.new.meta ≡ self.old.meta }
        ensures told { Tells F.seen files.old result (λ finding names. HoldsPages names (index_of self.old)
            → IsOnItsWay (tree_seen names (index_of self.old)) self.old
            → IsTreeJudged (tree_seen names (index_of self.old)) self.new.levels finding) }
        ensures taken { TakesReads F.seen files.old files.new 0 (budget_left self.old) (budget_left self.new) }
        ensures asked { Asked F.seen files.old files.new result PageFault.ReadFault }
    {
        kept_rules_make_a_sound_image();
        match self.stage {
            Stage::Over(finding) => Ok(finding),
            Stage::Leaves(course) => {
                let course = self.levels.walk(alloc, files, course, None)?;
                let judged = self.levels.verdict(&course, 0 == self.meta.fastlevel);
                Ok(judged.finding)
            }
        }
    }

    /// Goes on along the leaves to the last one, and says the first of L1 to L9 that the index breaks, and the block
    /// that is named for it, or None where it breaks none of them; of an index whose single pages break no rule.
    ///
    /// The shape has the fast root of the metapage; and where no rule is broken, how many pages of all levels are
    /// right halves, and how many leaves of the lowest level's chain are half-dead.
    ///
    /// Each page above the leaves is read once, and once more while the level below it is walked along, and each leaf
    /// once, unless it was in hand when its turn came; of others a few bytes are read. `ReadFault` comes only where the
    /// count of the files' faults rose.
    pub fn finish<F: Files>(
        &mut self,
        alloc: Global,
        files: &mut F,
    ) -> Result<LevelsFound, PageFault>
        requires some { 0 < count_of (index_of self.old).relation.now }
        requires ready { IsReadyWalk self.old }
        requires attached { IfTold F.seen files.old (λ names. IsAttached names (index_of self.old).relation.now) }
        ensures told { Tells F.seen files.old result (λ found names. HoldsPages names (index_of self.old)
            → IsOnItsWay (tree_seen names (index_of self.old)) self.old
            → found.finding ≡ first_broken_in (tree_seen names (index_of self.old))) }
        ensures shape { Tells F.seen files.old result (λ found names. HoldsPages names (index_of self.old)
            → IsOnItsWay (tree_seen names (index_of self.old)) self.old
            → IsShapeOf (tree_seen names (index_of self.old)) found.shape) }
        ensures asked { AskedAtMost (budget_left self.old + 2 * count_of (index_of self.old).relation.now)
            F.seen files.old files.new result PageFault.ReadFault }
    {
        let tree = self.levels.tree;
        let finding = match self.judge_leaves(alloc, files)? {
            Some(finding) => Some(finding),
            None => first_unreached(files, &tree, &self.levels.stands)?,
        };
        Ok(LevelsFound {
            finding,
            shape: TreeShape {
                fastroot: self.meta.fastroot,
                fastlevel: self.meta.fastlevel,
                right_halves: self.levels.right_halves,
                half_dead: self.levels.half_dead,
            },
        })
    }
}
