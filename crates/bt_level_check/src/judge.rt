//! The rules L2 to L8 on one level.
ghost use Rattle.std.specs.Prelude.{◌≡◌, ◌==◌, ℕ, List, suc};
ghost use Rattle.outside.specs.Outside.{Asked, IfTold, Tells};
ghost use Rattle.rel_files.specs.Faults.{read_fault};
ghost use Rattle.rel_files.specs.Relation.{IsAttached};
ghost use Rattle.laws_search.specs.Levels.{entry_page};
ghost use Rattle.bt_pages.specs.Trees.{Tree, tree_seen};
ghost use Rattle.bt_level_check.specs.Budget.{TakesReads};
ghost use Rattle.bt_level_step.specs.Pages.{TreeDownlink};
ghost use Rattle.bt_level_check.specs.Reading.{IsOfLevel};
ghost use Rattle.bt_level_check.specs.Trees.{HoldsPages, KeepsPages, image_of};
ghost use Rattle.bt_level_check.specs.UnderWay.{HasPassedAll, IsEntered};
ghost use Rattle.bt_level_check.specs.Walked.{HasEnough, IsLevelJudged, IsReady};
ghost use Rattle.bt_level_check.specs.Walked.{IsSameIndex, StandsBefore, budget_of, tree_of};

use crate::course::Course;
use crate::first_page::first_page;
use crate::levels::Levels;
use bt_image::kept_rules_make_a_sound_image;
use bt_level_step::LevelWalk;
use outside::Files;
use page_layout::Rule;
use rel_files::{PageFault, ReadFault};
use std::alloc::Global;

/// What was found on a level, and the first page of its chain.
#[derive(Clone, Copy)]
pub struct Judged {
    /// The first rule that is broken there, and the block that is named for it.
    pub finding: Option<(Rule, u32)>,
    /// 0 where the chain is a circle, or nothing could be read.
    pub first: u32,
}

/// A level that was entered.
#[derive(Clone, Copy)]
pub(crate) enum Entered {
    /// It isn't walked along: what is found on it.
    Ended(Judged),
    /// Before its first page.
    Before(Course),
}

impl<'t> Levels<'t> {
    /// Enters the level whose downlinks are read.
    pub(crate) fn enter<F: Files>(&mut self, files: &mut F) -> Result<Entered, ReadFault>
        requires ready { IsReady self.old }
        requires attached { IfTold F.seen files.old (λ names. IsAttached names (tree_of self.old).relation.now) }
        ensures ready { IsReady self.new }
        ensures same { IsSameIndex self.old self.new }
        ensures told { Tells F.seen files.old result (λ entered names. HoldsPages names (tree_of self.old)
            → (level : ℕ) (ds : List TreeDownlink)
            → StandsBefore (tree_seen names (tree_of self.old)) level self.old ds
            → IsOfLevel (image_of (tree_seen names (tree_of self.old))) level (entry_page ds)
            → HasEnough (tree_seen names (tree_of self.old)) (suc level) self.old
            → IsEntered (tree_seen names (tree_of self.old)) level ds self.old self.new entered) }
        ensures taken { TakesReads F.seen files.old files.new 2 (budget_of self.old) (budget_of self.new) }
        ensures asked { Asked F.seen files.old files.new result read_fault }
    {
        kept_rules_make_a_sound_image();
        let Some(entered) = self.upper.target() else {
            return Ok(Entered::Ended(Judged {
                finding: None,
                first: 0,
            }));
        };
        let Some(first) = first_page(files, &self.tree, entered, &mut self.steps_left)? else {
            return Ok(Entered::Ended(Judged {
                finding: Some((Rule::L2, entered)),
                first: 0,
            }));
        };
        self.lower = None;
        Ok(Entered::Before(Course {
            entered,
            first,
            next: first,
            carried: LevelWalk::new(),
        }))
    }

    /// What is found on a level behind its last page. `is_fast` says whether the fast root is of this level.
    pub(crate) fn verdict(&self, course: &Course, is_fast: bool) -> Judged
        ensures { (tree : Tree) (level : ℕ) (ds : List TreeDownlink) (old : Levels) → KeepsPages tree
            → IsOfLevel (image_of tree) level (entry_page ds) → HasEnough tree (suc level) old
            → is_fast ≡ (level == (image_of tree).fastlevel) → HasPassedAll tree level ds old self.now course.now
            → IsLevelJudged tree level ds old self.now result }
    {
        kept_rules_make_a_sound_image();
        Judged {
            finding: course.carried.verdict(
                self.upper.is_empty(),
                course.entered,
                is_fast,
                self.fastroot,
            ),
            first: course.first,
        }
    }

    /// Judges the level whose downlinks are read: the first of L2 to L8 that is broken there. `is_fast` says
    /// whether the fast root is of this level. The sets gain the level's pages.
    pub fn judge<F: Files>(
        &mut self,
        alloc: Global,
        files: &mut F,
        is_fast: bool,
    ) -> Result<Judged, PageFault>
        requires ready { IsReady self.old }
        requires attached { IfTold F.seen files.old (λ names. IsAttached names (tree_of self.old).relation.now) }
        ensures ready { IsReady self.new }
        ensures same { IsSameIndex self.old self.new }
        ensures told { Tells F.seen files.old result (λ judged names. HoldsPages names (tree_of self.old)
            → (level : ℕ) (ds : List TreeDownlink)
            → StandsBefore (tree_seen names (tree_of self.old)) level self.old ds
            → IsOfLevel (image_of (tree_seen names (tree_of self.old))) level (entry_page ds)
            → HasEnough (tree_seen names (tree_of self.old)) (suc level) self.old
            → is_fast ≡ (level == (image_of (tree_seen names (tree_of self.old))).fastlevel)
            → IsLevelJudged (tree_seen names (tree_of self.old)) level ds self.old self.new judged) }
        ensures taken { TakesReads F.seen files.old files.new 2 (budget_of self.old) (budget_of self.new) }
        ensures asked { Asked F.seen files.old files.new result PageFault.ReadFault }
    {
        match self.enter(files)? {
            Entered::Ended(judged) => Ok(judged),
            Entered::Before(course) => {
                let course = self.walk(alloc, files, course, None)?;
                Ok(self.verdict(&course, is_fast))
            }
        }
    }
}
