//! The walk along one level of an index, from its first page to its last, while the downlinks to it are
//! read along the level above.
ghost use Rattle.std.specs.Prelude.{◌≡◌, ◌≢◌, ◌<◌, ◌+◌, ◌↔◌, ℕ, List, IfOk, IfSome, Option, true};
ghost use Rattle.std.specs.Option.{IsSomeAnd};
ghost use Rattle.outside.specs.Outside.{Asked, IfTold, Tells};
ghost use Rattle.rel_files.specs.Relation.{IsAttached};
ghost use Rattle.bt_pages.specs.Trees.{tree_seen};
ghost use Rattle.bt_level_check.specs.Budget.{TakesReads};
ghost use Rattle.bt_level_step.specs.Pages.{TreeDownlink};
ghost use Rattle.bt_level_check.specs.Trees.{HoldsPages};
ghost use Rattle.bt_level_check.specs.UnderWay.{IsHeld, IsPast, IsSameCourse, IsUnderWay};
ghost use Rattle.bt_level_check.specs.Walked.{IsReady, IsSameIndex, budget_of, steps_of, tree_of, walks_of};

use crate::levels::Levels;
use bt_level_step::LevelWalk;
use bt_meta::opaque;
use outside::Files;
use page_layout::PageView;
use rel_files::PageFault;
use std::alloc::Global;

/// Where a walk along a level stands.
#[derive(Clone, Copy)]
pub struct Course {
    /// The page by which the level was entered, and the first one of its chain.
    pub(crate) entered: u32,
    pub(crate) first: u32,
    /// The page that comes next, 0 behind the last one.
    pub(crate) next: u32,
    /// What the walk carries from page to page.
    pub(crate) carried: LevelWalk,
}

/// A page of the index that is in hand, and its block.
#[derive(Clone, Copy)]
pub struct InHand<'p> {
    pub block: u32,
    pub page: &'p [u8; 8192],
}

// Whether a walk comes to this page no more: there is none, or with a page in hand it stands in the file behind that
// one.
fn is_past(hand: Option<InHand<'_>>, next: u32) -> bool
    ensures { (result ≡ true) ↔ IsPast hand.entry next }
{
    match hand {
        Some(hand) => next == 0 || hand.block < next,
        None => next == 0,
    }
}

impl<'t> Levels<'t> {
    // Goes past the next page of a level, which is in hand or is read; `None` where it isn't one over which one may
    // walk, which none is of an index whose pages keep their rules.
    fn step<F: Files>(
        &mut self,
        alloc: Global,
        files: &mut F,
        course: &Course,
        hand: Option<InHand<'_>>,
    ) -> Result<Option<Course>, PageFault>
        requires some { 0 < walks_of self.old }
        requires ready { IsReady self.old }
        requires attached { IfTold F.seen files.old (λ names. IsAttached names (tree_of self.old).relation.now) }
        requires hand { IfTold F.seen files.old (λ names. IsHeld (tree_seen names (tree_of self.old)) hand) }
        ensures ready { IsReady self.new }
        ensures same { IsSameIndex self.old self.new }
        ensures course { IfOk result (λ step. IfSome step (IsSameCourse course.now)) }
        ensures told { Tells F.seen files.old result (λ step names. HoldsPages names (tree_of self.old)
            → (level : ℕ) (ds : List TreeDownlink) (old : Levels) → course.now.next ≢ 0
            → IsUnderWay (tree_seen names (tree_of self.old)) level ds old self.old course.now
            → IsSomeAnd step (IsUnderWay (tree_seen names (tree_of self.old)) level ds old self.new)) }
        ensures walks { walks_of self.new + 1 ≡ walks_of self.old }
        ensures steps { steps_of self.new ≡ steps_of self.old }
        ensures taken { TakesReads F.seen files.old files.new 0 (budget_of self.old) (budget_of self.new) }
        ensures asked { Asked F.seen files.old files.new result PageFault.ReadFault }
    {
        if !self.take(files, course.next, hand)? {
            return Ok(None);
        }
        let carried = self.pass(alloc, files, course.next, &course.carried)?;
        Ok(Some(Course {
            next: opaque(PageView::new(&self.page)).next,
            carried,
            ..*course
        }))
    }

    /// Goes on along a level, as long as pages may be walked over: up to the page in hand, or to the first that stands
    /// behind it in the file, so that those before it are read; with no page in hand, to its end.
    pub(crate) fn walk<F: Files>(
        &mut self,
        alloc: Global,
        files: &mut F,
        course: Course,
        hand: Option<InHand<'_>>,
    ) -> Result<Course, PageFault>
        requires ready { IsReady self.old }
        requires attached { IfTold F.seen files.old (λ names. IsAttached names (tree_of self.old).relation.now) }
        requires hand { IfTold F.seen files.old (λ names. IsHeld (tree_seen names (tree_of self.old)) hand) }
        ensures ready { IsReady self.new }
        ensures same { IsSameIndex self.old self.new }
        ensures course { IfOk result (IsSameCourse course) }
        ensures told { Tells F.seen files.old result (λ now names. HoldsPages names (tree_of self.old)
            → (level : ℕ) (ds : List TreeDownlink) (old : Levels)
            → IsUnderWay (tree_seen names (tree_of self.old)) level ds old self.old course
            → IsUnderWay (tree_seen names (tree_of self.old)) level ds old self.new now × IsPast hand.entry now.next) }
        ensures steps { steps_of self.new ≡ steps_of self.old }
        ensures taken { TakesReads F.seen files.old files.new 0 (budget_of self.old) (budget_of self.new) }
        ensures asked { Asked F.seen files.old files.new result PageFault.ReadFault }
    {
        let mut course = course;
        while self.walks_left > 0 {
            if is_past(hand, course.next) {
                return Ok(course);
            }
            match self.step(alloc, files, &course, hand)? {
                Some(next) => course = next,
                None => return Ok(course),
            }
        }
        Ok(course)
    }
}
