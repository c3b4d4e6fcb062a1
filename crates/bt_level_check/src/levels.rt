//! What is kept while the levels of an index are walked, and how a walk along one of them goes past a page.
ghost use Rattle.std.specs.Prelude.{◌≡◌, ◌<◌, ◌+◌, ℕ, List, Option, false, true, not, None, OnOk, IfOk};
ghost use Rattle.outside.specs.Outside.{Asked, AskedAtMost, IfTold, Names, Tells};
ghost use Rattle.page_layout.specs.Page.{page_rule_of};
ghost use Rattle.rel_files.specs.Faults.{read_fault};
ghost use Rattle.rel_files.specs.Relation.{IsAttached, count_of};
ghost use Rattle.laws_search.specs.Levels.{is_live, lower_after};
ghost use Rattle.laws_levels.specs.Meeting.{is_next, next_separator, unmet_after};
ghost use Rattle.laws_levels.specs.Same.{same_keys};
ghost use Rattle.laws_levels.specs.Tests.{is_dead, is_linked, same_bound};
ghost use Rattle.bt_level_step.specs.Roles.{role_named};
ghost use Rattle.bt_level_step.specs.Shows.{Sees};
ghost use Rattle.key_orders.specs.Keys.{columns_of, tid_order};
ghost use Rattle.key_orders.specs.Scans.{order_of};
ghost use Rattle.bt_meta.specs.Flags.{is_half_dead};
ghost use Rattle.bt_meta.specs.Pages.{opaque_of};
ghost use Rattle.bt_image.specs.Image.{page_image};
ghost use Rattle.bt_pages.specs.Trees.{tree_seen};
ghost use Rattle.bt_level_check.specs.Budget.{TakesReads};
ghost use Rattle.bt_level_step.specs.Pages.{TreeDownlink};
ghost use Rattle.bt_level_check.specs.Downlinks.{IsSoundHand, hand_of, in_hand, page_of};
ghost use Rattle.bt_level_step.specs.Pages.{HasPlainItems, is_low_page};
ghost use Rattle.bt_level_check.specs.Reading.{IsOfLevel};
ghost use Rattle.bt_level_check.specs.Trees.{HoldsPages, image_of, order_in, same_in};
ghost use Rattle.bt_level_check.specs.UnderWay.{IsHeld};
ghost use Rattle.bt_level_check.specs.Walked.{ChangesBound, ChangesDownlinks, ChangesPage, ChangesSets};
ghost use Rattle.bt_level_check.specs.Walked.{HasMarked, HasPassed, HasRoom, IsReady, IsSameIndex, IsWalking};
ghost use Rattle.bt_level_check.specs.Walked.{KeepsBudget, StandsBefore, TreeWalk, budget_of};
ghost use Rattle.bt_level_check.specs.Walked.{lower_of, page_in, tree_of, upper_of, walks_of};

use crate::block_set::BlockSet;
use crate::course::InHand;
use crate::downlinks::Downlinks;
use bt_level_step::{LevelWalk, PageRole, PageSeen, high_key_of, is_low_page, marks_of};
use bt_pages::TreeRules;
use key_orders::Separator;
use outside::{Files, NoMemory};
use page_layout::{PageKind, PageView};
use rel_files::{PageFault, ReadFault};
use std::alloc::Global;

/// What is kept while the levels of an index are walked from the top down: two pages, a lower bound for
/// each, and two sets of blocks.
#[derive(Drop)]
pub struct Levels<'t> {
    pub(crate) tree: TreeRules<'t>,
    // The block of the fast root.
    pub(crate) fastroot: u32,
    // The downlinks to the level that is walked.
    pub(crate) upper: Downlinks,
    // The page of the level that was read last.
    pub(crate) page: [u8; 8192],
    // The lower bound of the page that is passed next: the high key of the last live page.
    pub(crate) lower: Option<Separator>,
    // The dead pages so far.
    pub(crate) dead: BlockSet,
    // The pages in the chains of levels so far.
    pub(crate) stands: BlockSet,
    // How many pages may still be walked over, on all levels, and how many steps to the left may be made.
    pub(crate) walks_left: u32,
    pub(crate) steps_left: u32,
    // How many pages so far are right halves, and how many leaves are half-dead: no more than pages were walked over.
    pub(crate) right_halves: u32,
    pub(crate) half_dead: u32,
}

// Whether a page in this role is dead.
fn is_dead(role: PageRole) -> bool
    ensures { result ≡ is_dead (role_named role) }
{
    role == PageRole::Dead
}

impl<'t> Levels<'t> {
    // Takes the page of a block, which is in hand or is read, and says whether it is one whose items can be read.
    pub(crate) fn take<F: Files>(
        &mut self,
        files: &mut F,
        b: u32,
        hand: Option<InHand<'_>>,
    ) -> Result<bool, ReadFault>
        requires some { 0 < walks_of self.old }
        requires attached { IfTold F.seen files.old (λ names. IsAttached names (tree_of self.old).relation.now) }
        requires hand { IfTold F.seen files.old (λ names. IsHeld (tree_seen names (tree_of self.old)) hand) }
        ensures page { ChangesPage self.old self.new }
        ensures walks { walks_of self.new + 1 ≡ walks_of self.old }
        ensures items { IfOk result (λ good. good ≡ true
            → (page_rule_of PageKind.Tree (page_in self.new) ≡ None) × (b < count_of (tree_of self.old).relation.now)) }
        ensures told { Tells F.seen files.old result (λ good names. HoldsPages names (tree_of self.old)
            → (level : ℕ)
            → IsOfLevel (image_of (tree_seen names (tree_of self.old))) level b
            → (good ≡ true) × (page_in self.new ≡ (tree_seen names (tree_of self.old)).block b)) }
        ensures asked { AskedAtMost 1 F.seen files.old files.new result read_fault }
    {
        self.walks_left -= 1;
        if b >= self.tree.relation.blocks() {
            return Ok(false);
        }
        match hand {
            Some(hand) if hand.block == b => self.page = *hand.page,
            _ => self.tree.relation.read_block(files, b, &mut self.page)?,
        }
        Ok(
            PageView::new(&self.page)
                .page_rule(PageKind::Tree)
                .is_none(),
        )
    }

    // Whether a page in this role has a downlink whose separator isn't the page's lower bound (L5).
    fn has_wrong_separator(&self, role: PageRole) -> bool
        requires ready { IsReady self.now }
        ensures { is_linked (role_named role) ≡ true
            → IsSoundHand (tree_of self.now).columns.specs.now (tree_of self.now).columns.more.now
            (page_of (upper_of self.now))
            (hand_of (upper_of self.now))
            → result ≡ not (same_bound (same_keys (columns_of (tree_of self.now).columns.specs.now) tid_order)
            (next_separator (in_hand (tree_of self.now).columns.specs.now (tree_of self.now).columns.more.now
            (upper_of self.now)))
            (lower_of self.now)) }
    {
        role == PageRole::Linked && !self.upper.is_bound(&self.tree, &self.lower)
    }

    // Whether a key of the page in hand, in this role, isn't above its lower bound (L6).
    fn has_low_key(&self, role: PageRole) -> bool
        requires ready { IsReady self.now }
        requires page { page_rule_of PageKind.Tree (page_in self.now) ≡ None }
        ensures { is_live (role_named role) ≡ true
            → HasPlainItems (tree_of self.now).columns.specs.now (tree_of self.now).columns.more.now (page_in self.now)
            → is_half_dead (opaque_of (page_in self.now)) ≡ false
            → result ≡ is_low_page (order_of (tree_of self.now).columns.specs.now) (lower_of self.now)
            (page_image (tree_of self.now).columns.specs.now (tree_of self.now).columns.more.now (page_in self.now)) }
    {
        role.is_live() && is_low_page(&self.tree, PageView::new(&self.page), &self.lower)
    }

    // What is seen of the page in hand, to which the walk has come.
    fn see(&self, b: u32, walk: &LevelWalk) -> PageSeen
        requires ready { IsReady self.now }
        requires page { page_rule_of PageKind.Tree (page_in self.now) ≡ None }
        ensures block { result.block ≡ b }
        ensures seen { (names : Names) (level : ℕ) (w : TreeWalk) → HoldsPages names (tree_of self.now)
            → IsOfLevel (image_of (tree_seen names (tree_of self.now))) level b
            → page_in self.now ≡ (tree_seen names (tree_of self.now)).block b
            → IsWalking (tree_seen names (tree_of self.now)) level self.now walk.now w
            → Sees (same_in (tree_seen names (tree_of self.now))) (order_in (tree_seen names (tree_of self.now)))
            (image_of (tree_seen names (tree_of self.now))) w result }
    {
        let marks = marks_of(PageView::new(&self.page));
        let linked = self.upper.leads_to(b);
        let role = walk.role(&marks, linked);
        PageSeen {
            block: b,
            marks,
            linked,
            wrong_separator: self.has_wrong_separator(role),
            low_key: self.has_low_key(role),
        }
    }

    // Keeps the high key of the page in hand as the lower bound of the next, if it is live.
    fn keep_bound(&mut self, alloc: Global, role: PageRole) -> Result<(), NoMemory>
        requires ready { IsReady self.old }
        requires page { page_rule_of PageKind.Tree (page_in self.old) ≡ None }
        ensures ready { IsReady self.new }
        ensures bound { ChangesBound self.old self.new }
        ensures kept { OnOk result (
            HasPlainItems (tree_of self.old).columns.specs.now (tree_of self.old).columns.more.now (page_in self.old)
            → (is_live (role_named role) ≡ true → is_half_dead (opaque_of (page_in self.old)) ≡ false)
            → lower_of self.new ≡ lower_after
            (page_image (tree_of self.old).columns.specs.now (tree_of self.old).columns.more.now (page_in self.old))
            (role_named role)
            (lower_of self.old)) }
    {
        if role.is_live() {
            let lower = high_key_of(alloc, &self.tree, PageView::new(&self.page))?;
            self.lower = lower;
        }
        Ok(())
    }

    // Goes past the next downlink, if it leads to the page that was seen.
    fn follow<F: Files>(
        &mut self,
        alloc: Global,
        files: &mut F,
        seen: &PageSeen,
    ) -> Result<(), PageFault>
        requires ready { IsReady self.old }
        requires attached { IfTold F.seen files.old (λ names. IsAttached names (tree_of self.old).relation.now) }
        ensures ready { IsReady self.new }
        ensures downlinks { ChangesDownlinks self.old self.new }
        ensures told { OnOk result (IfTold F.seen files.old (λ names. HoldsPages names (tree_of self.old)
            → (level : ℕ) (left : List TreeDownlink)
            → is_next left seen.now.block ≡ seen.now.linked
            → StandsBefore (tree_seen names (tree_of self.old)) level self.old left
            → StandsBefore (tree_seen names (tree_of self.old)) level self.new (unmet_after left seen.now.block))) }
        ensures taken { TakesReads F.seen files.old files.new 0 (budget_of self.old) (budget_of self.new) }
        ensures asked { Asked F.seen files.old files.new result PageFault.ReadFault }
    {
        if seen.linked {
            self.upper.pass(alloc, files, &self.tree, &self.dead)?;
        }
        Ok(())
    }

    // Puts a page in this role into the sets, and counts it if it is a right half or half-dead.
    fn mark(&mut self, b: u32, role: PageRole, is_half_dead: bool)
        requires ready { IsReady self.old }
        requires inside { b < count_of (tree_of self.old).relation.now }
        requires room { HasRoom self.old }
        ensures ready { IsReady self.new }
        ensures sets { ChangesSets self.old self.new }
        ensures marked { HasMarked self.old self.new b (role_named role) is_half_dead }
    {
        if is_dead(role) {
            self.dead.add(b);
        }
        self.stands.add(b);
        if role == PageRole::RightHalf {
            self.right_halves += 1;
        }
        if is_half_dead {
            self.half_dead += 1;
        }
    }

    // Goes past the page in hand, block b of the level.
    pub(crate) fn pass<F: Files>(
        &mut self,
        alloc: Global,
        files: &mut F,
        b: u32,
        walk: &LevelWalk,
    ) -> Result<LevelWalk, PageFault>
        requires ready { IsReady self.old }
        requires page { page_rule_of PageKind.Tree (page_in self.old) ≡ None }
        requires inside { b < count_of (tree_of self.old).relation.now }
        requires room { HasRoom self.old }
        requires attached { IfTold F.seen files.old (λ names. IsAttached names (tree_of self.old).relation.now) }
        ensures ready { IsReady self.new }
        ensures same { IsSameIndex self.old self.new }
        ensures page { page_in self.new ≡ page_in self.old }
        ensures kept { KeepsBudget self.old self.new }
        ensures taken { TakesReads F.seen files.old files.new 0 (budget_of self.old) (budget_of self.new) }
        ensures told { Tells F.seen files.old result (λ carried names. HoldsPages names (tree_of self.old)
            → (level : ℕ) (w : TreeWalk)
            → IsOfLevel (image_of (tree_seen names (tree_of self.old))) level b
            → page_in self.old ≡ (tree_seen names (tree_of self.old)).block b
            → IsWalking (tree_seen names (tree_of self.old)) level self.old walk.now w
            → HasPassed (tree_seen names (tree_of self.old)) level w b self.old self.new carried) }
        ensures asked { Asked F.seen files.old files.new result PageFault.ReadFault }
    {
        let seen = self.see(b, walk);
        let role = walk.role(&seen.marks, seen.linked);
        self.keep_bound(alloc, role)?;
        self.follow(alloc, files, &seen)?;
        self.mark(b, role, seen.marks.half_dead);
        Ok(walk.pass(&seen, self.fastroot))
    }
}
