// What a walk along one level carries from page to page.
ghost use Rattle.std.specs.Prelude.{◌≡◌, ◌==◌, ◌&&◌, ◌||◌, cond, not, None, Some};
ghost use Rattle.std.specs.Option.{option_or};
ghost use Rattle.page_layout.specs.declared.rules.Rule.TheVariants.{L7, L8};
ghost use Rattle.laws_search.specs.Levels.{is_live};
ghost use Rattle.laws_levels.specs.Tests.{is_dead, is_right_half};
ghost use Rattle.bt_level_step.specs.Level.{after_page, at_start, is_after_split, is_alone_after, page_finding};
ghost use Rattle.bt_level_step.specs.Level.{verdict_of};
ghost use Rattle.bt_level_step.specs.Roles.{marked_role, role_named};

use crate::roles::{PageMarks, PageRole};
use page_layout::Rule;

/// What was seen of a page of the level.
#[derive(Clone, Copy, Debug)]
pub struct PageSeen {
    pub block: u32,
    pub marks: PageMarks,
    /// The next of the level's downlinks that weren't met yet leads to it.
    pub linked: bool,
    /// That downlink's separator isn't the lower bound. It counts only where the page is linked.
    pub wrong_separator: bool,
    /// The high key, the first entry of a leaf or the separator of an internal page's second data
    /// item isn't above the lower bound. It counts only where the page is live.
    pub low_key: bool,
}

/// What a walk has come to, after some pages of a level.
#[derive(Clone, Copy, Debug)]
pub struct LevelWalk {
    // The last page is live with an incomplete split.
    split: bool,
    // A downlink led to a half-dead page (L4).
    half_dead: bool,
    // The first of L3, L5 and L6 so far, which counts if the downlinks are right.
    finding: Option<(Rule, u32)>,
    // L7, which counts if there is no further page.
    dead_end: Option<(Rule, u32)>,
    // There was a page.
    begun: bool,
    // The first page is the fast root, and all later ones are right halves (L8).
    alone: bool,
}

fn first_of(a: Option<(Rule, u32)>, b: Option<(Rule, u32)>) -> Option<(Rule, u32)>
    ensures { result ≡ option_or a b }
{
    if a.is_some() { a } else { b }
}

// The first of L3, L5 and L6 that a page breaks.
fn page_finding(page: &PageSeen, role: PageRole) -> Option<(Rule, u32)>
    ensures { result ≡ page_finding page.now (role_named role) }
{
    if role == PageRole::Neither {
        return Some((Rule::L3, page.block));
    }
    if role == PageRole::Linked && page.wrong_separator {
        return Some((Rule::L5, page.block));
    }
    if role.is_live() && page.low_key {
        return Some((Rule::L6, page.block));
    }
    None
}

// Whether the page is live with an incomplete split.
fn is_split(page: &PageSeen, role: PageRole) -> bool
    ensures { result ≡ (is_live (role_named role) && page.now.marks.incomplete_split) }
{
    role.is_live() && page.marks.incomplete_split
}

// L7, in case there is no further page.
fn dead_end(block: u32, role: PageRole) -> Option<(Rule, u32)>
    ensures { result ≡ cond (is_dead (role_named role)) (Some (L7, block)) None }
{
    if role == PageRole::Dead {
        Some((Rule::L7, block))
    } else {
        None
    }
}

impl LevelWalk {
    /// Before the first page of a level.
    pub fn new() -> LevelWalk
        ensures { result ≡ at_start }
    {
        LevelWalk {
            split: false,
            half_dead: false,
            finding: None,
            dead_end: None,
            begun: false,
            alone: false,
        }
    }

    /// The role of the next page. Its keys are to be compared with the lower bound only if it is
    /// live: those of other pages say nothing, and a half-dead page's high key needn't be readable.
    pub fn role(&self, marks: &PageMarks, linked: bool) -> PageRole
        ensures { role_named result ≡ marked_role marks.now linked (is_after_split self.now) }
    {
        marks.role(linked, self.split)
    }

    // Whether a downlink led to a half-dead page, this one included.
    fn leads_to_half_dead(&self, page: &PageSeen) -> bool
        ensures { result ≡ (self.now.half_dead || (page.now.linked && page.now.marks.half_dead)) }
    {
        self.half_dead || (page.linked && page.marks.half_dead)
    }

    // Whether the level begins with the fast root and goes on with right halves, up to this page.
    fn is_alone(&self, page: &PageSeen, role: PageRole, fastroot: u32) -> bool
        ensures { result ≡ is_alone_after self.now page.now.block (role_named role) fastroot }
    {
        if self.begun {
            self.alone && role == PageRole::RightHalf
        } else {
            page.block == fastroot
        }
    }

    /// Past one page. `fastroot` is the block of the fast root, on whatever level it is.
    pub fn pass(&self, page: &PageSeen, fastroot: u32) -> LevelWalk
        ensures { result ≡ after_page self.now page.now fastroot }
    {
        let role = self.role(&page.marks, page.linked);
        LevelWalk {
            split: is_split(page, role),
            half_dead: self.leads_to_half_dead(page),
            finding: first_of(self.finding, page_finding(page, role)),
            dead_end: dead_end(page.block, role),
            begun: true,
            alone: self.is_alone(page, role, fastroot),
        }
    }

    // L8, where the fast root is of this level.
    fn beside(&self, is_fast: bool, fastroot: u32) -> Option<(Rule, u32)>
        ensures { result ≡ cond (is_fast && not self.now.alone) (Some (L8, fastroot)) None }
    {
        if is_fast && !self.alone {
            Some((Rule::L8, fastroot))
        } else {
            None
        }
    }

    /// What is found at the end of a level with this entry page: the first of L4, of L3, L5 and L6 in
    /// the order of pages, of L7 and L8, and the block that is named for it. `all_met` says whether all
    /// downlinks were met, `is_fast` whether the fast root is of this level.
    pub fn verdict(
        &self,
        all_met: bool,
        entry: u32,
        is_fast: bool,
        fastroot: u32,
    ) -> Option<(Rule, u32)>
        ensures { result ≡ verdict_of self.now all_met entry is_fast fastroot }
    {
        let wrong = !all_met || self.half_dead;
        if wrong {
            return Some((Rule::L4, entry));
        }
        let beside = self.beside(is_fast, fastroot);
        first_of(self.finding, first_of(self.dead_end, beside))
    }
}
