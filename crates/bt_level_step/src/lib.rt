//! A step of a walk along one level of a B-tree: what the walk carries from page to page and which of the rules L3 to
//! L8 it finds (`level`, `roles`), and what it asks of one page (`bounds`, `marks`).
//!
//! The step reads no page and compares no key. A caller says of each page what it has seen (`PageSeen`), from the first
//! page of the level's chain to its last, and asks for the verdict at the end. What the caller carries besides are the
//! lower bound and the downlinks that weren't met yet. How a page's keys stand to its lower bound, what is kept as the
//! bound of the next page, and the marks that tell a page's role are read from the page.
//!
//! Sources: PostgreSQL's `access/nbtree.h` and the README of its `access/nbtree`.
#![tactic(auto)]

mod bounds;
mod level;
mod marks;
mod roles;

ghost use Rattle.std.specs.Prelude.{◌≡◌, ℕ, Bool, List};
ghost use Rattle.laws_search.specs.Order.{Order};
ghost use Rattle.laws_search.specs.Tree.{Index};
ghost use Rattle.laws_search.specs.Levels.{Downlink, role_of};
ghost use Rattle.laws_levels.specs.Meeting.{is_next};
ghost use Rattle.laws_levels.specs.LevelWalk.{Walk, is_all_met, level_verdict, walk_start, walk_step};
ghost use Rattle.bt_level_step.specs.declared.level.LevelWalk.{LevelWalk};
ghost use Rattle.bt_level_step.specs.declared.level.PageSeen.{PageSeen};
ghost use Rattle.bt_level_step.specs.Level.{after_page, at_start, is_after_split, verdict_of};
ghost use Rattle.bt_level_step.specs.Roles.{marked_role};
ghost use Rattle.bt_level_step.specs.Shows.{Carries, Sees, ShowsMarks};

pub use bounds::{high_key_of, is_bound_of_item, is_low_page, is_same_bound};
pub use level::{LevelWalk, PageSeen};
pub use marks::marks_of;
pub use roles::{PageMarks, PageRole};

/// The walk is that of `laws_levels` along a level of an index, over whatever separators (S) and
/// entries (E), for every index whose pages are seen as they are. What that one finds on a chain that
/// is no circle is what the rules say (`laws_levels::walks_find_the_first`).
///
/// - `start`: it begins as that one does.
/// - `role`: where a page's marks are the page's, so is the role.
/// - `step`: after a page that is seen as it is it carries what that one does.
/// - `verdict`: and then it has found the same.
pub fn walks_carry_the_same<S, E>()
    ensures start { (ds : List (Downlink S)) → Carries at_start (walk_start ds) }
    ensures role { (x : Index S E) (w : Walk S) (c : LevelWalk) (page : PageSeen) → Carries c w →
        ShowsMarks (x.page page.block) page.marks →
        marked_role page.marks (is_next w.ahead page.block) (is_after_split c)
        ≡ role_of (x.page page.block) (is_next w.ahead page.block) w.split }
    ensures step { (same : S → S → Bool) (o : Order S E) (x : Index S E) (w : Walk S) (c : LevelWalk)
        (page : PageSeen) → Carries c w → Sees same o x w page →
        Carries (after_page c page x.fastroot) (walk_step same o x w page.block) }
    ensures verdict { (x : Index S E) (w : Walk S) (c : LevelWalk) (entry : ℕ) (is_fast : Bool) → Carries c w →
        verdict_of c (is_all_met w.ahead) entry is_fast x.fastroot ≡ level_verdict x entry is_fast w }
{}
