//! The rules that a page breaks by itself: P1 to P4 and B1 to B4.
ghost use Rattle.std.specs.Prelude.{◌≡◌, ◌⊎◌, false, find, None};
ghost use Rattle.page_layout.specs.Page.{is_new, page_rule_of};
ghost use Rattle.page_layout.specs.View.{page_bytes};
ghost use Rattle.bt_image.specs.Pages.{breaks_flags, breaks_half_dead, breaks_items, breaks_level, has_data};
ghost use Rattle.bt_meta.specs.Pages.{is_idle};
ghost use Rattle.bt_pages.specs.Questions.{breaks_lone_rule, lone_rule, laws_levels};

use bt_image::{first_data, has_high_key};
use bt_meta::{is_idle, opaque};
use page_layout::{PageKind, PageView, Rule};

// The flags that there are (access/nbtree.h, BTP_).
const KNOWN_FLAGS: u16 = 0x01FF;

// Whether there is a data item.
fn has_data(page: PageView<'_>) -> bool
    requires { page_rule_of PageKind.Tree (page_bytes page) ≡ None }
    ensures { result ≡ has_data (page_bytes page.entry) }
{
    first_data(page) <= page.item_count()
}

// B1.
#[tactic(auto, unfolding(bt_image::specs::Pages::breaks_flags))]
fn breaks_flags(page: PageView<'_>) -> bool
    ensures { result ≡ breaks_flags (page_bytes page.entry) }
{
    opaque(page).flags > KNOWN_FLAGS
}

// B2.
#[tactic(auto, unfolding(bt_image::specs::Pages::breaks_level))]
fn breaks_level(page: PageView<'_>) -> bool
    ensures { result ≡ breaks_level (page_bytes page.entry) }
{
    let special = opaque(page);
    special.is_meta()
        || special.is_leaf() && special.level != 0
        || !special.is_leaf() && special.level == 0
}

// B3.
#[tactic(auto, unfolding(bt_image::specs::Pages::breaks_half_dead))]
fn breaks_half_dead(page: PageView<'_>) -> bool
    requires { page_rule_of PageKind.Tree (page_bytes page) ≡ None }
    ensures { result ≡ breaks_half_dead (page_bytes page.entry) }
{
    let special = opaque(page);
    special.is_half_dead() && (!special.is_leaf() || has_data(page))
}

// B4.
#[tactic(auto, unfolding(bt_image::specs::Pages::breaks_items))]
fn breaks_items(page: PageView<'_>) -> bool
    requires { page_rule_of PageKind.Tree (page_bytes page) ≡ None }
    ensures { result ≡ breaks_items (page_bytes page.entry) }
{
    has_high_key(page) && page.item_count() == 0 || !opaque(page).is_leaf() && !has_data(page)
}

// The first of B1 to B4 that is asked of a page, and that it breaks.
fn tree_rule(page: PageView<'_>) -> Option<Rule>
    requires { page_rule_of PageKind.Tree (page_bytes page) ≡ None }
    ensures { result ≡ find (breaks_lone_rule (page_bytes page.entry))
        (laws_levels (is_idle (page_bytes page.entry))) }
{
    if breaks_flags(page) {
        return Some(Rule::B1);
    }
    if is_idle(page) {
        return None;
    }
    if breaks_level(page) {
        return Some(Rule::B2);
    }
    if breaks_half_dead(page) {
        return Some(Rule::B3);
    }
    if breaks_items(page) {
        return Some(Rule::B4);
    }
    None
}

/// The first of P1 to P4 and B1 to B4 that a page breaks. Of a page that is no part of the tree no more
/// than P1 to P4 and B1 is asked.
#[tactic(auto, unfolding(crate::specs::Questions::lone_rule))]
pub fn lone_rule(page: PageView<'_>) -> Option<Rule>
    ensures value { result ≡ lone_rule (page_bytes page.entry) }
    ensures kept { result ≡ None → page_rule_of PageKind.Tree (page_bytes page.entry) ≡ None }
{
    match page.page_rule(PageKind::Tree) {
        Some(rule) => Some(rule),
        None => tree_rule(page),
    }
}
