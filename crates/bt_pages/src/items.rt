//! The items of a page, each by itself: its rules B5 to B9, and U5; its place in the order, B10 and B11.
ghost use Rattle.std.specs.Prelude.{◌≡◌, ◌≤◌, List, true, false, None, find};
ghost use Rattle.page_layout.specs.Page.{count_of, page_rule_of};
ghost use Rattle.page_layout.specs.View.{page_bytes};
ghost use Rattle.key_orders.specs.declared.columns.KeySpec.{KeySpec as Spec};
ghost use Rattle.key_orders.specs.declared.more.MoreSpec.{MoreSpec as More};
ghost use Rattle.bt_meta.specs.Flags.{is_half_dead};
ghost use Rattle.bt_meta.specs.Pages.{opaque_of};
ghost use Rattle.bt_tuples.specs.Rules.{breaks_place};
ghost use Rattle.bt_pages.specs.Passes.{pass_of};
ghost use Rattle.bt_pages.specs.Questions.{are_plain, is_without_fault, own_doubt, own_rule, rule_on_page};

use crate::disorder::order_rule;
use crate::pass::Pass;
use bt_image::spot_of;
use bt_meta::{INDEX_SIZE_LIMIT, tree_head};
use bt_tuples::{ItemFault, tree_item};
use key_attrs::IndexColumns;
use page_layout::{PageKind, PageView, Rule};
use reports::Reason;

/// What is found of an item before its downlink is followed.
#[derive(Clone, Copy, Debug, PartialEq, Eq)]
pub struct ItemFound {
    /// The first rule that it breaks.
    pub rule: Option<Rule>,
    /// Why it can't be judged wholly.
    pub doubt: Option<Reason>,
}

// The first of B5 and B6 that an item breaks.
#[tactic(auto, unfolding(crate::specs::Questions::own_rule))]
fn form_rule(page: PageView<'_>, i: u16) -> Option<Rule>
    requires page { page_rule_of PageKind.Tree (page_bytes page) ≡ None }
    requires first { 1 ≤ i }
    requires last { i ≤ count_of (page_bytes page) }
    ensures { (specs : List Spec) (more : List More) → is_half_dead (opaque_of (page_bytes page.entry)) ≡ true
        → result ≡ own_rule specs more (page_bytes page.entry) i }
{
    let item = page.item(i);
    if item.is_misplaced_tree_item(page.upper()) {
        return Some(Rule::B5);
    }
    let head = tree_head(page.piece(item.off, item.len));
    if head.info % INDEX_SIZE_LIMIT != item.len {
        return Some(Rule::B6);
    }
    None
}

// What is found of an item by itself, on a page that isn't half-dead.
fn own_found(page: PageView<'_>, i: u16, columns: &IndexColumns<'_>) -> ItemFound
    requires page { page_rule_of PageKind.Tree (page_bytes page) ≡ None }
    requires first { 1 ≤ i }
    requires last { i ≤ count_of (page_bytes page) }
    requires live { is_half_dead (opaque_of (page_bytes page)) ≡ false }
    ensures rule { result.rule ≡ own_rule columns.now.specs.now columns.now.more.now (page_bytes page.entry) i }
    ensures doubt { result.doubt ≡ own_doubt columns.now.specs.now columns.now.more.now (page_bytes page.entry) i }
{
    match tree_item(page, i, columns, spot_of(page, i)) {
        Ok(_) => ItemFound {
            rule: None,
            doubt: None,
        },
        Err(ItemFault::Broken(rule)) => ItemFound {
            rule: Some(rule),
            doubt: None,
        },
        Err(ItemFault::Packed) => ItemFound {
            rule: None,
            doubt: Some(Reason::U5),
        },
    }
}

// What is found of an item among the others, as one pass over them told.
pub fn found_on_page(
    page: PageView<'_>,
    i: u16,
    columns: &IndexColumns<'_>,
    pass: Pass,
) -> ItemFound
    requires page { page_rule_of PageKind.Tree (page_bytes page) ≡ None }
    requires first { 1 ≤ i }
    requires last { i ≤ count_of (page_bytes page) }
    requires pass { pass ≡ pass_of columns.now.specs.now columns.now.more.now (page_bytes page) }
    ensures rule { result.rule ≡ rule_on_page columns.now.specs.now columns.now.more.now (page_bytes page.entry) i }
    ensures doubt { result.doubt ≡ own_doubt columns.now.specs.now columns.now.more.now (page_bytes page.entry) i }
    ensures placed { result.rule ≡ None → breaks_place (page_bytes page.entry) i ≡ false }
{
    match pass {
        Pass::HalfDead => ItemFound {
            rule: form_rule(page, i),
            doubt: None,
        },
        Pass::NotPlain => own_found(page, i, columns),
        Pass::Disordered => ItemFound {
            rule: order_rule(page, i, columns),
            doubt: None,
        },
        Pass::Ordered => ItemFound {
            rule: None,
            doubt: None,
        },
    }
}
