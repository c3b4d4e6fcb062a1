//! Judges a heap page by itself, without its table.
ghost use Rattle.std.specs.Prelude.{◌≡◌, ◌≤◌, ℕ, List, [], All};
ghost use Rattle.outside.specs.Adds.{AddsIn};
ghost use Rattle.page_layout.specs.Page.{HasItems, count_of};
ghost use Rattle.page_layout.specs.View.{page_bytes};
ghost use Rattle.page_layout.specs.declared.rules.Rule.{Rule};
ghost use Rattle.reports.specs.Added.{IsListed, each_upto, nothing, report_lists};
ghost use Rattle.reports.specs.declared.places.Place.{Place};
ghost use Rattle.heap_page_check.specs.Alone.{BreaksAlone, lone_item_found, lone_item_rule, lone_page_found};

use outside::NoMemory;
use page_layout::{PageKind, PageView, Rule};
use reports::{Place, Rel, Report};
use std::alloc::Global;

// The rule that an item breaks by itself.
#[tactic(auto, unfolding(crate::specs::Alone::lone_item_rule, page_layout::specs::Page::header_of))]
fn lone_item_rule(page: PageView<'_>, i: u16) -> Option<Rule>
    requires page { HasItems (page_bytes page) }
    requires first { 1 ≤ i }
    requires last { i ≤ count_of (page_bytes page) }
    ensures { result ≡ lone_item_rule (page_bytes page.entry) i }
{
    if page.item(i).is_misplaced_heap_item(page.header().upper) {
        return Some(Rule::H1);
    }
    None
}

// Adds the findings of all items.
fn judge_lone_items(page: PageView<'_>, block: u32, report: &mut Report) -> Result<(), NoMemory>
    requires { HasItems (page_bytes page) }
    ensures { AddsIn report_lists result report.old report.new
        (each_upto report_lists (lone_item_found block (page_bytes page.entry)) (count_of (page_bytes page.entry))) }
{
    for k in 0..page.item_count() {
        let rule = lone_item_rule(page, k + 1);
        report.add_rule(Place::Item(Rel::Heap, block, k + 1), rule)?;
    }
    Ok(())
}

/// Judges a page of the heap by itself: its header (rules P1 to P4) and, where that breaks none,
/// where its items lie (rule H1). The block counts from 0. After `NoMemory` the report has a first
/// part of what it would have got.
#[tactic(auto, unfolding(crate::specs::Alone::lone_page_found))]
pub fn judge_page(
    _alloc: Global,
    page: &[u8; 8192],
    block: u32,
    report: &mut Report,
) -> Result<(), NoMemory>
    ensures { AddsIn report_lists result report.old report.new (lone_page_found block page.now) }
{
    let view = PageView::new(page);
    match view.page_rule(PageKind::Heap) {
        Some(rule) => report.add_rule(Place::Block(Rel::Heap, block), Some(rule)),
        None => judge_lone_items(view, block, report),
    }
}

/// What `judge_page` finds is what is broken: each finding of a page is a rule that is broken at its
/// place, nothing of it is left unjudged, and each place where a rule is broken is listed.
pub fn lone_pages_are_judged()
    ensures sound { (block : ℕ) (page : List ℕ)
        → All (λ f. BreaksAlone block page f.rule f.place) (lone_page_found block page).findings }
    ensures certain { (block : ℕ) (page : List ℕ) → (lone_page_found block page).unjudged ≡ [] }
    ensures listed { (block : ℕ) (page : List ℕ) (rule : Rule) (place : Place) → BreaksAlone block page rule place
        → IsListed (lone_page_found block page) place }
{}
