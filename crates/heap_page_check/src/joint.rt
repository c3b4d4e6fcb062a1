//! Judges all items of a page together, by their states: how visible the block is, its chains, whether it is plain.
ghost use Rattle.std.specs.Prelude.{◌≡◌, ◌≤◌, length, OnOk};
ghost use Rattle.std.specs.List.{list_all};
ghost use Rattle.hot_chains.specs.Table.{AreChains};
ghost use Rattle.page_layout.specs.View.{page_bytes};
ghost use Rattle.reports.specs.Added.{each_upto, report_lists};
ghost use Rattle.heap_page_check.specs.Found.{both_found, only_listed};
ghost use Rattle.heap_page_check.specs.Pages.{chain_found, is_flagged_visible, joint_found};
ghost use Rattle.heap_page_check.specs.Quiet.{is_plain_state};

use crate::found::Found;
use crate::page::PageInHand;
use crate::work::Work;
use hot_chains::{Chains, has_no_chains, pages_without_chains};
use liveness::{ItemState, Life};
use outside::NoMemory;
use reports::{Place, Rel};
use vis_map::map_rule;

// Adds what the chains of a page break, by their table.
fn add_chain_rules(
    found: &mut Found,
    rel: Rel,
    block: u32,
    items: &[ItemState],
    chains: &Chains,
) -> Result<(), NoMemory>
    requires few { length items.now ≤ 2042 }
    requires table { AreChains block items.now chains.now }
    ensures { OnOk result (found.new ≡ both_found found.old (only_listed
        (each_upto report_lists (chain_found rel block items.now) (length items.now)))) }
{
    for k in 0..items.len() as u16 {
        found.add_rule(Place::Item(rel, block, k + 1), chains.rule_of(k + 1))?;
    }
    Ok(())
}

// Judges the chains of a page, and adds what they break: H3 and H14 to H16.
fn judge_chains(
    found: &mut Found,
    rel: Rel,
    block: u32,
    items: &[ItemState],
    chains: &mut Chains,
) -> Result<(), NoMemory>
    requires few { length items.now ≤ 2042 }
    ensures { OnOk result (found.new ≡ both_found found.old (only_listed
        (each_upto report_lists (chain_found rel block items.now) (length items.now)))) }
{
    if has_no_chains(items) {
        pages_without_chains();
        return Ok(());
    }
    chains.fill(block, items)?;
    add_chain_rules(found, rel, block, items, chains)
}

/// Judges a page by the states of all its items: adds the first of V1 to V4 that the block breaks, by what
/// the map and the page itself say of it, and what its chains break.
#[tactic(auto, unfolding(crate::specs::Pages::joint_found))]
pub(crate) fn judge_joint(rel: Rel, at: PageInHand<'_>, work: &mut Work) -> Result<(), NoMemory>
    requires few { length work.old.states.items ≤ 2042 }
    ensures { OnOk result (work.new.found ≡ both_found work.old.found (only_listed
        (joint_found rel at.entry.block at.entry.bits (is_flagged_visible (page_bytes at.entry.view))
        work.old.states.items))) }
{
    let rule = map_rule(at.bits, at.is_flagged_visible(), &work.states);
    work.found.add_rule(Place::Block(rel, at.block), rule)?;
    judge_chains(
        &mut work.found,
        rel,
        at.block,
        &work.states,
        &mut work.chains,
    )
}

// Whether an item is unused or dead, or a live tuple that index entries name.
fn is_plain(state: &ItemState) -> bool
    ensures { result ≡ is_plain_state state.now }
{
    match *state {
        ItemState::Unused | ItemState::Dead => true,
        ItemState::Redirect(_) => false,
        ItemState::Tuple { head, judged } => judged.life == Life::Live && !head.heap_only(),
    }
}

/// Whether all items of a page are, by their states.
pub(crate) fn are_plain(states: &[ItemState]) -> bool
    ensures { result ≡ list_all is_plain_state states.now }
{
    states.iter().all(is_plain)
}
