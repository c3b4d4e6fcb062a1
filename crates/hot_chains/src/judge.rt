//! What is known of each item by itself: where it steps, and the first rule that its step breaks.
ghost use Rattle.std.specs.Prelude.{◌≡◌, ◌+◌, ◌<◌, ◌≤◌, ◌&&◌, ◌==◌, not, false, true, get_or, length, replicate, set};
ghost use Rattle.std.specs.Prelude.{if◌then◌else◌};
ghost use Rattle.hot_chains.specs.Table.{ArePlaces, AreTaken, IsPlace, rule_by};

use crate::items::{
    is_heap_only_tuple, is_redirect, is_root, is_tuple, item_at, needs_root, step_of,
};
use crate::place::Place;
use liveness::ItemState;
use page_layout::Rule;

// The first rule that an item of this state breaks by its step, where it steps to `next`, and
// `shared` says that a lower item does so too.
#[inline]
fn step_rule(items: &[ItemState], item: ItemState, next: u16, shared: bool) -> Option<Rule>
    ensures { result ≡ rule_by items.now item next shared }
{
    if is_redirect(item) && next == 0 {
        return Some(Rule::H3);
    }
    if is_tuple(item) && next != 0 && !is_heap_only_tuple(item_at(items, next)) {
        return Some(Rule::H14);
    }
    if shared { Some(Rule::H15) } else { None }
}

// Notes that an item steps to `next`, and says whether an item before it does. One that doesn't step
// shares its step with none.
#[inline]
fn take(taken: &mut [bool], next: u16) -> bool
    requires { next < length taken.old }
    ensures was { result ≡ (not (next == 0) && get_or taken.old next false) }
    ensures now { taken.new ≡ (if next == 0 then taken.old else set taken.old next true) }
{
    if next == 0 {
        return false;
    }
    let was = taken[next as usize];
    taken[next as usize] = true;
    was
}

// The place of item k + 1, given the items to which the items up to k step.
#[inline]
fn find_place(block: u32, items: &[ItemState], taken: &mut [bool], k: u16) -> Place
    requires few { length items.now ≤ 2042 }
    requires inside { k < length items.now }
    requires taken { AreTaken block items.now taken.old k }
    ensures place { IsPlace block items.now (k + 1) result }
    ensures taken { AreTaken block items.now taken.new (k + 1) }
{
    let item = items[k as usize];
    let next = step_of(block, items, k + 1, item);
    let shared = take(taken, next);
    Place {
        next,
        is_root: is_root(item),
        needs_root: needs_root(item),
        rule: step_rule(items, item, next, shared),
    }
}

// Fills in the places of all items.
pub(crate) fn find_places(block: u32, items: &[ItemState], taken: &mut [bool], places: &mut [Place])
    requires few { length items.now ≤ 2042 }
    requires blank { taken.old ≡ replicate (length items.now + 1) false }
    requires room { length places.old ≡ length items.now }
    ensures { ArePlaces block items.now places.new (length items.now) }
{
    for k in 0..items.len() as u16 {
        places[k as usize] = find_place(block, items, taken, k);
    }
}
