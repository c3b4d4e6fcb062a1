//! Single items of a page, and the step from one to another.
ghost use Rattle.std.specs.Prelude.{◌≡◌, ◌&&◌, if◌then◌else◌};
ghost use Rattle.hot_chains.specs.Chains.{is_dead, is_heap_only_tuple, is_live_tuple, is_root, is_tuple};
ghost use Rattle.hot_chains.specs.Chains.{is_tuple_of, item_at, may_step, step_of};
ghost use Rattle.hot_chains.specs.Table.{is_redirect, leads_on};

use liveness::{ItemState, Judged, Life};
use tuple_head::HeapHead;

// Item i, counted from 1, and an unused item where the page has none of this number.
#[inline]
#[tactic(auto, unfolding(crate::specs::Chains::item_at))]
pub(crate) fn item_at(items: &[ItemState], i: u16) -> ItemState
    ensures { result ≡ item_at items.now i }
{
    if i != 0 && i as usize <= items.len() {
        items[i as usize - 1]
    } else {
        ItemState::Unused
    }
}

#[inline]
pub(crate) fn is_tuple(item: ItemState) -> bool
    ensures { result ≡ is_tuple item }
{
    match item {
        ItemState::Tuple { .. } => true,
        ItemState::Unused | ItemState::Dead | ItemState::Redirect(_) => false,
    }
}

// Whether this is a tuple that no index entry names.
#[inline]
pub(crate) fn is_heap_only_tuple(item: ItemState) -> bool
    ensures { result ≡ is_heap_only_tuple item }
{
    match item {
        ItemState::Tuple { head, .. } => head.heap_only(),
        ItemState::Unused | ItemState::Dead | ItemState::Redirect(_) => false,
    }
}

// Whether this is a tuple that transaction x is seen to have inserted.
#[inline]
fn is_tuple_of(x: u32, item: ItemState) -> bool
    ensures { result ≡ is_tuple_of x item }
{
    match item {
        ItemState::Tuple { head, .. } => head.xmin_seen() == x,
        ItemState::Unused | ItemState::Dead | ItemState::Redirect(_) => false,
    }
}

#[inline]
fn is_live_tuple(item: ItemState) -> bool
    ensures { result ≡ is_live_tuple item }
{
    match item {
        ItemState::Tuple { judged, .. } => judged.life == Life::Live,
        ItemState::Unused | ItemState::Dead | ItemState::Redirect(_) => false,
    }
}

// Whether this is a live heap-only tuple, which a root has to reach.
#[inline]
pub(crate) fn needs_root(item: ItemState) -> bool
    ensures { result ≡ (is_live_tuple item && is_heap_only_tuple item) }
{
    is_live_tuple(item) && is_heap_only_tuple(item)
}

#[inline]
fn is_dead(life: Life) -> bool
    ensures { result ≡ is_dead life }
{
    match life {
        Life::Dead => true,
        Life::Live | Life::Unjudged(_) | Life::Broken(_) => false,
    }
}

// Whether index entries may name this item.
#[inline]
pub(crate) fn is_root(item: ItemState) -> bool
    ensures { result ≡ is_root item }
{
    match item {
        ItemState::Redirect(_) => true,
        ItemState::Tuple { head, .. } => !head.heap_only(),
        ItemState::Unused | ItemState::Dead => false,
    }
}

#[inline]
pub(crate) fn is_redirect(item: ItemState) -> bool
    ensures { result ≡ is_redirect item }
{
    match item {
        ItemState::Redirect(_) => true,
        ItemState::Unused | ItemState::Dead | ItemState::Tuple { .. } => false,
    }
}

// Whether this is an item that steps, if there is a fit one to step to.
#[inline]
pub(crate) fn may_step(item: ItemState) -> bool
    ensures { result ≡ may_step item }
{
    match item {
        ItemState::Redirect(_) => true,
        ItemState::Tuple { head, judged } => is_dead(judged.life) && head.is_hot_updated(),
        ItemState::Unused | ItemState::Dead => false,
    }
}

// Whether item i, a tuple of a page of this block, is dead and was updated to another item of the page,
// by the transaction that is known to have done so.
#[inline]
fn leads_on(block: u32, i: u16, head: HeapHead, judged: Judged) -> bool
    ensures { result ≡ leads_on block i head judged }
{
    is_dead(judged.life)
        && head.is_hot_updated()
        && judged.update != 0
        && head.ctid.block == block
        && head.ctid.item != i
}

// The item to which a tuple, item i, steps, 0 where it doesn't step.
#[inline]
fn tuple_step(block: u32, items: &[ItemState], i: u16, head: HeapHead, judged: Judged) -> u16
    ensures { result ≡ (if leads_on block i head judged
        && is_tuple_of judged.update (item_at items.now head.ctid.item) then head.ctid.item else 0) }
{
    let next = head.ctid.item;
    if leads_on(block, i, head, judged) && is_tuple_of(judged.update, item_at(items, next)) {
        next
    } else {
        0
    }
}

// The item to which a redirect to `target` steps, 0 where it doesn't step.
#[inline]
fn redirect_step(items: &[ItemState], target: u16) -> u16
    ensures { result ≡ (if is_heap_only_tuple (item_at items.now target) then target else 0) }
{
    if is_heap_only_tuple(item_at(items, target)) {
        target
    } else {
        0
    }
}

// The item to which item i, of this state, steps, 0 where it doesn't step.
#[inline]
pub(crate) fn step_of(block: u32, items: &[ItemState], i: u16, item: ItemState) -> u16
    requires item { item ≡ item_at items.now i }
    ensures { result ≡ step_of block items.now i }
{
    match item {
        ItemState::Redirect(target) => redirect_step(items, target),
        ItemState::Tuple { head, judged } => tuple_step(block, items, i, head, judged),
        ItemState::Unused | ItemState::Dead => 0,
    }
}
