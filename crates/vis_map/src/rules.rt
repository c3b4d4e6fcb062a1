//! Whether what the map and the page's flag say of a heap block is true.
ghost use Rattle.std.specs.Prelude.{◌≡◌, ◌↔◌, IfSome, IsNone};
ghost use Rattle.std.specs.List.{list_all};
ghost use Rattle.page_layout.specs.declared.rules.Rule.{Rule};
ghost use Rattle.vis_map.specs.Truth.{AreTrue};
ghost use Rattle.vis_map.specs.Rules.{IsMapRuleBroken, has_bit_without_flag, is_falsely_frozen, is_falsely_visible};
ghost use Rattle.vis_map.specs.Rules.{is_frozen_but_not_visible, is_settled, is_visible, map_rule_of};

use crate::MapBits;
use liveness::{ItemState, Life};
use page_layout::Rule;

fn is_visible(item: &ItemState) -> bool
    ensures { result ≡ is_visible item.now }
{
    match *item {
        ItemState::Unused | ItemState::Redirect(_) => true,
        ItemState::Dead => false,
        ItemState::Tuple { judged, .. } => judged.life == Life::Live,
    }
}

fn is_settled(item: &ItemState) -> bool
    ensures { result ≡ is_settled item.now }
{
    match *item {
        ItemState::Unused | ItemState::Dead | ItemState::Redirect(_) => true,
        ItemState::Tuple { head, .. } => !head.needs_freezing(),
    }
}

fn is_all_visible(items: &[ItemState]) -> bool
    ensures { result ≡ list_all is_visible items.now }
{
    items.iter().all(is_visible)
}

fn is_all_frozen(items: &[ItemState]) -> bool
    ensures { result ≡ list_all is_settled items.now }
{
    items.iter().all(is_settled)
}

fn is_frozen_but_not_visible(bits: MapBits) -> bool
    ensures { result ≡ is_frozen_but_not_visible bits }
{
    bits.all_frozen && !bits.all_visible
}

fn has_bit_without_flag(bits: MapBits, page_flag: bool) -> bool
    ensures { result ≡ has_bit_without_flag bits page_flag }
{
    (bits.all_visible || bits.all_frozen) && !page_flag
}

fn is_falsely_visible(bits: MapBits, page_flag: bool, items: &[ItemState]) -> bool
    ensures { result ≡ is_falsely_visible bits page_flag items.now }
{
    (bits.all_visible || page_flag) && !is_all_visible(items)
}

fn is_falsely_frozen(bits: MapBits, items: &[ItemState]) -> bool
    ensures { result ≡ is_falsely_frozen bits items.now }
{
    bits.all_frozen && !is_all_frozen(items)
}

#[tactic(auto, unfolding(crate::specs::Rules::map_rule_of))]
fn first_broken(bits: MapBits, page_flag: bool, items: &[ItemState]) -> Option<Rule>
    ensures { result ≡ map_rule_of bits page_flag items.now }
{
    if is_frozen_but_not_visible(bits) {
        return Some(Rule::V1);
    }
    if has_bit_without_flag(bits, page_flag) {
        return Some(Rule::V2);
    }
    if is_falsely_visible(bits, page_flag, items) {
        return Some(Rule::V3);
    }
    if is_falsely_frozen(bits, items) {
        return Some(Rule::V4);
    }
    None
}

/// The first of the rules V1 to V4 that a heap block breaks, by the map's bits, the page's flag
/// `PD_ALL_VISIBLE` and all its items, judged. None exactly where it breaks none of them, and then
/// the flag and the bits are true.
///
/// V1: the all-frozen bit without the all-visible bit. V2: a bit without the flag. V3: the
/// all-visible bit or the flag, and a dead item or a tuple that isn't live. V4: the all-frozen bit,
/// and a tuple that needs freezing.
pub fn map_rule(bits: MapBits, page_flag: bool, items: &[ItemState]) -> Option<Rule>
    ensures value { result ≡ map_rule_of bits page_flag items.now }
    ensures none { IsNone result ↔ ((rule : Rule) → ¬ IsMapRuleBroken bits page_flag items.now rule) }
    ensures some { IfSome result (λ rule. IsMapRuleBroken bits page_flag items.now rule) }
    ensures truth { IsNone result → AreTrue bits page_flag items.now }
{
    first_broken(bits, page_flag, items)
}
