//! What holds of the chains of any page.
ghost use Rattle.std.specs.Prelude.{◌≡◌, ◌↔◌, ◌≤◌, ◌||◌, ℕ, List, true, if◌then◌else◌, IfSome, IsTrue, None, Some};
ghost use Rattle.page_layout.specs.declared.rules.Rule.{Rule};
ghost use Rattle.liveness.specs.declared.states.ItemState.{ItemState};
ghost use Rattle.hot_chains.specs.Chains.{IsRootOf, Reaches, breaks_chain_rule, chain_rule, is_heap_only_tuple};
ghost use Rattle.hot_chains.specs.Chains.{is_root_at, may_step, root_of};
ghost use Rattle.hot_chains.specs.Quiet.{HasNoChains, HasOneRoot, IsLiveItem, KeepsChainRules};
ghost use Rattle.hot_chains.specs.Sentences.{ComesSoon, IsChainRuleBroken};

use crate::items::{is_heap_only_tuple, may_step};
use liveness::ItemState;

/// On a page that breaks no chain rule exactly one root reaches each live tuple.
pub fn live_tuples_have_one_root()
    ensures { (block : ℕ) (items : List ItemState) → KeepsChainRules block items →
        (i : ℕ) → IsLiveItem items i → HasOneRoot block items i }
{}

/// On any page no root reaches two live tuples.
pub fn roots_reach_one_live_tuple()
    ensures { (block : ℕ) (items : List ItemState) (r i j : ℕ) → Reaches block items r i → Reaches block items r j →
        IsLiveItem items i → IsLiveItem items j → i ≡ j }
{}

/// The functions that a table is told by say what their sentences say: the lowest root of an item is
/// the lowest of all that reach it, each rule's test is its sentence, and the first broken rule is
/// broken, and is None exactly where none is. As many steps as a page has tuples lead as far as any:
/// at most 291 tuples fit on a page, so 291 steps do (`MaxHeapTuplesPerPage`).
pub fn tests_are_sentences()
    ensures root { (block : ℕ) (items : List ItemState) (i : ℕ) → 1 ≤ i →
        IsRootOf block items i (root_of block items i) }
    ensures soon { (block : ℕ) (items : List ItemState) (r i : ℕ) → Reaches block items r i →
        ComesSoon block items r i }
    ensures rules { (block : ℕ) (items : List ItemState) (i : ℕ) → 1 ≤ i →
        (rule : Rule) → (breaks_chain_rule block items i rule ≡ true) ↔ IsChainRuleBroken block items i rule }
    ensures none { (block : ℕ) (items : List ItemState) (i : ℕ) → 1 ≤ i →
        (chain_rule block items i ≡ None) ↔ ((rule : Rule) → ¬ IsChainRuleBroken block items i rule) }
    ensures some { (block : ℕ) (items : List ItemState) (i : ℕ) → 1 ≤ i →
        IfSome (chain_rule block items i) (λ rule. IsChainRuleBroken block items i rule) }
{}

// Whether an item is a heap-only tuple or may step.
#[inline]
fn is_chained(item: &ItemState) -> bool
    ensures { result ≡ (is_heap_only_tuple item.now || may_step item.now) }
{
    is_heap_only_tuple(*item) || may_step(*item)
}

/// Whether no item of a page may step and no tuple is heap-only, as on most pages. Such a page needs
/// no table.
pub fn has_no_chains(items: &[ItemState]) -> bool
    ensures { IsTrue result ↔ HasNoChains items.now }
{
    !items.iter().any(is_chained)
}

/// A page without chains breaks no chain rule, and each root is the root of itself alone.
pub fn pages_without_chains()
    ensures rules { (block : ℕ) (items : List ItemState) → HasNoChains items →
        (i : ℕ) → chain_rule block items i ≡ None }
    ensures roots { (block : ℕ) (items : List ItemState) → HasNoChains items →
        (i : ℕ) → 1 ≤ i → root_of block items i ≡ (if is_root_at items i then Some i else None) }
{}
