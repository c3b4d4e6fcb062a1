//! The laws of the rules of one item, for whom reasons about them.
ghost use Rattle.std.specs.Prelude.{◌≡◌, ◌↔◌, ℕ, List, true, false, None, Ok, Err, IfSome};
ghost use Rattle.key_orders.specs.declared.columns.KeySpec.{KeySpec as Spec};
ghost use Rattle.key_orders.specs.declared.more.MoreSpec.{MoreSpec as More};
ghost use Rattle.page_layout.specs.Page.{item_of};
ghost use Rattle.bt_tuples.specs.declared.items.Spot3.{Spot3 as Spot};
ghost use Rattle.bt_tuples.specs.declared.items.ItemFault.TheVariants.{Packed};
ghost use Rattle.bt_tuples.specs.Items.{Item, is_dead, item_outcome, item_rule_of, meaning_of, rule_in};
ghost use Rattle.bt_tuples.specs.Rules.{KeepsItemRules, breaks_item_rule, has_packed, tuple_of};

/// What [`tree_item`](crate::tree_item) answers, in the words of the rules.
///
/// - `rule`: it names the first of B5 to B9 that is broken.
/// - `none`: there is none exactly where the item keeps them all.
/// - `some`: the rule that is named is broken.
/// - `meaning`: an item that keeps them all and has no compressed value has its meaning.
/// - `read`: an item is answered with its meaning, and only where it keeps them all and has no compressed
///   value.
/// - `packed`: `Packed` comes exactly where it keeps them all and has a compressed value.
pub fn item_rules_are_exact()
    ensures rule { (specs : List Spec) (more : List More) (spot : Spot) (page : List ℕ) (i : ℕ)
        → rule_in (item_outcome specs more spot page i) ≡ item_rule_of specs more spot page i }
    ensures none { (specs : List Spec) (more : List More) (spot : Spot) (page : List ℕ) (i : ℕ)
        → (item_rule_of specs more spot page i ≡ None) ↔ KeepsItemRules specs more spot page i }
    ensures some { (specs : List Spec) (more : List More) (spot : Spot) (page : List ℕ) (i : ℕ)
        → IfSome (item_rule_of specs more spot page i) (λ rule. breaks_item_rule specs more spot page i rule ≡ true) }
    ensures meaning { (specs : List Spec) (more : List More) (spot : Spot) (page : List ℕ) (i : ℕ)
        → KeepsItemRules specs more spot page i → has_packed specs more (tuple_of page i) ≡ false
        → item_outcome specs more spot page i
        ≡ Ok (meaning_of specs more (tuple_of page i) (is_dead (item_of page i).flag)) }
    ensures read { (specs : List Spec) (more : List More) (spot : Spot) (page : List ℕ) (i : ℕ) (item : Item)
        → item_outcome specs more spot page i ≡ Ok item
        → KeepsItemRules specs more spot page i × (has_packed specs more (tuple_of page i) ≡ false)
        × (item ≡ meaning_of specs more (tuple_of page i) (is_dead (item_of page i).flag)) }
    ensures packed { (specs : List Spec) (more : List More) (spot : Spot) (page : List ℕ) (i : ℕ)
        → (item_outcome specs more spot page i ≡ Err Packed)
        ↔ (KeepsItemRules specs more spot page i × (has_packed specs more (tuple_of page i) ≡ true)) }
{}
