//! What the pages of an index mean to a search, where none breaks a rule.
ghost use Rattle.std.specs.Prelude.{◌≡◌, ℕ, List, map};
ghost use Rattle.laws_search.specs.Search.{entries_of};
ghost use Rattle.laws_levels.specs.Sound.{HasSoundPages};
ghost use Rattle.key_orders.specs.declared.columns.KeySpec.{KeySpec as Spec};
ghost use Rattle.key_orders.specs.declared.more.MoreSpec.{MoreSpec as More};
ghost use Rattle.key_orders.specs.Scans.{order_of};
ghost use Rattle.bt_image.specs.Image.{index_entries, index_image};
ghost use Rattle.bt_image.specs.Pages.{KeepsTreeRules};

use key_orders::key_orders_are_total;

/// Where the blocks of an index break no rule on its metapage and on single pages, their image has
/// what the rules on levels, and the search, build on (`laws_levels`): the root and the fast root are
/// blocks of the index, and both are there or none is; each page in use is sound by itself and with
/// its neighbours; and only leaves have entries.
pub fn kept_rules_make_a_sound_image()
    ensures { (specs : List Spec) (more : List More) (blocks : ℕ) (block : ℕ → List ℕ)
        → KeepsTreeRules specs more blocks block
        → HasSoundPages (order_of specs) (index_image specs more blocks block) }
{
    key_orders_are_total();
}

/// The entries that a search yields from are those of the leaves by block number, linked or not.
pub fn entries_are_gathered()
    ensures { (specs : List Spec) (more : List More) (blocks : ℕ) (block : ℕ → List ℕ)
        → entries_of (index_image specs more blocks block)
        ≡ map (λ e. e.entry) (index_entries specs more blocks block) }
{}
