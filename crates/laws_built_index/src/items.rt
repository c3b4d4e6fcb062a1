//! What the items of an index mean, once they are laid.
ghost use Rattle.std.specs.Prelude.{◌≡◌, ◌<◌, ℕ, List, Ok, false};
ghost use Rattle.laws_search.specs.Keys.{Separator};
ghost use Rattle.key_orders.specs.declared.columns.KeySpec.{KeySpec as Spec};
ghost use Rattle.key_orders.specs.declared.columns.Value.{Value};
ghost use Rattle.key_orders.specs.declared.more.MoreSpec.{MoreSpec as More};
ghost use Rattle.key_orders.specs.declared.Tid.{Tid as Place};
ghost use Rattle.bt_tuples.specs.declared.items.Spot3.TheVariants.{FirstInner, HighKey, Inner};
ghost use Rattle.bt_tuples.specs.Items.{Pivot, meaning_of, tuple_outcome};
ghost use Rattle.bt_image.specs.Image.{LeafEntry, minus_infinity};
ghost use Rattle.laws_built_index.specs.Items.{IsRead, MayBeItem, MaySplit, leaf_item, pivot_item};

use page_write::{bodies_read_back, index_tuples_read_back, posting_tuples_read_back};

/// An item of a leaf that may be laid breaks none of the rules of one item and has the entries that it
/// was laid from, with their included values.
pub fn laid_items_mean()
    ensures { (specs : List Spec) (more : List More) (es : List LeafEntry) → MayBeItem specs more es
        → IsRead specs more (leaf_item specs more es) es }
{
    bodies_read_back();
    index_tuples_read_back();
    posting_tuples_read_back();
}

/// A separator that may be laid breaks none of them, and is what it was laid from.
///
/// - `high_key`, `inner`: as a high key, and as an item of an internal page.
/// - `first`: the first item of an internal page keeps nothing.
/// - `meaning`, `nothing`: what they mean.
pub fn laid_separators_mean()
    ensures high_key { (specs : List Spec) (more : List More) (down : ℕ) (s : Separator Value Place) → down < 4294967296
        → MaySplit specs s → tuple_outcome specs more HighKey (pivot_item specs down s) false ≡ Ok (Pivot s down) }
    ensures inner { (specs : List Spec) (more : List More) (down : ℕ) (s : Separator Value Place) → down < 4294967296
        → MaySplit specs s → tuple_outcome specs more Inner (pivot_item specs down s) false ≡ Ok (Pivot s down) }
    ensures first { (specs : List Spec) (more : List More) (down : ℕ) → down < 4294967296
        → tuple_outcome specs more FirstInner (pivot_item specs down minus_infinity) false
        ≡ Ok (Pivot minus_infinity down) }
    ensures meaning { (specs : List Spec) (more : List More) (down : ℕ) (s : Separator Value Place) → down < 4294967296
        → MaySplit specs s → meaning_of specs more (pivot_item specs down s) false ≡ Pivot s down }
    ensures nothing { (specs : List Spec) (more : List More) (down : ℕ) → down < 4294967296
        → meaning_of specs more (pivot_item specs down minus_infinity) false ≡ Pivot minus_infinity down }
{
    bodies_read_back();
    index_tuples_read_back();
}
