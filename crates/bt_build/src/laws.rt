//! What entries in order are, for whom reasons about them.
ghost use Rattle.std.specs.Prelude.{◌≡◌, List, length, true};
ghost use Rattle.std.specs.List.{AllAdjacentBelow};
ghost use Rattle.std.specs.List.Sorted.{IsPermutation, IsSortedBy};
ghost use Rattle.key_orders.specs.declared.columns.KeySpec.{KeySpec as Spec};
ghost use Rattle.bt_image.specs.Image.{LeafEntry};
ghost use Rattle.bt_build.specs.Listed.{AreApart};
ghost use Rattle.bt_build.specs.Order.{in_order, is_before};

use key_orders::{key_orders_are_total, keys_are_searchable};

/// Entries in order (`in_order`) are the entries themselves, sorted by their keys and, where keys are equal, by their
/// TIDs. It does nothing.
///
/// - `moved`: they are the same entries, each as often.
/// - `sorted`: none is below the one before it.
/// - `rising`: where no two have one TID, each is below the next.
pub fn entries_in_order_are_sorted()
    ensures moved { (specs : List Spec) (es : List LeafEntry) → IsPermutation es (in_order specs es) }
    ensures sorted { (specs : List Spec) (es : List LeafEntry) → IsSortedBy (is_before specs) (in_order specs es) }
    ensures rising { (specs : List Spec) (es : List LeafEntry) → AreApart es
        → AllAdjacentBelow (λ d e. is_before specs d e ≡ true) (in_order specs es) (length (in_order specs es)) }
{
    key_orders_are_total();
    keys_are_searchable();
}
