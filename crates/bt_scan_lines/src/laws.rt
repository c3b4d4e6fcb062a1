//! What the list of the entries that a scan wants has, for whom reasons about it.
ghost use Rattle.std.specs.Prelude.{◌≡◌, ◌↔◌, List, length, true};
ghost use Rattle.std.specs.List.{AllAdjacentBelow, Contains};
ghost use Rattle.laws_search.specs.Keys.{Entry, Separator};
ghost use Rattle.laws_search.specs.Order.{Scan};
ghost use Rattle.laws_search.specs.Search.{IsWanted};
ghost use Rattle.laws_search.specs.Tree.{Index};
ghost use Rattle.key_orders.specs.declared.columns.KeySpec.{KeySpec as Spec};
ghost use Rattle.key_orders.specs.declared.columns.Value.{Value as Shown};
ghost use Rattle.key_orders.specs.declared.Tid.{Tid as Place};
ghost use Rattle.key_orders.specs.Scans.{order_of};
ghost use Rattle.bt_steps.specs.Pages.{is_killed};
ghost use Rattle.bt_scan_lines.specs.Wanted.{IsOneWanted, wanted_entries};

use key_orders::{key_orders_are_total, keys_are_searchable};

/// The entries that a scan wants (`wanted_entries`) are those that it is to find, whatever rules the index breaks. It
/// does nothing.
///
/// - `members`: its members are exactly the entries of the leaves that match and aren't killed.
/// - `rising`: each is below the next, by key and, where keys are equal, by TID, so that none comes twice.
/// - `only`: a list of all that the scan is to find, each once and in order (`IsWanted`), is this one.
pub fn wanted_entries_are_those_that_match()
    ensures members { (specs : List Spec) (x : Index (Separator Shown Place) (Entry Shown Place))
        (scan : Scan (Separator Shown Place) (Entry Shown Place)) (e : Entry Shown Place)
        → Contains (wanted_entries (order_of specs) is_killed x scan) e ↔ IsOneWanted is_killed x scan e }
    ensures rising { (specs : List Spec) (x : Index (Separator Shown Place) (Entry Shown Place))
        (scan : Scan (Separator Shown Place) (Entry Shown Place))
        → AllAdjacentBelow (λ d e. (order_of specs).precedes d e ≡ true)
        (wanted_entries (order_of specs) is_killed x scan)
        (length (wanted_entries (order_of specs) is_killed x scan)) }
    ensures only { (specs : List Spec) (x : Index (Separator Shown Place) (Entry Shown Place))
        (scan : Scan (Separator Shown Place) (Entry Shown Place)) (es : List (Entry Shown Place))
        → IsWanted (order_of specs) is_killed x scan es → wanted_entries (order_of specs) is_killed x scan ≡ es }
{
    key_orders_are_total();
    keys_are_searchable();
}
