//! A search of a tree whose pages keep the rules finds what it is to find.
//!
//! The crate has no code, only definitions and proofs. Its two functions do nothing; their contracts
//! are the theorems, and a caller has them by calling.
#![tactic(auto)]

ghost use Rattle.std.specs.Cmp.{IsTotalOrder};
ghost use Rattle.std.specs.declared.cmp.Ordering.{Ordering};
ghost use Rattle.laws_search.specs.Keys.{Columns, Entry, Separator, IsSeparatorOf, compare_keys, key_order, Bound};
ghost use Rattle.laws_search.specs.Keys.{goes_right, before_bound, scan_between, back_between};
ghost use Rattle.laws_search.specs.Order.{Order, IsOrder, IsScan};
ghost use Rattle.laws_search.specs.Tree.{Index};
ghost use Rattle.laws_search.specs.Searchable.{IsSearchable};
ghost use Rattle.laws_search.specs.Search.{FindsAll, FindsOnly};
ghost use Rattle.laws_search.specs.Back.{FindsBack, IsBack};
ghost use Rattle.laws_search.specs.Probe.{FindsLeaf};
ghost use Rattle.laws_search.specs.Spots.{ReadsInSteps};
ghost use Rattle.laws_search.specs.Tiles.{Tile, live_rows};
ghost use Rattle.std.specs.Prelude.{◌≡◌, ◌≢◌, ◌≤◌, ℕ, None, true};

/// What a search of a tree finds, if its pages keep the rules that a search needs (`IsSearchable`),
/// whatever the order of its entries (E) and separators (S).
///
/// - `all`: the searcher ends within as many visits as there are blocks, with exactly the matching
///   unkilled entries of the file, each once, in order.
/// - `only`: there is one such list.
/// - `back`: the searcher that goes backward ends within twice as many visits, with the same list
///   reversed.
/// - `leaf`: the way of an entry ends on a leaf that has all entries equal to it.
/// - `steps`: what each step of a reader does to what is left for it. It needs no rule.
/// - `tiles`: the live pages of a level cover all keys without gap or overlap.
pub fn search_finds<S, E>()
    ensures all { (o : Order S E) (x : Index S E) → IsOrder o → IsSearchable o x → FindsAll o x }
    ensures only { (o : Order S E) (x : Index S E) → IsOrder o → IsSearchable o x → FindsOnly o x }
    ensures back { (o : Order S E) (x : Index S E) → IsOrder o → IsSearchable o x → FindsBack o x }
    ensures leaf { (o : Order S E) (x : Index S E) → IsOrder o → IsSearchable o x → x.root ≢ 0 → FindsLeaf o x }
    ensures steps { (x : Index S E) → ReadsInSteps x }
    ensures tiles { (o : Order S E) (x : Index S E) → IsSearchable o x → x.root ≢ 0 →
        (n : ℕ) → n ≤ x.level → Tile o x None (live_rows x n) }
{}

/// The order by columns has the laws that the search needs, whatever the total order of each column
/// and of the TIDs. V stands for the values, T for the TIDs.
///
/// `left` and `lower` are the two laws of going right alone: where it is true of a separator, no
/// entry at or below that meets the low bound, and it is true of every lower separator. The second
/// isn't one that the search needs, but code is that stops at the first separator that the scan
/// doesn't go right of, or that searches by halves. It speaks of separators of a key of n columns:
/// of others it is false.
pub fn keys_have_the_laws<V, T>()
    ensures total { (cs : Columns V) (ts : T → T → Ordering) → ((i : ℕ) → IsTotalOrder (cs i)) → IsTotalOrder ts →
        IsTotalOrder (compare_keys cs ts) }
    ensures order { (cs : Columns V) (ts : T → T → Ordering) → ((i : ℕ) → IsTotalOrder (cs i)) → IsTotalOrder ts →
        IsOrder (key_order cs ts) }
    ensures scan { (cs : Columns V) (ts : T → T → Ordering) → ((i : ℕ) → IsTotalOrder (cs i)) → IsTotalOrder ts →
        (low high : Bound V) → IsScan (key_order cs ts) (scan_between cs low high) }
    ensures back { (cs : Columns V) (ts : T → T → Ordering) → ((i : ℕ) → IsTotalOrder (cs i)) → IsTotalOrder ts →
        (low high : Bound V) → IsBack (key_order cs ts) (scan_between cs low high) (back_between cs low high) }
    ensures left { (cs : Columns V) (ts : T → T → Ordering) → ((i : ℕ) → IsTotalOrder (cs i)) → IsTotalOrder ts →
        (low : Bound V) (s : Separator V T) (e : Entry V T) →
        goes_right cs low s ≡ true → (key_order cs ts).within e s ≡ true →
        before_bound cs low.values low.inclusive e.values ≡ true }
    ensures lower { (cs : Columns V) (ts : T → T → Ordering) → ((i : ℕ) → IsTotalOrder (cs i)) → IsTotalOrder ts →
        (n : ℕ) (low : Bound V) (s t : Separator V T) →
        IsSeparatorOf n s → IsSeparatorOf n t → (key_order cs ts).under s t ≡ true →
        goes_right cs low t ≡ true → goes_right cs low s ≡ true }
{}
