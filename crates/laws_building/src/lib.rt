//! A B-tree that is built from its leaves upward breaks no rule on levels, has the entries that it was
//! built from, and scans of it find what they want.
//!
//! The crate has no code, only definitions and proofs. Its functions do nothing; their contracts are
//! the theorems, and a caller has them by calling. S stands for separators, E for entries, whatever
//! their order.
//!
//! Source: the README of PostgreSQL's `access/nbtree`.
#![tactic(auto)]

ghost use Rattle.std.specs.Prelude.{Contains, ◌≡◌, ◌≢◌, ◌≤◌, ◌<◌, ℕ, List, [], ◌∷◌, ◌++◌, length, map, true};
ghost use Rattle.std.specs.List.{All};
ghost use Rattle.std.specs.Cmp.{IsTotalOrder};
ghost use Rattle.std.specs.declared.cmp.Ordering.{Ordering};
ghost use Rattle.std.specs.declared.cmp.Ordering.TheVariants.{Less, Equal};
ghost use Rattle.laws_search.specs.Keys.{Columns, Entry, compare_values, key_order};
ghost use Rattle.laws_search.specs.Order.{Order};
ghost use Rattle.laws_search.specs.Searchable.{IsSearchable};
ghost use Rattle.laws_search.specs.Tree.{Index};
ghost use Rattle.laws_search.specs.Search.{entries_of};
ghost use Rattle.laws_levels.specs.Rules.{KeepsLevelRules};
ghost use Rattle.laws_levels.specs.Sound.{HasSoundPages};
ghost use Rattle.laws_building.specs.Built.{Cutting, IsLaidAs, Splitter, built};
ghost use Rattle.laws_building.specs.Cuts.{IsCut, IsFilled, fill_pages, joined, put_item};
ghost use Rattle.laws_building.specs.Fresh.{FindsAmong, HasLevels, IsFresh, IsGiven, IsKeyOrder, IsSplitter};
ghost use Rattle.laws_building.specs.Groups.{Grouping, IsGrouped, grouped};
ghost use Rattle.laws_building.specs.Layout.{IsLayout, Layout, end_of};
ghost use Rattle.laws_building.specs.Seen.{HasEntries, index_seen, item_splitter, order_by, splitter_by};
ghost use Rattle.laws_building.specs.Sized.{IsSizedBy, Sizes, internal_pages, leaf_pages};
ghost use Rattle.laws_building.specs.Splits.{IsPivotShape, IsShortest, key_splitter};

use laws_levels::rules_are_exact;
use laws_search::keys_have_the_laws;

/// What holds of an index that is laid as the built one: its metapage says the same, and so do all
/// blocks from 1 on. `cut` cuts the items of a level into pages, two or more for each but the last,
/// and `leaves` are the entries of the leaves.
///
/// - `searchable`: it has what a search needs of an index (`laws_search::search_finds`).
/// - `fresh`: no page is idle, half-dead, dead or a right half, separators rise, and each level has
///   fewer pages than the one below.
/// - `entries`: its entries are those that were given, in their order.
/// - `levels`: its levels are those that are made one from the other, from the leaves upward.
/// - `search`: each scan finds what it wants of them.
pub fn built_is_searchable<S, E>()
    ensures searchable { (o : Order S E) (k : Splitter S E) (cut : Cutting S) (leaves : List (List E)) (es : List E)
        (x : Index S E) → IsGiven o k cut leaves es → IsLaidAs x (built k cut leaves) → IsSearchable o x }
    ensures fresh { (o : Order S E) (k : Splitter S E) (cut : Cutting S) (leaves : List (List E)) (es : List E)
        (x : Index S E) → IsGiven o k cut leaves es → IsLaidAs x (built k cut leaves) → IsFresh o k x }
    ensures entries { (o : Order S E) (k : Splitter S E) (cut : Cutting S) (leaves : List (List E)) (es : List E)
        (x : Index S E) → IsGiven o k cut leaves es → IsLaidAs x (built k cut leaves) → entries_of x ≡ es }
    ensures levels { (o : Order S E) (k : Splitter S E) (cut : Cutting S) (leaves : List (List E)) (es : List E)
        → IsGiven o k cut leaves es → HasLevels k cut leaves }
    ensures search { (o : Order S E) (k : Splitter S E) (cut : Cutting S) (leaves : List (List E)) (es : List E)
        (x : Index S E) → IsGiven o k cut leaves es → IsLaidAs x (built k cut leaves) → FindsAmong o x es }
{}

/// The built tree breaks none of the rules on levels, L1 to L9.
///
/// - `sound_pages`: its pages by themselves have all that those rules stand on
///   (`laws_levels::rules_are_exact`).
/// - `rules`: none of the rules is broken, at any block.
pub fn built_keeps_the_rules<S, E>()
    ensures sound_pages { (o : Order S E) (k : Splitter S E) (cut : Cutting S) (leaves : List (List E)) (es : List E)
        (x : Index S E) → IsGiven o k cut leaves es → IsLaidAs x (built k cut leaves) → HasSoundPages o x }
    ensures rules { (o : Order S E) (k : Splitter S E) (cut : Cutting S) (leaves : List (List E)) (es : List E)
        (x : Index S E) → IsGiven o k cut leaves es → IsLaidAs x (built k cut leaves) → KeepsLevelRules o x }
{
    rules_are_exact::<S, E>();
}

/// Entries that have more than the order of them looks at, as values of included columns: `f` gives what
/// it looks at.
///
/// - `seen`: an index that is laid as the tree of such entries is, seen without the more that they have,
///   laid as the tree of what the order looks at. So the laws above hold of it.
/// - `given`: what the tree is built from is then given too.
/// - `entries`: and the index has the entries that were given, with all that they have, in their order.
pub fn built_with_more<S, D, E>()
    ensures seen { (f : D → E) (k : Splitter S E) (cut : Cutting S) (leaves : List (List D)) (x : Index S D)
        → IsLaidAs x (built (splitter_by f k) cut leaves)
        → IsLaidAs (index_seen (map f) x) (built k cut (map (map f) leaves)) }
    ensures given { (f : D → E) (o : Order S E) (k : Splitter S E) (cut : Cutting S) (leaves : List (List D))
        (es : List D) → IsGiven o k cut (map (map f) leaves) (map f es) → IsCut es leaves
        → IsGiven (order_by f o) (splitter_by f k) cut leaves es }
    ensures entries { (f : D → E) (o : Order S E) (k : Splitter S E) (cut : Cutting S) (leaves : List (List D))
        (es : List D) (x : Index S D) → IsGiven o k cut (map (map f) leaves) (map f es) → IsCut es leaves
        → IsLaidAs x (built (splitter_by f k) cut leaves) → entries_of x ≡ es }
{}

/// Items, each of one entry or more, as a tree whose leaves are pages of items.
///
/// - `seen`: an index that is laid as that tree is, seen by its entries alone, laid as the tree of the
///   entries.
/// - `filled`: pages that are filled with items have what this asks.
pub fn built_of_items<S, E>()
    ensures seen { (k : Splitter S E) (cut : Cutting S) (pages : List (List (List E))) (x : Index S (List E))
        → All HasEntries pages → IsLaidAs x (built (item_splitter k) cut pages)
        → IsLaidAs (index_seen joined x) (built k cut (map joined pages)) }
    ensures filled { (size : List E → ℕ) (budget : ℕ) (items : List (List E))
        → All (λ item. item ≢ []) items → All HasEntries (fill_pages size size budget items) }
{}

/// Entries put into items: those of one key are cut, from the first on, into items of as many entries
/// as an item may have.
pub fn entries_grouped<E>()
    ensures { (g : Grouping E) (es : List E) → IsGrouped g es (grouped g es) }
{}

/// Pages that are filled in order: each item goes to the page before it while there is room.
///
/// - `filled`: the pages are the items in order, each page within its bytes, and none begins while its
///   first item has room on the page before.
/// - `only`: there is one way to do this.
/// - `goes_on`: the same, item by item, as a loop does it.
pub fn filled_pages<X>()
    ensures filled { (first size : X → ℕ) (budget : ℕ) (xs : List X) → ((x : X) → Contains xs x → first x ≤ budget)
        → IsFilled first size budget xs (fill_pages first size budget xs) }
    ensures only { (first size : X → ℕ) (budget : ℕ) (xs : List X) (pages : List (List X))
        → IsFilled first size budget xs pages → pages ≡ fill_pages first size budget xs }
    ensures goes_on { (first size : X → ℕ) (budget : ℕ) (xs : List X) (x : X)
        → fill_pages first size budget (xs ++ x ∷ []) ≡ put_item first size budget (fill_pages first size budget xs) x }
{}

/// A tree whose pages are filled by the sizes of entries that have more than their order looks at is one
/// of which `built_with_more` and the laws above speak.
///
/// - `given`: seen by what the order looks at.
/// - `whole`: its leaves are the entries, in order.
pub fn sized_with_more<S, D, E>()
    ensures given { (f : D → E) (o : Order S E) (k : Splitter S E) (z : Sizes S D) (items : List (List D))
        (es : List D) → IsSizedBy f o k z items es
        → IsGiven o k (internal_pages z) (map (map f) (leaf_pages z items)) (map f es) }
    ensures whole { (f : D → E) (o : Order S E) (k : Splitter S E) (z : Sizes S D) (items : List (List D))
        (es : List D) → IsSizedBy f o k z items es → IsCut es (leaf_pages z items) }
{}

/// Separators of keys by columns that keep as few values as they need, whatever the total order of each
/// column and of the TIDs. V stands for the values, T for the TIDs.
///
/// - `order`, `splits`: a separator stands between its two entries, in the order of keys.
/// - `shortest`: it keeps the first values of the right entry, as few as differ from the left one, and
///   all of them with the left TID where none differs.
/// - `size`: what it keeps ends no later on a page than all values of the right entry.
/// - `ties`: entries with equal values have rising TIDs.
/// - `shape`: it keeps one value to all of them, and a TID only with all.
pub fn keys_split<V, T>()
    ensures order { (cs : Columns V) (ts : T → T → Ordering) → ((i : ℕ) → IsTotalOrder (cs i)) → IsTotalOrder ts
        → IsKeyOrder (key_order cs ts) }
    ensures splits { (cs : Columns V) (ts : T → T → Ordering) → ((i : ℕ) → IsTotalOrder (cs i)) → IsTotalOrder ts
        → IsSplitter (key_order cs ts) (key_splitter cs) }
    ensures shortest { (cs : Columns V) (ts : T → T → Ordering) → ((i : ℕ) → IsTotalOrder (cs i))
        → (d e : Entry V T) → (key_order cs ts).precedes d e ≡ true
        → IsShortest cs d e ((key_splitter cs).split_key d e) }
    ensures size { (cs : Columns V) (ts : T → T → Ordering) → ((i : ℕ) → IsTotalOrder (cs i))
        → (lay : Layout V) → IsLayout lay → (d e : Entry V T) → (key_order cs ts).precedes d e ≡ true
        → end_of lay ((key_splitter cs).split_key d e).kept ≤ end_of lay e.values }
    ensures ties { (cs : Columns V) (ts : T → T → Ordering) → (d e : Entry V T)
        → (key_order cs ts).precedes d e ≡ true → compare_values cs 0 d.values e.values ≡ Equal
        → ts d.tid e.tid ≡ Less }
    ensures shape { (cs : Columns V) (ts : T → T → Ordering) → ((i : ℕ) → IsTotalOrder (cs i))
        → (columns : ℕ) (d e : Entry V T) → 0 < columns → length e.values ≡ columns
        → (key_order cs ts).precedes d e ≡ true → IsPivotShape columns ((key_splitter cs).split_key d e) }
{
    keys_have_the_laws::<V, T>();
}
