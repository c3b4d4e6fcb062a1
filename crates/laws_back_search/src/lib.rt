//! A backward search of a tree whose pages keep the rules finds the reverse of what a forward one finds.
//!
//! The crate has no code, only definitions and proofs. Its two functions do nothing; their contracts
//! are the theorems, and a caller has them by calling.
#![tactic(auto)]

ghost use Rattle.std.specs.Cmp.{IsTotalOrder};
ghost use Rattle.std.specs.declared.cmp.Ordering.{Ordering};
ghost use Rattle.std.specs.Prelude.{◌≡◌, ℕ, true, false};
ghost use Rattle.laws_search.specs.Keys.{Columns, Entry, Separator, Bound, key_order};
ghost use Rattle.laws_search.specs.Keys.{past_bound, reaches_beyond};
ghost use Rattle.laws_search.specs.Order.{Order, IsOrder};
ghost use Rattle.laws_search.specs.Tree.{Index};
ghost use Rattle.laws_search.specs.Searchable.{IsSearchable};
ghost use Rattle.laws_back_search.specs.Answers.{FindsReverse, MirrorsAnswers};
ghost use Rattle.laws_back_search.specs.Spots.{GoesBackInSteps};

/// What a backward search of a tree finds, if its pages keep the rules that a search needs
/// (`IsSearchable`), whatever the order of its entries (E) and separators (S).
///
/// - `reverse`: the searcher ends within twice as many visits as there are blocks, with the reverse of
///   the matching unkilled entries of the file.
/// - `mirrors`: that is the reverse of what the forward searcher answers.
/// - `steps`: what each visit, and each step of a reader along the leaves, does to what is left for it.
pub fn back_search_finds<S, E>()
    ensures reverse { (o : Order S E) (x : Index S E) → IsOrder o → IsSearchable o x → FindsReverse o x }
    ensures mirrors { (o : Order S E) (x : Index S E) → IsOrder o → IsSearchable o x → MirrorsAnswers o x }
    ensures steps { (o : Order S E) (x : Index S E) → IsOrder o → IsSearchable o x → GoesBackInSteps o x }
{}

/// The two laws of reaching beyond a separator, for keys that are compared column by column. Where it
/// is false, each entry above the separator is past the high bound. And where it is true of a
/// separator, it is true of every lower one; unlike that of going right, this law holds of all
/// separators.
pub fn reaching_has_the_laws<V, T>()
    ensures none_right { (cs : Columns V) (ts : T → T → Ordering) → ((i : ℕ) → IsTotalOrder (cs i)) →
        IsTotalOrder ts → (high : Bound V) (s : Separator V T) (e : Entry V T) →
        reaches_beyond cs high.values high.inclusive s.kept ≡ false → (key_order cs ts).within e s ≡ false →
        past_bound cs high.values high.inclusive e.values ≡ true }
    ensures lower { (cs : Columns V) (ts : T → T → Ordering) → ((i : ℕ) → IsTotalOrder (cs i)) →
        IsTotalOrder ts → (high : Bound V) (s t : Separator V T) → (key_order cs ts).under s t ≡ true →
        reaches_beyond cs high.values high.inclusive t.kept ≡ true →
        reaches_beyond cs high.values high.inclusive s.kept ≡ true }
{}
