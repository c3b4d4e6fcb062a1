//! The rules on the levels of a B-tree, L1 to L9: which of them an index breaks first, and walks along
//! the levels that find it.
//!
//! The crate has no code, only definitions and proofs. Its functions do nothing; their contracts are
//! the theorems, and a caller has them by calling. S stands for separators, E for entries, whatever
//! their order. `same` is any test that tells whether two separators are the same.
//!
//! Source: the README of PostgreSQL's `access/nbtree`.
#![tactic(auto)]

ghost use Rattle.std.specs.Prelude.{◌≡◌, ◌≢◌, ◌≤◌, ◌<◌, ◌+◌, ◌-◌, ◌↔◌, ℕ, Bool, true, false, suc, List, [], map};
ghost use Rattle.std.specs.Prelude.{Option, Some, None};
ghost use Rattle.std.specs.List.{filter};
ghost use Rattle.std.specs.Cmp.{IsTotalOrder};
ghost use Rattle.std.specs.declared.cmp.Ordering.{Ordering};
ghost use Rattle.page_layout.specs.declared.rules.Rule.{Rule};
ghost use Rattle.page_layout.specs.declared.rules.Rule.TheVariants.{L1};
ghost use Rattle.laws_search.specs.Keys.{Columns, key_order};
ghost use Rattle.laws_search.specs.Order.{Order};
ghost use Rattle.laws_search.specs.Tree.{Index, chain_of, linked_from};
ghost use Rattle.laws_search.specs.Levels.{Downlink, downlinks, entry_page, lead_to, rows};
ghost use Rattle.laws_search.specs.Searchable.{IsInUse, IsSearchable};
ghost use Rattle.laws_levels.specs.Rules.{BreaksLevelRule, KeepsLevelRules, entry_at};
ghost use Rattle.laws_levels.specs.Questions.{Finding, IsFirst};
ghost use Rattle.laws_levels.specs.Tests.{are_roots_misplaced, comes_back, first_broken};
ghost use Rattle.laws_levels.specs.Sound.{HasSoundPages, IsSame, IsTransitive};
ghost use Rattle.laws_levels.specs.Links.{IsOpenChain, first_page, to_left, to_right, walks_to};
ghost use Rattle.laws_levels.specs.Meeting.{unmet, rows_met};
ghost use Rattle.laws_levels.specs.LevelWalk.{level_finding, level_walk};
ghost use Rattle.laws_levels.specs.Walk.{first_outside, is_outside, unreached_finding, walk_finding};
ghost use Rattle.laws_levels.specs.Cursor.{AreAbove, cursor_start, dead_below, downlinks_left, downlinks_read};
ghost use Rattle.laws_levels.specs.Cursor.{all_levels_finding, is_block_read, read_finding, turned_cursor};
ghost use Rattle.laws_levels.specs.Descent.{HavePassed, IsBefore};
ghost use Rattle.laws_levels.specs.Same.{TellsApart, same_keys};

use laws_search::keys_have_the_laws;

/// Where the rules on single pages hold, the finding says exactly which rule on levels is broken
/// first, and none says that the index breaks no rule.
///
/// - `found`: a finding breaks its rule.
/// - `first`: and no rule that is asked before it is broken.
/// - `silent`: there is no finding exactly where no rule is broken.
/// - `searchable`: where no rule is broken, the index has all that the theorems on searches ask
///   (`laws_search::search_finds`).
/// - `kept`: what those theorems ask leaves no rule broken, in an order that is transitive, whatever
///   single pages have besides.
/// - `none`: and so no finding.
pub fn rules_are_exact<S, E>()
    ensures found { (same : S → S → Bool) (o : Order S E) (x : Index S E) → IsSame same → HasSoundPages o x →
        (rule : Rule) (block : ℕ) → first_broken same o x ≡ Some (rule, block) → BreaksLevelRule o x rule block }
    ensures first { (same : S → S → Bool) (o : Order S E) (x : Index S E) → IsSame same → HasSoundPages o x →
        (f : Finding) → first_broken same o x ≡ Some f → IsFirst o x f }
    ensures silent { (same : S → S → Bool) (o : Order S E) (x : Index S E) → IsSame same → HasSoundPages o x →
        (first_broken same o x ≡ None) ↔ KeepsLevelRules o x }
    ensures searchable { (same : S → S → Bool) (o : Order S E) (x : Index S E) → IsSame same → HasSoundPages o x →
        KeepsLevelRules o x → IsSearchable o x }
    ensures kept { (o : Order S E) (x : Index S E) → IsTransitive o → IsSearchable o x → KeepsLevelRules o x }
    ensures none { (same : S → S → Bool) (o : Order S E) (x : Index S E) → IsSame same → IsTransitive o →
        IsSearchable o x → first_broken same o x ≡ None }
{}

/// One walk along each level, from the top down, finds the same. `same` needs no law here.
///
/// - `walk`: where each walk keeps the downlinks of the live pages that it passes, as a list for the
///   level below.
/// - `read`: where each walk reads its downlinks along the level above, and keeps which pages of the
///   levels above are dead.
pub fn walks_find_the_first<S, E>()
    ensures walk { (same : S → S → Bool) (o : Order S E) (x : Index S E) → HasSoundPages o x →
        first_broken same o x ≡ walk_finding same o x }
    ensures read { (same : S → S → Bool) (o : Order S E) (x : Index S E) → HasSoundPages o x →
        first_broken same o x ≡ read_finding same o x }
{}

/// What loops need to know of the chain of a level: its first page, and whether it is a circle (L2).
///
/// - `back`: a walk of at most n links tells whether the links come back to the page.
/// - `left`: and so does one to the left, of at most as many links as there are blocks.
/// - `chain`: what the links to the right reach from the first page is the whole chain. It ends, is no
///   longer than there are blocks, and all its pages are in use and of one level.
/// - `entries`: where L1 holds, the entry page of each level is in use and of its level, whatever else
///   is broken.
pub fn chains_are_walked<S, E>()
    ensures back { (link : ℕ → ℕ) (b n : ℕ) → b ≢ 0 → walks_to link b n (link b) ≡ comes_back link b n }
    ensures left { (o : Order S E) (x : Index S E) → HasSoundPages o x → (b : ℕ) → IsInUse x b →
        walks_to (to_left x) b x.blocks (to_left x b) ≡ comes_back (to_right x) b x.blocks }
    ensures chain { (o : Order S E) (x : Index S E) → HasSoundPages o x → (b : ℕ) → IsInUse x b →
        comes_back (to_right x) b x.blocks ≡ false →
        IsOpenChain x b (linked_from (to_right x) x.blocks (first_page x b)) }
    ensures entries { (o : Order S E) (x : Index S E) → HasSoundPages o x → x.root ≢ 0 →
        are_roots_misplaced x ≡ false → (n : ℕ) → n ≤ x.level →
        IsInUse x (entry_at x n) × ((x.page (entry_at x n)).level ≡ x.level - n) }
{}

/// What loops need to know of the downlinks to a level, taken one after the other as their pages are
/// met along the chain.
///
/// - `order`: all are met exactly where they are the linked pages in chain order (L4).
/// - `roles`: a page is linked exactly where the next downlink leads to it, if they are in order.
pub fn downlinks_are_met<S, E>()
    ensures order { (o : Order S E) (x : Index S E) → HasSoundPages o x → (b : ℕ) → IsInUse x b →
        comes_back (to_right x) b x.blocks ≡ false → (ds : List (Downlink S)) →
        (unmet (chain_of x b) ds ≡ []) ↔ (map (λ d. d.1) ds ≡ filter (lead_to ds) (chain_of x b)) }
    ensures roles { (x : Index S E) (linked : ℕ → Bool) (c : List ℕ) (ds : List (Downlink S)) (split : Bool)
        (lower : Option S) → map (λ d. d.1) ds ≡ filter linked c →
        rows x linked split lower c ≡ rows_met x c ds split lower }
{}

/// What loops need to know of the downlinks to the level below. The first two speak of a level where
/// nothing was found, n levels below the top and with number m.
///
/// - `below`: the downlinks that its walk kept are those to the level below.
/// - `read`: and so are those that are read along it, by a set of the dead pages of the levels above,
///   to which this level's are added. The set then has no page of a level further down.
/// - `begin`: the cursor that reads them begins before the first page, with no data item in hand.
/// - `turn`: where it has none in hand, it takes those of the next page. Where it has some, the
///   definition says what is left (`downlinks_left`).
/// - `done`: where there is no further page, nothing is left.
pub fn downlinks_are_read<S, E>()
    ensures below { (same : S → S → Bool) (o : Order S E) (x : Index S E) → HasSoundPages o x → x.root ≢ 0 →
        are_roots_misplaced x ≡ false → (m n : ℕ) → m + n ≡ x.level →
        level_finding same o x m (downlinks x n) ≡ None →
        (level_walk same o x (downlinks x n)).below ≡ downlinks x (suc n) }
    ensures read { (same : S → S → Bool) (o : Order S E) (x : Index S E) → HasSoundPages o x → x.root ≢ 0 →
        are_roots_misplaced x ≡ false → (m n : ℕ) → m + n ≡ x.level →
        level_finding same o x m (downlinks x n) ≡ None → (dead : ℕ → Bool) → AreAbove x m dead →
        (downlinks_read x dead (downlinks x n) ≡ downlinks x (suc n))
        × ((b : ℕ) → dead_below x dead (downlinks x n) b ≡ true → m ≤ (x.page b).level) }
    ensures begin { (x : Index S E) (dead : ℕ → Bool) (ds : List (Downlink S)) →
        downlinks_read x dead ds ≡ downlinks_left x (dead_below x dead ds) x.blocks (cursor_start x ds) }
    ensures turn { (x : Index S E) (dead : ℕ → Bool) (n : ℕ) (lower : Option S) (b : ℕ) → b ≢ 0 →
        downlinks_left x dead (suc n) (record { items = []; lower = lower; block = b })
        ≡ downlinks_left x dead n (turned_cursor x dead (record { items = []; lower = lower; block = b })) }
    ensures done { (x : Index S E) (dead : ℕ → Bool) (n : ℕ) (lower : Option S) →
        downlinks_left x dead n (record { items = []; lower = lower; block = 0 }) ≡ [] }
{}

/// What a loop over the levels needs to know, from the top level down. It keeps two sets of blocks: the
/// dead pages of the levels that it has passed, and all their pages.
///
/// - `begin`: with empty sets it stands before the top level.
/// - `found`: what is found on a level that it comes to is what is found on all levels.
/// - `next`: where nothing is found on a level above the leaves, the loop stands before the next one
///   once its sets have gained the level's pages. The cursor that begins on this level reads the
///   downlinks to that one.
/// - `last`: where nothing is found on the leaves, nothing is found on all levels, and the set has all
///   pages of their chains.
pub fn levels_are_judged<S, E>()
    ensures begin { (same : S → S → Bool) (o : Order S E) (x : Index S E) → x.root ≢ 0 →
        (dead stands : ℕ → Bool) → ((b : ℕ) → dead b ≡ false) → ((b : ℕ) → stands b ≡ false) →
        IsBefore same o x dead stands x.level 0 }
    ensures found { (same : S → S → Bool) (o : Order S E) (x : Index S E) (dead stands : ℕ → Bool) (m n : ℕ)
        (f : Finding) → IsBefore same o x dead stands m n → level_finding same o x m (downlinks x n) ≡ Some f →
        all_levels_finding same o x ≡ Some f }
    ensures next { (same : S → S → Bool) (o : Order S E) (x : Index S E) → HasSoundPages o x → x.root ≢ 0 →
        are_roots_misplaced x ≡ false → (dead stands dead_then stands_then : ℕ → Bool) (m n : ℕ) →
        IsBefore same o x dead stands (suc m) n → level_finding same o x (suc m) (downlinks x n) ≡ None →
        HavePassed x (downlinks x n) dead stands dead_then stands_then →
        IsBefore same o x dead_then stands_then m (suc n)
        × (downlinks_left x dead_then x.blocks (cursor_start x (downlinks x n)) ≡ downlinks x (suc n)) }
    ensures last { (same : S → S → Bool) (o : Order S E) (x : Index S E)
        (dead stands dead_then stands_then : ℕ → Bool) (n : ℕ) → IsBefore same o x dead stands 0 n →
        level_finding same o x 0 (downlinks x n) ≡ None →
        HavePassed x (downlinks x n) dead stands dead_then stands_then →
        (all_levels_finding same o x ≡ None) × ((b : ℕ) → stands_then b ≡ is_block_read x b) }
{}

/// What is found in an index, by its parts: the roots, the levels, and the blocks in no chain.
///
/// - `empty`: without a root only the blocks are asked, and none stands in a chain.
/// - `roots`: else L1 comes first,
/// - `levels`: then what is found on the levels,
/// - `blocks`: and then the first block that no chain has.
pub fn parts_make_the_first<S, E>()
    ensures empty { (same : S → S → Bool) (o : Order S E) (x : Index S E) → HasSoundPages o x → x.root ≡ 0 →
        (stands : ℕ → Bool) → ((b : ℕ) → stands b ≡ false) → first_broken same o x ≡ unreached_finding x stands }
    ensures roots { (same : S → S → Bool) (o : Order S E) (x : Index S E) → HasSoundPages o x → x.root ≢ 0 →
        are_roots_misplaced x ≡ true → first_broken same o x ≡ Some (L1, 0) }
    ensures levels { (same : S → S → Bool) (o : Order S E) (x : Index S E) → HasSoundPages o x → x.root ≢ 0 →
        are_roots_misplaced x ≡ false → (f : Finding) → all_levels_finding same o x ≡ Some f →
        first_broken same o x ≡ Some f }
    ensures blocks { (same : S → S → Bool) (o : Order S E) (x : Index S E) → HasSoundPages o x → x.root ≢ 0 →
        are_roots_misplaced x ≡ false → all_levels_finding same o x ≡ None → (stands : ℕ → Bool) →
        ((b : ℕ) → stands b ≡ is_block_read x b) → first_broken same o x ≡ unreached_finding x stands }
{}

/// What a loop over the blocks needs to know, which looks for the first in no chain (L9).
///
/// - `begin`: there is none before block 1.
/// - `passed`: a block that is idle or stands in a chain is passed.
/// - `found`: the first that is neither is the answer.
pub fn blocks_are_asked<S, E>()
    ensures begin { (x : Index S E) (stands : ℕ → Bool) → first_outside x stands 1 ≡ None }
    ensures passed { (x : Index S E) (stands : ℕ → Bool) (b : ℕ) → 1 ≤ b → first_outside x stands b ≡ None →
        is_outside x stands b ≡ false → first_outside x stands (b + 1) ≡ None }
    ensures found { (x : Index S E) (stands : ℕ → Bool) (b n : ℕ) → 1 ≤ b → b < n →
        first_outside x stands b ≡ None → is_outside x stands b ≡ true → first_outside x stands n ≡ Some b }
{}

/// What the laws above ask of separators holds of keys that are compared column by column, whatever
/// the total order of each column and of the TIDs. V stands for the values, T for the TIDs.
///
/// - `transitive`: their order is transitive.
/// - `same`: that two keys compare equal is a test of whether they are the same, where each order
///   finds equal only what is the same.
pub fn keys_fit<V, T>()
    ensures transitive { (cs : Columns V) (ts : T → T → Ordering) → ((i : ℕ) → IsTotalOrder (cs i)) →
        IsTotalOrder ts → IsTransitive (key_order cs ts) }
    ensures same { (cs : Columns V) (ts : T → T → Ordering) → ((i : ℕ) → IsTotalOrder (cs i)) → IsTotalOrder ts →
        ((i : ℕ) → TellsApart (cs i)) → TellsApart ts → IsSame (same_keys cs ts) }
{
    keys_have_the_laws::<V, T>();
}
