//! The file of an index with given entries.
ghost use Rattle.std.specs.Prelude.{◌≡◌, ◌≤◌, ◌<◌, ℕ, List, length, true};
ghost use Rattle.std.specs.List.{All};
ghost use Rattle.key_orders.specs.declared.columns.KeySpec.{KeySpec as Spec};
ghost use Rattle.key_orders.specs.declared.more.MoreSpec.{MoreSpec as More};
ghost use Rattle.key_orders.specs.Scans.{order_of};
ghost use Rattle.bt_image.specs.Image.{LeafEntry};
ghost use Rattle.bt_image.specs.Pages.{KeepsTreeRules};
ghost use Rattle.laws_building.specs.Cuts.{IsCut};
ghost use Rattle.laws_built_index.specs.Files.{AreBlocksOf, IsFileOf};
ghost use Rattle.laws_built_index.specs.Items.{MayBeItem, MayBeLaid, MaySplit, leaf_item, pivot_item, plain_item};
ghost use Rattle.laws_built_index.specs.Sizes.{AreIndexable, index_tree, items_for, splitter_of};
ghost use Rattle.laws_built_index.specs.Trees.{IsTreeFit};

use crate::items::{laid_items_mean, laid_separators_mean};
use crate::trees::built_bytes_mean;
use bt_tuples::item_rules_are_exact;
use key_orders::{key_orders_are_total, keys_are_searchable};

/// The separator of two entries may be laid, in a key of one column or more, and is little longer than the right
/// entry as an item of its own, whatever that includes.
///
/// - `splits`: where the entries may be laid, the left one is before the right one, and no key is too large.
/// - `short`: it has at most 2712 bytes then, 8 more than the largest item of a leaf.
pub fn separators_may_be_laid()
    ensures splits { (specs : List Spec) (more : List More) (d e : LeafEntry) → 0 < length specs
        → MayBeLaid specs more d → MayBeLaid specs more e → length (plain_item specs more e.entry e.more) ≤ 2704
        → (order_of specs).precedes d.entry e.entry ≡ true
        → MaySplit specs ((splitter_of specs).split_key d.entry e.entry) }
    ensures short { (specs : List Spec) (more : List More) (d e : LeafEntry) → 0 < length specs
        → MayBeLaid specs more d → MayBeLaid specs more e → length (plain_item specs more e.entry e.more) ≤ 2704
        → (order_of specs).precedes d.entry e.entry ≡ true
        → length (pivot_item specs 0 ((splitter_of specs).split_key d.entry e.entry)) ≤ 2712 }
{
    key_orders_are_total();
    keys_are_searchable();
}

/// The items of entries that may be indexed.
///
/// - `cut`: they are the entries, in order.
/// - `may`: each may be laid.
/// - `small`: none has more than 2704 bytes.
pub fn items_may_be_laid()
    ensures cut { (specs : List Spec) (more : List More) (es : List LeafEntry) → IsCut es (items_for specs more es) }
    ensures may { (specs : List Spec) (more : List More) (es : List LeafEntry) → AreIndexable specs more es
        → All (MayBeItem specs more) (items_for specs more es) }
    ensures small { (specs : List Spec) (more : List More) (es : List LeafEntry) → AreIndexable specs more es
        → All (λ item. length (leaf_item specs more item) ≤ 2704) (items_for specs more es) }
{
    key_orders_are_total();
    keys_are_searchable();
}

/// The tree of entries that may be indexed may be laid page by page, where the numbers of its blocks fit 32 bits.
pub fn index_trees_may_be_laid()
    ensures { (specs : List Spec) (more : List More) (es : List LeafEntry) → AreIndexable specs more es
        → (index_tree specs more es).blocks < 4294967296 → IsTreeFit specs more (index_tree specs more es) }
{
    key_orders_are_total();
    keys_are_searchable();
}

/// The blocks of the tree of entries that may be indexed are a sound index of exactly these entries (`IsFileOf`),
/// where their numbers fit 32 bits, whoever holds them.
pub fn built_files_are_sound()
    ensures { (specs : List Spec) (more : List More) (es : List LeafEntry) (blocks : ℕ) (block : ℕ → List ℕ)
        → AreIndexable specs more es
        → (index_tree specs more es).blocks < 4294967296
        → AreBlocksOf specs more (index_tree specs more es) blocks block → IsFileOf specs more blocks block es }
{
    built_bytes_mean();
    index_trees_may_be_laid();
    key_orders_are_total();
    keys_are_searchable();
}

/// The blocks of the tree of entries that may be indexed break none of the rules on the metapage (M1, M2), on single
/// pages (P1 to P4, B1 to B4, B10 to B13) and on their items (B5 to B9), and no value in them is compressed, where
/// their numbers fit 32 bits, whoever holds them.
pub fn built_files_keep_the_rules()
    ensures { (specs : List Spec) (more : List More) (es : List LeafEntry) (blocks : ℕ) (block : ℕ → List ℕ)
        → AreIndexable specs more es
        → (index_tree specs more es).blocks < 4294967296
        → AreBlocksOf specs more (index_tree specs more es) blocks block
        → KeepsTreeRules specs more blocks block }
{
    laid_items_mean();
    laid_separators_mean();
    built_bytes_mean();
    index_trees_may_be_laid();
    built_files_are_sound();
    item_rules_are_exact();
    key_orders_are_total();
    keys_are_searchable();
}
