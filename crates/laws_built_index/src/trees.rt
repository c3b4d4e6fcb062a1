//! What the bytes of a tree of items mean to a search.
ghost use Rattle.std.specs.Prelude.{◌≡◌, ℕ, List, if◌then◌else◌, []};
ghost use Rattle.key_orders.specs.declared.columns.KeySpec.{KeySpec as Spec};
ghost use Rattle.key_orders.specs.declared.more.MoreSpec.{MoreSpec as More};
ghost use Rattle.laws_search.specs.Search.{entries_of};
ghost use Rattle.bt_image.specs.Image.{index_entries, index_image, leaf_entries_with_more, page_image};
ghost use Rattle.laws_building.specs.Built.{IsLaidAs};
ghost use Rattle.laws_building.specs.Cuts.{joined};
ghost use Rattle.laws_building.specs.Seen.{index_seen, page_seen};
ghost use Rattle.laws_built_index.specs.Files.{AreBlocksOf};
ghost use Rattle.laws_built_index.specs.Trees.{IsPageFit, IsTreeFit, ItemPage, ItemTree, keys_of, page_bytes};

use crate::items::{laid_items_mean, laid_separators_mean};

/// The bytes of a tree of items are that tree, seen by the keys of its entries; and their entries are
/// those of its leaves, with their included values.
///
/// - `page`, `page_entries`: a page of it.
/// - `image`: the whole of it, whoever holds its blocks. With `laws_building` it then has what a search needs, breaks
///   no rule on levels and has the entries that were given.
/// - `entries`: the entries by block number.
pub fn built_bytes_mean()
    ensures page { (specs : List Spec) (more : List More) (p : ItemPage) → IsPageFit specs more p
        → page_image specs more (page_bytes specs more p) ≡ page_seen keys_of p }
    ensures page_entries { (specs : List Spec) (more : List More) (p : ItemPage) → IsPageFit specs more p
        → leaf_entries_with_more specs more (page_bytes specs more p) ≡ (if p.leaf then joined p.entries else []) }
    ensures image { (specs : List Spec) (more : List More) (x : ItemTree) (blocks : ℕ) (block : ℕ → List ℕ)
        → IsTreeFit specs more x → AreBlocksOf specs more x blocks block
        → IsLaidAs (index_image specs more blocks block) (index_seen keys_of x) }
    ensures entries { (specs : List Spec) (more : List More) (x : ItemTree) (blocks : ℕ) (block : ℕ → List ℕ)
        → IsTreeFit specs more x → AreBlocksOf specs more x blocks block
        → index_entries specs more blocks block ≡ entries_of (index_seen joined x) }
{
    laid_items_mean();
    laid_separators_mean();
}
