//! What a page of a tree that was laid means to a search.
ghost use Rattle.std.specs.Prelude.{◌≡◌, List, if◌then◌else◌, []};
ghost use Rattle.key_orders.specs.declared.columns.KeySpec.{KeySpec as Spec};
ghost use Rattle.key_orders.specs.declared.more.MoreSpec.{MoreSpec as More};
ghost use Rattle.bt_image.specs.Image.{leaf_entries_with_more, page_image};
ghost use Rattle.laws_built_index.specs.Pages.{IsLaidWell, LaidPage, laid_bytes, laid_entries, laid_image};

/// A page that is laid well means what its items mean, one by one.
///
/// - `image`: to a search.
/// - `entries`: and by its entries with their included values.
pub fn laid_pages_mean()
    ensures image { (specs : List Spec) (more : List More) (p : LaidPage) → IsLaidWell p
        → page_image specs more (laid_bytes p) ≡ laid_image specs more p }
    ensures entries { (specs : List Spec) (more : List More) (p : LaidPage) → IsLaidWell p
        → leaf_entries_with_more specs more (laid_bytes p) ≡ (if p.leaf then laid_entries specs more p else []) }
{}
