//! The included values of the entry at a spot.
ghost use Rattle.std.specs.Prelude.{◌≡◌, List, map, slice_get};
ghost use Rattle.outside.specs.Outside.{AskedAtMost, IfTold, Tells};
ghost use Rattle.page_layout.specs.View.{page_bytes};
ghost use Rattle.rel_files.specs.Faults.{read_fault};
ghost use Rattle.key_orders.specs.declared.columns.Value.{Value as Shown};
ghost use Rattle.key_orders.specs.declared.Tid.{Tid as At};
ghost use Rattle.key_orders.specs.Values.{value_shown};
ghost use Rattle.key_storage.specs.Same.{same_key};
ghost use Rattle.key_attrs.specs.Columns.{tree_columns};
ghost use Rattle.bt_tuples.specs.Shown.{item_shown};
ghost use Rattle.bt_image.specs.Image.{entries_in};
ghost use Rattle.bt_levels.specs.Sound.{HoldsTree, held_block, index_columns};
ghost use Rattle.bt_search.specs.Cached.{IsCacheOf};
ghost use Rattle.bt_search.specs.Entries.{IsEntryAt, included_in, included_on};
ghost use Rattle.bt_search.specs.Lookups.{IsAtSpot};

use crate::cache::PageCache;
use crate::spot::Spot;
use bt_levels::SoundTree;
use bt_tuples::{Spot3, TreeItem, tree_item};
use key_attrs::IndexColumns;
use key_orders::ValueRef;
use key_storage::same_values;
use outside::Files;
use page_layout::{PageKind, PageView};
use rel_files::ReadFault;

// Whether these are the included values of an item's entry at a number. Only a plain item has some.
fn item_includes(item: TreeItem<'_>, nth: u16, more: &[ValueRef<'_>]) -> bool
    ensures { result ≡ same_key (map value_shown more.now)
        (included_in (slice_get (entries_in (item_shown item.entry)) nth)) }
{
    match item {
        TreeItem::Plain { more: held, .. } => {
            if nth == 0 {
                same_values(more, held.as_slice())
            } else {
                same_values(more, &[])
            }
        }
        TreeItem::Posting { .. } => same_values(more, &[]),
        TreeItem::Pivot { .. } => same_values(more, &[]),
    }
}

// Whether these are the included values of the entry at a place of a page.
fn page_includes(
    columns: &IndexColumns<'_>,
    page: PageView<'_>,
    at: Spot,
    more: &[ValueRef<'_>],
) -> bool
    ensures { IsEntryAt (tree_columns columns.now) (page_bytes page.entry) at
        → result ≡ same_key (map value_shown more.now)
        (included_on (tree_columns columns.now) (page_bytes page.entry) at) }
{
    if page.page_rule(PageKind::Tree).is_some() || at.item == 0 || at.item > page.item_count() {
        return false;
    }
    match tree_item(page, at.item, columns, Spot3::LeafItem) {
        Err(_) => false,
        Ok(item) => item_includes(item, at.nth, more),
    }
}

/// Whether the entry at a spot that [`find`](crate::find) gave has these included values: numbers that are equal, and
/// bytes of the same length and content, in whatever form they are stored. Its page is looked at through the cache,
/// where it was put last. `ReadFault` comes only where the files couldn't be read.
pub fn has_included<F: Files>(
    tree: &SoundTree,
    files: &mut F,
    at: Spot,
    more: &[ValueRef<'_>],
    cache: &mut PageCache,
) -> Result<bool, ReadFault>
    requires holds { IfTold F.seen files.old (λ names. HoldsTree names tree.now) }
    requires of { IfTold F.seen files.old (λ names. IsCacheOf names tree.now cache.old) }
    ensures found { Tells F.seen files.old result (λ found names. (key : List Shown) (tid : At)
        → IsAtSpot names tree.now key tid at → found ≡ same_key (map value_shown more.now)
        (included_on (index_columns tree.now) (held_block names tree.now at.block) at)) }
    ensures of { IfTold F.seen files.old (λ names. IsCacheOf names tree.now cache.new) }
    ensures asked { AskedAtMost 1 F.seen files.old files.new result read_fault }
{
    if tree.blocks() <= at.block {
        return Ok(false);
    }
    let columns = tree.columns();
    let page = PageView::new(cache.page(tree, files, at.block)?);
    Ok(page_includes(&columns, page, at, more))
}
