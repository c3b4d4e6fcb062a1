//! Reads the entry at a place of a leaf.
ghost use Rattle.std.specs.Prelude.{◌<◌, ◌↔◌, IfSome, IsSome, IsSomeAnd, length, slice_get};
ghost use Rattle.bt_tuples.specs.Shown.{item_shown};
ghost use Rattle.bt_image.specs.Image.{keys_in};
ghost use Rattle.bt_search.specs.Entries.{IsEntryAt, Shows, entry_on};
ghost use Rattle.bt_levels.specs.Sound.{index_columns};

use crate::spot::{EntryRef, Spot};
use bt_levels::SoundTree;
use bt_tuples::{Spot3, TreeItem, tree_item};
use page_layout::{PageKind, PageView};

// The entry of an item with one TID, or with several, at a number of them.
fn entry_in<'p>(item: TreeItem<'p>, nth: u16) -> Option<EntryRef<'p>>
    ensures some { IsSome result ↔ (nth < length (keys_in (item_shown item.entry))) }
    ensures entry { IfSome result (λ e. IsSomeAnd (slice_get (keys_in (item_shown item.entry)) nth) (Shows e)) }
{
    match item {
        TreeItem::Pivot { .. } => None,
        TreeItem::Plain { key, tid, .. } => {
            if nth == 0 {
                Some(EntryRef { key, tid })
            } else {
                None
            }
        }
        TreeItem::Posting { key, tids, .. } => {
            if nth < tids.len() {
                let tid = tids.get(nth);
                Some(EntryRef { key, tid })
            } else {
                None
            }
        }
    }
}

/// Reads the entry at a place of a page. `None` comes exactly where the page breaks a page rule (P1 to P4),
/// or `at.item` isn't an item of it, or that item, as one of a leaf of the tree, breaks one of B5 to B9 or
/// has a compressed value, or it has no more than `at.nth` TIDs, of which a plain item has one.
pub fn entry_at<'p>(tree: &SoundTree, page: &'p [u8; 8192], at: Spot) -> Option<EntryRef<'p>>
    ensures some { IsSome result ↔ IsEntryAt (index_columns tree.now) page.now at }
    ensures entry { IfSome result (λ e. IsSomeAnd (entry_on (index_columns tree.now) page.now at) (Shows e)) }
{
    let columns = tree.columns();
    let page = PageView::new(page);
    if page.page_rule(PageKind::Tree).is_some() || at.item == 0 || at.item > page.item_count() {
        return None;
    }
    match tree_item(page, at.item, &columns, Spot3::LeafItem) {
        Err(_) => None,
        Ok(item) => entry_in(item, at.nth),
    }
}
