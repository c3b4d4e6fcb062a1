//! Looks for an entry on a leaf.
ghost use Rattle.std.specs.Prelude.{◌≡◌, ◌≤◌, ◌↔◌, ℕ, None, Some, IfSome, slice_get};
ghost use Rattle.std.specs.Prelude.{Contains, true, false};
ghost use Rattle.std.specs.declared.cmp.Ordering.TheVariants.{Equal};
ghost use Rattle.page_layout.specs.Page.{count_of, page_rule_of};
ghost use Rattle.page_layout.specs.View.{page_bytes};
ghost use Rattle.laws_search.specs.Keys.{Entry as Given};
ghost use Rattle.key_orders.specs.declared.columns.Value.{Value};
ghost use Rattle.key_orders.specs.declared.Tid.{Tid as At};
ghost use Rattle.key_orders.specs.Keys.{IsKey, tid_order};
ghost use Rattle.key_attrs.specs.Columns.{tree_columns};
ghost use Rattle.bt_meta.specs.Flags.{is_half_dead, is_leaf};
ghost use Rattle.bt_meta.specs.Pages.{opaque_of};
ghost use Rattle.bt_tuples.specs.Rules.{are_not_rising};
ghost use Rattle.bt_image.specs.Image.{first_data, page_keys};
ghost use Rattle.bt_steps.specs.Entries.{IsRead, keys_at};
ghost use Rattle.bt_steps.specs.Pages.{IsReadable, is_live_leaf};
ghost use Rattle.bt_steps.specs.Sought.{HasSought, IsSought};

use crate::inner::last_passed;
use crate::way::{Sought, UpTo};
use bt_image::first_data;
use bt_meta::{is_idle, opaque};
use bt_tuples::{ItemKeys, Spot3, TidList, TreeItem, tree_item};
use key_attrs::IndexColumns;
use key_orders::{Tid, cmp_values, key_orders_are_total};
use page_layout::{PageKind, PageView};
use std::cmp::Ordering;

/// A place on a leaf: an item, counted from 1, and a TID of the item, counted from 0.
#[derive(Clone, Copy, Debug, PartialEq, Eq)]
pub struct Place {
    pub item: u16,
    pub nth: u16,
}

// How two TIDs stand: by block, then by item.
#[inline]
fn cmp_tids(a: Tid, b: Tid) -> Ordering
    ensures order { result ≡ tid_order a b }
    ensures same { (result ≡ Equal) ↔ (a ≡ b) }
{
    key_orders_are_total();
    a.block.cmp(&b.block).then(a.item.cmp(&b.item))
}

// Looks by halves for a TID in a list.
fn nth_of(tids: &TidList<'_>, tid: Tid) -> Option<u16>
    ensures some { IfSome result (λ k. slice_get tids.now k ≡ Some tid) }
    ensures none { result ≡ None → are_not_rising None tids.now ≡ false
        → (k : ℕ) → slice_get tids.now k ≡ Some tid → ⊥ }
{
    let mut low = 0;
    let mut high = tids.len();
    while low < high {
        let middle = low + (high - low) / 2;
        match cmp_tids(tids.get(middle), tid) {
            Ordering::Less => low = middle + 1,
            Ordering::Equal => return Some(middle),
            Ordering::Greater => high = middle,
        }
    }
    None
}

/// Where an entry stands among those of item `i` of a leaf, a data item, counted from 0, if it is there and
/// isn't killed.
pub fn find_in_item(
    page: PageView<'_>,
    i: u16,
    columns: &IndexColumns<'_>,
    sought: Sought<'_>,
) -> Option<u16>
    requires page { page_rule_of PageKind.Tree (page_bytes page) ≡ None }
    requires first { 1 ≤ i }
    requires from { first_data (page_bytes page) ≤ i }
    requires last { i ≤ count_of (page_bytes page) }
    requires key { IsKey columns.now.specs.now sought.key.now }
    ensures some { IfSome result (λ nth.
        HasSought (tree_columns columns.now) (page_bytes page.entry) sought.entry.key.now sought.entry.tid i nth) }
    ensures none { result ≡ None → (k : ℕ) (e : Given Value At)
        → slice_get (keys_at (tree_columns columns.now) (page_bytes page.entry) i) k ≡ Some e
        → IsSought sought.entry.key.now sought.entry.tid e → IsRead (tree_columns columns.now) (page_bytes page.entry) i
        → e.killed ≡ true }
{
    match tree_item(page, i, columns, Spot3::LeafItem) {
        Ok(
            TreeItem::Plain {
                key,
                tid,
                killed,
                ..
            },
        ) => {
            if killed
                || cmp_tids(tid, sought.tid).is_ne()
                || cmp_values(columns.specs, &key, sought.key).is_ne()
            {
                return None;
            }
            Some(0)
        }
        Ok(TreeItem::Posting { key, tids, killed }) => {
            if killed || cmp_values(columns.specs, &key, sought.key).is_ne() {
                return None;
            }
            nth_of(&tids, sought.tid)
        }
        Ok(TreeItem::Pivot { .. }) => None,
        Err(_) => None,
    }
}

/// Whether a page is a leaf in use that isn't half-dead. The entries of an index are those of such pages.
pub fn is_live_leaf(page: PageView<'_>) -> bool
    ensures { result ≡ is_live_leaf (page_bytes page.entry) }
{
    let special = opaque(page);
    special.is_leaf() && !is_idle(page) && !special.is_half_dead()
}

/// Where an entry stands on a leaf, if it is there and isn't killed. Its item is found by halves.
pub fn find_on(page: PageView<'_>, columns: &IndexColumns<'_>, sought: Sought<'_>) -> Option<Place>
    requires page { page_rule_of PageKind.Tree (page_bytes page) ≡ None }
    requires key { IsKey columns.now.specs.now sought.key.now }
    ensures some { IfSome result (λ at.
        HasSought (tree_columns columns.now) (page_bytes page.entry)
        sought.entry.key.now sought.entry.tid at.item at.nth) }
    ensures none { result ≡ None → IsReadable (tree_columns columns.now) (page_bytes page.entry)
        → is_leaf (opaque_of (page_bytes page.entry)) ≡ true
        → is_half_dead (opaque_of (page_bytes page.entry)) ≡ false
        → (e : Given Value At)
        → Contains (page_keys columns.now.specs.now columns.now.more.now (page_bytes page.entry)) e
        → IsSought sought.entry.key.now sought.entry.tid e → e.killed ≡ true }
{
    if page.item_count() < first_data(page) {
        return None;
    }
    let item = last_passed(page, columns, &UpTo { sought }, &mut ItemKeys::new());
    let nth = find_in_item(page, item, columns, sought)?;
    Some(Place { item, nth })
}
