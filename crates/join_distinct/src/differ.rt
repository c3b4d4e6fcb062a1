//! The keys of a leaf by all their values.
ghost use Rattle.std.specs.Prelude.{◌≡◌, ◌≤◌, ◌-◌, None, false, true};
ghost use Rattle.std.specs.Bool.{OnTrue};
ghost use Rattle.page_layout.specs.Page.{count_of, page_rule_of};
ghost use Rattle.page_layout.specs.View.{page_bytes};
ghost use Rattle.key_attrs.specs.Columns.{tree_columns};
ghost use Rattle.bt_image.specs.Image.{has_high_key, item_at, separator_in};
ghost use Rattle.bt_steps.specs.Pages.{is_live_leaf};
ghost use Rattle.join_distinct.specs.Apart.{IsApart};
ghost use Rattle.join_distinct.specs.Items.{DifferTo, HasEntry, HasOther, RisesTo, held};

use crate::rising::Rise;
use bt_image::{first_data, has_high_key};
use bt_steps::is_live_leaf;
use bt_tuples::{ItemKeys, Spot3};
use key_attrs::IndexColumns;
use key_orders::{Tid, cmp_values};
use page_layout::{PageKind, PageView};

// Whether two TIDs are there and are the same.
#[inline]
fn is_same(first: Option<Tid>, last: Option<Tid>) -> bool
    ensures { OnTrue result (first ≡ last) }
{
    match (first, last) {
        (Some(first), Some(last)) => first.block == last.block && first.item == last.item,
        _ => false,
    }
}

// Reads the key of a data item of a leaf into a place, and tells whether the item has one entry alone.
#[inline]
fn read_entry<'p>(
    page: PageView<'p>,
    i: u16,
    columns: &IndexColumns<'_>,
    keys: &mut ItemKeys<'p>,
) -> bool
    requires page { page_rule_of PageKind.Tree (page_bytes page) ≡ None }
    requires first { 1 ≤ i }
    requires last { i ≤ count_of (page_bytes page) }
    ensures { OnTrue result (HasEntry (tree_columns columns.now) (page_bytes page.entry) i keys.new) }
{
    match keys.read(page, i, columns, Spot3::LeafItem) {
        Ok(()) => is_same(keys.first.tid, keys.last),
        Err(_) => false,
    }
}

// So it is, and the entry has other values than that of the item before, which are in hand.
#[inline]
fn read_other<'p>(
    page: PageView<'p>,
    i: u16,
    columns: &IndexColumns<'_>,
    before: &ItemKeys<'p>,
    keys: &mut ItemKeys<'p>,
) -> bool
    requires page { page_rule_of PageKind.Tree (page_bytes page) ≡ None }
    requires first { 1 ≤ i }
    requires last { i ≤ count_of (page_bytes page) }
    requires before { HasEntry (tree_columns columns.now) (page_bytes page) (i - 1) before.now }
    ensures { OnTrue result (HasOther (tree_columns columns.now) (page_bytes page.entry) i before.now keys.new) }
{
    if !read_entry(page, i, columns, keys) {
        return false;
    }
    cmp_values(columns.specs, &before.first.kept, &keys.first.kept).is_ne()
}

// The key of the item that was read last, and room for that of the next: each is read into the place of the one before
// the last, so that none is copied.
#[derive(Drop)]
pub(crate) struct Pair<'p> {
    pub(crate) left: ItemKeys<'p>,
    pub(crate) right: ItemKeys<'p>,
    // Which of them was read last.
    pub(crate) is_right: bool,
}

impl<'p> Pair<'p> {
    // No item was read yet.
    fn new() -> Pair<'p>
        ensures { result.is_right ≡ false }
    {
        Pair {
            left: ItemKeys::new(),
            right: ItemKeys::new(),
            is_right: false,
        }
    }

    // Reads the next item, item i, and tells whether it has one entry, and other values than the item before.
    #[inline]
    fn read(&mut self, page: PageView<'p>, i: u16, columns: &IndexColumns<'_>) -> bool
        requires page { page_rule_of PageKind.Tree (page_bytes page) ≡ None }
        requires first { 1 ≤ i }
        requires last { i ≤ count_of (page_bytes page) }
        requires before { HasEntry (tree_columns columns.now) (page_bytes page) (i - 1) (held self.old) }
        ensures { OnTrue result (HasOther (tree_columns columns.now) (page_bytes page.entry) i (held self.old)
            (held self.new)) }
    {
        let is_other = if self.is_right {
            read_other(page, i, columns, &self.right, &mut self.left)
        } else {
            read_other(page, i, columns, &self.left, &mut self.right)
        };
        self.is_right = !self.is_right;
        is_other
    }
}

// Whether the data items of a leaf have one entry each, and no two that stand side by side have the same values.
#[inline(never)]
fn do_items_differ(page: PageView<'_>, columns: &IndexColumns<'_>) -> bool
    requires page { page_rule_of PageKind.Tree (page_bytes page) ≡ None }
    ensures { OnTrue result
        (DifferTo (tree_columns columns.now) (page_bytes page.entry) (count_of (page_bytes page.entry))) }
{
    let first = first_data(page);
    if page.item_count() < first {
        return true;
    }
    let mut pair = Pair::new();
    if !read_entry(page, first, columns, &mut pair.left) {
        return false;
    }
    for i in first..page.item_count() {
        if !pair.read(page, i + 1, columns) {
            return false;
        }
    }
    true
}

// Whether so it is, where the numbers of first values may have told it.
fn do_keys_differ(page: PageView<'_>, columns: &IndexColumns<'_>, rise: Rise) -> bool
    requires page { page_rule_of PageKind.Tree (page_bytes page) ≡ None }
    requires rise { RisesTo (tree_columns columns.now) (page_bytes page) (count_of (page_bytes page)) rise }
    ensures { OnTrue result
        (DifferTo (tree_columns columns.now) (page_bytes page.entry) (count_of (page_bytes page.entry))) }
{
    match rise {
        Rise::Begins => true,
        Rise::Rises { .. } => true,
        Rise::Untold => do_items_differ(page, columns),
    }
}

// Whether the high key of a page keeps no TID.
fn keeps_no_tid(page: PageView<'_>, columns: &IndexColumns<'_>) -> bool
    requires page { page_rule_of PageKind.Tree (page_bytes page) ≡ None }
    ensures { OnTrue result
        ((separator_in (item_at columns.now.specs.now columns.now.more.now (page_bytes page.entry) 1)).tid ≡ None) }
{
    if page.item_count() == 0 {
        return false;
    }
    let mut keys = ItemKeys::new();
    match keys.read(page, 1, columns, Spot3::HighKey) {
        Ok(()) => keys.first.tid.is_none(),
        Err(_) => false,
    }
}

// Whether the high key of a page, if it has one, keeps no TID.
fn has_no_tid_above(page: PageView<'_>, columns: &IndexColumns<'_>) -> bool
    requires page { page_rule_of PageKind.Tree (page_bytes page) ≡ None }
    ensures { OnTrue result (has_high_key (page_bytes page.entry) ≡ true
        → (separator_in (item_at columns.now.specs.now columns.now.more.now (page_bytes page.entry) 1)).tid ≡ None) }
{
    if !has_high_key(page) {
        return true;
    }
    keeps_no_tid(page, columns)
}

// Whether no two entries of a leaf that stand side by side have the same values, and its high key keeps no TID.
fn is_leaf_apart(page: PageView<'_>, columns: &IndexColumns<'_>, rise: Rise) -> bool
    requires page { page_rule_of PageKind.Tree (page_bytes page) ≡ None }
    requires rise { RisesTo (tree_columns columns.now) (page_bytes page) (count_of (page_bytes page)) rise }
    ensures { OnTrue result (IsApart (tree_columns columns.now) (page_bytes page.entry)) }
{
    if !has_no_tid_above(page, columns) {
        return false;
    }
    do_keys_differ(page, columns, rise)
}

/// Whether no two entries of a page that stand side by side have the same values, and its high key keeps no TID, if the
/// page is a leaf in use that isn't half-dead; of any other page it is true. `rise` is what the numbers of first values
/// tell of all its data items; what they don't tell is told by all values. `false` says nothing.
pub fn is_page_apart(page: &[u8; 8192], columns: &IndexColumns<'_>, rise: Rise) -> bool
    requires rise { is_live_leaf page.now ≡ true → page_rule_of PageKind.Tree page.now ≡ None
        → RisesTo (tree_columns columns.now) page.now (count_of page.now) rise }
    ensures { OnTrue result (is_live_leaf page.now ≡ true → IsApart (tree_columns columns.now) page.now) }
{
    let page = PageView::new(page);
    if !is_live_leaf(page) {
        return true;
    }
    if page.page_rule(PageKind::Tree).is_some() {
        return false;
    }
    is_leaf_apart(page, columns, rise)
}
