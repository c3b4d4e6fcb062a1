//! The high key of a page and the key of its last item, which B11 compares.
ghost use Rattle.std.specs.Prelude.{◌≡◌, ◌≤◌, true, false, None};
ghost use Rattle.page_layout.specs.Page.{count_of, page_rule_of};
ghost use Rattle.page_layout.specs.View.{page_bytes};
ghost use Rattle.key_orders.specs.Separators.{separator_of};
ghost use Rattle.bt_meta.specs.Flags.{is_half_dead};
ghost use Rattle.bt_meta.specs.Pages.{opaque_of};
ghost use Rattle.bt_tuples.specs.Shown.{item_shown};
ghost use Rattle.bt_image.specs.Image.{separator_in};
ghost use Rattle.bt_image.specs.Pages.{breaks_high_key};
ghost use Rattle.bt_pages.specs.Passes.{IsCarried};
ghost use Rattle.bt_pages.specs.Questions.{are_plain, is_without_fault};

use bt_image::{breaks_high_key, has_high_key, spot_of};
use bt_tuples::{ItemKeys, TreeItem, tree_item};
use key_attrs::IndexColumns;
use key_orders::SepRef;
use page_layout::{PageKind, PageView};

// What an item keeps as a separator; one that is none keeps nothing.
pub fn separator_in<'p>(item: TreeItem<'p>) -> SepRef<'p>
    ensures { separator_of result ≡ separator_in (item_shown item.entry) }
{
    match item {
        TreeItem::Pivot { sep, .. } => sep,
        TreeItem::Plain { .. } | TreeItem::Posting { .. } => SepRef::new(),
    }
}

// Whether the last key of a page is past its high key, if it has one (B11).
pub fn is_past_high_key(page: PageView<'_>, columns: &IndexColumns<'_>, last: &SepRef<'_>) -> bool
    requires page { page_rule_of PageKind.Tree (page_bytes page) ≡ None }
    requires some { 1 ≤ count_of (page_bytes page) }
    requires live { is_half_dead (opaque_of (page_bytes page)) ≡ false }
    requires plain { is_without_fault columns.now.specs.now columns.now.more.now (page_bytes page) 1 ≡ true }
    requires last { IsCarried columns.now.specs.now columns.now.more.now (page_bytes page)
        (count_of (page_bytes page)) last.now }
    ensures { result ≡ breaks_high_key columns.now.specs.now columns.now.more.now (page_bytes page.entry) }
{
    if !has_high_key(page) {
        return false;
    }
    match tree_item(page, 1, columns, spot_of(page, 1)) {
        Err(_) => false,
        Ok(item) => breaks_high_key(page, columns.specs, last, &separator_in(item)),
    }
}

// The key of the last entry of item i; before the first item none is kept.
pub fn last_key_at<'p>(page: PageView<'p>, i: u16, columns: &IndexColumns<'_>) -> SepRef<'p>
    requires page { page_rule_of PageKind.Tree (page_bytes page) ≡ None }
    requires last { i ≤ count_of (page_bytes page) }
    requires live { is_half_dead (opaque_of (page_bytes page)) ≡ false }
    requires plain { are_plain columns.now.specs.now columns.now.more.now (page_bytes page) (count_of (page_bytes page))
        ≡ true }
    ensures { IsCarried columns.now.specs.now columns.now.more.now (page_bytes page.entry) i result }
{
    let mut keys = ItemKeys::new();
    if i == 0 {
        return keys.first;
    }
    match keys.read(page, i, columns, spot_of(page, i)) {
        Err(_) => keys.first,
        Ok(()) => {
            keys.keep_last();
            keys.first
        }
    }
}
