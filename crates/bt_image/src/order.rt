//! The items of a page in their order (rules B10 and B11), where they lie. A loop over a page reads
//! each item once, and carries the last key of the item before.
ghost use Rattle.std.specs.Prelude.{◌≡◌, ◌-◌, ◌≤◌, ℕ, List, None};
ghost use Rattle.key_orders.specs.declared.more.MoreSpec.{MoreSpec as More};
ghost use Rattle.page_layout.specs.Page.{count_of, page_rule_of};
ghost use Rattle.page_layout.specs.View.{page_bytes};
ghost use Rattle.key_orders.specs.Keys.{IsKeySeparator};
ghost use Rattle.key_orders.specs.Separators.{separator_of};
ghost use Rattle.bt_tuples.specs.Keys.{first_key, last_key};
ghost use Rattle.bt_image.specs.Image.{item_at, separator_in};
ghost use Rattle.bt_image.specs.Pages.{breaks_high_key, breaks_order, first_compared, is_past, least_for_high_key};
ghost use Rattle.bt_image.specs.Places.{place_of};

use crate::places::{ItemPlace, first_data, has_high_key};
use bt_meta::opaque;
use bt_tuples::ItemKeys;
use key_orders::{KeySpec, SepRef, cmp_two_seps};
use page_layout::{PageKind, PageView};

/// Whether an item breaks B10: it is a data item that is compared with the one before it, and isn't
/// above it. It is asked with the last key of the item before, if it is compared with that, and with the
/// keys of the item.
#[inline]
#[tactic(auto, unfolding(crate::specs::Pages::breaks_order))]
pub fn breaks_order(
    at: ItemPlace,
    specs: &[KeySpec],
    before: &SepRef<'_>,
    keys: &ItemKeys<'_>,
) -> bool
    requires before { IsKeySeparator specs.now (separator_of before.now) }
    requires item { IsKeySeparator specs.now (separator_of keys.now.first) }
    ensures { (more : List More) (page : List ℕ) → at ≡ place_of page at.number
        → (first_compared page ≤ at.number
        → separator_of before.now ≡ last_key (item_at specs.now more page (at.number - 1)))
        → separator_of keys.now.first ≡ first_key (item_at specs.now more page at.number)
        → result ≡ breaks_order specs.now more page at.number }
{
    at.is_compared && !cmp_two_seps(specs, before, &keys.first).is_lt()
}

// Whether the last key of a leaf is above the high key, or the last separator of an internal page
// isn't below it.
#[inline]
fn is_past(specs: &[KeySpec], leaf: bool, last: &SepRef<'_>, high: &SepRef<'_>) -> bool
    requires last { IsKeySeparator specs.now (separator_of last.now) }
    requires high { IsKeySeparator specs.now (separator_of high.now) }
    ensures { result ≡ is_past specs.now leaf (separator_of last.now) (separator_of high.now) }
{
    let order = cmp_two_seps(specs, last, high);
    if leaf { !order.is_le() } else { !order.is_lt() }
}

// How many items a page has at least where its last one is compared with the high key.
#[inline]
fn least_for_high_key(page: PageView<'_>) -> u16
    ensures { result ≡ least_for_high_key (page_bytes page.entry) }
{
    if opaque(page).is_leaf() {
        first_data(page)
    } else {
        first_data(page) + 1
    }
}

/// Whether a page breaks B11: it has a high key, and its last entry is above it, or, on an internal
/// page with two data items or more, its last separator isn't below it. It is asked with the last key
/// of its last item and with its high key; a page without one breaks nothing.
#[tactic(auto, unfolding(crate::specs::Pages::breaks_high_key))]
pub fn breaks_high_key(
    page: PageView<'_>,
    specs: &[KeySpec],
    last: &SepRef<'_>,
    high: &SepRef<'_>,
) -> bool
    requires page { page_rule_of PageKind.Tree (page_bytes page) ≡ None }
    requires last { IsKeySeparator specs.now (separator_of last.now) }
    requires high { IsKeySeparator specs.now (separator_of high.now) }
    ensures { (more : List More)
        → separator_of last.now
        ≡ last_key (item_at specs.now more (page_bytes page.entry) (count_of (page_bytes page.entry)))
        → separator_of high.now ≡ separator_in (item_at specs.now more (page_bytes page.entry) 1)
        → result ≡ breaks_high_key specs.now more (page_bytes page.entry) }
{
    has_high_key(page)
        && least_for_high_key(page) <= page.item_count()
        && is_past(specs, opaque(page).is_leaf(), last, high)
}
