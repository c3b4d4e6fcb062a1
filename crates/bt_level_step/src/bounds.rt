//! Lower bounds of pages, and how the keys of a page stand to them.
ghost use Rattle.std.specs.Prelude.{◌≡◌, ◌≤◌, ◌&&◌, ◌||◌, false, true, not, slice_get};
ghost use Rattle.std.specs.Prelude.{IfOk, IfSome, IsSome, None, Some};
ghost use Rattle.std.specs.Ordering.{is_eq, is_le, is_lt};
ghost use Rattle.page_layout.specs.Page.{count_of, page_rule_of};
ghost use Rattle.page_layout.specs.View.{page_bytes};
ghost use Rattle.laws_search.specs.Keys.{compare_keys};
ghost use Rattle.laws_levels.specs.Rules.{second_separator};
ghost use Rattle.laws_levels.specs.Tests.{is_low_entry, is_low_separator, same_bound};
ghost use Rattle.laws_levels.specs.Same.{same_keys};
ghost use Rattle.key_orders.specs.Keys.{IsKeySeparator, columns_of, tid_order};
ghost use Rattle.key_orders.specs.Scans.{order_of};
ghost use Rattle.key_orders.specs.Separators.{separator_of};
ghost use Rattle.bt_meta.specs.Flags.{is_half_dead, is_leaf};
ghost use Rattle.bt_meta.specs.Pages.{opaque_of};
ghost use Rattle.bt_tuples.specs.Keys.{first_key};
ghost use Rattle.bt_image.specs.Image.{item_at, page_image, spot_of};
ghost use Rattle.bt_image.specs.Pages.{IsPlainItem};
ghost use Rattle.bt_level_step.specs.Bounds.{IsBound};
ghost use Rattle.bt_level_step.specs.Pages.{HasPlainItems, is_low_page};

use bt_image::{first_data, has_high_key, spot_of};
use bt_meta::opaque;
use bt_pages::TreeRules;
use bt_tuples::{ItemKeys, Spot3};
use key_orders::{SepRef, Separator, cmp_two_seps, key_orders_are_total};
use outside::NoMemory;
use page_layout::{PageKind, PageView};
use std::alloc::Global;
use std::cmp::Ordering;

// How a separator stands to the first key of item i, or None where that can't be read.
fn compare_with_item(
    tree: &TreeRules<'_>,
    page: PageView<'_>,
    i: u16,
    separator: &SepRef<'_>,
) -> Option<Ordering>
    requires page { page_rule_of PageKind.Tree (page_bytes page) ≡ None }
    requires first { 1 ≤ i }
    requires last { i ≤ count_of (page_bytes page) }
    requires separator { IsKeySeparator tree.now.columns.specs.now (separator_of separator.now) }
    ensures order { IfSome result (λ order. order ≡ compare_keys (columns_of tree.now.columns.specs.now) tid_order
        (separator_of separator.now)
        (first_key (item_at tree.now.columns.specs.now tree.now.columns.more.now (page_bytes page.entry) i))) }
    ensures turned { IfSome result (λ order. not (is_lt order)
        ≡ is_le (compare_keys (columns_of tree.now.columns.specs.now)
        tid_order (first_key (item_at tree.now.columns.specs.now tree.now.columns.more.now (page_bytes page.entry) i))
        (separator_of separator.now))) }
    ensures same { IfSome result (λ order. is_eq order ≡ same_keys (columns_of tree.now.columns.specs.now) tid_order
        (first_key (item_at tree.now.columns.specs.now tree.now.columns.more.now (page_bytes page.entry) i))
        (separator_of separator.now)) }
    ensures read { IsPlainItem tree.now.columns.specs.now tree.now.columns.more.now (page_bytes page.entry) i
        → IsSome result }
{
    key_orders_are_total();
    let mut keys = ItemKeys::new();
    match keys.read(page, i, &tree.columns, spot_of(page, i)) {
        Ok(()) => Some(cmp_two_seps(tree.columns.specs, separator, &keys.first)),
        Err(_) => None,
    }
}

// Whether the high key isn't above this lower bound.
fn has_low_high_key(tree: &TreeRules<'_>, page: PageView<'_>, lower: &SepRef<'_>) -> bool
    requires page { page_rule_of PageKind.Tree (page_bytes page) ≡ None }
    requires lower { IsKeySeparator tree.now.columns.specs.now (separator_of lower.now) }
    ensures { HasPlainItems tree.now.columns.specs.now tree.now.columns.more.now (page_bytes page.entry)
        → is_half_dead (opaque_of (page_bytes page.entry)) ≡ false
        → result ≡ is_low_separator (order_of tree.now.columns.specs.now) (Some (separator_of lower.now))
        (page_image tree.now.columns.specs.now tree.now.columns.more.now (page_bytes page.entry)).high_key }
{
    if !has_high_key(page) || page.item_count() == 0 {
        return false;
    }
    match compare_with_item(tree, page, 1, lower) {
        Some(order) => !order.is_lt(),
        None => false,
    }
}

// Whether the first entry of a leaf isn't above this lower bound.
fn has_low_entry(tree: &TreeRules<'_>, page: PageView<'_>, lower: &SepRef<'_>) -> bool
    requires page { page_rule_of PageKind.Tree (page_bytes page) ≡ None }
    requires lower { IsKeySeparator tree.now.columns.specs.now (separator_of lower.now) }
    ensures { HasPlainItems tree.now.columns.specs.now tree.now.columns.more.now (page_bytes page.entry)
        → is_half_dead (opaque_of (page_bytes page.entry)) ≡ false
        → is_leaf (opaque_of (page_bytes page.entry)) ≡ true
        → result ≡ is_low_entry (order_of tree.now.columns.specs.now) (Some (separator_of lower.now))
        (slice_get (page_image tree.now.columns.specs.now tree.now.columns.more.now
        (page_bytes page.entry)).entries 0) }
{
    let first = first_data(page);
    if page.item_count() < first {
        return false;
    }
    match compare_with_item(tree, page, first, lower) {
        Some(order) => !order.is_lt(),
        None => false,
    }
}

// Whether the separator of an internal page's second data item isn't above this lower bound.
fn has_low_item(tree: &TreeRules<'_>, page: PageView<'_>, lower: &SepRef<'_>) -> bool
    requires page { page_rule_of PageKind.Tree (page_bytes page) ≡ None }
    requires lower { IsKeySeparator tree.now.columns.specs.now (separator_of lower.now) }
    ensures { HasPlainItems tree.now.columns.specs.now tree.now.columns.more.now (page_bytes page.entry)
        → is_half_dead (opaque_of (page_bytes page.entry)) ≡ false
        → is_leaf (opaque_of (page_bytes page.entry)) ≡ false
        → result ≡ is_low_separator (order_of tree.now.columns.specs.now) (Some (separator_of lower.now))
        (second_separator (page_image tree.now.columns.specs.now tree.now.columns.more.now
        (page_bytes page.entry)).children) }
{
    let second = first_data(page) + 1;
    if page.item_count() < second {
        return false;
    }
    match compare_with_item(tree, page, second, lower) {
        Some(order) => !order.is_lt(),
        None => false,
    }
}

// Whether a key of a live page isn't above this lower bound.
fn is_low_above(tree: &TreeRules<'_>, page: PageView<'_>, lower: &SepRef<'_>) -> bool
    requires page { page_rule_of PageKind.Tree (page_bytes page) ≡ None }
    requires lower { IsKeySeparator tree.now.columns.specs.now (separator_of lower.now) }
    ensures { HasPlainItems tree.now.columns.specs.now tree.now.columns.more.now (page_bytes page.entry)
        → is_half_dead (opaque_of (page_bytes page.entry)) ≡ false
        → result ≡ is_low_page (order_of tree.now.columns.specs.now) (Some (separator_of lower.now))
        (page_image tree.now.columns.specs.now tree.now.columns.more.now (page_bytes page.entry)) }
{
    has_low_high_key(tree, page, lower)
        || if opaque(page).is_leaf() {
            has_low_entry(tree, page, lower)
        } else {
            has_low_item(tree, page, lower)
        }
}

/// Whether a key of a live page isn't above its lower bound: the high key, the first entry of a leaf, or
/// the separator of an internal page's second data item (L6). Of a page with items that can't be read, or a half-dead
/// one, the answer means nothing.
pub fn is_low_page(tree: &TreeRules<'_>, page: PageView<'_>, lower: &Option<Separator>) -> bool
    requires page { page_rule_of PageKind.Tree (page_bytes page) ≡ None }
    requires lower { IsBound tree.now.columns.specs.now lower.now }
    ensures { HasPlainItems tree.now.columns.specs.now tree.now.columns.more.now (page_bytes page.entry)
        → is_half_dead (opaque_of (page_bytes page.entry)) ≡ false
        → result ≡ is_low_page (order_of tree.now.columns.specs.now) lower.now
        (page_image tree.now.columns.specs.now tree.now.columns.more.now (page_bytes page.entry)) }
{
    match lower {
        None => false,
        Some(lower) => is_low_above(tree, page, &lower.view()),
    }
}

/// The high key of a page that isn't half-dead, in memory of its own: the lower bound of the live page
/// after it. None where it has none, or none that can be read. `NoMemory` comes only where the key finds no room.
pub fn high_key_of(
    alloc: Global,
    tree: &TreeRules<'_>,
    page: PageView<'_>,
) -> Result<Option<Separator>, NoMemory>
    requires page { page_rule_of PageKind.Tree (page_bytes page) ≡ None }
    ensures bound { IfOk result (IsBound tree.now.columns.specs.now) }
    ensures key { IfOk result (λ key. HasPlainItems tree.now.columns.specs.now tree.now.columns.more.now
        (page_bytes page.entry)
        → is_half_dead (opaque_of (page_bytes page.entry)) ≡ false
        → key ≡ (page_image tree.now.columns.specs.now tree.now.columns.more.now (page_bytes page.entry)).high_key) }
{
    if !has_high_key(page) || page.item_count() == 0 {
        return Ok(None);
    }
    let mut keys = ItemKeys::new();
    match keys.read(page, 1, &tree.columns, Spot3::HighKey) {
        Ok(()) => Ok(Some(Separator::from_ref(alloc, &keys.first)?)),
        Err(_) => Ok(None),
    }
}

/// Whether the separator of item i of an internal page is this lower bound. It may be read only where the
/// item isn't the page's first, whose separator is the page's own lower bound. Of an item that can't be read the answer
/// means nothing.
pub fn is_bound_of_item(
    tree: &TreeRules<'_>,
    page: PageView<'_>,
    i: u16,
    lower: &Option<Separator>,
) -> bool
    requires page { page_rule_of PageKind.Tree (page_bytes page) ≡ None }
    requires first { 1 ≤ i }
    requires last { i ≤ count_of (page_bytes page) }
    requires lower { IsBound tree.now.columns.specs.now lower.now }
    ensures { IsPlainItem tree.now.columns.specs.now tree.now.columns.more.now (page_bytes page.entry) i
        → result ≡ same_bound (same_keys (columns_of tree.now.columns.specs.now) tid_order)
        (Some (first_key (item_at tree.now.columns.specs.now tree.now.columns.more.now
        (page_bytes page.entry) i))) lower.now }
{
    match lower {
        None => false,
        Some(lower) => match compare_with_item(tree, page, i, &lower.view()) {
            Some(order) => order.is_eq(),
            None => false,
        },
    }
}

/// Whether two lower bounds are the same.
pub fn is_same_bound(tree: &TreeRules<'_>, a: &Option<Separator>, b: &Option<Separator>) -> bool
    requires left { IsBound tree.now.columns.specs.now a.now }
    requires right { IsBound tree.now.columns.specs.now b.now }
    ensures { result ≡ same_bound (same_keys (columns_of tree.now.columns.specs.now) tid_order) a.now b.now }
{
    match (a, b) {
        (None, None) => true,
        (Some(a), Some(b)) => cmp_two_seps(tree.columns.specs, &a.view(), &b.view()).is_eq(),
        _ => false,
    }
}
