//! Items that aren't in order: which of them, on a page where each is plain (B10 and B11).
ghost use Rattle.std.specs.Prelude.{◌≡◌, ◌≤◌, ◌-◌, [], ◌∷◌, true, false, None, find};
ghost use Rattle.page_layout.specs.Page.{count_of, page_rule_of};
ghost use Rattle.page_layout.specs.View.{page_bytes};
ghost use Rattle.page_layout.specs.declared.rules.Rule.TheVariants.{B10, B11};
ghost use Rattle.bt_meta.specs.Flags.{is_half_dead};
ghost use Rattle.bt_meta.specs.Pages.{opaque_of};
ghost use Rattle.bt_image.specs.Pages.{breaks_high_key, breaks_order};
ghost use Rattle.bt_pages.specs.Questions.{are_plain, breaks_on_page};

use crate::high_key::{is_past_high_key, last_key_at};
use crate::turns::read_item;
use bt_image::ItemPlaces;
use bt_tuples::ItemKeys;
use key_attrs::IndexColumns;
use page_layout::{PageKind, PageView, Rule};

// Whether an item breaks B10.
fn is_low_item(page: PageView<'_>, i: u16, columns: &IndexColumns<'_>) -> bool
    requires page { page_rule_of PageKind.Tree (page_bytes page) ≡ None }
    requires first { 1 ≤ i }
    requires last { i ≤ count_of (page_bytes page) }
    requires live { is_half_dead (opaque_of (page_bytes page)) ≡ false }
    requires plain { are_plain columns.now.specs.now columns.now.more.now (page_bytes page) (count_of (page_bytes page))
        ≡ true }
    ensures { result ≡ breaks_order columns.now.specs.now columns.now.more.now (page_bytes page.entry) i }
{
    let before = last_key_at(page, i - 1, columns);
    let at = ItemPlaces::of(page).at(i);
    match read_item(page, at, columns, &before, &mut ItemKeys::new()) {
        None => false,
        Some(is_low) => is_low,
    }
}

// Whether a page that has this item breaks B11.
fn is_past(page: PageView<'_>, i: u16, columns: &IndexColumns<'_>) -> bool
    requires page { page_rule_of PageKind.Tree (page_bytes page) ≡ None }
    requires first { 1 ≤ i }
    requires last { i ≤ count_of (page_bytes page) }
    requires live { is_half_dead (opaque_of (page_bytes page)) ≡ false }
    requires plain { are_plain columns.now.specs.now columns.now.more.now (page_bytes page) (count_of (page_bytes page))
        ≡ true }
    ensures { result ≡ breaks_high_key columns.now.specs.now columns.now.more.now (page_bytes page.entry) }
{
    let last = last_key_at(page, page.item_count(), columns);
    is_past_high_key(page, columns, &last)
}

/// The first of B10 and B11 that an item breaks, on a page where each item is plain.
pub fn order_rule(page: PageView<'_>, i: u16, columns: &IndexColumns<'_>) -> Option<Rule>
    requires page { page_rule_of PageKind.Tree (page_bytes page) ≡ None }
    requires first { 1 ≤ i }
    requires last { i ≤ count_of (page_bytes page) }
    requires live { is_half_dead (opaque_of (page_bytes page)) ≡ false }
    requires plain { are_plain columns.now.specs.now columns.now.more.now (page_bytes page) (count_of (page_bytes page))
        ≡ true }
    ensures { result ≡ find (breaks_on_page columns.now.specs.now columns.now.more.now (page_bytes page.entry) i)
        (B10 ∷ B11 ∷ []) }
{
    if is_low_item(page, i, columns) {
        return Some(Rule::B10);
    }
    if i == 1 && is_past(page, i, columns) {
        return Some(Rule::B11);
    }
    None
}
