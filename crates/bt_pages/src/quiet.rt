//! Leaves of plain entries that rise by their first values, as nearly all do: each item is asked once, by its bytes as
//! they lie. A second way to what a pass over the items tells, for its speed alone.
ghost use Rattle.std.specs.Prelude.{◌≡◌, ◌≤◌, ◌-◌, true, false, None};
ghost use Rattle.std.specs.Bool.{OnTrue};
ghost use Rattle.page_layout.specs.Page.{count_of, page_rule_of};
ghost use Rattle.page_layout.specs.View.{page_bytes};
ghost use Rattle.bt_meta.specs.Flags.{is_half_dead, is_leaf};
ghost use Rattle.bt_meta.specs.Pages.{opaque_of};
ghost use Rattle.bt_image.specs.Image.{first_data, has_high_key};
ghost use Rattle.bt_pages.specs.Passes.{RiseTo, pass_of};
ghost use Rattle.bt_pages.specs.declared.pass.Pass.TheVariants.{Ordered};

use crate::high_key::{last_key_at, separator_in};
use bt_image::{breaks_high_key, first_data, has_high_key};
use bt_meta::opaque;
use bt_tuples::{Spot3, plain_entry_prefix, tree_item};
use key_attrs::IndexColumns;
use page_layout::{PageKind, PageView};

// Whether the data items of a leaf are plain entries, of which each has a greater number than the one before.
fn do_entries_rise(page: PageView<'_>, first: u16, columns: &IndexColumns<'_>) -> bool
    requires page { page_rule_of PageKind.Tree (page_bytes page) ≡ None }
    requires live { is_half_dead (opaque_of (page_bytes page)) ≡ false }
    requires leaf { is_leaf (opaque_of (page_bytes page)) ≡ true }
    requires first { first ≡ first_data (page_bytes page) }
    requires some { first ≤ count_of (page_bytes page) }
    ensures { OnTrue result
        (RiseTo columns.now.specs.now columns.now.more.now (page_bytes page.entry) (first - 1)
        → RiseTo columns.now.specs.now columns.now.more.now (page_bytes page.entry)
        (count_of (page_bytes page.entry))) }
{
    let Some(mut last) = plain_entry_prefix(page, first, columns) else {
        return false;
    };
    for k in first..page.item_count() {
        match plain_entry_prefix(page, k + 1, columns) {
            None => return false,
            Some(number) => {
                if number <= last {
                    return false;
                }
                last = number;
            }
        }
    }
    true
}

// Whether the last of such items isn't above the high key of the leaf, which is plain too.
fn has_plain_high_key(page: PageView<'_>, columns: &IndexColumns<'_>) -> bool
    requires page { page_rule_of PageKind.Tree (page_bytes page) ≡ None }
    requires live { is_half_dead (opaque_of (page_bytes page)) ≡ false }
    requires high { has_high_key (page_bytes page) ≡ true }
    requires some { 1 ≤ count_of (page_bytes page) }
    requires rise { RiseTo columns.now.specs.now columns.now.more.now (page_bytes page) 1
        → RiseTo columns.now.specs.now columns.now.more.now (page_bytes page) (count_of (page_bytes page)) }
    ensures { OnTrue result (pass_of columns.now.specs.now columns.now.more.now (page_bytes page.entry) ≡ Ordered) }
{
    match tree_item(page, 1, columns, Spot3::HighKey) {
        Err(_) => false,
        Ok(item) => {
            let last = last_key_at(page, page.item_count(), columns);
            !breaks_high_key(page, columns.specs, &last, &separator_in(item))
        }
    }
}

// Whether a leaf that isn't half-dead has plain entries alone, which rise by their first values and aren't above its
// high key. `false` says nothing.
pub fn is_quiet_leaf(page: PageView<'_>, columns: &IndexColumns<'_>) -> bool
    requires page { page_rule_of PageKind.Tree (page_bytes page) ≡ None }
    requires live { is_half_dead (opaque_of (page_bytes page)) ≡ false }
    ensures { OnTrue result (pass_of columns.now.specs.now columns.now.more.now (page_bytes page.entry) ≡ Ordered) }
{
    let first = first_data(page);
    if !opaque(page).is_leaf() || page.item_count() < first {
        return false;
    }
    if !do_entries_rise(page, first, columns) {
        return false;
    }
    if !has_high_key(page) {
        return true;
    }
    has_plain_high_key(page, columns)
}
