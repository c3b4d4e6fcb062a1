//! What a visit to a page of an index leads to.
ghost use Rattle.std.specs.Prelude.{◌≡◌, ◌≢◌, ◌<◌, ◌≤◌, ◌+◌, List, None, true, false};
ghost use Rattle.page_layout.specs.Page.{count_of, page_rule_of};
ghost use Rattle.page_layout.specs.View.{page_bytes};
ghost use Rattle.key_attrs.specs.Columns.{TreeColumns as Columns, tree_columns};
ghost use Rattle.bt_meta.specs.Flags.{is_half_dead, is_leaf};
ghost use Rattle.bt_meta.specs.Pages.{opaque_of};
ghost use Rattle.bt_tuples.specs.declared.items.Spot3.{Spot3 as Place};
ghost use Rattle.bt_image.specs.Image.{downlink_in, first_data, item_at, spot_of};
ghost use Rattle.bt_image.specs.Pages.{IsPlainItem};
ghost use Rattle.bt_steps.specs.Pages.{IsReadable};
ghost use Rattle.bt_steps.specs.Ways.{Leads, is_left_behind, is_passed};

use crate::way::Way;
use bt_image::{first_data, has_high_key, spot_of};
use bt_meta::{opaque, tree_head};
use bt_tuples::{ItemKeys, Spot3};
use key_attrs::IndexColumns;
use page_layout::{PageKind, PageView};

/// What a visit to a page leads to.
#[derive(Clone, Copy, Debug, PartialEq, Eq)]
pub enum Step {
    /// To this block: the right sibling, or a child.
    To(u32),
    /// The page is a leaf, and is read.
    Read,
    /// The page can't be read. No page that was judged is such.
    Lost,
}

// Whether a search goes right of the first key of item i, which is all that a high key or an item of an
// internal page keeps.
fn goes_right_of<'p, W: Way>(
    page: PageView<'p>,
    i: u16,
    columns: &IndexColumns<'_>,
    way: &W,
    keys: &mut ItemKeys<'p>,
) -> bool
    requires page { page_rule_of PageKind.Tree (page_bytes page) ≡ None }
    requires first { 1 ≤ i }
    requires last { i ≤ count_of (page_bytes page) }
    requires fits { W.fits way.now columns.now.specs.now }
    ensures { IsPlainItem columns.now.specs.now columns.now.more.now (page_bytes page.entry) i
        → result ≡ is_passed (tree_columns columns.now) (W.goes way.now columns.now.specs.now)
        (page_bytes page.entry) i }
{
    match keys.read(page, i, columns, spot_of(page, i)) {
        Err(_) => false,
        Ok(()) => way.goes_right(columns.specs, &keys.first),
    }
}

// Whether a search leaves a page for its right sibling: it goes right of its high key, or the page is
// half-dead, and then its high key isn't looked at.
fn is_left_behind<'p, W: Way>(
    page: PageView<'p>,
    columns: &IndexColumns<'_>,
    way: &W,
    keys: &mut ItemKeys<'p>,
) -> bool
    requires page { page_rule_of PageKind.Tree (page_bytes page) ≡ None }
    requires fits { W.fits way.now columns.now.specs.now }
    ensures { IsReadable (tree_columns columns.now) (page_bytes page.entry)
        → result ≡ is_left_behind (tree_columns columns.now) (W.goes way.now columns.now.specs.now)
        (page_bytes page.entry) }
{
    if opaque(page).is_half_dead() {
        return true;
    }
    if !has_high_key(page) || page.item_count() == 0 {
        return false;
    }
    goes_right_of(page, 1, columns, way, keys)
}

// Looks by halves for the last data item of a page that a search goes right of, by its first key, or the
// first data item where it goes right of none but that.
pub(crate) fn last_passed<'p, W: Way>(
    page: PageView<'p>,
    columns: &IndexColumns<'_>,
    way: &W,
    keys: &mut ItemKeys<'p>,
) -> u16
    requires page { page_rule_of PageKind.Tree (page_bytes page) ≡ None }
    requires some { first_data (page_bytes page) ≤ count_of (page_bytes page) }
    requires fits { W.fits way.now columns.now.specs.now }
    ensures from { first_data (page_bytes page.entry) ≤ result }
    ensures to { result ≤ count_of (page_bytes page.entry) }
    ensures passed { IsReadable (tree_columns columns.now) (page_bytes page.entry)
        → is_half_dead (opaque_of (page_bytes page.entry)) ≡ false
        → first_data (page_bytes page.entry) < result
        → is_passed (tree_columns columns.now) (W.goes way.now columns.now.specs.now) (page_bytes page.entry) result
        ≡ true }
    ensures next { IsReadable (tree_columns columns.now) (page_bytes page.entry)
        → is_half_dead (opaque_of (page_bytes page.entry)) ≡ false
        → result < count_of (page_bytes page.entry)
        → is_passed (tree_columns columns.now) (W.goes way.now columns.now.specs.now) (page_bytes page.entry)
        (result + 1) ≡ false }
{
    let mut low = first_data(page);
    let mut high = page.item_count() + 1;
    while high - low > 1 {
        let middle = low + (high - low) / 2;
        if goes_right_of(page, middle, columns, way, keys) {
            low = middle;
        } else {
            high = middle;
        }
    }
    low
}

// Where the downlink of an item of an internal page leads; 0 where the item can't be read.
fn downlink_at(page: PageView<'_>, i: u16) -> u32
    requires page { page_rule_of PageKind.Tree (page_bytes page) ≡ None }
    requires first { 1 ≤ i }
    requires last { i ≤ count_of (page_bytes page) }
    ensures { (columns : Columns) → IsPlainItem columns.specs columns.more (page_bytes page.entry) i
        → spot_of (page_bytes page.entry) i ≢ Spot3.LeafItem
        → result ≡ downlink_in (item_at columns.specs columns.more (page_bytes page.entry) i) }
{
    let item = page.item(i);
    if item.is_misplaced_tree_item(page.upper()) {
        return 0;
    }
    tree_head(page.piece(item.off, item.len)).block
}

/// What a visit of a search to a page leads to.
pub fn step_on<W: Way>(page: PageView<'_>, columns: &IndexColumns<'_>, way: &W) -> Step
    requires fits { W.fits way.now columns.now.specs.now }
    ensures leads { IsReadable (tree_columns columns.now) (page_bytes page.entry)
        → Leads (tree_columns columns.now) (W.goes way.now columns.now.specs.now) (page_bytes page.entry) result }
    ensures page { result ≡ Step.Read → page_rule_of PageKind.Tree (page_bytes page.entry) ≡ None }
{
    if page.page_rule(PageKind::Tree).is_some() {
        return Step::Lost;
    }
    let special = opaque(page);
    let mut keys = ItemKeys::new();
    if is_left_behind(page, columns, way, &mut keys) {
        return Step::To(special.next);
    }
    if special.is_leaf() {
        return Step::Read;
    }
    if page.item_count() < first_data(page) {
        return Step::Lost;
    }
    Step::To(downlink_at(page, last_passed(page, columns, way, &mut keys)))
}
