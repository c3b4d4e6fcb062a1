//! The spots of a leaf, from its last entry down.
ghost use Rattle.std.specs.Prelude.{◌≡◌, ◌≤◌, ◌<◌, ◌+◌, ◌-◌, None, false, true};
ghost use Rattle.page_layout.specs.Page.{count_of, page_rule_of};
ghost use Rattle.page_layout.specs.View.{page_bytes};
ghost use Rattle.key_attrs.specs.Columns.{TreeColumns as Columns};
ghost use Rattle.bt_meta.specs.Flags.{is_half_dead};
ghost use Rattle.bt_meta.specs.Pages.{opaque_of};
ghost use Rattle.bt_image.specs.Image.{first_data};
ghost use Rattle.back_scan.specs.Leaves.{IsLastIfRead};

use bt_image::first_data;
use bt_meta::opaque;
use bt_search::{Spot, entries_at};
use page_layout::{PageKind, PageView};

/// No place.
pub const NOWHERE: Spot = Spot {
    block: 0,
    item: 0,
    nth: 0,
};

// The spot before the first entry of a page.
fn front(block: u32) -> Spot
    ensures block { result.block ≡ block }
    ensures item { result.item ≡ 0 }
    ensures nth { result.nth ≡ 0 }
{
    Spot {
        block,
        item: 0,
        nth: 0,
    }
}

/// The spot of the last entry of the items up to i of a leaf, or the one before all entries.
pub fn last_upto(block: u32, page: PageView<'_>, i: u16) -> Spot
    requires page { page_rule_of PageKind.Tree (page_bytes page) ≡ None }
    requires last { i ≤ count_of (page_bytes page) }
    ensures block { result.block ≡ block }
    ensures below { result.item ≤ i }
    ensures last { (columns : Columns) → IsLastIfRead columns (page_bytes page.entry) i result }
{
    if i < first_data(page) {
        return front(block);
    }
    let count = entries_at(page, i);
    if count == 0 {
        return front(block);
    }
    Spot {
        block,
        item: i,
        nth: count - 1,
    }
}

/// The spot before that of an entry.
pub fn spot_before(page: PageView<'_>, spot: Spot) -> Spot
    requires page { page_rule_of PageKind.Tree (page_bytes page) ≡ None }
    requires first { 1 ≤ spot.item }
    requires last { spot.item ≤ count_of (page_bytes page) }
    ensures block { result.block ≡ spot.block }
    ensures below { result.item ≤ spot.item }
    ensures within { 0 < spot.nth → (result.item ≡ spot.item) × (result.nth + 1 ≡ spot.nth) }
    ensures next { spot.nth ≡ 0 → (columns : Columns)
        → IsLastIfRead columns (page_bytes page.entry) (spot.item - 1) result }
{
    if 0 < spot.nth {
        Spot {
            block: spot.block,
            item: spot.item,
            nth: spot.nth - 1,
        }
    } else {
        last_upto(spot.block, page, spot.item - 1)
    }
}

/// The spot of the last entry of a page, or the one before all entries where it has none. The items of a half-dead
/// page aren't read.
pub fn last_spot(block: u32, page: PageView<'_>) -> Spot
    ensures block { result.block ≡ block }
    ensures dead { is_half_dead (opaque_of (page_bytes page.entry)) ≡ true → (result.item ≡ 0) × (result.nth ≡ 0) }
    ensures last { page_rule_of PageKind.Tree (page_bytes page.entry) ≡ None
        → is_half_dead (opaque_of (page_bytes page.entry)) ≡ false
        → (columns : Columns) → IsLastIfRead columns (page_bytes page.entry) (count_of (page_bytes page.entry)) result }
{
    if page.page_rule(PageKind::Tree).is_some() || opaque(page).is_half_dead() {
        return front(block);
    }
    last_upto(block, page, page.item_count())
}
