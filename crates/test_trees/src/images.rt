//! Small pages of a tree on which items rise, or don't.
use crate::steps::INT4;
use crate::trees::page_bytes;
use bt_image::{ItemPlaces, breaks_high_key, breaks_order, first_data, has_high_key, spot_of};
use bt_tuples::{ItemKeys, Spot3};
use key_attrs::IndexColumns;
use page_layout::{PageKind, PageView};
use std::test::Fail;

// The two items of a page in order, and the last of them beside the high key, if there is one: whether
// B10 is broken by the second, and whether B11 is broken. None where an item isn't in order by itself.
fn broken(bytes: &[u8; 8192]) -> Option<(bool, bool)> {
    let page = PageView::new(bytes);
    if page.page_rule(PageKind::Tree).is_some() || page.item_count() != 2 {
        return None;
    }
    let specs = [INT4];
    let columns = IndexColumns::new(&specs, &[]);
    let (mut first, mut second) = (ItemKeys::new(), ItemKeys::new());
    first.read(page, 1, &columns, spot_of(page, 1)).ok()?;
    second.read(page, 2, &columns, spot_of(page, 2)).ok()?;
    first.keep_last();
    let order = breaks_order(ItemPlaces::of(page).at(2), &specs, &first.first, &second);
    second.keep_last();
    let high_key = breaks_high_key(page, &specs, &second.first, &first.first);
    Some((order, high_key))
}

// Leaves without a right sibling and with one, and an internal page: which of the two rules are broken.
const PAGES: [(&str, bool, bool); 7] = [
    ("0 0 0 1: entry 5 1, entry 7 2", false, false),
    ("0 0 0 1: entry 5 1, entry 5 2", false, false),
    ("0 0 0 1: entry 7 1, entry 5 2", true, false),
    ("0 2 0 1: above 0 7, entry 5 2", false, false),
    ("0 2 0 1: above 0 7, entry 7 2", false, true),
    ("0 2 0 1: above 0 7, entry 9 2", false, true),
    ("0 0 1 2: first 1, above 2 7", false, false),
];

#[test]
fn items_of_a_page(rt: HostRuntime) -> Result<(), Fail> {
    for (line, order, high_key) in PAGES {
        let bytes = page_bytes(rt.alloc(), line)?;
        assert_eq!(rt; broken(&bytes), Some((order, high_key)), "{line}");
    }
    Ok(())
}

// Whether a page has a high key, its first item behind that, and what its two items are.
const PLACES: [(&str, bool, u16, Spot3, Spot3); 3] = [
    (
        "0 0 0 1: entry 5 1, entry 7 2",
        false,
        1,
        Spot3::LeafItem,
        Spot3::LeafItem,
    ),
    (
        "0 2 0 1: above 0 7, entry 5 2",
        true,
        2,
        Spot3::HighKey,
        Spot3::LeafItem,
    ),
    (
        "0 0 1 2: first 1, above 2 7",
        false,
        1,
        Spot3::FirstInner,
        Spot3::Inner,
    ),
];

#[test]
fn places_of_items(rt: HostRuntime) -> Result<(), Fail> {
    for (line, is_left, first, one, two) in PLACES {
        let bytes = page_bytes(rt.alloc(), line)?;
        let page = PageView::new(&bytes);
        assert_eq!(rt; (has_high_key(page), first_data(page)), (is_left, first));
        assert_eq!(rt; (spot_of(page, 1), spot_of(page, 2)), (one, two));
    }
    Ok(())
}
