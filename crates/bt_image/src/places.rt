//! The places of a page's items: what each asks of its item. A loop over a page reads the special space
//! once, and not for each item.
ghost use Rattle.std.specs.Prelude.{◌≡◌, List, ℕ, nat_le};
ghost use Rattle.page_layout.specs.View.{page_bytes};
ghost use Rattle.bt_image.specs.Image.{first_data, has_high_key, spot_of};
ghost use Rattle.bt_image.specs.Pages.{first_compared};
ghost use Rattle.bt_image.specs.Places.{place_of, places_of};

use bt_meta::opaque;
use bt_tuples::Spot3;
use page_layout::PageView;

/// Whether a page has a high key, its item 1: it has a right sibling.
#[inline]
pub fn has_high_key(page: PageView<'_>) -> bool
    ensures { result ≡ has_high_key (page_bytes page.entry) }
{
    opaque(page).next != 0
}

/// The number of a page's first data item.
#[inline]
pub fn first_data(page: PageView<'_>) -> u16
    ensures { result ≡ first_data (page_bytes page.entry) }
{
    if has_high_key(page) { 2 } else { 1 }
}

/// The place of item i, which says what form it has to have.
#[inline]
pub fn spot_of(page: PageView<'_>, i: u16) -> Spot3
    ensures { result ≡ spot_of (page_bytes page.entry) i }
{
    ItemPlaces::of(page).spot(i)
}

/// An item of a page by its number, counted from 1.
#[derive(Clone, Copy, Debug)]
pub struct ItemPlace {
    pub number: u16,
    /// What form it has to have.
    pub spot: Spot3,
    /// Whether it is compared with the item before it: a data item past the first one of a leaf, or past
    /// the second one of an internal page, since the first of these keeps nothing.
    pub is_compared: bool,
}

/// The places of the items of a page.
#[derive(Clone, Copy, Debug)]
pub struct ItemPlaces {
    first: u16,
    is_leaf: bool,
}

impl ItemPlaces {
    /// Those of this page.
    #[inline]
    pub fn of(page: PageView<'_>) -> ItemPlaces
        ensures { result ≡ places_of (page_bytes page.entry) }
    {
        ItemPlaces {
            first: first_data(page),
            is_leaf: opaque(page).is_leaf(),
        }
    }

    /// The place of item i of the page.
    #[inline]
    pub fn at(self, i: u16) -> ItemPlace
        ensures { (page : List ℕ) → self ≡ places_of page → result ≡ place_of page i }
    {
        ItemPlace {
            number: i,
            spot: self.spot(i),
            is_compared: self.compares(i),
        }
    }

    // What form item i has to have.
    #[inline]
    fn spot(self, i: u16) -> Spot3
        ensures { (page : List ℕ) → self ≡ places_of page → result ≡ spot_of page i }
    {
        if i < self.first {
            Spot3::HighKey
        } else if self.is_leaf {
            Spot3::LeafItem
        } else if i == self.first {
            Spot3::FirstInner
        } else {
            Spot3::Inner
        }
    }

    // Whether item i is compared with the one before it.
    #[inline]
    fn compares(self, i: u16) -> bool
        ensures { (page : List ℕ) → self ≡ places_of page → result ≡ nat_le (first_compared page) i }
    {
        self.first < i && (self.is_leaf || self.first + 1 < i)
    }
}
