//! The keys of items that follow each other: each is read into the place of the one before the last, so
//! that no key is copied.
ghost use Rattle.std.specs.Prelude.{◌≡◌, ◌≤◌, ◌-◌, [], false, None, IfSome, is_some};
ghost use Rattle.page_layout.specs.Page.{count_of, page_rule_of};
ghost use Rattle.page_layout.specs.View.{page_bytes};
ghost use Rattle.key_orders.specs.Separators.{separator_of};
ghost use Rattle.bt_meta.specs.Flags.{is_half_dead};
ghost use Rattle.bt_meta.specs.Pages.{opaque_of};
ghost use Rattle.bt_image.specs.Pages.{breaks_order};
ghost use Rattle.bt_image.specs.Places.{place_of, places_of};
ghost use Rattle.bt_pages.specs.Passes.{IsCarried, held};
ghost use Rattle.bt_pages.specs.Questions.{is_without_fault};

use bt_image::{ItemPlace, ItemPlaces, breaks_order};
use bt_tuples::ItemKeys;
use key_attrs::IndexColumns;
use key_orders::SepRef;
use page_layout::{PageKind, PageView};

// Reads an item into a place, where it is plain, and tells whether it isn't above the item before, whose
// last key is in hand (B10). The place then has the key of the last entry.
#[inline]
pub fn read_item<'p>(
    page: PageView<'p>,
    at: ItemPlace,
    columns: &IndexColumns<'_>,
    before: &SepRef<'p>,
    keys: &mut ItemKeys<'p>,
) -> Option<bool>
    requires page { page_rule_of PageKind.Tree (page_bytes page) ≡ None }
    requires place { at ≡ place_of (page_bytes page) at.number }
    requires first { 1 ≤ at.number }
    requires last { at.number ≤ count_of (page_bytes page) }
    requires live { is_half_dead (opaque_of (page_bytes page)) ≡ false }
    requires before { IsCarried columns.now.specs.now columns.now.more.now (page_bytes page)
        (at.number - 1) before.now }
    ensures plain { is_without_fault columns.now.specs.now columns.now.more.now (page_bytes page.entry) at.number
        ≡ is_some result }
    ensures low { IfSome result (λ low. low
        ≡ breaks_order columns.now.specs.now columns.now.more.now (page_bytes page.entry) at.number) }
    ensures last { IfSome result (λ low.
        IsCarried columns.now.specs.now columns.now.more.now (page_bytes page.entry) at.number keys.new.first) }
{
    match keys.read(page, at.number, columns, at.spot) {
        Err(_) => None,
        Ok(()) => {
            let is_low = breaks_order(at, columns.specs, before, keys);
            keys.keep_last();
            Some(is_low)
        }
    }
}

// The key of the last entry of the item of a page that was read last, and room for that of the next.
#[derive(Drop)]
pub struct Turns<'p> {
    places: ItemPlaces,
    left: ItemKeys<'p>,
    right: ItemKeys<'p>,
    // Which of them was read last.
    is_right: bool,
}

impl<'p> Turns<'p> {
    // Before the first item of a page.
    pub fn new(page: PageView<'_>) -> Turns<'p>
        ensures places { result.places ≡ places_of (page_bytes page.entry) }
        ensures held { separator_of (held result) ≡ record { kept = []; tid = None } }
    {
        Turns {
            places: ItemPlaces::of(page),
            left: ItemKeys::new(),
            right: ItemKeys::new(),
            is_right: false,
        }
    }

    // The key of the last entry of the item that was read last.
    #[inline]
    pub fn last(&self) -> &SepRef<'p>
        ensures { result.now ≡ held self.now }
    {
        if self.is_right {
            &self.right.first
        } else {
            &self.left.first
        }
    }

    // Reads the next item, item i, where it is plain, and tells whether it isn't above the one before.
    #[inline]
    pub fn read(&mut self, page: PageView<'p>, i: u16, columns: &IndexColumns<'_>) -> Option<bool>
        requires page { page_rule_of PageKind.Tree (page_bytes page) ≡ None }
        requires places { self.old.places ≡ places_of (page_bytes page) }
        requires first { 1 ≤ i }
        requires last { i ≤ count_of (page_bytes page) }
        requires live { is_half_dead (opaque_of (page_bytes page)) ≡ false }
        requires before { IsCarried columns.now.specs.now columns.now.more.now (page_bytes page) (i - 1)
            (held self.old) }
        ensures places { self.new.places ≡ self.old.places }
        ensures plain { is_without_fault columns.now.specs.now columns.now.more.now (page_bytes page.entry) i
            ≡ is_some result }
        ensures low { IfSome result (λ low. low
            ≡ breaks_order columns.now.specs.now columns.now.more.now (page_bytes page.entry) i) }
        ensures last { IfSome result (λ low. IsCarried columns.now.specs.now columns.now.more.now
            (page_bytes page.entry) i (held self.new)) }
    {
        let at = self.places.at(i);
        let is_low = if self.is_right {
            read_item(page, at, columns, &self.right.first, &mut self.left)
        } else {
            read_item(page, at, columns, &self.left.first, &mut self.right)
        };
        self.is_right = !self.is_right;
        is_low
    }
}
