//! The sorted entries in items.
ghost use Rattle.std.specs.Prelude.{◌≡◌, ◌≤◌, ◌<◌, All, Bool, IfOk, drop, if◌then◌else◌, length, min, suc, nat_le};
ghost use Rattle.laws_building.specs.Groups.{greatest, run_length};
ghost use Rattle.page_write.specs.Posting.{posting_size};
ghost use Rattle.laws_built_index.specs.Sizes.{grouping_of};
ghost use Rattle.bt_build.specs.Groups.{AreItems, IsNextItem, size_with};
ghost use Rattle.bt_build.specs.Source.{IsPlaceOf, IsSmallOf, entries_of, entry_of};

use crate::entries::Place;
use crate::order::compare_keys;
use crate::source::Source;
use outside::NoMemory;
use page_layout::max_align;
use std::alloc::Global;

// The most bytes of a posting tuple (BTMaxItemSize).
const MOST_BYTES: usize = 2704;

// How many entries an item may have beyond its first.
const MOST_MORE: usize = 63;

// An item of a leaf: so many of the sorted entries from one on, and its bytes.
#[derive(Clone, Copy)]
pub(crate) struct Item {
    pub(crate) first: usize,
    pub(crate) count: u16,
    pub(crate) size: u16,
}

fn have_one_key(source: Source<'_>, a: Place, b: Place) -> bool
    requires a { IsPlaceOf source a }
    requires b { IsPlaceOf source b }
    ensures { result ≡ (grouping_of source.entry.specs.now source.entry.more.now).same_key
        (entry_of source.entry a) (entry_of source.entry b) }
{
    // The lower of two numbers is that of the lower key.
    if a.prefix < b.prefix {
        return false;
    }
    compare_keys(source.specs, source.arena, a.at, b.at).is_eq()
}

// How many of these have the key of an entry before the first that hasn't, and at most so many.
fn run_of(source: Source<'_>, place: Place, later: &[Place], most: usize) -> usize
    requires place { IsPlaceOf source place }
    requires later { All (IsPlaceOf source) later.now }
    ensures { result ≡ min most (run_length (grouping_of source.entry.specs.now source.entry.more.now).same_key
        (entry_of source.entry place) (entries_of source.entry later.now)) }
{
    let end = most.min(later.len());
    for i in 0..end {
        if !have_one_key(source, place, later[i]) {
            return i;
        }
    }
    end
}

// How many entries beyond its first an item with a body of so many bytes may have.
fn most_more(includes: bool, len: usize) -> usize
    requires { len ≤ 2696 }
    ensures { result ≡ greatest (λ n. nat_le (posting_size len (suc n)) 2704) (if includes then 0 else 63) }
{
    if includes {
        return 0;
    }
    let tids = (MOST_BYTES - max_align(8 + len as u16) as usize) / 6;
    tids.saturating_sub(1).min(MOST_MORE)
}

// The bytes of an item with so many entries beyond its first.
fn item_size(len: usize, more: usize) -> u16
    requires len { len ≤ 2696 }
    requires more { more ≤ 63 }
    ensures { result ≡ size_with len more }
{
    let plain = max_align(8 + len as u16);
    if more == 0 {
        return plain;
    }
    max_align(plain + 6 * (more as u16 + 1))
}

// The item that begins with an entry.
fn next_item(source: Source<'_>, places: &[Place], first: usize) -> Item
    requires kept { All (IsPlaceOf source) places.now }
    requires small { All (IsSmallOf source) places.now }
    requires first { first < length places.now }
    ensures { IsNextItem source.entry.specs.now source.entry.more.now first
        (entries_of source.entry (drop first places.now)) result }
{
    let place = places[first];
    let len = place.body_length as usize;
    let most = most_more(!source.more.is_empty(), len);
    let (_, later) = places.split_at(first + 1);
    let more = run_of(source, place, later, most);
    let size = item_size(len, more);
    Item {
        first,
        count: more as u16 + 1,
        size,
    }
}

// The sorted entries in items, from the first on.
pub(crate) fn cut_items(
    alloc: Global,
    source: Source<'_>,
    places: &[Place],
) -> Result<Vec<Item>, NoMemory>
    requires kept { All (IsPlaceOf source) places.now }
    requires small { All (IsSmallOf source) places.now }
    ensures { IfOk result (λ items. AreItems source.entry.specs.now source.entry.more.now
        (entries_of source.entry places.now) items.items) }
{
    let mut items = Vec::new(alloc);
    let mut first = 0;
    while first < places.len() {
        let item = next_item(source, places, first);
        items.push(item)?;
        first += item.count as usize;
    }
    Ok(items)
}
