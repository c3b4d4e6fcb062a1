//! The entries of a leaf, one after another.
ghost use Rattle.std.specs.Prelude.{◌≡◌, ◌≢◌, ◌<◌, ◌≤◌, ◌+◌, None, Some};
ghost use Rattle.outside.specs.Outside.{Names as Held};
ghost use Rattle.page_layout.specs.Page.{count_of, page_rule_of};
ghost use Rattle.page_layout.specs.View.{page_bytes};
ghost use Rattle.laws_search.specs.Keys.{Entry as Given};
ghost use Rattle.key_orders.specs.declared.columns.Value.{Value};
ghost use Rattle.key_orders.specs.declared.Tid.{Tid as Place};
ghost use Rattle.key_orders.specs.Scans.{FitsKey};
ghost use Rattle.bt_levels.specs.Sound.{HoldsTree, index_columns, specs_of};
ghost use Rattle.bt_search.specs.Entries.{IsEntryAt, entry_on};
ghost use Rattle.bt_search.specs.Leaves.{TellsItem, TellsLeaf};
ghost use Rattle.bt_search.specs.Spots.{StandsAt};
ghost use Rattle.bt_search.specs.declared.spot.Spot.{Spot as Reached};

use crate::descent::Search;
use crate::item::{Fate, ScanEnd, fate_at};
use crate::laws::searches_go_in_steps;
use crate::spot::Spot;
use bt_meta::opaque;
use bt_tuples::ItemKeys;
use page_layout::{PageKind, PageView};

/// What is found of an item from a spot on.
#[derive(Clone, Copy, Debug, PartialEq, Eq)]
pub enum OnItem {
    /// An entry that is wanted.
    Entry(Spot),
    /// An entry that is past the high bound.
    End,
    /// Nothing, and the spot is behind the item.
    Passed,
    /// The item can't be read, or has no such TID. No item that was judged is such.
    Lost,
}

/// What is found of a leaf from a spot on.
#[derive(Clone, Copy, Debug, PartialEq, Eq)]
pub enum OnLeaf {
    /// An entry that is wanted.
    Entry(Spot),
    /// The end of the scan.
    End,
    /// Nothing more, and the search goes on to this block.
    Right(u32),
}

// The spot behind an entry, in an item of so many.
fn behind(spot: Spot, count: u16) -> Spot
    requires room { spot.item < 65535 }
    requires inside { spot.nth < count }
    ensures block { result.block ≡ spot.block }
    ensures within { spot.nth + 1 < count → (result.item ≡ spot.item) × (result.nth ≡ spot.nth + 1) }
    ensures next { spot.nth + 1 ≡ count → (result.item ≡ spot.item + 1) × (result.nth ≡ 0) }
{
    if spot.nth + 1 < count {
        Spot {
            block: spot.block,
            item: spot.item,
            nth: spot.nth + 1,
        }
    } else {
        behind_item(spot)
    }
}

// The spot behind an item.
fn behind_item(spot: Spot) -> Spot
    requires { spot.item < 65535 }
    ensures block { result.block ≡ spot.block }
    ensures item { result.item ≡ spot.item + 1 }
    ensures nth { result.nth ≡ 0 }
{
    Spot {
        block: spot.block,
        item: spot.item + 1,
        nth: 0,
    }
}

// Reads the item of a spot, from there on.
fn read_item<'p>(
    search: &Search<'_>,
    page: PageView<'p>,
    spot: &mut Spot,
    keys: &mut ItemKeys<'p>,
) -> OnItem
    requires page { page_rule_of PageKind.Tree (page_bytes page) ≡ None }
    requires first { 1 ≤ spot.old.item }
    requires last { spot.old.item ≤ count_of (page_bytes page) }
    requires room { spot.old.item < 65535 }
    requires fits { FitsKey (specs_of search.now.tree.now) search.now.scan.now }
    ensures told { (names : Held) → HoldsTree names search.now.tree.now → spot.old.block ≢ 0
        → StandsAt names search.now.tree.now search.now.scan.now spot.old (page_bytes page.entry)
        → TellsItem names search.now.tree.now search.now.scan.now spot.old spot.new (page_bytes page.entry) result }
    ensures block { spot.new.block ≡ spot.old.block }
    ensures entry { (at : Reached) → result ≡ OnItem.Entry at
        → (at.block ≡ spot.old.block) × IsEntryAt (index_columns search.now.tree.now) (page_bytes page.entry) at }
    ensures key { (at : Reached) (e : Given Value Place) → result ≡ OnItem.Entry at
        → entry_on (index_columns search.now.tree.now) (page_bytes page.entry) at ≡ Some e
        → e.values ≡ keys.new.first.kept }
    ensures passed { result ≡ OnItem.Passed → spot.new.item ≡ spot.old.item + 1 }
{
    searches_go_in_steps();
    let Some(found) = fate_at(search, ScanEnd::High, page, spot.item, keys) else {
        return OnItem::Lost;
    };
    if found.count <= spot.nth {
        return OnItem::Lost;
    }
    match found.fate {
        Fate::Past => OnItem::End,
        Fate::Wanted => {
            let at = *spot;
            *spot = behind(at, found.count);
            OnItem::Entry(at)
        }
        Fate::Other => {
            *spot = behind_item(*spot);
            OnItem::Passed
        }
    }
}

/// Reads the items of a leaf from a spot on, to the next entry that the scan wants, and moves the spot behind it;
/// `keys` then has its key.
///
/// The spot stands at the scan, and `page` is its leaf. The entry is the first of what was left, and what is left
/// afterwards are the others; at the end nothing was left; and what is left on the way to the right is what was left.
pub fn read_leaf<'p>(
    search: &Search<'_>,
    page: PageView<'p>,
    spot: &mut Spot,
    keys: &mut ItemKeys<'p>,
) -> OnLeaf
    requires fits { FitsKey (specs_of search.now.tree.now) search.now.scan.now }
    ensures told { (names : Held) → HoldsTree names search.now.tree.now → spot.old.block ≢ 0
        → StandsAt names search.now.tree.now search.now.scan.now spot.old (page_bytes page.entry)
        → TellsLeaf names search.now.tree.now search.now.scan.now spot.old spot.new (page_bytes page.entry) result }
    ensures block { spot.new.block ≡ spot.old.block }
    ensures entry { (at : Reached) → result ≡ OnLeaf.Entry at
        → (at.block ≡ spot.old.block) × IsEntryAt (index_columns search.now.tree.now) (page_bytes page.entry) at }
    ensures key { (at : Reached) (e : Given Value Place) → result ≡ OnLeaf.Entry at
        → entry_on (index_columns search.now.tree.now) (page_bytes page.entry) at ≡ Some e
        → e.values ≡ keys.new.first.kept }
{
    searches_go_in_steps();
    if page.page_rule(PageKind::Tree).is_some() || spot.item == 0 {
        return OnLeaf::End;
    }
    while spot.item <= page.item_count() {
        match read_item(search, page, spot, keys) {
            OnItem::Entry(at) => return OnLeaf::Entry(at),
            OnItem::End | OnItem::Lost => return OnLeaf::End,
            OnItem::Passed => {}
        }
    }
    match opaque(page).next {
        0 => OnLeaf::End,
        next => OnLeaf::Right(next),
    }
}
