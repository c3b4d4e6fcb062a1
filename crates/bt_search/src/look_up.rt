//! Looks one entry up, through a cache of pages, on its way from the fast root.
ghost use Rattle.std.specs.Prelude.{◌≡◌, ◌≢◌, ◌<◌, ◌≤◌, ◌+◌, ◌-◌, ◌^◌, ◌↔◌, IsOk, List, None, Some, true, option_map};
ghost use Rattle.outside.specs.Outside.{AskedAtMost, IfTold, Names as Held, Tells};
ghost use Rattle.rel_files.specs.Faults.{read_fault};
ghost use Rattle.key_orders.specs.declared.columns.Value.{Value};
ghost use Rattle.key_orders.specs.declared.Tid.{Tid as At};
ghost use Rattle.key_orders.specs.Keys.{IsKey};
ghost use Rattle.bt_levels.specs.declared.sound.SoundTree.{SoundTree as Sound};
ghost use Rattle.bt_levels.specs.Sound.{HoldsTree, block_count, fastroot_of, image_of, specs_of};
ghost use Rattle.bt_search.specs.Cached.{IsCacheOf, KeepsAll};
ghost use Rattle.bt_steps.specs.Sought.{HasAlive};
ghost use Rattle.bt_search.specs.Lookups.{HasLeaf, IsAtSpot, IsLookedUp, most_visits, way_length};
ghost use Rattle.bt_search.specs.declared.spot.Spot.{Spot as Stands};

use crate::cache::PageCache;
use crate::spot::{Spot, Visits};
use bt_levels::{SoundTree, sound_trees_are_searchable};
use bt_steps::{Place, Sought, Step, find_on, step_on};
use key_orders::keys_are_searchable;
use outside::Files;
use page_layout::PageView;
use rel_files::ReadFault;

/// In an index that the names hold, unless it is empty, the way of an entry ends on one leaf, and no other
/// has the entry.
pub fn entries_have_a_leaf()
    ensures leaf { (names : Held) (sound : Sound) (key : List Value) (tid : At) → HoldsTree names sound
        → fastroot_of sound ≢ 0 → HasLeaf names sound key tid }
    ensures empty { (names : Held) (sound : Sound) (key : List Value) (tid : At) → HoldsTree names sound
        → fastroot_of sound ≡ 0 → IsLookedUp names sound key tid None }
{
    sound_trees_are_searchable();
    keys_are_searchable();
}

/// In an index that the names hold, the way of an entry takes fewer visits than the index's own numbers say
/// (`most_visits`).
pub fn ways_are_short()
    ensures { (names : Held) (sound : Sound) → HoldsTree names sound → way_length names sound < most_visits sound }
{
    sound_trees_are_searchable();
}

/// Where an unkilled entry stands at a spot of an index that the names hold, its leaves have one.
pub fn spots_are_of_entries()
    ensures { (names : Held) (sound : Sound) (key : List Value) (tid : At) (at : Stands) → HoldsTree names sound
        → IsAtSpot names sound key tid at → HasAlive (image_of names sound) key tid }
{}

/// Looks up the entry with these values and this TID, unless it is killed. `None` comes exactly where each
/// such entry of the leaves, linked or not, is killed. Pages are looked at through the cache, and each look
/// is a visit: at most one for each level from the fast root down, and one for each right half on these. So they are
/// no more than `fastlevel` + 1 + `right_halves` + `half_dead` + 1 of the tree say.
///
/// Where the cache keeps every block from 1 on, the files aren't asked for anything, no fault comes, and all of these
/// are still kept. `ReadFault` comes only where the files couldn't be read. Whether memory for a page of the cache is
/// there changes nothing of the answer.
pub fn find<F: Files>(
    tree: &SoundTree,
    files: &mut F,
    sought: Sought<'_>,
    cache: &mut PageCache,
    visits: &mut Visits,
) -> Result<Option<Spot>, ReadFault>
    requires holds { IfTold F.seen files.old (λ names. HoldsTree names tree.now) }
    requires key { IsKey (specs_of tree.now) sought.key.now }
    requires of { IfTold F.seen files.old (λ names. IsCacheOf names tree.now cache.old) }
    requires room { visits.old.count + block_count tree.now < 2 ^ 64 }
    ensures found { Tells F.seen files.old result (λ found names.
        IsLookedUp names tree.now sought.entry.key.now sought.entry.tid found) }
    ensures visits { IfTold F.seen files.old (λ names.
        visits.new.count ≤ visits.old.count + way_length names tree.now) }
    ensures most { IfTold F.seen files.old (λ names. visits.new.count ≤ visits.old.count + most_visits tree.now) }
    ensures of { IfTold F.seen files.old (λ names. IsCacheOf names tree.now cache.new) }
    ensures capacity { cache.new.capacity ≡ cache.old.capacity }
    ensures kept { KeepsAll (block_count tree.now) cache.old
        → IsOk result × (files.new ≡ files.old) × KeepsAll (block_count tree.now) cache.new }
    ensures onward { visits.old.count ≤ visits.new.count }
    ensures limit { visits.new.count ≤ visits.old.count + block_count tree.now }
    ensures asked { AskedAtMost (visits.new.count - visits.old.count) F.seen files.old files.new result read_fault }
{
    entries_have_a_leaf();
    ways_are_short();
    let columns = tree.columns();
    let limit = visits.count + u64::from(tree.blocks());
    let mut block = tree.fastroot();
    while visits.count < limit {
        if block == 0 || block >= tree.blocks() {
            return Ok(None);
        }
        visits.count += 1;
        let page = PageView::new(cache.page(tree, files, block)?);
        match step_on(page, &columns, &sought) {
            Step::To(next) => block = next,
            Step::Read => return Ok(spot_of(block, find_on(page, &columns, sought))),
            Step::Lost => return Ok(None),
        }
    }
    Ok(None)
}

// The spot of a place on a leaf.
pub fn spot_of(block: u32, at: Option<Place>) -> Option<Spot>
    ensures { result ≡ option_map (λ place. record { block = block; item = place.item; nth = place.nth }) at }
{
    match at {
        None => None,
        Some(Place { item, nth }) => Some(Spot { block, item, nth }),
    }
}

/// Whether the leaves of an index, linked or not, have an unkilled entry with these values and this TID.
/// Pages are looked at and visits counted as `find` does: where the cache keeps every block from 1 on, the files
/// aren't asked for anything, no fault comes, and all of these are still kept. `ReadFault` comes only where the files
/// couldn't be read.
pub fn probe<F: Files>(
    tree: &SoundTree,
    files: &mut F,
    sought: Sought<'_>,
    cache: &mut PageCache,
    visits: &mut Visits,
) -> Result<bool, ReadFault>
    requires holds { IfTold F.seen files.old (λ names. HoldsTree names tree.now) }
    requires key { IsKey (specs_of tree.now) sought.key.now }
    requires of { IfTold F.seen files.old (λ names. IsCacheOf names tree.now cache.old) }
    requires room { visits.old.count + block_count tree.now < 2 ^ 64 }
    ensures found { Tells F.seen files.old result (λ found names.
        (found ≡ true) ↔ HasAlive (image_of names tree.now) sought.entry.key.now sought.entry.tid) }
    ensures visits { IfTold F.seen files.old (λ names.
        visits.new.count ≤ visits.old.count + way_length names tree.now) }
    ensures most { IfTold F.seen files.old (λ names. visits.new.count ≤ visits.old.count + most_visits tree.now) }
    ensures of { IfTold F.seen files.old (λ names. IsCacheOf names tree.now cache.new) }
    ensures capacity { cache.new.capacity ≡ cache.old.capacity }
    ensures kept { KeepsAll (block_count tree.now) cache.old
        → IsOk result × (files.new ≡ files.old) × KeepsAll (block_count tree.now) cache.new }
    ensures onward { visits.old.count ≤ visits.new.count }
    ensures limit { visits.new.count ≤ visits.old.count + block_count tree.now }
    ensures asked { AskedAtMost (visits.new.count - visits.old.count) F.seen files.old files.new result read_fault }
{
    spots_are_of_entries();
    let found = find(tree, files, sought, cache, visits)?;
    Ok(found.is_some())
}
