//! What look-ups go through.
ghost use Rattle.std.specs.Prelude.{◌≡◌, ◌≤◌, ◌+◌, IfOk, length, map};
ghost use Rattle.outside.specs.Outside.{Asked, IfTold, Names as Held, Tells};
ghost use Rattle.rel_files.specs.Faults.{read_fault};
ghost use Rattle.key_orders.specs.Keys.{IsKey};
ghost use Rattle.key_orders.specs.Values.{value_shown};
ghost use Rattle.bt_levels.specs.declared.sound.SoundTree.{SoundTree as Sound};
ghost use Rattle.bt_levels.specs.Sound.{HoldsTree, more_of, specs_of};
ghost use Rattle.bt_search.specs.Lookups.{IsLookedUp, way_length};
ghost use Rattle.heap_rows.specs.Reads.{ReadAtMost};
ghost use Rattle.join_look_ups.specs.Looking.{AreOf, has_entry, look_length};

use bt_levels::{SoundTree, sound_trees_are_searchable};
use bt_search::{PageCache, Spot, Visits, find, has_included};
use bt_steps::Sought;
use heap_rows::RowPlace;
use key_orders::{KeyRefs, ValueRef, keys_are_searchable};
use outside::{Files, NoMemory};
use rel_files::ReadFault;
use std::alloc::Global;

// How many pages of an index are kept.
const CACHE_PAGES: usize = 64;

/// A row, by its place, with the values that it has in an index: those of its key, and those of the columns that the
/// index includes.
#[derive(Clone, Copy)]
pub struct IndexedRow<'a> {
    pub place: RowPlace,
    pub key: &'a KeyRefs<'a>,
    pub more: &'a [ValueRef<'a>],
}

/// What look-ups in an index go through: pages of it that are kept, and the count of visits to pages.
#[derive(Drop)]
pub struct LookUps {
    pub cache: PageCache,
    pub visits: Visits,
}

impl LookUps {
    /// No page is kept yet, and none was visited.
    pub fn new(alloc: Global) -> Result<LookUps, NoMemory>
        ensures count { IfOk result (λ l. l.visits.count ≡ 0) }
        ensures of { IfOk result (λ l. (names : Held) (tree : Sound) → AreOf names tree l) }
    {
        let cache = PageCache::new(alloc, CACHE_PAGES)?;
        Ok(LookUps {
            cache,
            visits: Visits { count: 0 },
        })
    }

    // Where the index has an unkilled entry with this key and this TID.
    fn find<F: Files>(
        &mut self,
        files: &mut F,
        tree: &SoundTree,
        sought: Sought<'_>,
    ) -> Result<Option<Spot>, ReadFault>
        requires holds { IfTold F.seen files.old (λ names. HoldsTree names tree.now) }
        requires key { IsKey (specs_of tree.now) sought.key.now }
        requires of { IfTold F.seen files.old (λ names. AreOf names tree.now self.old) }
        ensures found { Tells F.seen files.old result (λ found names.
            IsLookedUp names tree.now sought.entry.key.now sought.entry.tid found) }
        ensures visits { IfTold F.seen files.old (λ names.
            self.new.visits.count ≤ self.old.visits.count + way_length names tree.now) }
        ensures reads { IfTold F.seen files.old (λ names.
            ReadAtMost (way_length names tree.now) F.seen files.old files.new) }
        ensures of { IfTold F.seen files.old (λ names. AreOf names tree.now self.new) }
        ensures asked { Asked F.seen files.old files.new result read_fault }
    {
        // It has fewer than 2^32 blocks.
        let _blocks = tree.blocks();
        let mut made = Visits { count: 0 };
        let found = find(tree, files, sought, &mut self.cache, &mut made);
        self.visits.count = self.visits.count.saturating_add(made.count);
        let at = found?;
        Ok(at)
    }

    /// Whether an index has an unkilled entry for a row: with its key, its included values and the TID of its root.
    /// There is no second one with this key and this TID, so that the values at the one that is found decide.
    pub fn has_entry<F: Files>(
        &mut self,
        files: &mut F,
        tree: &SoundTree,
        row: IndexedRow<'_>,
    ) -> Result<bool, ReadFault>
        requires holds { IfTold F.seen files.old (λ names. HoldsTree names tree.now) }
        requires key { IsKey (specs_of tree.now) row.key.now }
        requires more { length row.more.now ≡ length (more_of tree.now) }
        requires of { IfTold F.seen files.old (λ names. AreOf names tree.now self.old) }
        ensures found { Tells F.seen files.old result (λ found names.
            found ≡ has_entry names tree.now row.entry.key.now (map value_shown row.entry.more.now)
            row.entry.place.root) }
        ensures visits { IfTold F.seen files.old (λ names.
            self.new.visits.count ≤ self.old.visits.count + look_length names tree.now) }
        ensures reads { IfTold F.seen files.old (λ names.
            ReadAtMost (look_length names tree.now) F.seen files.old files.new) }
        ensures of { IfTold F.seen files.old (λ names. AreOf names tree.now self.new) }
        ensures asked { Asked F.seen files.old files.new result read_fault }
    {
        sound_trees_are_searchable();
        keys_are_searchable();
        let sought = Sought {
            key: row.key,
            tid: row.place.root,
        };
        let Some(at) = self.find(files, tree, sought)? else {
            return Ok(false);
        };
        if tree.more().is_empty() {
            return Ok(true);
        }
        self.visits.count = self.visits.count.saturating_add(1);
        let there = has_included(tree, files, at, row.more, &mut self.cache)?;
        Ok(there)
    }
}
