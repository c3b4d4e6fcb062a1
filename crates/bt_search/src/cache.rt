//! Pages of an index that are kept in memory, of bounded number.
ghost use Rattle.std.specs.Prelude.{◌≡◌, ◌-◌, ◌<◌, ◌≤◌, ◌==◌, [], IfNone, IfOk, IfSome, IsOk, None, Some, length};
ghost use Rattle.std.specs.Borrow.{sem};
ghost use Rattle.outside.specs.Outside.{AskedAtMost, IfTold};
ghost use Rattle.rel_files.specs.Faults.{read_fault};
ghost use Rattle.rel_files.specs.Relation.{IsAttached};
ghost use Rattle.bt_levels.specs.Files.{relation_of};
ghost use Rattle.bt_levels.specs.Sound.{block_count, file_of, held_block};
ghost use Rattle.bt_search.specs.Cached.{IsCacheOf, Keeps, Looked, cached};

use crate::kept::{Hand, Kept, first_page, page_in_hand, put, read};
use bt_levels::SoundTree;
use lru::LruCache;
use outside::{Files, NoMemory};
use rel_files::ReadFault;
use std::alloc::Global;
use std::marker::Model;
use std::num::NonZeroUsize;

/// Pages of one index, at most as many as its capacity, each under its block's number. It keeps its
/// allocator, and one page's memory more than it keeps pages, into which a block is read.
///
/// A clause sees the pages that are `kept`, the one that was used last first, and the `capacity`.
#[derive(Drop)]
pub struct PageCache {
    alloc: Global,
    kept: Kept,
    hand: Hand,
}

impl Model for PageCache {
    ghost use Rattle.std.specs.Prelude.{IsSome, map};
    ghost use Rattle.bt_search.specs.Cached.{Cached, cached, cached_code};

    ghost Value = { Cached };

    ghost coded = { cached_code };

    ghost view = { λ c. cached (map (λ e. (e.0, e.1.value)) c.kept.entries) c.kept.cap };

    ghost invariant = { λ c. IsSome c.hand };
}

impl PageCache {
    ghost use Rattle.bt_search.specs.Lending.{EndsSo};

    /// A cache that keeps no page yet. `capacity` is the most pages that it is to keep, 1 to 4096.
    pub fn new(alloc: Global, capacity: usize) -> Result<PageCache, NoMemory>
        requires some { 1 ≤ capacity }
        requires few { capacity ≤ 4096 }
        ensures { IfOk result (λ c. c ≡ cached [] capacity) }
    {
        let capacity = NonZeroUsize::new(capacity).unwrap();
        let kept = LruCache::new(alloc, capacity)?;
        let hand = Box::new(alloc, [0; 8192])?;
        Ok(PageCache {
            alloc,
            kept,
            hand: Some(hand),
        })
    }

    /// The number of pages that it keeps, never more than its capacity.
    pub fn len(&self) -> usize
        ensures len { result ≡ length self.now.kept }
        ensures within { length self.now.kept ≤ self.now.capacity }
    {
        self.kept.len()
    }

    /// Whether it keeps no page.
    pub fn is_empty(&self) -> bool
        ensures { result ≡ (length self.now.kept == 0) }
    {
        self.len() == 0
    }

    /// The most pages that it keeps.
    pub fn capacity(&self) -> usize
        ensures { result ≡ self.now.capacity }
    {
        self.kept.cap().get()
    }

    /// Looks at a block of the index whose pages it keeps, and lends the page. It counts as used last
    /// then. A page that isn't kept is read from the files and then kept, unless memory for it is refused;
    /// the page that was unused for longest goes where there are too many.
    ///
    /// A page that is kept is lent without a read. `ReadFault` comes only where the files couldn't be
    /// read, and the cache is then as it was.
    pub fn page<F: Files>(
        &mut self,
        tree: &SoundTree,
        files: &mut F,
        block: u32,
    ) -> Result<&[u8; 8192], ReadFault>
        requires attached { IfTold F.seen files.old (λ names. IsAttached names (relation_of (file_of tree.now))) }
        requires below { block < block_count tree.now }
        requires of { IfTold F.seen files.old (λ names. IsCacheOf names tree.now self.old) }
        ensures* looked { sem 𝓛 (EndsSo self.entry (λ last. Looked block result self.old last
            × IfTold F.seen files.old (λ names. IsCacheOf names tree.now last))) }
        ensures bytes { IfOk result (λ page. IfTold F.seen files.old (λ names.
            page.now ≡ held_block names tree.now block)) }
        ensures hit { Keeps block self.old → IsOk result × (files.new ≡ files.old) }
        ensures asked { AskedAtMost 1 F.seen files.old files.new result read_fault }
    {
        if self.kept.promote(&block) {
            return Ok(first_page(&self.kept));
        }
        read(&mut self.hand, tree, files, block)?;
        if put(self.alloc, &mut self.kept, &mut self.hand, block) {
            return Ok(first_page(&self.kept));
        }
        Ok(page_in_hand(&self.hand))
    }
}
