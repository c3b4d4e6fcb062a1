//! The entries of an index one after another, and the rows that have the same key as each other.
ghost use Rattle.std.specs.Prelude.{◌≡◌, ◌≢◌, ◌∷◌, ◌≤◌, ◌<◌, ◌+◌, ◌*◌, ◌^◌, [], List, OnOk, false, length, map, true};
ghost use Rattle.std.specs.Prelude.{ℕ as Count};
ghost use Rattle.outside.specs.Counting.{one_more};
ghost use Rattle.outside.specs.Outside.{Asked, AskedAtMost, IfTold, Names, Tells};
ghost use Rattle.rel_files.specs.Relation.{count_of};
ghost use Rattle.laws_search.specs.Keys.{Entry as Item};
ghost use Rattle.key_orders.specs.declared.columns.Value.{Value as Shown};
ghost use Rattle.key_orders.specs.declared.Tid.{Tid as Place};
ghost use Rattle.key_orders.specs.Scans.{FitsKey};
ghost use Rattle.key_orders.specs.Values.{value_shown};
ghost use Rattle.bt_levels.specs.Sound.{HoldsTree, block_count, specs_of};
ghost use Rattle.bt_search.specs.Spots.{StandsAt, rest_at};
ghost use Rattle.heap_table_check.specs.Files.{heap_in};
ghost use Rattle.heap_rows.specs.RowCursor.{IsAtRow, IsCursorOf, IsSameCursor, heap_at, next_in, rows_here};
ghost use Rattle.heap_rows.specs.Reads.{ReadAtMost, columns_at, page_reads, value_reads};
ghost use Rattle.heap_rows.specs.declared.rows.LiveRow.{LiveRow as Row};
ghost use Rattle.join_row_keys.specs.Rows.{IsFound, IsIndexAt};

use crate::group::{KeyGroup, counts};
use crate::roots::Roots;
use bt_search::{OnLeaf, Search, Spot, Visits, arrive, descend, read_leaf, tid_on};
use bt_tuples::ItemKeys;
use case_file::Unique;
use heap_rows::{RowCursor, RowPlace};
use join_row_keys::KeyedHeap;
use key_orders::{KeyRefs, Scan, Tid, ValueRef};
use outside::{Files, NoMemory};
use page_layout::{MAX_ITEMS, PageView};
use rel_files::PageFault;

/// A unique index and its heap, which line pointers of that may be the root of a live row, and the scan that goes over
/// the index.
#[derive(Clone, Copy)]
pub(crate) struct Grouping<'a> {
    pub(crate) index: KeyedHeap<'a>,
    pub(crate) unique: Unique,
    pub(crate) roots: &'a Roots,
    pub(crate) scan: &'a Scan,
}

impl Grouping<'_> {
    ghost use Rattle.join_unique.specs.Groups.{block_met, closed, entry_met, opened, row_met, tid_met};
    ghost use Rattle.join_unique.specs.Reads.{AreTaken, yielded};
    ghost use Rattle.join_unique.specs.Tables.{IsWalked, TakesLeaf, group_after, table_seen};

    // Meets the row at which a cursor is, if it has the key of the group.
    fn meet_row(
        self,
        cursor: &RowCursor<'_>,
        place: RowPlace,
        group: &mut KeyGroup,
    ) -> Result<(), NoMemory>
        requires index { IsIndexAt self.index cursor.now }
        requires at { IsAtRow cursor.now }
        ensures { OnOk result ((names : Names) (row : Row) → IsFound names cursor.now place row
            → group.new ≡ record group.old {
              met = row_met (table_seen names self.entry) group.old.key row group.old.met;
            }) }
    {
        let mut key = KeyRefs::new();
        if self.index.read_key(cursor, &mut key) {
            if group.has_key(key.as_slice()) {
                group.meet(place.tid)?;
            }
        }
        Ok(())
    }

    // Goes to the next row of the page in hand and meets it, if it has the key of the group; whether there is one.
    fn meet_next<F: Files>(
        self,
        files: &mut F,
        cursor: &mut RowCursor<'_>,
        group: &mut KeyGroup,
    ) -> Result<bool, PageFault>
        requires index { IsIndexAt self.index cursor.old }
        requires told { IfTold F.seen files.old (λ names. IsCursorOf names cursor.old) }
        ensures met { OnOk result (IfTold F.seen files.old (λ names.
            group_after (table_seen names self.entry) group.new (rows_here names cursor.new)
            ≡ group_after (table_seen names self.entry) group.old (rows_here names cursor.old))) }
        ensures next { Tells F.seen files.old result (λ found names. found ≡ true
            → length (rows_here names cursor.old) ≡ length (rows_here names cursor.new) + 1) }
        ensures end { Tells F.seen files.old result (λ found names. found ≡ false → rows_here names cursor.new ≡ []) }
        ensures told { IfTold F.seen files.old (λ names. IsCursorOf names cursor.new) }
        ensures same { IsSameCursor cursor.old cursor.new }
        ensures asked { AskedAtMost (value_reads cursor.old) F.seen files.old files.new result PageFault.ReadFault }
    {
        let Some(place) = cursor.find_in_block(files)? else {
            return Ok(false);
        };
        self.meet_row(&*cursor, place, group)?;
        cursor.pass();
        Ok(true)
    }

    // Meets those rows of the page in hand that have the key of the group.
    fn meet_rows<F: Files>(
        self,
        files: &mut F,
        cursor: &mut RowCursor<'_>,
        group: &mut KeyGroup,
    ) -> Result<(), PageFault>
        requires index { IsIndexAt self.index cursor.old }
        requires told { IfTold F.seen files.old (λ names. IsCursorOf names cursor.old) }
        requires few { IfTold F.seen files.old (λ names. length (rows_here names cursor.old) ≤ 2042) }
        ensures met { OnOk result (IfTold F.seen files.old (λ names.
            group.new ≡ group_after (table_seen names self.entry) group.old (rows_here names cursor.old))) }
        ensures told { IfTold F.seen files.old (λ names. IsCursorOf names cursor.new) }
        ensures same { IsSameCursor cursor.old cursor.new }
        ensures asked { AskedAtMost (value_reads cursor.old * 2042) F.seen files.old files.new result
            PageFault.ReadFault }
    {
        for k in 0..MAX_ITEMS {
            if !self.meet_next(files, cursor, group)? {
                return Ok(());
            }
        }
        Ok(())
    }

    // Goes over the rows of the block that the group has come to, and meets those that have its key.
    fn meet_block<F: Files>(
        self,
        files: &mut F,
        cursor: &mut RowCursor<'_>,
        group: &mut KeyGroup,
    ) -> Result<(), PageFault>
        requires index { IsIndexAt self.index cursor.old }
        requires told { IfTold F.seen files.old (λ names. IsCursorOf names cursor.old) }
        ensures met { OnOk result (IfTold F.seen files.old (λ names.
            group.new ≡ record group.old {
              met = block_met (table_seen names self.entry) group.old;
              looks = one_more group.old.looks;
            })) }
        ensures told { IfTold F.seen files.old (λ names. IsCursorOf names cursor.new) }
        ensures same { IsSameCursor cursor.old cursor.new }
        ensures asked { AskedAtMost (page_reads (heap_at cursor.old) (columns_at cursor.old)) F.seen files.old files.new
            result PageFault.ReadFault }
    {
        let blocks = self.index.at.heap.heap().blocks();
        let block = group.block();
        group.look();
        if blocks <= block {
            return Ok(());
        }
        cursor.go_to(block);
        cursor.take_block(files)?;
        self.meet_rows(files, cursor, group)
    }

    /// Ends a group: where more than one entry may be of a row, the rows of the last block are met too.
    pub(crate) fn close<F: Files>(
        self,
        files: &mut F,
        cursor: &mut RowCursor<'_>,
        group: &mut KeyGroup,
    ) -> Result<(), PageFault>
        requires index { IsIndexAt self.index cursor.old }
        requires told { IfTold F.seen files.old (λ names. IsCursorOf names cursor.old) }
        ensures met { OnOk result (IfTold F.seen files.old (λ names.
            group.new ≡ closed (table_seen names self.entry) group.old)) }
        ensures told { IfTold F.seen files.old (λ names. IsCursorOf names cursor.new) }
        ensures same { IsSameCursor cursor.old cursor.new }
        ensures asked { AskedAtMost (page_reads (heap_at cursor.old) (columns_at cursor.old)) F.seen files.old files.new
            result PageFault.ReadFault }
    {
        if group.is_several() {
            self.meet_block(files, cursor, group)?;
        }
        Ok(())
    }

    // Opens the group of a key, unless it is this one.
    fn open<F: Files>(
        self,
        files: &mut F,
        cursor: &mut RowCursor<'_>,
        group: &mut KeyGroup,
        key: &[ValueRef<'_>],
    ) -> Result<(), PageFault>
        requires index { IsIndexAt self.index cursor.old }
        requires told { IfTold F.seen files.old (λ names. IsCursorOf names cursor.old) }
        requires few { length key.now < 256 }
        ensures met { OnOk result (IfTold F.seen files.old (λ names.
            group.new ≡ opened (table_seen names self.entry) (map value_shown key.now) group.old)) }
        ensures told { IfTold F.seen files.old (λ names. IsCursorOf names cursor.new) }
        ensures same { IsSameCursor cursor.old cursor.new }
        ensures asked { AskedAtMost (page_reads (heap_at cursor.old) (columns_at cursor.old)) F.seen files.old files.new
            result PageFault.ReadFault }
    {
        if group.has_key(key) {
            return Ok(());
        }
        self.close(files, cursor, group)?;
        let counted = counts(self.unique, key);
        group.begin(key, counted)?;
        Ok(())
    }

    // Takes the TID of an entry of the group.
    fn take_tid<F: Files>(
        self,
        files: &mut F,
        cursor: &mut RowCursor<'_>,
        group: &mut KeyGroup,
        tid: Tid,
    ) -> Result<(), PageFault>
        requires index { IsIndexAt self.index cursor.old }
        requires told { IfTold F.seen files.old (λ names. IsCursorOf names cursor.old) }
        ensures met { OnOk result (IfTold F.seen files.old (λ names.
            group.new ≡ tid_met (table_seen names self.entry) tid group.old)) }
        ensures told { IfTold F.seen files.old (λ names. IsCursorOf names cursor.new) }
        ensures same { IsSameCursor cursor.old cursor.new }
        ensures asked { AskedAtMost (page_reads (heap_at cursor.old) (columns_at cursor.old)) F.seen files.old files.new
            result PageFault.ReadFault }
    {
        if !group.is_counted() {
            return Ok(());
        }
        if !self.roots.has(tid) {
            return Ok(());
        }
        if group.leaves_block(tid.block) {
            self.meet_block(files, cursor, group)?;
        }
        group.name(tid.block);
        Ok(())
    }

    // Takes the entry with this key and this TID.
    fn take_entry<F: Files>(
        self,
        files: &mut F,
        cursor: &mut RowCursor<'_>,
        group: &mut KeyGroup,
        key: &KeyRefs<'_>,
        tid: Tid,
    ) -> Result<(), PageFault>
        requires index { IsIndexAt self.index cursor.old }
        requires told { IfTold F.seen files.old (λ names. IsCursorOf names cursor.old) }
        ensures met { OnOk result (IfTold F.seen files.old (λ names. (e : Item Shown Place)
            → e.values ≡ key.now → tid ≡ e.tid → group.new ≡ entry_met (table_seen names self.entry) e group.old)) }
        ensures told { IfTold F.seen files.old (λ names. IsCursorOf names cursor.new) }
        ensures same { IsSameCursor cursor.old cursor.new }
        ensures asked { AskedAtMost (page_reads (heap_at cursor.old) (columns_at cursor.old) * 2) F.seen files.old
            files.new result PageFault.ReadFault }
    {
        self.open(files, cursor, group, key.as_slice())?;
        self.take_tid(files, cursor, group, tid)
    }

    // Takes the unkilled entries of a leaf from a spot on, and gives the block to which the walk goes on, if it does.
    fn take_leaf<F: Files>(
        self,
        files: &mut F,
        cursor: &mut RowCursor<'_>,
        group: &mut KeyGroup,
        page: &[u8; 8192],
        spot: &mut Spot,
    ) -> Result<Option<u32>, PageFault>
        requires index { IsIndexAt self.index cursor.old }
        requires told { IfTold F.seen files.old (λ names. IsCursorOf names cursor.old) }
        requires holds { IfTold F.seen files.old (λ names. HoldsTree names self.index.at.tree.now) }
        requires fits { FitsKey (specs_of self.index.at.tree.now) self.scan.now }
        requires there { spot.old.block ≢ 0 }
        requires stands { IfTold F.seen files.old (λ names.
            StandsAt names self.index.at.tree.now self.scan.now spot.old page.now) }
        ensures met { Tells F.seen files.old result (λ next names.
            TakesLeaf names self.entry spot.old next group.old group.new) }
        ensures told { IfTold F.seen files.old (λ names. IsCursorOf names cursor.new) }
        ensures same { IsSameCursor cursor.old cursor.new }
        ensures asked { Asked F.seen files.old files.new result PageFault.ReadFault }
        ensures reads { IfTold F.seen files.old (λ names. ReadAtMost
            (page_reads (heap_at cursor.old) (columns_at cursor.old)
            * (2 * length (rest_at names self.entry.index.at.tree.now self.entry.scan.now spot.old))) F.seen files.old
            files.new) }
        ensures taken { Tells F.seen files.old result (λ next names. (n : Count)
            × AreTaken names self.entry spot.old next n × ReadAtMost
            (page_reads (heap_at cursor.old) (columns_at cursor.old) * (2 * n)) F.seen files.old files.new) }
    {
        let search = Search {
            tree: self.index.at.tree,
            scan: self.scan,
            limit: 0,
        };
        let view = PageView::new(page);
        let mut keys = ItemKeys::new();
        for k in 0..u64::MAX {
            match read_leaf(&search, view, spot, &mut keys) {
                OnLeaf::Entry(at) => {
                    self.take_entry(files, cursor, group, &keys.first.kept, tid_on(view, at))?
                }
                OnLeaf::End => return Ok(None),
                OnLeaf::Right(next) => return Ok(Some(next)),
            }
        }
        Err(PageFault::NoMemory)
    }

    /// Takes all unkilled entries of the index, by rising key and TID.
    pub(crate) fn walk<F: Files>(
        self,
        files: &mut F,
        cursor: &mut RowCursor<'_>,
        group: &mut KeyGroup,
    ) -> Result<(), PageFault>
        requires index { IsIndexAt self.index cursor.old }
        requires told { IfTold F.seen files.old (λ names. IsCursorOf names cursor.old) }
        requires holds { IfTold F.seen files.old (λ names. HoldsTree names self.index.at.tree.now) }
        requires fits { FitsKey (specs_of self.index.at.tree.now) self.scan.now }
        ensures met { OnOk result (IfTold F.seen files.old (λ names.
            IsWalked names self.entry self.entry.scan.now group.old group.new)) }
        ensures told { IfTold F.seen files.old (λ names. IsCursorOf names cursor.new) }
        ensures same { IsSameCursor cursor.old cursor.new }
        ensures asked { Asked F.seen files.old files.new result PageFault.ReadFault }
        ensures reads { IfTold F.seen files.old (λ names. ReadAtMost (block_count self.entry.index.at.tree.now
            + page_reads (heap_at cursor.old) (columns_at cursor.old)
            * (2 * yielded names self.entry.index.at.tree.now self.entry.scan.now)) F.seen files.old files.new) }
    {
        let tree = self.index.at.tree;
        let limit = u64::from(tree.blocks());
        let search = Search {
            tree,
            scan: self.scan,
            limit,
        };
        let mut page = [0u8; 8192];
        let mut visits = Visits { count: 0 };
        let mut spot = descend(tree, files, self.scan, &mut page, &mut visits)?;
        while spot.block != 0 {
            match self.take_leaf(files, cursor, group, &page, &mut spot)? {
                None => return Ok(()),
                Some(next) => spot = arrive(&search, files, next, &mut page, &mut visits)?,
            }
        }
        Ok(())
    }
}
