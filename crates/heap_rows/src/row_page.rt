//! The page of a heap from which rows are taken.
ghost use Rattle.std.specs.Prelude.{◌≡◌, ◌*◌, ◌<◌, ◌≤◌, [], List, ℕ, All, false, length, true, map};
ghost use Rattle.std.specs.Prelude.{IfOk, IfSome, OnErr, OnOk};
ghost use Rattle.std.specs.Option.{IsSomeAnd, option_copied};
ghost use Rattle.outside.specs.Outside.{AskedAtMost, IfTold, Tells};
ghost use Rattle.rel_files.specs.Relation.{IsAttached, count_of};
ghost use Rattle.page_layout.specs.Page.{item_of};
ghost use Rattle.varlena_attrs.specs.Forms.{Attribute};
ghost use Rattle.varlena_attrs.specs.InTurn.{AreRead};
ghost use Rattle.key_orders.specs.Types.{HasAlignment};
ghost use Rattle.hot_chains.specs.Chains.{is_live_tuple, item_at};
ghost use Rattle.case_file.specs.Record.{CaseRecord};
ghost use Rattle.heap_page_check.specs.Quiet.{IsPlain};
ghost use Rattle.heap_page_check.specs.Table.{table_seen};
ghost use Rattle.heap_table_check.specs.Files.{heap_in, is_plain_in};
ghost use Rattle.heap_table_check.specs.TableFiles.{pages_in};
ghost use Rattle.heap_rows.specs.RowPages.{HasAttributes, IsBodyOf};
ghost use Rattle.heap_rows.specs.RowValues.{AreValuesOf, IsReadableValue, count_asked};
ghost use Rattle.heap_rows.specs.Reads.{block_reads, row_reads, state_reads};
ghost use Rattle.heap_rows.specs.Rows.{item_rows};

use crate::roots::Roots;
use crate::row_values::{RowTuple, RowValues, ValueSources};
use crate::states::{find_states, line_pointer};
use heap_page_check::TableRules;
use heap_table_check::SoundHeap;
use heap_tuples::{tuple_columns, tuple_in};
use key_orders::ColType;
use liveness::{ItemState, Life};
use outside::Files;
use page_layout::{LinePtr, MAX_ITEMS, PageKind, PageView};
use rel_files::PageFault;
use std::alloc::Global;
use varlena_attrs::TupleColumns;

/// The attributes of the tuple that a line pointer of a page points to, to be read one after the other; none
/// where they can't be read, which can't be of a live tuple of a sound heap.
#[inline]
pub(crate) fn tuple_attributes<'p>(
    page: &'p [u8; 8192],
    pointer: LinePtr,
    columns: &'p [ColType],
) -> Option<TupleColumns<'p>>
    requires aligned { All HasAlignment columns.now }
    ensures read { (item : ℕ) (list : List Attribute) → pointer ≡ item_of page.now item
        → HasAttributes columns.now page.now item list → IsSomeAnd result (λ attrs. AreRead attrs list) }
    ensures columns { IfSome result (λ attrs. attrs.columns ≡ columns.now) }
    ensures body { IfSome result (λ attrs. IsBodyOf page.now pointer attrs.body) }
{
    match tuple_in(PageView::new(page), pointer) {
        Some(tuple) => tuple_columns(columns, tuple),
        None => None,
    }
}

/// The page of a heap that is in hand, with what is known of its items; none where no page is in hand or
/// it breaks a rule of its own.
#[derive(Drop)]
pub(crate) struct RowPage {
    /// Its block.
    pub(crate) block: u32,
    pub(crate) bytes: [u8; 8192],
    /// How many items are known.
    pub(crate) count: u16,
    /// Whether it is known to be plain, as most pages are: the states of its items aren't kept then.
    pub(crate) plain: bool,
    /// The states of its items, where it isn't plain.
    pub(crate) states: Vec<ItemState>,
    /// The roots from which they are found.
    pub(crate) roots: Roots,
    /// How many of its items are done.
    pub(crate) done: u16,
    /// Where the values of the next item stand that are asked for, if they were found.
    pub(crate) values: RowValues,
    pub(crate) found: bool,
    pub(crate) alloc: Global,
}

// Whether an item is a live tuple.
fn is_live(state: ItemState) -> bool
    ensures { result ≡ is_live_tuple state }
{
    match state {
        ItemState::Tuple { judged, .. } => judged.life == Life::Live,
        ItemState::Unused | ItemState::Dead | ItemState::Redirect(_) => false,
    }
}

// The state of an item, counted from 1; an unused one where there is none of this number.
#[tactic(auto, unfolding(hot_chains::specs::Chains::item_at))]
fn state_at(states: &[ItemState], item: u16) -> ItemState
    ensures { result ≡ item_at states.now item }
{
    if item != 0 && item as usize <= states.len() {
        states[item as usize - 1]
    } else {
        ItemState::Unused
    }
}

impl RowPage {
    ghost use Rattle.heap_rows.specs.RowPages.{AreKnown, HasPlaces, IsInHand, IsKnown, IsNext, IsRowFound};
    ghost use Rattle.heap_rows.specs.RowPages.{IsSameBlock, IsSamePage, is_live_in, rows_in_hand};

    /// No page is in hand.
    pub(crate) fn new(alloc: Global) -> RowPage
        ensures count { result.count ≡ 0 }
        ensures found { result.found ≡ false }
    {
        RowPage {
            block: 0,
            bytes: [0u8; 8192],
            count: 0,
            plain: false,
            states: Vec::new(alloc),
            roots: Roots::new(alloc),
            done: 0,
            values: RowValues::new(alloc),
            found: false,
            alloc,
        }
    }

    // Finds what is known of the items of the page in hand, of which nothing is known but that it is plain, where it is
    // known to be.
    fn know<F: Files>(
        &mut self,
        files: &mut F,
        table: &TableRules<'_>,
        plain: bool,
    ) -> Result<(), PageFault>
        requires none { self.old.count ≡ 0 }
        requires plain { IfTold F.seen files.old (λ names. plain ≡ true
            → IsPlain (table_seen names table.now) self.old.bytes) }
        ensures known { OnOk result (IfTold F.seen files.old (λ names.
            AreKnown (table_seen names table.now) self.old.block self.new)) }
        ensures few { self.new.count ≤ 2042 }
        ensures empty { OnErr result (self.new.count ≡ 0) }
        ensures page { IsSameBlock self.old self.new }
        ensures asked { AskedAtMost (state_reads plain) F.seen files.old files.new result PageFault.ReadFault }
    {
        let page = PageView::new(&self.bytes);
        if page.page_rule(PageKind::Heap).is_some() {
            return Ok(());
        }
        let count = page.item_count();
        self.plain = plain;
        if plain {
            self.roots.clear();
            self.count = count;
            return Ok(());
        }
        find_states(self.alloc, files, &table.logs, page, &mut self.states)?;
        self.roots.find(self.block, &self.states)?;
        self.count = count;
        Ok(())
    }

    /// Takes a block of the heap in hand: reads it, and finds what its items are. After an error no page is
    /// in hand.
    pub(crate) fn take<F: Files>(
        &mut self,
        files: &mut F,
        table: &TableRules<'_>,
        heap: &SoundHeap,
        block: u32,
    ) -> Result<(), PageFault>
        requires attached { IfTold F.seen files.old (λ names. IsAttached names (heap_in heap.now)) }
        requires inside { block < count_of (heap_in heap.now) }
        requires plain { IfTold F.seen files.old (λ names. is_plain_in heap.now block ≡ true
            → IsPlain (table_seen names table.now) (pages_in names (heap_in heap.now) block)) }
        ensures block { OnOk result (self.new.block ≡ block) }
        ensures done { OnOk result (self.new.done ≡ 0) }
        ensures found { self.new.found ≡ false }
        ensures bytes { OnOk result (IfTold F.seen files.old (λ names.
            self.new.bytes ≡ pages_in names (heap_in heap.now) block)) }
        ensures known { OnOk result (IfTold F.seen files.old (λ names.
            AreKnown (table_seen names table.now) block self.new)) }
        ensures few { self.new.count ≤ 2042 }
        ensures empty { OnErr result (self.new.count ≡ 0) }
        ensures asked { AskedAtMost (block_reads heap.now block) F.seen files.old files.new result PageFault.ReadFault }
    {
        self.block = block;
        self.count = 0;
        self.done = 0;
        self.found = false;
        heap.heap().read_block(files, block, &mut self.bytes)?;
        self.know(files, table, heap.is_plain(block))
    }

    /// Whether an item of the page in hand is a live tuple, by its line pointer where the page is plain, and
    /// else by its state.
    #[inline]
    pub(crate) fn is_live_item(&self, pointer: LinePtr, item: u16) -> bool
        requires { pointer ≡ item_of self.now.bytes item }
        ensures { result ≡ is_live_in self.now item }
    {
        if self.plain {
            return pointer.flag.is_normal();
        }
        is_live(state_at(&self.states, item))
    }

    // Finds the values of the tuple at an item of the page in hand that are asked for; whether it is a live
    // tuple, and they were found.
    fn find_at<F: Files>(
        &mut self,
        files: &mut F,
        from: &ValueSources<'_>,
        columns: &[ColType],
        item: u16,
    ) -> Result<bool, PageFault>
        requires readable { IfTold F.seen files.old (λ names.
            IsReadableValue names (option_copied from.now.toast) from.now.chunks.now) }
        requires columns { columns.now ≡ map (λ c. c.ctype) from.now.columns.now }
        requires aligned { All HasAlignment columns.now }
        requires first { 1 ≤ item }
        requires last { item ≤ self.old.count }
        requires few { item ≤ 2042 }
        ensures none { Tells F.seen files.old result (λ found names. (case : CaseRecord) → found ≡ false
            → IsKnown case names (option_copied from.now.toast) from.now.chunks.now self.old item
            → AreValuesOf case names from.now → item_rows case names self.old.block self.old.bytes item ≡ []) }
        ensures row { Tells F.seen files.old result (λ found names. (case : CaseRecord) → found ≡ true
            → IsKnown case names (option_copied from.now.toast) from.now.chunks.now self.old item
            → AreValuesOf case names from.now → IsRowFound case names from.now.asked.now self.new item) }
        ensures places { IfOk result (λ found. found ≡ true
            → HasPlaces from.now.columns.now from.now.asked.now self.new) }
        ensures found { IfOk result (λ found. self.new.found ≡ found) }
        ensures err { OnErr result (self.new.found ≡ false) }
        ensures page { IsSamePage self.old self.new }
        ensures done { self.new.done ≡ self.old.done }
        ensures asked { AskedAtMost (row_reads (option_copied from.now.toast)
            (count_asked (length from.now.columns.now) from.now.asked.now)) F.seen files.old files.new result
            PageFault.ReadFault }
    {
        self.found = false;
        let pointer = line_pointer(&self.bytes, item);
        if !self.is_live_item(pointer, item) {
            return Ok(false);
        }
        let Some(mut attrs) = tuple_attributes(&self.bytes, pointer, columns) else {
            return Ok(false);
        };
        let len = attrs.body().len();
        let tuple = RowTuple {
            page: &self.bytes,
            start: pointer.off as usize + (pointer.len as usize - len),
            len,
        };
        let found = self.values.find(files, from, &tuple, &mut attrs)?;
        self.found = found;
        Ok(found)
    }

    /// Passes the items of the page in hand that are no live tuples, up to the next that is one, and finds
    /// its values that are asked for; whether there is one. After an error the same tuple is next.
    pub(crate) fn find<F: Files>(
        &mut self,
        files: &mut F,
        from: &ValueSources<'_>,
        columns: &[ColType],
    ) -> Result<bool, PageFault>
        requires readable { IfTold F.seen files.old (λ names.
            IsReadableValue names (option_copied from.now.toast) from.now.chunks.now) }
        requires columns { columns.now ≡ map (λ c. c.ctype) from.now.columns.now }
        requires aligned { All HasAlignment columns.now }
        ensures left { IfTold F.seen files.old (λ names. (case : CaseRecord)
            → IsInHand case names (option_copied from.now.toast) from.now.chunks.now self.old
            → AreValuesOf case names from.now → rows_in_hand case names self.new ≡ rows_in_hand case names self.old) }
        ensures next { Tells F.seen files.old result (λ found names. (case : CaseRecord) → found ≡ true
            → IsInHand case names (option_copied from.now.toast) from.now.chunks.now self.old
            → AreValuesOf case names from.now → IsNext case names from.now.asked.now self.new) }
        ensures none { Tells F.seen files.old result (λ found names. (case : CaseRecord) → found ≡ false
            → self.old.count ≤ 2042 → rows_in_hand case names self.new ≡ []) }
        ensures places { IfOk result (λ found. found ≡ true
            → HasPlaces from.now.columns.now from.now.asked.now self.new) }
        ensures few { IfOk result (λ found. found ≡ true → self.new.done < 2042) }
        ensures found { IfOk result (λ found. self.new.found ≡ found) }
        ensures err { OnErr result (self.new.found ≡ false) }
        ensures page { IsSamePage self.old self.new }
        ensures asked { AskedAtMost (row_reads (option_copied from.now.toast)
            (count_asked (length from.now.columns.now) from.now.asked.now) * 2042) F.seen files.old files.new result
            PageFault.ReadFault }
    {
        let count = self.count.min(MAX_ITEMS);
        for k in self.done..count {
            if self.find_at(files, from, columns, k + 1)? {
                return Ok(true);
            }
            self.done = k + 1;
        }
        self.found = false;
        Ok(false)
    }
}
