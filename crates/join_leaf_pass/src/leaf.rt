//! The entries of a leaf, against what they may name.
ghost use Rattle.std.specs.Prelude.{◌≡◌, ◌<◌, ◌≤◌, ◌-◌, List, None, OnOk, Some, true, ℕ};
ghost use Rattle.std.specs.Bool.{OnTrue};
ghost use Rattle.outside.specs.Adds.{AddsIn};
ghost use Rattle.page_layout.specs.Page.{count_of, page_rule_of};
ghost use Rattle.page_layout.specs.View.{page_bytes};
ghost use Rattle.key_attrs.specs.Columns.{TreeColumns, tree_columns};
ghost use Rattle.bt_image.specs.Image.{first_data, page_entries};
ghost use Rattle.bt_steps.specs.Entries.{IsRead};
ghost use Rattle.bt_steps.specs.Pages.{IsReadable, is_live_leaf};
ghost use Rattle.heap_targets.specs.Targets.{is_in};
ghost use Rattle.join_meet.specs.Meeting.{HaveMet, entries_at, leaf_entries};
ghost use Rattle.join_leaf_pass.specs.Passes.{AreTargets};
ghost use Rattle.reports.specs.Added.{report_lists};
ghost use Rattle.join_distinct.specs.Apart.{IsApart};
ghost use Rattle.join_distinct.specs.Items.{RisesTo};
ghost use Rattle.join_rules.specs.Lists.{entry_lists, item_lists, items_lists, leaf_lists, tids_lists};

use crate::spans::Span;
use bt_image::first_data;
use bt_steps::is_live_leaf;
use bt_tuples::{Spot3, TidList, TreeItem, plain_entry, tree_item};
use heap_targets::RootSet;
use join_distinct::{Rise, is_page_apart};
use join_meet::{RowsAhead, are_far, glanced_tid, meet_entry, meet_read_item};
use join_slots::RowSlots;
use key_attrs::IndexColumns;
use key_orders::Tid;
use outside::NoMemory;
use page_layout::{PageKind, PageView, Rule};
use reports::{Place, Report};

/// An index, by its number in the case, from 1, and its columns; and the set of what its entries may name.
#[derive(Clone, Copy)]
pub struct Named<'a> {
    pub number: u16,
    pub columns: IndexColumns<'a>,
    pub targets: &'a RootSet,
}

/// What looks at the entries of leaves leave beside what is found.
#[derive(Drop)]
pub struct Seen {
    /// The rows that the entries of the last leaf name.
    pub ahead: RowsAhead,
    /// How the keys of that leaf stand to each other.
    pub rise: Rise,
    /// Which heap blocks the entries of that leaf name.
    pub span: Span,
    /// Whether no two entries of the index have the same values, as far as the leaves were looked at; `false` where it
    /// isn't asked.
    pub apart: bool,
    // What was looked at ahead, which means nothing.
    touched: bool,
}

// How keys stand before the first item of a leaf, where that is asked.
fn before_items(asked: bool) -> Rise
    ensures { (columns : TreeColumns) (page : List ℕ) → RisesTo columns page 0 result }
{
    if asked {
        return Rise::Begins;
    }
    Rise::Untold
}

impl Seen {
    /// No leaf was looked at, and it is asked whether keys are apart, or not.
    pub fn new(apart: bool) -> Seen
        ensures { result.apart ≡ apart }
    {
        Seen {
            ahead: RowsAhead::new(),
            rise: Rise::Untold,
            span: Span::none(),
            apart,
            touched: false,
        }
    }

    /// Begins with the next leaf. How its keys stand isn't asked where it is known that some are the same.
    pub fn begin(&mut self)
        ensures rise { (columns : TreeColumns) (page : List ℕ) → RisesTo columns page 0 self.new.rise }
        ensures apart { self.new.apart ≡ self.old.apart }
    {
        self.ahead.clear();
        self.span = Span::none();
        self.rise = before_items(self.apart);
    }

    // Tells ahead a line pointer that an entry names; what was found of it means nothing.
    fn name(&mut self, tid: Tid, found: bool)
        ensures rise { self.new.rise ≡ self.old.rise }
        ensures apart { self.new.apart ≡ self.old.apart }
    {
        self.ahead.add(tid);
        self.touched = self.touched != found;
    }

    /// Whether no two entries have the same values, of those of this leaf and of those that were looked at before.
    /// `false` says nothing.
    pub fn is_still_apart(&self, page: &[u8; 8192], columns: &IndexColumns<'_>) -> bool
        requires rise { is_live_leaf page.now ≡ true → page_rule_of PageKind.Tree page.now ≡ None
            → RisesTo (tree_columns columns.now) page.now (count_of page.now) self.now.rise }
        ensures { OnTrue result ((self.now.apart ≡ true)
            × (is_live_leaf page.now ≡ true → IsApart (tree_columns columns.now) page.now)) }
    {
        if !self.apart {
            return false;
        }
        is_page_apart(page, columns, self.rise)
    }
}

// Where an item of a leaf stands.
#[derive(Clone, Copy)]
struct ItemAt {
    block: u32,
    item: u16,
}

impl Named<'_> {
    // Judges one TID of an item.
    fn judge_tid(
        self,
        at: ItemAt,
        tid: Tid,
        span: &mut Span,
        report: &mut Report,
    ) -> Result<(), NoMemory>
        ensures { AddsIn report_lists result report.old report.new
            (entry_lists self.entry.number (is_in self.entry.targets.now) at.block at.item tid) }
    {
        span.add(tid.block);
        if self.targets.has(tid) {
            return Ok(());
        }
        let place = Place::Entry(self.number, at.block, at.item, tid);
        report.add_rule(place, Some(Rule::X2))
    }

    // Judges the TIDs of a list.
    fn judge_list(
        self,
        at: ItemAt,
        tids: &TidList<'_>,
        span: &mut Span,
        report: &mut Report,
    ) -> Result<(), NoMemory>
        ensures { AddsIn report_lists result report.old report.new
            (tids_lists self.entry.number (is_in self.entry.targets.now) at.block at.item tids.now) }
    {
        for k in 0..tids.len() {
            self.judge_tid(at, tids.get(k), span, report)?;
        }
        Ok(())
    }

    // Judges an item of a leaf, if it is a data item, and has its entries meet their rows. Of an entry that met its row
    // by its number nothing else is asked: the row's root is what it names.
    fn judge_item(
        self,
        page: PageView<'_>,
        at: ItemAt,
        seen: &mut Seen,
        slots: &mut RowSlots,
        report: &mut Report,
    ) -> Result<(), NoMemory>
        requires page { page_rule_of PageKind.Tree (page_bytes page) ≡ None }
        requires first { 1 ≤ at.item }
        requires last { at.item ≤ count_of (page_bytes page) }
        ensures met { first_data (page_bytes page.entry) ≤ at.item
            → IsRead (tree_columns self.entry.columns) (page_bytes page.entry) at.item
            → HaveMet (entries_at (tree_columns self.entry.columns) (page_bytes page.entry) at.item)
            slots.old slots.new }
        ensures before { at.item < first_data (page_bytes page.entry) → slots.new ≡ slots.old }
        ensures lists { AreTargets (Some self.entry.targets.now) slots.old
            → (first_data (page_bytes page.entry) ≤ at.item
            → IsRead (tree_columns self.entry.columns) (page_bytes page.entry) at.item)
            → AddsIn report_lists result report.old report.new
            (item_lists self.entry.number (tree_columns self.entry.columns)
            (is_in self.entry.targets.now) at.block (page_bytes page.entry) at.item) }
        ensures rise { RisesTo (tree_columns self.entry.columns) (page_bytes page.entry) (at.item - 1) seen.old.rise
            → RisesTo (tree_columns self.entry.columns) (page_bytes page.entry) at.item seen.new.rise }
        ensures apart { seen.new.apart ≡ seen.old.apart }
    {
        if at.item < first_data(page) {
            return Ok(());
        }
        if let Some(entry) = plain_entry(page, at.item) {
            seen.rise.add(&self.columns, entry.body);
            if meet_entry(slots, &self.columns, entry) {
                seen.span.add(entry.tid.block);
                return Ok(());
            }
            return self.judge_tid(at, entry.tid, &mut seen.span, report);
        }
        seen.rise = Rise::Untold;
        self.judge_any_item(page, at, &mut seen.span, slots, report)
    }

    // Judges a data item of any form, which is read once, and has its entries meet their rows. It stays a call: in
    // line, the places of a key's values would be set to zero for each item, and nearly all items are one entry.
    #[inline(never)]
    fn judge_any_item(
        self,
        page: PageView<'_>,
        at: ItemAt,
        span: &mut Span,
        slots: &mut RowSlots,
        report: &mut Report,
    ) -> Result<(), NoMemory>
        requires page { page_rule_of PageKind.Tree (page_bytes page) ≡ None }
        requires first { 1 ≤ at.item }
        requires from { first_data (page_bytes page) ≤ at.item }
        requires last { at.item ≤ count_of (page_bytes page) }
        ensures met { IsRead (tree_columns self.entry.columns) (page_bytes page.entry) at.item
            → HaveMet (entries_at (tree_columns self.entry.columns) (page_bytes page.entry) at.item)
            slots.old slots.new }
        ensures lists { IsRead (tree_columns self.entry.columns) (page_bytes page.entry) at.item
            → AddsIn report_lists result report.old report.new
            (item_lists self.entry.number (tree_columns self.entry.columns)
            (is_in self.entry.targets.now) at.block (page_bytes page.entry) at.item) }
    {
        let Ok(item) = tree_item(page, at.item, &self.columns, Spot3::LeafItem) else {
            return Ok(());
        };
        meet_read_item(slots, &item);
        match item {
            TreeItem::Plain { tid, .. } => self.judge_tid(at, tid, span, report),
            TreeItem::Posting { tids, .. } => self.judge_list(at, &tids, span, report),
            TreeItem::Pivot { .. } => Ok(()),
        }
    }

    // Judges the items of a leaf, and has its entries meet their rows.
    fn judge_items(
        self,
        page: PageView<'_>,
        block: u32,
        seen: &mut Seen,
        slots: &mut RowSlots,
        report: &mut Report,
    ) -> Result<(), NoMemory>
        requires page { page_rule_of PageKind.Tree (page_bytes page) ≡ None }
        ensures met { OnOk result (IsReadable (tree_columns self.entry.columns) (page_bytes page.entry)
            → is_live_leaf (page_bytes page.entry) ≡ true
            → HaveMet (page_entries self.entry.columns.specs.now self.entry.columns.more.now (page_bytes page.entry))
            slots.old slots.new) }
        ensures lists { AreTargets (Some self.entry.targets.now) slots.old
            → IsReadable (tree_columns self.entry.columns) (page_bytes page.entry)
            → is_live_leaf (page_bytes page.entry) ≡ true
            → AddsIn report_lists result report.old report.new
            (items_lists self.entry.number (tree_columns self.entry.columns)
            (is_in self.entry.targets.now) block (page_bytes page.entry)) }
        ensures rise { RisesTo (tree_columns self.entry.columns) (page_bytes page.entry) 0 seen.old.rise
            → OnOk result (RisesTo (tree_columns self.entry.columns) (page_bytes page.entry)
            (count_of (page_bytes page.entry)) seen.new.rise) }
        ensures apart { seen.new.apart ≡ seen.old.apart }
    {
        for i in 0..page.item_count() {
            self.judge_item(page, ItemAt { block, item: i + 1 }, seen, slots, report)?;
        }
        Ok(())
    }

    // Reads ahead what is kept of the rows that the items of a page name, as a glance at each tells it, and what the
    // set has of those outside the range. What is found means nothing.
    fn touch(self, page: PageView<'_>, seen: &mut Seen, slots: &mut RowSlots)
        requires { page_rule_of PageKind.Tree (page_bytes page) ≡ None }
        ensures slots { slots.new ≡ slots.old }
        ensures rise { seen.new.rise ≡ seen.old.rise }
        ensures apart { seen.new.apart ≡ seen.old.apart }
    {
        for k in 0..page.item_count() {
            if let Some(tid) = glanced_tid(page, k + 1) {
                seen.name(tid, slots.covers(tid.block) || self.targets.has(tid));
            }
        }
        slots.touch(seen.ahead.as_slice());
    }

    // Where the entries of a leaf name blocks far from each other, has all that is asked of them at hand before the
    // first is looked at, so that none is waited for alone.
    fn look_ahead(self, page: PageView<'_>, seen: &mut Seen, slots: &mut RowSlots)
        requires { page_rule_of PageKind.Tree (page_bytes page) ≡ None }
        ensures slots { slots.new ≡ slots.old }
        ensures rise { seen.new.rise ≡ seen.old.rise }
        ensures apart { seen.new.apart ≡ seen.old.apart }
    {
        let count = page.item_count();
        if count < 3 {
            return;
        }
        if let (Some(first), Some(last)) = (glanced_tid(page, 2), glanced_tid(page, count)) {
            if are_far(first, last) {
                self.touch(page, seen, slots);
            }
        }
    }

    /// Judges the entries of a page, if it is a leaf in use that isn't half-dead, killed entries among them, and adds
    /// each that names what it may not; those that aren't killed meet the rows that they name. The numbers of their
    /// keys are told to what is known of these.
    pub fn judge_page(
        self,
        page: &[u8; 8192],
        block: u32,
        seen: &mut Seen,
        slots: &mut RowSlots,
        report: &mut Report,
    ) -> Result<(), NoMemory>
        ensures met { OnOk result ((is_live_leaf page.now ≡ true
            → IsReadable (tree_columns self.entry.columns) page.now)
            → HaveMet (leaf_entries (tree_columns self.entry.columns) page.now) slots.old slots.new) }
        ensures lists { AreTargets (Some self.entry.targets.now) slots.old
            → (is_live_leaf page.now ≡ true → IsReadable (tree_columns self.entry.columns) page.now)
            → AddsIn report_lists result report.old report.new
            (leaf_lists self.entry.number (tree_columns self.entry.columns)
            (is_in self.entry.targets.now) block page.now) }
        ensures rise { RisesTo (tree_columns self.entry.columns) page.now 0 seen.old.rise
            → is_live_leaf page.now ≡ true → page_rule_of PageKind.Tree page.now ≡ None
            → OnOk result (RisesTo (tree_columns self.entry.columns) page.now (count_of page.now) seen.new.rise) }
        ensures apart { seen.new.apart ≡ seen.old.apart }
    {
        let page = PageView::new(page);
        if !is_live_leaf(page) || page.page_rule(PageKind::Tree).is_some() {
            return Ok(());
        }
        self.look_ahead(page, seen, slots);
        self.judge_items(page, block, seen, slots, report)
    }
}
