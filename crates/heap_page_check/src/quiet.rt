//! Quiet pages of a heap, as most are: each item is unused, or a live tuple of which hint bits and its header alone
//! tell that it breaks no rule, neither by itself nor with the other items. A look at each item tells such a page,
//! and no state of an item is kept.
ghost use Rattle.std.specs.Prelude.{◌≡◌, ◌-◌, ◌≤◌, [], ℕ, None, false, length, true};
ghost use Rattle.std.specs.Bool.{OnTrue};
ghost use Rattle.outside.specs.Outside.{Names};
ghost use Rattle.page_layout.specs.Items.{is_normal};
ghost use Rattle.page_layout.specs.Page.{HasItems, count_of, item_of, upper_of};
ghost use Rattle.page_layout.specs.View.{page_bytes};
ghost use Rattle.page_layout.specs.declared.rules.Rule.{Rule};
ghost use Rattle.rel_files.specs.Ranges.{is_xid_in_range};
ghost use Rattle.vis_map.specs.Rules.{IsMapRuleBroken};
ghost use Rattle.heap_page_check.specs.Found.{nothing_found};
ghost use Rattle.heap_page_check.specs.Pages.{found_by_rule, is_flagged_visible};
ghost use Rattle.heap_page_check.specs.Quiet.{IsPlain, IsQuietItem, IsQuietTuple, is_quiet_head};
ghost use Rattle.heap_page_check.specs.Storage.{AreAbove};
ghost use Rattle.heap_page_check.specs.Table.{AreReadable, chunks_seen, table_seen};

use crate::page::PageInHand;
use crate::table::{TableKind, TableRules};
use heap_tuples::are_inline;
use hot_chains::pages_without_chains;
use page_layout::{FIRST_NORMAL_XID, LineFlag, LinePtr, PAGE_BYTES, PageView};
use rel_files::{Cluster, xid_in_range};
use tuple_head::{HeapHead, heap_head, kept_rules_place_attributes};
use vis_map::map_rule;

// Whether hint bits tell that a tuple is live: a seen inserter, which was given out, committed, and xmax doesn't count
// or only locks; index entries name it; and where its block is called all-frozen, a freeze would change nothing of it.
fn is_quiet_head(head: &HeapHead, cluster: &Cluster, all_frozen: bool) -> bool
    ensures { result ≡ is_quiet_head (is_xid_in_range cluster.now) all_frozen head.now }
{
    !head.old_form()
        && head.is_xmin_committed()
        && (head.is_xmax_invalid() || head.locked_only())
        && !head.heap_only()
        && head.xmin_seen() != 0
        && (head.xmin_seen() < FIRST_NORMAL_XID || xid_in_range(cluster, head.xmin_seen()))
        && !(all_frozen && head.needs_freezing())
}

// Whether a tuple of a heap has such a header, which breaks no rule, and all its values are stored in line.
fn is_quiet_tuple(table: &TableRules<'_>, tuple: &[u8], all_frozen: bool) -> bool
    requires columns { AreReadable table.now.columns.now }
    requires long { 24 ≤ length tuple.now }
    requires page { length tuple.now ≤ 8192 }
    ensures { OnTrue result ((names : Names) → IsQuietTuple (table_seen names table.now) all_frozen tuple.now) }
{
    let head = heap_head(tuple);
    if !is_quiet_head(&head, &table.logs.cluster, all_frozen) {
        return false;
    }
    let columns = table.columns.as_slice().len() as u16;
    if let Some(_rule) = head.head_rule(columns, tuple.len() as u16) {
        return false;
    }
    kept_rules_place_attributes();
    are_inline(table.columns, tuple, &head)
}

/// A page whose items are looked at.
#[derive(Clone, Copy)]
struct Glance<'p> {
    table: &'p TableRules<'p>,
    page: PageView<'p>,
    // The page's upper place, in bytes from its start.
    upper: u16,
    // Whether the visibility map calls the block all-frozen.
    all_frozen: bool,
}

impl Glance<'_> {
    // Whether a normal item is such a tuple, and lies wholly below all items before it, the lowest byte of which is
    // given; then it is the lowest.
    fn is_quiet_normal(self, i: u16, item: LinePtr, lowest: &mut u16) -> bool
        requires columns { AreReadable self.table.now.columns.now }
        requires heap { self.table.now.kind ≡ TableKind.Heap }
        requires page { HasItems (page_bytes self.page) }
        requires upper { self.upper ≡ upper_of (page_bytes self.page) }
        requires first { 1 ≤ i }
        requires last { i ≤ count_of (page_bytes self.page) }
        requires item { item ≡ item_of (page_bytes self.page) i }
        requires normal { is_normal item.flag ≡ true }
        requires above { AreAbove (page_bytes self.page) (i - 1) lowest.old }
        ensures quiet { OnTrue result ((names : Names)
            → IsQuietItem (table_seen names self.entry.table.now) self.entry.all_frozen
            (page_bytes self.entry.page) i) }
        ensures above { OnTrue result (AreAbove (page_bytes self.entry.page) i lowest.new) }
    {
        if item.is_misplaced_heap_item(self.upper) || *lowest < item.off + item.len {
            return false;
        }
        *lowest = item.off;
        let tuple = self.page.piece(item.off, item.len);
        is_quiet_tuple(self.table, tuple, self.all_frozen)
    }

    // Whether an item is unused or such a tuple.
    fn is_quiet_item(self, i: u16, lowest: &mut u16) -> bool
        requires columns { AreReadable self.table.now.columns.now }
        requires heap { self.table.now.kind ≡ TableKind.Heap }
        requires page { HasItems (page_bytes self.page) }
        requires upper { self.upper ≡ upper_of (page_bytes self.page) }
        requires first { 1 ≤ i }
        requires last { i ≤ count_of (page_bytes self.page) }
        requires above { AreAbove (page_bytes self.page) (i - 1) lowest.old }
        ensures quiet { OnTrue result ((names : Names)
            → IsQuietItem (table_seen names self.entry.table.now) self.entry.all_frozen
            (page_bytes self.entry.page) i) }
        ensures above { OnTrue result (AreAbove (page_bytes self.entry.page) i lowest.new) }
    {
        let item = self.page.item(i);
        match item.flag {
            LineFlag::Normal => self.is_quiet_normal(i, item, lowest),
            LineFlag::Unused => true,
            LineFlag::Redirect => false,
            LineFlag::Dead => false,
        }
    }

    // Whether line pointers alone tell that an item isn't: it is dead or a redirect. So it is of most pages that aren't
    // quiet. Nothing is promised of that.
    fn has_other_pointers(self) -> bool
        requires { HasItems (page_bytes self.page) }
    {
        for k in 0..self.page.item_count() {
            match self.page.item(k + 1).flag {
                LineFlag::Normal | LineFlag::Unused => {}
                LineFlag::Redirect | LineFlag::Dead => return true,
            }
        }
        false
    }

    // Whether each item is.
    fn is_quiet(self) -> bool
        requires columns { AreReadable self.table.now.columns.now }
        requires heap { self.table.now.kind ≡ TableKind.Heap }
        requires page { HasItems (page_bytes self.page) }
        requires upper { self.upper ≡ upper_of (page_bytes self.page) }
        ensures { OnTrue result ((names : Names) (i : ℕ) → 1 ≤ i → i ≤ count_of (page_bytes self.entry.page)
            → IsQuietItem (table_seen names self.entry.table.now) self.entry.all_frozen
            (page_bytes self.entry.page) i) }
    {
        let mut lowest = PAGE_BYTES;
        for k in 0..self.page.item_count() {
            if !self.is_quiet_item(k + 1, &mut lowest) {
                return false;
            }
        }
        true
    }
}

// Whether what the map and the page say of a block breaks a rule whatever stands on the page.
fn breaks_bits(at: PageInHand<'_>) -> bool
    ensures { result ≡ false → (rule : Rule)
        → ¬ IsMapRuleBroken at.entry.bits (is_flagged_visible (page_bytes at.entry.view)) [] rule }
{
    map_rule(at.bits, at.is_flagged_visible(), &[]).is_some()
}

/// Whether a page whose header keeps its rules is a quiet one of a heap, as far as a look at its items tells it. Then
/// nothing is found of it, and it is plain. `false` says nothing.
#[tactic(auto, unfolding(page_layout::specs::Page::header_of))]
pub(crate) fn is_quiet_page(table: &TableRules<'_>, at: PageInHand<'_>) -> bool
    requires columns { AreReadable table.now.columns.now }
    requires page { HasItems (page_bytes at.view) }
    ensures nothing { OnTrue result ((names : Names) → found_by_rule (table_seen names table.now)
        (chunks_seen table.now.toast) at.entry.bits at.entry.block (page_bytes at.entry.view) None ≡ nothing_found) }
    ensures plain { OnTrue result ((names : Names) → IsPlain (table_seen names table.now) (page_bytes at.entry.view)) }
{
    pages_without_chains();
    if table.kind == TableKind::Toast {
        return false;
    }
    let header = at.view.header();
    // A tuple was deleted or updated there, and is not gone yet (`pd_prune_xid`).
    if header.prune_xid != 0 || breaks_bits(at) {
        return false;
    }
    let glance = Glance {
        table,
        page: at.view,
        upper: header.upper,
        all_frozen: at.bits.all_frozen,
    };
    !glance.has_other_pointers() && glance.is_quiet()
}
