//! The downlinks to a level, read one after the other along the level above: a cursor with one page in
//! hand, and no list.
ghost use Rattle.std.specs.Prelude.{◌≡◌, ◌≢◌, ◌<◌, ◌≤◌, ◌+◌, [], ◌∷◌, ℕ, List, length, option_map, slice_get, suc};
ghost use Rattle.std.specs.Prelude.{false, not, None, OnOk, Some};
ghost use Rattle.outside.specs.Outside.{Asked, AskedAtMost, IfTold};
ghost use Rattle.page_layout.specs.Page.{count_of, page_rule_of};
ghost use Rattle.page_layout.specs.View.{page_bytes};
ghost use Rattle.rel_files.specs.Faults.{read_fault};
ghost use Rattle.rel_files.specs.Relation.{IsAttached, count_of as blocks_of};
ghost use Rattle.laws_levels.specs.Same.{same_keys};
ghost use Rattle.laws_levels.specs.Meeting.{is_next, next_separator};
ghost use Rattle.laws_levels.specs.Tests.{same_bound};
ghost use Rattle.key_orders.specs.declared.columns.KeySpec.{KeySpec as Spec};
ghost use Rattle.key_orders.specs.declared.more.MoreSpec.{MoreSpec as More};
ghost use Rattle.key_orders.specs.Keys.{columns_of, tid_order};
ghost use Rattle.bt_meta.specs.Flags.{is_leaf};
ghost use Rattle.bt_meta.specs.Pages.{opaque_of};
ghost use Rattle.bt_image.specs.Image.{downlink_in, first_data, item_at};
ghost use Rattle.bt_image.specs.Pages.{IsPlainItem};
ghost use Rattle.bt_pages.specs.Trees.{tree_seen};
ghost use Rattle.bt_level_step.specs.Bounds.{IsBound};
ghost use Rattle.bt_level_check.specs.Budget.{TakesReads};
ghost use Rattle.bt_level_check.specs.Downlinks.{AreReadableDownlinks, HasAdvanced, IsSafeHand, IsSettled, IsSoundHand};
ghost use Rattle.bt_level_step.specs.Pages.{TreeDownlink};
ghost use Rattle.bt_level_check.specs.Downlinks.{Reads, bound_of, cursor_of, hand_after, hand_of, in_hand};
ghost use Rattle.bt_level_check.specs.Downlinks.{is_held};
ghost use Rattle.bt_level_check.specs.Downlinks.{is_settled, next_of, page_of, turns_of};
ghost use Rattle.bt_level_check.specs.Sets.{is_in};
ghost use Rattle.bt_level_check.specs.Trees.{HoldsPages};

use crate::block_set::BlockSet;
use bt_image::first_data;
use bt_level_step::{high_key_of, is_bound_of_item, is_same_bound};
use bt_meta::{HeadKind, opaque, tree_head};
use bt_pages::TreeRules;
use key_orders::Separator;
use outside::{Files, NoMemory};
use page_layout::{PageKind, PageView};
use rel_files::{PageFault, ReadFault};
use std::alloc::Global;

// What is in hand of the downlinks to a level.
#[derive(Clone, Copy)]
enum Hand {
    Nothing,
    // The root: the one downlink to the top level.
    Root(u32),
    // The data items of the page in hand, from this one on.
    Item(u16),
}

/// Where one stands among the downlinks to a level.
#[derive(Drop)]
pub struct Downlinks {
    // The page that was read last.
    page: [u8; 8192],
    hand: Hand,
    // The lower bound of the page in hand, or, where no item is in hand, of the page that is read next.
    lower: Option<Separator>,
    // The page of the level above that is read next, 0 where there is none.
    next: u32,
    // How many pages may still be read.
    turns_left: u32,
}

// Where the downlink of item i leads, or None where it can't be told.
fn downlink_at(page: PageView<'_>, i: u16) -> Option<u32>
    requires page { page_rule_of PageKind.Tree (page_bytes page) ≡ None }
    requires first { 1 ≤ i }
    requires last { i ≤ count_of (page_bytes page) }
    ensures { (specs : List Spec) (more : List More) → IsPlainItem specs more (page_bytes page.entry) i
        → is_leaf (opaque_of (page_bytes page.entry)) ≡ false
        → result ≡ Some (downlink_in (item_at specs more (page_bytes page.entry) i)) }
{
    let item = page.item(i);
    if item.is_misplaced_tree_item(page.header().upper) {
        return None;
    }
    let head = tree_head(page.piece(item.off, item.len));
    match head.kind {
        HeadKind::Pivot => Some(head.block),
        HeadKind::Plain | HeadKind::Posting => None,
    }
}

impl Downlinks {
    /// Before the one downlink to the top level. At most `turns` pages are read for the downlinks of all levels.
    pub fn to_root(root: u32, turns: u32) -> Downlinks
        ensures readable { (specs : List Spec) → AreReadableDownlinks specs result }
        ensures settled { IsSettled result }
        ensures sound { (specs : List Spec) (more : List More)
            → IsSoundHand specs more (page_of result) (hand_of result) }
        ensures hand { (specs : List Spec) (more : List More) → cursor_of specs more result
            ≡ record { items = (None, root) ∷ []; lower = None; block = 0 } }
        ensures turns { turns_of result ≡ turns }
    {
        Downlinks {
            page: [0; 8192],
            hand: Hand::Root(root),
            lower: None,
            next: 0,
            turns_left: turns,
        }
    }

    /// Before the first downlink of a level, which begins with this page.
    pub fn begin(&mut self, first: u32)
        ensures readable { (specs : List Spec) → AreReadableDownlinks specs self.new }
        ensures sound { (specs : List Spec) (more : List More)
            → IsSoundHand specs more (page_of self.new) (hand_of self.new) }
        ensures cursor { (specs : List Spec) (more : List More) → cursor_of specs more self.new
            ≡ record { items = []; lower = None; block = first } }
        ensures turns { turns_of self.new ≡ turns_of self.old }
    {
        self.hand = Hand::Nothing;
        self.lower = None;
        self.next = first;
    }

    // Whether a downlink is in hand, or none is left.
    fn is_settled(&self) -> bool
        ensures { result ≡ is_settled self.now }
    {
        match self.hand {
            Hand::Nothing => self.next == 0,
            Hand::Root(_) | Hand::Item(_) => true,
        }
    }

    /// Whether no downlink is in hand.
    pub fn is_empty(&self) -> bool
        ensures { result ≡ not (is_held (hand_of self.now)) }
    {
        match self.hand {
            Hand::Nothing => true,
            Hand::Root(_) | Hand::Item(_) => false,
        }
    }

    // Goes past the page that was read, whose data items are in hand then, unless it is dead.
    fn take(&mut self, is_dead: bool)
        requires nothing { is_held (hand_of self.old) ≡ false }
        ensures page { page_of self.new ≡ page_of self.old }
        ensures lower { bound_of self.new ≡ bound_of self.old }
        ensures turns { turns_of self.new ≡ turns_of self.old }
        ensures safe { IsSafeHand (page_of self.new) (hand_of self.new) }
        ensures taken { page_rule_of PageKind.Tree (page_of self.old) ≡ None
            → first_data (page_of self.old) ≤ count_of (page_of self.old)
            → (next_of self.new ≡ (opaque_of (page_of self.old)).next)
            × (hand_of self.new ≡ hand_after (page_of self.old) is_dead) }
    {
        let page = PageView::new(&self.page);
        if page.page_rule(PageKind::Tree).is_some() {
            self.next = 0;
            return;
        }
        let first = first_data(page);
        let has_data = first <= page.item_count();
        self.next = opaque(page).next;
        if has_data && !is_dead {
            self.hand = Hand::Item(first);
        }
    }

    // Reads the next page of the level above. Its data items are in hand then, unless it is dead.
    fn turn<F: Files>(
        &mut self,
        files: &mut F,
        tree: &TreeRules<'_>,
        dead: &BlockSet,
    ) -> Result<(), ReadFault>
        requires nothing { is_held (hand_of self.old) ≡ false }
        requires some { 0 < turns_of self.old }
        requires readable { AreReadableDownlinks tree.now.columns.specs.now self.old }
        requires blocks { length dead.now ≡ blocks_of tree.now.relation.now }
        requires attached { IfTold F.seen files.old (λ names. IsAttached names tree.now.relation.now) }
        ensures readable { AreReadableDownlinks tree.now.columns.specs.now self.new }
        ensures turns { turns_of self.new + 1 ≡ turns_of self.old }
        ensures reads { OnOk result (IfTold F.seen files.old (λ names. HoldsPages names tree.now
            → (level m : ℕ) (left : List TreeDownlink) → next_of self.old ≢ 0
            → Reads (tree_seen names tree.now) (is_in dead.now) (suc level) (suc m) self.old left
            → Reads (tree_seen names tree.now) (is_in dead.now) (suc level) m self.new left)) }
        ensures asked { AskedAtMost 1 F.seen files.old files.new result read_fault }
    {
        let b = self.next;
        self.next = 0;
        self.turns_left -= 1;
        if b < tree.relation.blocks() {
            tree.relation.read_block(files, b, &mut self.page)?;
            self.take(dead.has(b));
        }
        Ok(())
    }

    /// On to the next page with a downlink, if none is in hand and pages may still be read. `dead` has the
    /// pages of the level above that are dead. `ReadFault` comes only where the count of the files' faults
    /// rose.
    pub fn settle<F: Files>(
        &mut self,
        files: &mut F,
        tree: &TreeRules<'_>,
        dead: &BlockSet,
    ) -> Result<(), ReadFault>
        requires readable { AreReadableDownlinks tree.now.columns.specs.now self.old }
        requires blocks { length dead.now ≡ blocks_of tree.now.relation.now }
        requires attached { IfTold F.seen files.old (λ names. IsAttached names tree.now.relation.now) }
        ensures readable { AreReadableDownlinks tree.now.columns.specs.now self.new }
        ensures reads { OnOk result (IfTold F.seen files.old (λ names. HoldsPages names tree.now
            → (level : ℕ) (left : List TreeDownlink)
            → Reads (tree_seen names tree.now) (is_in dead.now) (suc level) (turns_of self.old) self.old left
            → Reads (tree_seen names tree.now) (is_in dead.now) (suc level) (turns_of self.new) self.new left
            × IsSettled self.new)) }
        ensures fewer { turns_of self.new ≤ turns_of self.old }
        ensures taken { TakesReads F.seen files.old files.new 0 (turns_of self.old) (turns_of self.new) }
        ensures asked { Asked F.seen files.old files.new result read_fault }
    {
        while self.turns_left > 0 {
            if self.is_settled() {
                return Ok(());
            }
            self.turn(files, tree, dead)?;
        }
        Ok(())
    }

    /// Where the next downlink leads, or None where none is in hand.
    pub fn target(&self) -> Option<u32>
        requires hand { IsSafeHand (page_of self.now) (hand_of self.now) }
        ensures { (specs : List Spec) (more : List More)
            → IsSoundHand specs more (page_of self.now) (hand_of self.now)
            → result ≡ option_map (λ d. d.1) (slice_get (in_hand specs more self.now) 0) }
    {
        match self.hand {
            Hand::Nothing => None,
            Hand::Root(b) => Some(b),
            Hand::Item(i) => downlink_at(PageView::new(&self.page), i),
        }
    }

    /// Whether the next downlink leads to this block.
    pub fn leads_to(&self, b: u32) -> bool
        requires hand { IsSafeHand (page_of self.now) (hand_of self.now) }
        ensures { (specs : List Spec) (more : List More)
            → IsSoundHand specs more (page_of self.now) (hand_of self.now)
            → result ≡ is_next (in_hand specs more self.now) b }
    {
        match self.target() {
            Some(target) => target == b,
            None => false,
        }
    }

    /// Whether the separator of the next downlink is this lower bound. That of the first downlink of a page
    /// is the page's own lower bound.
    pub fn is_bound(&self, tree: &TreeRules<'_>, lower: &Option<Separator>) -> bool
        requires readable { AreReadableDownlinks tree.now.columns.specs.now self.now }
        requires lower { IsBound tree.now.columns.specs.now lower.now }
        ensures { IsSoundHand tree.now.columns.specs.now tree.now.columns.more.now (page_of self.now) (hand_of self.now)
            → result ≡ same_bound (same_keys (columns_of tree.now.columns.specs.now) tid_order)
            (next_separator (in_hand tree.now.columns.specs.now tree.now.columns.more.now self.now)) lower.now }
    {
        match self.hand {
            Hand::Nothing | Hand::Root(_) => lower.is_none(),
            Hand::Item(i) => {
                let page = PageView::new(&self.page);
                if i == first_data(page) {
                    is_same_bound(tree, &self.lower, lower)
                } else {
                    is_bound_of_item(tree, page, i, lower)
                }
            }
        }
    }

    // Past the next downlink, without a look at a further page.
    fn advance(&mut self, alloc: Global, tree: &TreeRules<'_>) -> Result<(), NoMemory>
        requires readable { AreReadableDownlinks tree.now.columns.specs.now self.old }
        ensures readable { AreReadableDownlinks tree.now.columns.specs.now self.new }
        ensures turns { turns_of self.new ≡ turns_of self.old }
        ensures advanced { OnOk result ((d : TreeDownlink) (ds : List TreeDownlink)
            → IsSoundHand tree.now.columns.specs.now tree.now.columns.more.now (page_of self.old) (hand_of self.old)
            → in_hand tree.now.columns.specs.now tree.now.columns.more.now self.old ≡ d ∷ ds
            → HasAdvanced tree.now.columns.specs.now tree.now.columns.more.now self.old self.new ds) }
    {
        match self.hand {
            Hand::Nothing => {}
            Hand::Root(_) => self.hand = Hand::Nothing,
            Hand::Item(i) => {
                let page = PageView::new(&self.page);
                if i < page.item_count() {
                    self.hand = Hand::Item(i + 1);
                } else {
                    let lower = high_key_of(alloc, tree, page)?;
                    self.lower = lower;
                    self.hand = Hand::Nothing;
                }
            }
        }
        Ok(())
    }

    /// Past the next downlink, and on to the next page with one where it was the last of its page.
    pub fn pass<F: Files>(
        &mut self,
        alloc: Global,
        files: &mut F,
        tree: &TreeRules<'_>,
        dead: &BlockSet,
    ) -> Result<(), PageFault>
        requires readable { AreReadableDownlinks tree.now.columns.specs.now self.old }
        requires blocks { length dead.now ≡ blocks_of tree.now.relation.now }
        requires attached { IfTold F.seen files.old (λ names. IsAttached names tree.now.relation.now) }
        ensures readable { AreReadableDownlinks tree.now.columns.specs.now self.new }
        ensures reads { OnOk result (IfTold F.seen files.old (λ names. HoldsPages names tree.now
            → (level : ℕ) (d : TreeDownlink) (left : List TreeDownlink) → IsSettled self.old
            → Reads (tree_seen names tree.now) (is_in dead.now) (suc level) (turns_of self.old) self.old (d ∷ left)
            → Reads (tree_seen names tree.now) (is_in dead.now) (suc level) (turns_of self.new) self.new left
            × IsSettled self.new)) }
        ensures fewer { turns_of self.new ≤ turns_of self.old }
        ensures taken { TakesReads F.seen files.old files.new 0 (turns_of self.old) (turns_of self.new) }
        ensures asked { Asked F.seen files.old files.new result PageFault.ReadFault }
    {
        self.advance(alloc, tree)?;
        self.settle(files, tree, dead)?;
        Ok(())
    }
}
