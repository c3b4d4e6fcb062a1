//! The keys of an item, read into a place that is at hand: what a loop over the items of a page asks of
//! each.
ghost use Rattle.std.specs.Prelude.{◌≡◌, ◌≤◌, ◌+◌, ◌*◌, [], Bool, length, None, IfErr, IfOk, Err};
ghost use Rattle.page_layout.specs.Page.{count_of, page_rule_of};
ghost use Rattle.page_layout.specs.View.{page_bytes};
ghost use Rattle.key_orders.specs.Separators.{separator_of};
ghost use Rattle.bt_meta.specs.Heads.{tree_head_of};
ghost use Rattle.bt_tuples.specs.Items.{item_outcome, tuple_outcome};
ghost use Rattle.bt_tuples.specs.Keys.{HasKeys, first_tid_in, last_tid_in};
ghost use Rattle.bt_tuples.specs.Tuples.{number_of};

use crate::heads::number_of;
use crate::items::{ItemFault, Spot3, plain_tid};
use crate::tids::TidList;
use crate::tuples::{kept_tid, read_tuple};
use bt_meta::{HeadKind, TreeHead};
use key_attrs::IndexColumns;
use key_orders::{SepRef, Tid};
use page_layout::{PageKind, PageView, Rule};

/// The keys of an item's first entry and of its last one, which differ in their TIDs alone; of a
/// pivot both are what it keeps.
#[derive(Drop)]
pub struct ItemKeys<'p> {
    /// The key of the first entry.
    pub first: SepRef<'p>,
    /// The TID of the last one.
    pub last: Option<Tid>,
}

// The TID of a tuple's first entry; of a pivot the one that it keeps.
#[inline]
fn first_tid(tuple: &[u8], head: TreeHead) -> Option<Tid>
    requires long { 8 ≤ length tuple.now }
    requires head { head ≡ tree_head_of tuple.now }
    requires within { head.kind ≡ HeadKind.Posting → head.block + 6 * number_of head ≤ length tuple.now }
    ensures { result ≡ first_tid_in head.kind tuple.now }
{
    match head.kind {
        HeadKind::Pivot => kept_tid(tuple, head),
        HeadKind::Plain => Some(plain_tid(head)),
        HeadKind::Posting => {
            Some(TidList::at(tuple, head.block as usize, number_of(head)).first())
        }
    }
}

// The TID of its last entry.
#[inline]
fn last_tid(tuple: &[u8], head: TreeHead) -> Option<Tid>
    requires long { 8 ≤ length tuple.now }
    requires head { head ≡ tree_head_of tuple.now }
    requires within { head.kind ≡ HeadKind.Posting → head.block + 6 * number_of head ≤ length tuple.now }
    ensures { result ≡ last_tid_in head.kind tuple.now }
{
    match head.kind {
        HeadKind::Pivot => kept_tid(tuple, head),
        HeadKind::Plain => Some(plain_tid(head)),
        HeadKind::Posting => {
            Some(TidList::at(tuple, head.block as usize, number_of(head)).last())
        }
    }
}

// Reads the keys of the item in these bytes, at a place of this kind.
#[inline(always)]
fn read_tuple_keys<'p>(
    columns: &IndexColumns<'_>,
    spot: Spot3,
    tuple: &'p [u8],
    keys: &mut ItemKeys<'p>,
) -> Result<(), ItemFault>
    requires long { 8 ≤ length tuple.now }
    ensures keys { IfOk result (λ u. (killed : Bool)
        → HasKeys columns.now.specs.now
        (tuple_outcome columns.now.specs.now columns.now.more.now spot tuple.now killed) keys.new) }
    ensures fault { IfErr result (λ e. (killed : Bool)
        → tuple_outcome columns.now.specs.now columns.now.more.now spot tuple.now killed ≡ Err e) }
{
    match read_tuple(columns, spot, tuple, &mut keys.first.kept) {
        Err(fault) => Err(fault),
        Ok(head) => {
            keys.first.tid = first_tid(tuple, head);
            keys.last = last_tid(tuple, head);
            Ok(())
        }
    }
}

impl<'p> ItemKeys<'p> {
    /// Keys that keep nothing.
    #[inline]
    pub fn new() -> ItemKeys<'p>
        ensures { separator_of result.first ≡ record { kept = []; tid = None } }
    {
        ItemKeys {
            first: SepRef::new(),
            last: None,
        }
    }

    /// Reads the keys of item i of a tree page, counted from 1, at a place of this kind, in an index
    /// with these key columns and these included ones. Nothing is copied: values lie on the page.
    ///
    /// It answers as [`tree_item`](crate::tree_item) does, and has the keys of that item; after a fault
    /// it has nothing that means anything.
    #[inline]
    #[tactic(auto, unfolding(crate::specs::Items::item_outcome))]
    pub fn read(
        &mut self,
        page: PageView<'p>,
        i: u16,
        columns: &IndexColumns<'_>,
        spot: Spot3,
    ) -> Result<(), ItemFault>
        requires page { page_rule_of PageKind.Tree (page_bytes page) ≡ None }
        requires first { 1 ≤ i }
        requires last { i ≤ count_of (page_bytes page) }
        ensures keys { IfOk result (λ u.
            HasKeys columns.now.specs.now (item_outcome columns.now.specs.now columns.now.more.now spot
            (page_bytes page.entry) i) self.new) }
        ensures fault { IfErr result (λ e.
            item_outcome columns.now.specs.now columns.now.more.now spot (page_bytes page.entry) i ≡ Err e) }
    {
        let at = page.item(i);
        if at.is_misplaced_tree_item(page.upper()) {
            return Err(ItemFault::Broken(Rule::B5));
        }
        read_tuple_keys(columns, spot, page.piece(at.off, at.len), self)
    }

    /// Makes the key of the last entry that of the first, to compare the next item with.
    #[inline]
    pub fn keep_last(&mut self)
        ensures { separator_of self.new.first ≡ record { kept = self.old.first.kept; tid = self.old.last } }
    {
        self.first.tid = self.last;
    }
}
