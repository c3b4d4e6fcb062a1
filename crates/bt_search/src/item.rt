//! An item of a leaf, as a scan reads it: what becomes of its entries, how many they are, and their TIDs.
ghost use Rattle.std.specs.Prelude.{◌≡◌, ◌≤◌, ◌<◌, ◌+◌, ◌*◌, ◌↔◌, ℕ, None, Some, IfSome, IsSome, length, slice_get};
ghost use Rattle.page_layout.specs.Page.{count_of, page_rule_of};
ghost use Rattle.page_layout.specs.View.{page_bytes};
ghost use Rattle.laws_search.specs.Keys.{Entry as Given};
ghost use Rattle.key_orders.specs.declared.columns.Value.{Value};
ghost use Rattle.key_orders.specs.declared.Tid.{Tid as Place};
ghost use Rattle.key_orders.specs.Keys.{IsKey};
ghost use Rattle.key_orders.specs.Scans.{FitsKey, back_of, scan_of};
ghost use Rattle.key_attrs.specs.Columns.{TreeColumns as Columns};
ghost use Rattle.bt_meta.specs.Heads.{tree_head_of};
ghost use Rattle.bt_tuples.specs.Items.{is_dead};
ghost use Rattle.bt_tuples.specs.Tuples.{tid_at};
ghost use Rattle.bt_levels.specs.Sound.{index_columns, specs_of};
ghost use Rattle.bt_steps.specs.Entries.{IsRead, keys_at};
ghost use Rattle.bt_search.specs.Items.{HasFate, back_on, entries_by, is_past, tid_by};
ghost use Rattle.bt_search.specs.Spots.{scan_on};

use crate::descent::Search;
use crate::spot::Spot;
use bt_meta::{BT_OFFSET_LIMIT, HeadKind, TID_LEN, TreeHead, tree_head};
use bt_tuples::{ItemKeys, Spot3};
use key_orders::{KeyRefs, KeySpec, Scan, Tid, before_low, matches, past_high};
use page_layout::{LineFlag, PageKind, PageView, block_at, u16_at};

// The TID of no tuple.
const NO_TID: Tid = Tid { block: 0, item: 0 };

/// The bound at which a scan ends.
#[derive(Clone, Copy, Debug, PartialEq, Eq)]
pub enum ScanEnd {
    /// The high one, of a scan forward: it ends at an entry that is past it.
    High,
    /// The low one, of a scan backward: it ends at an entry that is before it.
    Low,
}

/// What a scan does with an entry.
#[derive(Clone, Copy, Debug, PartialEq, Eq)]
pub enum Fate {
    /// It ends: the entry is past the bound at which it ends.
    Past,
    /// It yields the entry.
    Wanted,
    /// It passes over it.
    Other,
}

/// What a scan does with each entry of an item, and how many there are.
#[derive(Clone, Copy, Debug, PartialEq, Eq)]
pub struct ItemFate {
    pub fate: Fate,
    pub count: u16,
}

// Whether an entry with this key is past the bound at which a scan ends.
#[inline]
fn is_past(specs: &[KeySpec], scan: &Scan, end: ScanEnd, key: &KeyRefs<'_>) -> bool
    requires fits { FitsKey specs.now scan.now }
    requires key { IsKey specs.now key.now }
    ensures { (e : Given Value Place) → e.values ≡ key.now
        → result ≡ is_past (scan_of specs.now scan.now) (back_of specs.now scan.now) end e }
{
    match end {
        ScanEnd::High => past_high(specs, scan, key),
        ScanEnd::Low => before_low(specs, scan, key),
    }
}

// What a scan does with entries of this key.
#[inline]
fn fate_of(specs: &[KeySpec], scan: &Scan, end: ScanEnd, key: &KeyRefs<'_>, killed: bool) -> Fate
    requires fits { FitsKey specs.now scan.now }
    requires key { IsKey specs.now key.now }
    ensures { (e : Given Value Place) → e.values ≡ key.now → e.killed ≡ killed
        → HasFate (scan_of specs.now scan.now) (back_of specs.now scan.now) end result e }
{
    if is_past(specs, scan, end, key) {
        Fate::Past
    } else if matches(specs, scan, key) && !killed {
        Fate::Wanted
    } else {
        Fate::Other
    }
}

// How many entries a tuple of a leaf with this head has.
#[inline]
fn entries_by(head: TreeHead) -> u16
    ensures { result ≡ entries_by head.kind head }
{
    match head.kind {
        HeadKind::Pivot => 0,
        HeadKind::Plain => 1,
        HeadKind::Posting => head.item % BT_OFFSET_LIMIT,
    }
}

/// How many entries item i of a leaf has, counted from 1, by its head alone: an item that can be read as one of a leaf.
#[inline]
pub fn entries_at(page: PageView<'_>, i: u16) -> u16
    requires page { page_rule_of PageKind.Tree (page_bytes page) ≡ None }
    requires first { 1 ≤ i }
    requires last { i ≤ count_of (page_bytes page) }
    ensures { (columns : Columns) → IsRead columns (page_bytes page.entry) i
        → result ≡ length (keys_at columns (page_bytes page.entry) i) }
{
    let item = page.item(i);
    if item.is_misplaced_tree_item(page.upper()) {
        return 0;
    }
    entries_by(tree_head(page.piece(item.off, item.len)))
}

// The TID in the 6 bytes at a place, where the tuple has them.
#[inline]
#[tactic(auto, unfolding(bt_tuples::specs::Tuples::tid_at))]
fn listed_tid(tuple: &[u8], at: usize) -> Tid
    ensures { at + 6 ≤ length tuple.now → result ≡ tid_at tuple.now at }
{
    if tuple.len() < TID_LEN || tuple.len() - TID_LEN < at {
        return NO_TID;
    }
    Tid {
        block: block_at(tuple, at),
        item: u16_at(tuple, at + 4),
    }
}

// The TID of a tuple's entry with a number, counted from 0.
#[inline]
fn tid_by(tuple: &[u8], head: TreeHead, nth: u16) -> Tid
    requires head { head ≡ tree_head_of tuple.now }
    ensures { (head.kind ≡ HeadKind.Posting → head.block + 6 * nth + 6 ≤ length tuple.now)
        → result ≡ tid_by head.kind tuple.now nth }
{
    match head.kind {
        HeadKind::Posting => listed_tid(tuple, head.block as usize + TID_LEN * nth as usize),
        HeadKind::Pivot | HeadKind::Plain => Tid {
            block: head.block,
            item: head.item,
        },
    }
}

/// The TID of the entry at a place of a leaf, by the bytes of its item alone: an entry that can be read
/// ([`entry_at`](crate::entry_at)).
#[inline]
pub fn tid_on(page: PageView<'_>, at: Spot) -> Tid
    requires page { page_rule_of PageKind.Tree (page_bytes page) ≡ None }
    requires first { 1 ≤ at.item }
    requires last { at.item ≤ count_of (page_bytes page) }
    ensures { (columns : Columns) (e : Given Value Place) → IsRead columns (page_bytes page.entry) at.item
        → slice_get (keys_at columns (page_bytes page.entry) at.item) at.nth ≡ Some e → result ≡ e.tid }
{
    let item = page.item(at.item);
    if item.is_misplaced_tree_item(page.upper()) {
        return NO_TID;
    }
    let tuple = page.piece(item.off, item.len);
    tid_by(tuple, tree_head(tuple), at.nth)
}

// The line pointer of killed entries is dead.
#[inline]
fn is_dead(flag: LineFlag) -> bool
    ensures { result ≡ is_dead flag }
{
    matches!(flag, LineFlag::Dead)
}

/// What a scan does with the entries of item i of a leaf, counted from 1, if it can be read; `keys` then has their key.
pub fn fate_at<'p>(
    search: &Search<'_>,
    end: ScanEnd,
    page: PageView<'p>,
    i: u16,
    keys: &mut ItemKeys<'p>,
) -> Option<ItemFate>
    requires page { page_rule_of PageKind.Tree (page_bytes page) ≡ None }
    requires first { 1 ≤ i }
    requires last { i ≤ count_of (page_bytes page) }
    requires fits { FitsKey (specs_of search.now.tree.now) search.now.scan.now }
    ensures read { IsSome result ↔ IsRead (index_columns search.now.tree.now) (page_bytes page.entry) i }
    ensures count { IfSome result (λ it. it.count
        ≡ length (keys_at (index_columns search.now.tree.now) (page_bytes page.entry) i)) }
    ensures fate { IfSome result (λ it. (k : ℕ) (e : Given Value Place)
        → slice_get (keys_at (index_columns search.now.tree.now) (page_bytes page.entry) i) k ≡ Some e
        → HasFate (scan_on search.now.tree.now search.now.scan.now) (back_on search.now.tree.now search.now.scan.now)
        end it.fate e) }
    ensures key { IfSome result (λ it. (k : ℕ) (e : Given Value Place)
        → slice_get (keys_at (index_columns search.now.tree.now) (page_bytes page.entry) i) k ≡ Some e
        → e.values ≡ keys.new.first.kept) }
{
    let columns = search.tree.columns();
    match keys.read(page, i, &columns, Spot3::LeafItem) {
        Err(_) => None,
        Ok(()) => {
            let killed = is_dead(page.item(i).flag);
            let fate = fate_of(columns.specs, search.scan, end, &keys.first.kept, killed);
            let count = entries_at(page, i);
            Some(ItemFate { fate, count })
        }
    }
}
