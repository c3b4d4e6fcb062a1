//! What the bytes of an item of a leaf tell as they lie: whether it is an entry that is known, and a number by which it
//! stands to others.
ghost use Rattle.std.specs.Prelude.{◌≡◌, ◌≤◌, Bool, None, IfSome, length};
ghost use Rattle.page_layout.specs.Page.{count_of, item_of, page_rule_of};
ghost use Rattle.page_layout.specs.View.{page_bytes};
ghost use Rattle.bt_tuples.specs.Items.{is_dead, tuple_outcome};
ghost use Rattle.bt_tuples.specs.Plain.{HasPrefix, IsPlainEntry, IsPlainTuple, LiesPlain};

use crate::heads::body_of;
use crate::items::{Spot3, plain_tid};
use crate::tuples::plain_head;
use key_attrs::{IndexColumns, plain_first_value};
use key_orders::{Tid, key_prefix};
use page_layout::{LineFlag, PageKind, PageView};

/// One entry of a leaf, as its bytes lie: a plain tuple without null bits.
#[derive(Clone, Copy)]
pub struct PlainEntry<'p> {
    pub tid: Tid,
    /// What stands in the tuple behind its head: the values of the key, and included ones.
    pub body: &'p [u8],
    /// Whether its line pointer is dead.
    pub killed: bool,
}

// The TID and the body of a plain tuple without null bits.
#[inline(always)]
fn plain_parts<'p>(tuple: &'p [u8], killed: bool) -> Option<PlainEntry<'p>>
    requires long { 8 ≤ length tuple.now }
    ensures { IfSome result (λ e. IsPlainTuple tuple.now e.tid e.body.now × (e.killed ≡ killed)) }
{
    let head = plain_head(tuple)?;
    Some(PlainEntry {
        tid: plain_tid(head),
        body: body_of(tuple, head),
        killed,
    })
}

/// Item i of a leaf, counted from 1, where it is one entry without null bits; `None` says nothing.
#[inline(always)]
pub fn plain_entry<'p>(page: PageView<'p>, i: u16) -> Option<PlainEntry<'p>>
    requires page { page_rule_of PageKind.Tree (page_bytes page) ≡ None }
    requires first { 1 ≤ i }
    requires last { i ≤ count_of (page_bytes page) }
    ensures { IfSome result (λ e. LiesPlain (page_bytes page.entry) i e.tid e.body.now
        × (e.killed ≡ is_dead (item_of (page_bytes page.entry) i).flag)) }
{
    let at = page.item(i);
    if at.is_misplaced_tree_item(page.upper()) {
        return None;
    }
    let killed = matches!(at.flag, LineFlag::Dead);
    plain_parts(page.piece(at.off, at.len), killed)
}

// The number of the key of a tuple of a leaf, where it is a plain one without null bits.
#[inline(always)]
fn plain_prefix(tuple: &[u8], columns: &IndexColumns<'_>) -> Option<u64>
    requires long { 8 ≤ length tuple.now }
    ensures { IfSome result (λ number. (killed : Bool)
        → HasPrefix columns.now.specs.now
        (tuple_outcome columns.now.specs.now columns.now.more.now Spot3.LeafItem tuple.now killed) killed number) }
{
    let head = plain_head(tuple)?;
    let first = plain_first_value(columns, body_of(tuple, head))?;
    Some(key_prefix(columns.specs, &[first]))
}

/// The number of the key of item i of a leaf, counted from 1, by its first value
/// ([`key_prefix`](key_orders::key_prefix)), where the item is one entry and that is told by its bytes as they lie:
/// it is no list of TIDs, has no nulls, and each value, an included one too, is of a fixed length or a varlena with a
/// header of one byte. `None` says nothing.
#[inline(always)]
#[tactic(auto, unfolding(crate::specs::Items::item_outcome))]
pub fn plain_entry_prefix(page: PageView<'_>, i: u16, columns: &IndexColumns<'_>) -> Option<u64>
    requires page { page_rule_of PageKind.Tree (page_bytes page) ≡ None }
    requires first { 1 ≤ i }
    requires last { i ≤ count_of (page_bytes page) }
    ensures { IfSome result (IsPlainEntry columns.now.specs.now columns.now.more.now (page_bytes page.entry) i) }
{
    let at = page.item(i);
    if at.is_misplaced_tree_item(page.upper()) {
        return None;
    }
    plain_prefix(page.piece(at.off, at.len), columns)
}
