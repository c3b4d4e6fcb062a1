//! An item of a tree page, read where it lies.
ghost use Rattle.std.specs.Prelude.{◌≡◌, ◌≤◌, ◌++◌, List, [], length, true, false, IfOk, None, Ok};
ghost use Rattle.key_orders.specs.declared.columns.Value.{Value};
ghost use Rattle.page_layout.specs.Page.{count_of, page_rule_of};
ghost use Rattle.page_layout.specs.View.{page_bytes};
ghost use Rattle.bt_meta.specs.Heads.{tree_head_of};
ghost use Rattle.bt_tuples.specs.Items.{ItemFits, item_outcome, tuple_outcome};
ghost use Rattle.bt_tuples.specs.Rules.{is_pivot};
ghost use Rattle.bt_tuples.specs.Shown.{item_shown, outcome_shown};
ghost use Rattle.bt_tuples.specs.Tuples.{body_begin, body_end, plain_tid, values_in};

use crate::heads::number_of;
use crate::tids::TidList;
use crate::tuples::{kept_tid, read_covering, read_tuple};
use bt_meta::{HeadKind, TreeHead};
use key_attrs::IndexColumns;
use key_orders::{KeyRefs, MoreRefs, SepRef, Tid};
use page_layout::{LineFlag, PageKind, PageView, Rule};

/// The place of an item on its page, which says what form it has to have. The data items of a page
/// are all but its high key.
#[derive(Clone, Copy, Debug, PartialEq, Eq)]
pub enum Spot3 {
    /// Item 1 of a page with a right sibling.
    HighKey,
    /// The first data item of an internal page, whose separator is minus infinity.
    FirstInner,
    /// A later data item of an internal page.
    Inner,
    /// A data item of a leaf.
    LeafItem,
}

/// An item of a tree page, where it lies.
#[derive(Drop)]
pub enum TreeItem<'p> {
    /// A separator: a high key, or an item of an internal page with its downlink, the block of a page
    /// one level down. A high key's downlink says nothing.
    Pivot {
        sep: SepRef<'p>,
        down: u32,
    },
    /// One entry of a leaf, with the values of the columns that the index includes. It is killed where
    /// its line pointer is dead.
    Plain {
        key: KeyRefs<'p>,
        more: MoreRefs<'p>,
        tid: Tid,
        killed: bool,
    },
    /// Entries of a leaf with one key, one for each TID. All are killed where the line pointer is dead.
    Posting {
        key: KeyRefs<'p>,
        tids: TidList<'p>,
        killed: bool,
    },
}

/// Why an item has no meaning here.
#[derive(Clone, Copy, Debug, PartialEq, Eq)]
pub enum ItemFault {
    /// The first of the rules B5 to B9 that it breaks.
    Broken(Rule),
    /// It breaks none of them, and a value is compressed.
    Packed,
}

// The TID in the head of a plain tuple.
#[inline]
pub(crate) fn plain_tid(head: TreeHead) -> Tid
    ensures { result ≡ plain_tid head }
{
    Tid {
        block: head.block,
        item: head.item,
    }
}

// The values of the columns that an index includes, in a leaf's tuple whose values can be told.
fn included<'p>(columns: &IndexColumns<'_>, tuple: &'p [u8], head: TreeHead) -> MoreRefs<'p>
    requires long { 8 ≤ length tuple.now }
    requires head { head ≡ tree_head_of tuple.now }
    requires kind { is_pivot head.kind ≡ false }
    requires begins { body_begin head ≤ body_end head (length tuple.now) }
    ensures { (key rest : List Value) → values_in columns.now.specs.now columns.now.more.now tuple.now
        ≡ Ok (key ++ rest)
        → length key ≡ length columns.now.specs.now → (columns.now.more.now ≡ [] → rest ≡ []) → result ≡ rest }
{
    if columns.more.is_empty() {
        return MoreRefs::new();
    }
    match read_covering(columns, tuple, head, &mut KeyRefs::new()) {
        Ok(rest) => rest,
        Err(_) => MoreRefs::new(),
    }
}

// The item in these bytes, at a place of this kind.
fn tuple_item<'p>(
    columns: &IndexColumns<'_>,
    spot: Spot3,
    tuple: &'p [u8],
    killed: bool,
) -> Result<TreeItem<'p>, ItemFault>
    requires long { 8 ≤ length tuple.now }
    ensures fits { IfOk result (λ item. ItemFits columns.now.specs.now (item_shown item)) }
    ensures outcome { outcome_shown result
        ≡ tuple_outcome columns.now.specs.now columns.now.more.now spot tuple.now killed }
{
    let mut key = KeyRefs::new();
    match read_tuple(columns, spot, tuple, &mut key) {
        Err(fault) => Err(fault),
        Ok(head) => Ok(match head.kind {
            HeadKind::Pivot => TreeItem::Pivot {
                sep: SepRef {
                    kept: key,
                    tid: kept_tid(tuple, head),
                },
                down: head.block,
            },
            HeadKind::Plain => TreeItem::Plain {
                key,
                more: included(columns, tuple, head),
                tid: plain_tid(head),
                killed,
            },
            HeadKind::Posting => TreeItem::Posting {
                key,
                tids: TidList::at(tuple, head.block as usize, number_of(head)),
                killed,
            },
        }),
    }
}

/// Item i of a tree page, counted from 1, at a place of this kind, in an index with these key columns
/// and these included ones. Nothing is copied: values and TIDs lie on the page.
///
/// `Broken` carries the first of B5 to B9 that the item breaks there. `Packed` comes exactly where it
/// breaks none of them and a value is compressed, which isn't read.
#[tactic(auto, unfolding(crate::specs::Items::item_outcome))]
pub fn tree_item<'p>(
    page: PageView<'p>,
    i: u16,
    columns: &IndexColumns<'_>,
    spot: Spot3,
) -> Result<TreeItem<'p>, ItemFault>
    requires page { page_rule_of PageKind.Tree (page_bytes page) ≡ None }
    requires first { 1 ≤ i }
    requires last { i ≤ count_of (page_bytes page) }
    ensures fits { IfOk result (λ item. ItemFits columns.now.specs.now (item_shown item)) }
    ensures outcome { outcome_shown result
        ≡ item_outcome columns.now.specs.now columns.now.more.now spot (page_bytes page.entry) i }
{
    let at = page.item(i);
    if at.is_misplaced_tree_item(page.upper()) {
        return Err(ItemFault::Broken(Rule::B5));
    }
    let killed = matches!(at.flag, LineFlag::Dead);
    tuple_item(columns, spot, page.piece(at.off, at.len), killed)
}
