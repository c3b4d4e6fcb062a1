//! The entries of a leaf, each of which meets the row that it names.
ghost use Rattle.std.specs.Prelude.{◌≡◌, ◌≢◌, ◌≤◌, ℕ, List, None, Ok, false, true};
ghost use Rattle.std.specs.Bool.{OnTrue};
ghost use Rattle.page_layout.specs.Page.{count_of, item_of, page_rule_of};
ghost use Rattle.page_layout.specs.View.{page_bytes};
ghost use Rattle.key_orders.specs.declared.columns.Value.{Value as Shown};
ghost use Rattle.key_attrs.specs.Columns.{all_types, tree_columns};
ghost use Rattle.key_attrs.specs.Keyed.{key_values};
ghost use Rattle.bt_image.specs.Image.{entries_in, first_data, page_entries};
ghost use Rattle.bt_tuples.specs.Items.{Posting, is_dead};
ghost use Rattle.bt_tuples.specs.Plain.{LiesPlain};
ghost use Rattle.bt_tuples.specs.Shown.{item_shown};
ghost use Rattle.bt_steps.specs.Entries.{IsRead};
ghost use Rattle.bt_steps.specs.Pages.{IsReadable, is_live_leaf};
ghost use Rattle.join_slots.specs.Met.{keyed, met_by};
ghost use Rattle.join_slots.specs.Slots.{SameRange, keys_in, met_in};
ghost use Rattle.join_meet.specs.Meeting.{HaveMet, entries_at, leaf_entries};

use crate::ahead::RowsAhead;
use crate::numbers::{lone_number, meet_number};
use bt_image::first_data;
use bt_steps::is_live_leaf;
use bt_tuples::{PlainEntry, Spot3, TidList, TreeItem, plain_entry, tree_item};
use join_slots::RowSlots;
use key_attrs::{IndexColumns, read_entry_attributes, read_key_attributes};
use key_orders::{KeyRefs, Tid};
use key_storage::RowValues;
use page_layout::{PageKind, PageView};

// Meets the rows that a list names, none of whose entries is killed.
fn meet_list(slots: &mut RowSlots, key: &KeyRefs<'_>, tids: &TidList<'_>)
    ensures { HaveMet (entries_in (Posting key.now tids.now false)) slots.old slots.new }
{
    let values = RowValues {
        key: key.as_slice(),
        more: &[],
    };
    for k in 0..tids.len() {
        slots.meet(tids.get(k), values);
    }
}

/// Meets the rows that an item of a leaf names; none where its entries are killed, and none that a pivot names.
pub fn meet_read_item(slots: &mut RowSlots, item: &TreeItem<'_>)
    ensures { HaveMet (entries_in (item_shown item.now)) slots.old slots.new }
{
    match item {
        TreeItem::Plain {
            key,
            more,
            tid,
            killed,
        } => {
            if !*killed {
                let values = RowValues {
                    key: key.as_slice(),
                    more: more.as_slice(),
                };
                slots.meet(*tid, values);
            }
        }
        TreeItem::Posting { key, tids, killed } => {
            if !*killed {
                meet_list(slots, key, tids);
            }
        }
        TreeItem::Pivot { .. } => {}
    }
}

// Meets the rows that a data item of a leaf names, of whatever form it is. It stays a call: in line, the places of a
// key's values would be set to zero for each item, and nearly all items are one entry ([`meet_entry`]).
#[inline(never)]
fn meet_any_item(slots: &mut RowSlots, columns: &IndexColumns<'_>, page: PageView<'_>, i: u16)
    requires page { page_rule_of PageKind.Tree (page_bytes page) ≡ None }
    requires first { 1 ≤ i }
    requires last { i ≤ count_of (page_bytes page) }
    ensures { IsRead (tree_columns columns.now) (page_bytes page.entry) i
        → HaveMet (entries_at (tree_columns columns.now) (page_bytes page.entry) i) slots.old slots.new }
{
    if let Ok(item) = tree_item(page, i, columns, Spot3::LeafItem) {
        meet_read_item(slots, &item);
    }
}

// Meets the row that an entry without null bits names, by the values that are read of its body. It stays a call, since
// most entries are told by their bytes; it does without the item that `meet_any_item` makes, which is large.
#[inline(never)]
fn meet_body(slots: &mut RowSlots, columns: &IndexColumns<'_>, tid: Tid, body: &[u8])
    ensures met { (key : List Shown) → key_values (all_types columns.now) body.now None ≡ Ok key
        → met_in slots.new ≡ met_by (keys_in slots.old) (met_in slots.old) (keyed tid key) }
    ensures keys { keys_in slots.new ≡ keys_in slots.old }
    ensures range { SameRange slots.old slots.new }
{
    let mut key = KeyRefs::new();
    if columns.more.is_empty() {
        let count = columns.specs.len() as u16;
        if let Ok(()) = read_key_attributes(columns, body, None, count, &mut key) {
            let values = RowValues {
                key: key.as_slice(),
                more: &[],
            };
            slots.meet(tid, values);
        }
        return;
    }
    if let Ok(more) = read_entry_attributes(columns, body, None, &mut key) {
        let values = RowValues {
            key: key.as_slice(),
            more: more.as_slice(),
        };
        slots.meet(tid, values);
    }
}

/// Meets the row that an entry names which is an item of its own, unless the entry is killed; `true` says that it met
/// it by its number, and so that a row is kept there. `false` says nothing.
#[inline]
pub fn meet_entry(slots: &mut RowSlots, columns: &IndexColumns<'_>, entry: PlainEntry<'_>) -> bool
    ensures kept { OnTrue result (keys_in slots.old entry.entry.tid ≢ None) }
    ensures met { (page : List ℕ) (i : ℕ) → LiesPlain page i entry.entry.tid entry.entry.body.now
        → entry.entry.killed ≡ is_dead (item_of page i).flag → IsRead (tree_columns columns.now) page i
        → HaveMet (entries_at (tree_columns columns.now) page i) slots.old slots.new }
{
    if entry.killed {
        return false;
    }
    if !slots.covers(entry.tid.block) {
        return false;
    }
    if let Some(number) = lone_number(columns, entry.body) {
        return meet_number(slots, entry.tid, number);
    }
    if !slots.meet_plain(entry.tid, columns, entry.body) {
        meet_body(slots, columns, entry.tid, entry.body);
    }
    false
}

// Meets the rows that a data item of a leaf names, none of whose entries is killed.
pub(crate) fn meet_item(
    slots: &mut RowSlots,
    columns: &IndexColumns<'_>,
    page: PageView<'_>,
    i: u16,
)
    requires page { page_rule_of PageKind.Tree (page_bytes page) ≡ None }
    requires first { 1 ≤ i }
    requires last { i ≤ count_of (page_bytes page) }
    ensures { IsRead (tree_columns columns.now) (page_bytes page.entry) i
        → HaveMet (entries_at (tree_columns columns.now) (page_bytes page.entry) i) slots.old slots.new }
{
    match plain_entry(page, i) {
        Some(entry) => {
            meet_entry(slots, columns, entry);
        }
        None => meet_any_item(slots, columns, page, i),
    }
}

// Meets the rows that the data items of a leaf name.
fn meet_items(slots: &mut RowSlots, columns: &IndexColumns<'_>, page: PageView<'_>)
    requires page { page_rule_of PageKind.Tree (page_bytes page) ≡ None }
    ensures { IsReadable (tree_columns columns.now) (page_bytes page.entry)
        → is_live_leaf (page_bytes page.entry) ≡ true
        → HaveMet (page_entries columns.now.specs.now columns.now.more.now (page_bytes page.entry))
        slots.old slots.new }
{
    let first = first_data(page);
    let count = (page.item_count() + 1).saturating_sub(first);
    for k in 0..count {
        meet_item(slots, columns, page, first + k);
    }
}

/// Meets the rows that the entries of a page name, if it is a leaf in use that isn't half-dead; those that are killed
/// meet none. What is kept of the rows that are told ahead is read first, all at once, so that none of them is waited
/// for alone.
pub fn meet_page(
    slots: &mut RowSlots,
    columns: &IndexColumns<'_>,
    page: &[u8; 8192],
    ahead: &RowsAhead,
)
    ensures { (is_live_leaf page.now ≡ true → IsReadable (tree_columns columns.now) page.now)
        → HaveMet (leaf_entries (tree_columns columns.now) page.now) slots.old slots.new }
{
    let page = PageView::new(page);
    if !is_live_leaf(page) || page.page_rule(PageKind::Tree).is_some() {
        return;
    }
    slots.touch(ahead.as_slice());
    meet_items(slots, columns, page);
}
