//! Judges the items of a page, each by itself.
ghost use Rattle.std.specs.Prelude.{◌≡◌, ◌++◌, ◌+◌, ◌-◌, ◌≤◌, [], ◌∷◌, length, true, OnOk};
ghost use Rattle.outside.specs.Adds.{one_list};
ghost use Rattle.outside.specs.Outside.{Asked, IfTold, Tells};
ghost use Rattle.page_layout.specs.Items.{is_normal};
ghost use Rattle.page_layout.specs.Page.{HasItems, count_of, item_of};
ghost use Rattle.page_layout.specs.View.{page_bytes};
ghost use Rattle.heap_tuples.specs.Places.{tuple_at};
ghost use Rattle.heap_tuples.specs.Tuples.{attributes_in};
ghost use Rattle.reports.specs.Added.{each_upto};
ghost use Rattle.heap_page_check.specs.Found.{attributes_by, both_found, item_found, item_state, items_found};
ghost use Rattle.heap_page_check.specs.Found.{left_by, state_in};
ghost use Rattle.heap_page_check.specs.Storage.{AreCells};
ghost use Rattle.heap_page_check.specs.Table.{AreReadable, chunks_seen, table_seen, toast_oid_seen};
ghost use Rattle.heap_page_check.specs.Verdicts.{normal_verdict, without_state};

use crate::page::PageInHand;
use crate::table::TableRules;
use crate::tuple::judge_tuple;
use crate::verdict::TupleVerdict;
use crate::work::Work;
use key_orders::Tid;
use liveness::{ItemState, Transactions};
use outside::NoMemory;
use page_layout::{LineFlag, Rule};
use rel_files::PageFault;
use reports::Place;

// Judges a normal item: where it lies, and then its tuple. The state of one that passes is added.
#[tactic(auto, using(crate::proofs::Left::nothing_left), unfolding(crate::specs::Verdicts::normal_verdict))]
fn judge_normal<F: Transactions>(
    files: &mut F,
    table: &TableRules<'_>,
    at: PageInHand<'_>,
    i: u16,
    work: &mut Work,
) -> Result<TupleVerdict, PageFault>
    requires columns { AreReadable table.now.columns.now }
    requires page { HasItems (page_bytes at.view) }
    requires first { 1 ≤ i }
    requires last { i ≤ count_of (page_bytes at.view) }
    requires normal { is_normal (item_of (page_bytes at.view) i).flag ≡ true }
    requires before { AreCells (page_bytes at.view) (i - 1) work.old.cells }
    ensures told { Tells F.seen files.old result (λ verdict names. verdict
        ≡ without_state (normal_verdict (table_seen names table.now) (page_bytes at.entry.view) i)) }
    ensures found { OnOk result (IfTold F.seen files.old (λ names. work.new.found ≡ both_found work.old.found
        (left_by table.now.kind (toast_oid_seen table.now.toast) (chunks_seen table.now.toast) at.entry.block i
        (attributes_by (attributes_in table.now.columns.now (tuple_at (page_bytes at.entry.view) i))
        (normal_verdict (table_seen names table.now) (page_bytes at.entry.view) i))))) }
    ensures states { OnOk result (IfTold F.seen files.old (λ names. work.new.states.items ≡ work.old.states.items
        ++ state_in (normal_verdict (table_seen names table.now) (page_bytes at.entry.view) i))) }
    ensures more { length work.new.states.items ≤ length work.old.states.items + 1 }
    ensures after { AreCells (page_bytes at.entry.view) i work.new.cells }
    ensures asked { Asked F.seen files.old files.new result PageFault.ReadFault }
{
    let item = at.view.item(i);
    if item.is_misplaced_heap_item(at.view.header().upper) {
        return Ok(TupleVerdict::Breaks(Rule::H1));
    }
    if work.cells.add(at.view, i) {
        return Ok(TupleVerdict::Breaks(Rule::H2));
    }
    let tid = Tid {
        block: at.block,
        item: i,
    };
    let tuple = at.view.piece(item.off, item.len);
    judge_tuple(files, table, tuple, tid, work)
}

/// Adds the state of the next item. It fails where memory is refused.
pub fn push_state(states: &mut Vec<ItemState>, state: ItemState) -> Result<(), NoMemory>
    ensures states { OnOk result (states.new.items ≡ states.old.items ++ state ∷ []) }
    ensures more { length states.new.items ≤ length states.old.items + 1 }
{
    states.push(state)?;
    Ok(())
}

// Judges a normal item, and adds what is found of it and its state.
fn judge_normal_and_add<F: Transactions>(
    files: &mut F,
    table: &TableRules<'_>,
    at: PageInHand<'_>,
    i: u16,
    work: &mut Work,
) -> Result<(), PageFault>
    requires columns { AreReadable table.now.columns.now }
    requires page { HasItems (page_bytes at.view) }
    requires first { 1 ≤ i }
    requires last { i ≤ count_of (page_bytes at.view) }
    requires normal { is_normal (item_of (page_bytes at.view) i).flag ≡ true }
    requires before { AreCells (page_bytes at.view) (i - 1) work.old.cells }
    ensures found { OnOk result (IfTold F.seen files.old (λ names. work.new.found ≡ both_found work.old.found
        (item_found (table_seen names table.now) (chunks_seen table.now.toast) at.entry.block
        (page_bytes at.entry.view) i))) }
    ensures states { OnOk result (IfTold F.seen files.old (λ names. work.new.states.items ≡ work.old.states.items
        ++ item_state (table_seen names table.now) (page_bytes at.entry.view) i)) }
    ensures more { length work.new.states.items ≤ length work.old.states.items + 1 }
    ensures after { AreCells (page_bytes at.entry.view) i work.new.cells }
    ensures asked { Asked F.seen files.old files.new result PageFault.ReadFault }
{
    let verdict = judge_normal(files, table, at, i, work)?;
    let place = Place::Item(table.kind.rel(), at.block, i);
    work.found.add_verdict(place, verdict)?;
    Ok(())
}

// Judges an item, and adds what is found of it and its state. Where it isn't a normal one, its line
// pointer alone tells its state, and nothing is found of it.
fn judge_and_add<F: Transactions>(
    files: &mut F,
    table: &TableRules<'_>,
    at: PageInHand<'_>,
    i: u16,
    work: &mut Work,
) -> Result<(), PageFault>
    requires columns { AreReadable table.now.columns.now }
    requires page { HasItems (page_bytes at.view) }
    requires first { 1 ≤ i }
    requires last { i ≤ count_of (page_bytes at.view) }
    requires before { AreCells (page_bytes at.view) (i - 1) work.old.cells }
    ensures found { OnOk result (IfTold F.seen files.old (λ names. work.new.found ≡ both_found work.old.found
        (item_found (table_seen names table.now) (chunks_seen table.now.toast) at.entry.block
        (page_bytes at.entry.view) i))) }
    ensures states { OnOk result (IfTold F.seen files.old (λ names. work.new.states.items ≡ work.old.states.items
        ++ item_state (table_seen names table.now) (page_bytes at.entry.view) i)) }
    ensures more { length work.new.states.items ≤ length work.old.states.items + 1 }
    ensures after { AreCells (page_bytes at.entry.view) i work.new.cells }
    ensures asked { Asked F.seen files.old files.new result PageFault.ReadFault }
{
    let item = at.view.item(i);
    match item.flag {
        LineFlag::Normal => judge_normal_and_add(files, table, at, i, work),
        LineFlag::Unused => Ok(push_state(&mut work.states, ItemState::Unused)?),
        LineFlag::Redirect => Ok(push_state(&mut work.states, ItemState::Redirect(item.off))?),
        LineFlag::Dead => Ok(push_state(&mut work.states, ItemState::Dead)?),
    }
}

/// Judges the items of a page, each by itself, and adds what is found of them, and their states. The cells
/// are free at first, and there are no states.
#[tactic(auto, unfolding(crate::specs::Found::items_found))]
pub fn judge_items<F: Transactions>(
    files: &mut F,
    table: &TableRules<'_>,
    at: PageInHand<'_>,
    work: &mut Work,
) -> Result<(), PageFault>
    requires columns { AreReadable table.now.columns.now }
    requires page { HasItems (page_bytes at.view) }
    requires free { AreCells (page_bytes at.view) 0 work.old.cells }
    requires blank { length work.old.states.items ≤ 0 }
    ensures found { OnOk result (IfTold F.seen files.old (λ names. work.new.found ≡ both_found work.old.found
        (items_found (table_seen names table.now) (chunks_seen table.now.toast) at.entry.block
        (page_bytes at.entry.view)))) }
    ensures states { OnOk result (IfTold F.seen files.old (λ names. work.new.states.items ≡ work.old.states.items
        ++ each_upto one_list (item_state (table_seen names table.now) (page_bytes at.entry.view))
        (count_of (page_bytes at.entry.view)))) }
    ensures room { length work.new.states.items ≤ 2042 }
    ensures asked { Asked F.seen files.old files.new result PageFault.ReadFault }
{
    for k in 0..at.view.item_count() {
        judge_and_add(files, table, at, k + 1, work)?;
    }
    Ok(())
}
