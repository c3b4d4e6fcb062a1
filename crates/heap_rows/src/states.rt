//! The items of a page of a heap in which nothing is found: where they lie, and their states.
ghost use Rattle.std.specs.Prelude.{◌≡◌, ◌*◌, ◌≤◌, false, true, length, OnOk};
ghost use Rattle.outside.specs.Outside.{AskedAtMost, IfTold, Tells};
ghost use Rattle.page_layout.specs.Items.{is_misplaced_heap_item, is_normal};
ghost use Rattle.page_layout.specs.Page.{HasItems, count_of, item_of, piece_of, upper_of};
ghost use Rattle.page_layout.specs.View.{page_bytes};
ghost use Rattle.tuple_head.specs.Head.{tuple_head_of};
ghost use Rattle.liveness.specs.Life.{judged_of};
ghost use Rattle.liveness.specs.LogFiles.{log_files_of, logs_of};
ghost use Rattle.liveness.specs.declared.states.ItemState.TheVariants.{Tuple};
ghost use Rattle.heap_page_check.specs.States.{AreStatesOf, IsStateOf};
ghost use Rattle.heap_page_check.specs.Table.{Table, logs_in};
ghost use Rattle.heap_rows.specs.Places.{AreInPlace};

use heap_page_check::push_state;
use heap_tuples::tuple_in;
use liveness::{ItemState, Memory, Remembering, Status3, Transactions, life_in};
use outside::Files;
use page_layout::{LineFlag, LinePtr, PageView};
use rel_files::PageFault;
use std::alloc::Global;
use tuple_head::heap_head;

/// The line pointer of an item, counted from 1, of whatever page: it asks nothing of the page's header.
pub fn line_pointer(page: &[u8; 8192], item: u16) -> LinePtr
    requires first { 1 ≤ item }
    requires last { item ≤ 2042 }
    ensures { result ≡ item_of page.now item }
{
    PageView::new(page).line_pointer(item)
}

// The state of a tuple, by its header and the logs.
fn tuple_state<F: Transactions>(
    files: &mut F,
    logs: &Status3<'_>,
    tuple: &[u8],
) -> Result<ItemState, PageFault>
    requires { 24 ≤ length tuple.now }
    ensures told { Tells F.seen files.old result (λ state names. state ≡ Tuple (tuple_head_of tuple.now)
        (judged_of (logs_of names (log_files_of logs.now)) (tuple_head_of tuple.now))) }
    ensures asked { AskedAtMost 327690 F.seen files.old files.new result PageFault.ReadFault }
{
    let head = heap_head(tuple);
    let judged = life_in(files, logs, &head)?;
    Ok(ItemState::Tuple { head, judged })
}

// The state of a normal item; that of an unused one where no tuple can lie where it does.
fn normal_state<F: Transactions>(
    files: &mut F,
    logs: &Status3<'_>,
    page: PageView<'_>,
    pointer: LinePtr,
) -> Result<ItemState, PageFault>
    ensures told { Tells F.seen files.old result (λ state names. is_normal pointer.flag ≡ true
        → is_misplaced_heap_item (upper_of (page_bytes page.entry)) pointer ≡ false
        → state ≡ Tuple (tuple_head_of (piece_of (page_bytes page.entry) pointer.off pointer.len))
        (judged_of (logs_of names (log_files_of logs.now))
        (tuple_head_of (piece_of (page_bytes page.entry) pointer.off pointer.len)))) }
    ensures asked { AskedAtMost 327690 F.seen files.old files.new result PageFault.ReadFault }
{
    match tuple_in(page, pointer) {
        Some(tuple) => tuple_state(files, logs, tuple),
        None => Ok(ItemState::Unused),
    }
}

// The state of an item.
fn state_of<F: Transactions>(
    files: &mut F,
    logs: &Status3<'_>,
    page: PageView<'_>,
    item: u16,
) -> Result<ItemState, PageFault>
    requires page { HasItems (page_bytes page) }
    requires first { 1 ≤ item }
    requires last { item ≤ count_of (page_bytes page) }
    ensures told { Tells F.seen files.old result (λ state names. (table : Table)
        → logs_in table ≡ logs_of names (log_files_of logs.now) → AreInPlace (page_bytes page.entry)
        → IsStateOf table (page_bytes page.entry) item state) }
    ensures asked { AskedAtMost 327690 F.seen files.old files.new result PageFault.ReadFault }
{
    let pointer = page.item(item);
    match pointer.flag {
        LineFlag::Normal => normal_state(files, logs, page, pointer),
        LineFlag::Unused => Ok(ItemState::Unused),
        LineFlag::Redirect => Ok(ItemState::Redirect(pointer.off)),
        LineFlag::Dead => Ok(ItemState::Dead),
    }
}

// Puts the states of the items of a page in place of others.
fn fill_states<F: Transactions>(
    files: &mut F,
    logs: &Status3<'_>,
    page: PageView<'_>,
    states: &mut Vec<ItemState>,
) -> Result<(), PageFault>
    requires page { HasItems (page_bytes page) }
    ensures told { OnOk result (IfTold F.seen files.old (λ names. (table : Table)
        → logs_in table ≡ logs_of names (log_files_of logs.now) → AreInPlace (page_bytes page.entry)
        → AreStatesOf table (page_bytes page.entry) states.new.items)) }
    ensures count { OnOk result (length states.new.items ≡ count_of (page_bytes page.entry)) }
    ensures asked { AskedAtMost (327690 * count_of (page_bytes page.entry)) F.seen files.old files.new result
        PageFault.ReadFault }
{
    states.clear();
    for k in 0..page.item_count() {
        let state = state_of(files, logs, page, k + 1)?;
        push_state(states, state)?;
    }
    Ok(())
}

/// Finds the states of the items of a page, by their line pointers, headers and the logs, in place of others.
/// It judges nothing else: they are those of the page's items where each tuple lies where it may.
pub fn find_states<F: Files>(
    alloc: Global,
    files: &mut F,
    logs: &Status3<'_>,
    page: PageView<'_>,
    states: &mut Vec<ItemState>,
) -> Result<(), PageFault>
    requires page { HasItems (page_bytes page) }
    ensures told { OnOk result (IfTold F.seen files.old (λ names. (table : Table)
        → logs_in table ≡ logs_of names (log_files_of logs.now) → AreInPlace (page_bytes page.entry)
        → AreStatesOf table (page_bytes page.entry) states.new.items)) }
    ensures count { OnOk result (length states.new.items ≡ count_of (page_bytes page.entry)) }
    ensures asked { AskedAtMost (327690 * count_of (page_bytes page.entry)) F.seen files.old files.new result
        PageFault.ReadFault }
{
    let mut memory = Memory::new(alloc, logs)?;
    let mut files = Remembering::new(files, &mut memory);
    fill_states(&mut files, logs, page, states)
}
