//! The text of one heap page.
ghost use Rattle.std.specs.Prelude.{◌≡◌, ◌++◌, ◌≤◌, IfOk, OnOk};
ghost use Rattle.page_layout.specs.Page.{HasItems, count_of, is_new};
ghost use Rattle.page_layout.specs.View.{page_bytes};
ghost use Rattle.reports.specs.Show.{heap_header_line, heap_item_line, heap_items_text, heap_lines, heap_page_text};
ghost use Rattle.reports.specs.Show.{heap_pointer_text, heap_storage_text, tuple_text};

use crate::fields::{push_decimal_field, push_hex_field, push_tid};
use crate::page_parts::{push_item_rule, push_page_rule, push_places, push_storage};
use key_orders::Octets;
use outside::NoMemory;
use page_layout::{LineFlag, LinePtr, PageHeader, PageKind, PageView, Rule};
use std::alloc::Global;
use tuple_head::{HeapHead, heap_head};

/// The text of one heap page: its header and each of its items, with the header of each tuple. A page
/// that breaks one of P1 to P4 is that rule alone, a new page one line, and an item that breaks H1 is
/// told so; other rules aren't asked.
#[tactic(auto, unfolding(crate::specs::Show::heap_page_text, crate::specs::Show::page_text))]
pub fn show_heap(alloc: Global, page: PageView<'_>) -> Result<Octets, NoMemory>
    ensures { IfOk result (λ text. text ≡ heap_page_text (page_bytes page.entry)) }
{
    let mut text = Octets::new(alloc);
    push_heap_page(&mut text, page)?;
    Ok(text)
}

#[tactic(auto, unfolding(crate::specs::Show::heap_page_text, crate::specs::Show::page_text))]
fn push_heap_page(text: &mut Octets, page: PageView<'_>) -> Result<(), NoMemory>
    ensures { OnOk result (text.new ≡ text.old ++ heap_page_text (page_bytes page.entry)) }
{
    match page.page_rule(PageKind::Heap) {
        Some(rule) => push_page_rule(text, rule),
        None if page.is_new() => text.push_slice(b"page new\n"),
        None => push_heap_lines(text, page),
    }
}

// The lines of a page that is laid out.
#[tactic(auto, unfolding(crate::specs::Show::heap_lines))]
fn push_heap_lines(text: &mut Octets, page: PageView<'_>) -> Result<(), NoMemory>
    requires { HasItems (page_bytes page) }
    ensures { OnOk result (text.new ≡ text.old ++ heap_lines (page_bytes page.entry)) }
{
    push_heap_header(text, page.header())?;
    push_heap_items(text, page)
}

#[tactic(auto, unfolding(crate::specs::Show::heap_header_line))]
fn push_heap_header(text: &mut Octets, header: PageHeader) -> Result<(), NoMemory>
    ensures { OnOk result (text.new ≡ text.old ++ heap_header_line header) }
{
    push_decimal_field(text, b"page lsn ", header.lsn_high)?;
    push_decimal_field(text, b" ", header.lsn_low)?;
    push_decimal_field(text, b" checksum ", header.checksum as u32)?;
    push_hex_field(text, b" flags ", header.flags)?;
    push_places(text, header)?;
    push_hex_field(text, b" version ", header.version)?;
    push_decimal_field(text, b" prune ", header.prune_xid)?;
    text.push_slice(b"\n")
}

// The lines of the items.
#[tactic(auto, using(crate::specs::Show::items_laws))]
fn push_heap_items(text: &mut Octets, page: PageView<'_>) -> Result<(), NoMemory>
    requires { HasItems (page_bytes page) }
    ensures { OnOk result (text.new ≡ text.old
        ++ heap_items_text (page_bytes page.entry) (count_of (page_bytes page.entry))) }
{
    for k in 0..page.item_count() {
        push_heap_item(text, page, k + 1, page.item(k + 1))?;
    }
    Ok(())
}

// The line of item i, which is this line pointer.
#[tactic(auto, unfolding(crate::specs::Show::heap_item_line))]
fn push_heap_item(
    text: &mut Octets,
    page: PageView<'_>,
    i: u16,
    pointer: LinePtr,
) -> Result<(), NoMemory>
    ensures { OnOk result (text.new ≡ text.old ++ heap_item_line (page_bytes page.entry) i pointer) }
{
    push_decimal_field(text, b"item ", i as u32)?;
    push_heap_pointer(text, page, pointer)?;
    text.push_slice(b"\n")
}

#[tactic(auto, unfolding(crate::specs::Show::heap_pointer_text))]
fn push_heap_pointer(
    text: &mut Octets,
    page: PageView<'_>,
    pointer: LinePtr,
) -> Result<(), NoMemory>
    ensures { OnOk result (text.new ≡ text.old ++ heap_pointer_text pointer.flag (page_bytes page.entry) pointer) }
{
    match pointer.flag {
        LineFlag::Unused => text.push_slice(b" unused"),
        LineFlag::Normal => {
            text.push_slice(b" normal")?;
            push_storage(text, pointer)?;
            push_heap_storage(text, page, pointer)
        }
        LineFlag::Redirect => push_decimal_field(text, b" redirect ", pointer.off as u32),
        LineFlag::Dead => text.push_slice(b" dead"),
    }
}

// The tuple that a normal line pointer points to, or that it points to none.
#[tactic(auto, unfolding(crate::specs::Show::heap_storage_text, page_layout::specs::Page::header_of))]
fn push_heap_storage(
    text: &mut Octets,
    page: PageView<'_>,
    pointer: LinePtr,
) -> Result<(), NoMemory>
    requires { pointer.flag ≡ LineFlag.Normal }
    ensures { OnOk result (text.new ≡ text.old ++ heap_storage_text (page_bytes page.entry) pointer) }
{
    if pointer.is_misplaced_heap_item(page.header().upper) {
        return push_item_rule(text, Rule::H1);
    }
    push_tuple(text, heap_head(page.piece(pointer.off, pointer.len)))
}

#[tactic(auto, unfolding(crate::specs::Show::tuple_text))]
fn push_tuple(text: &mut Octets, head: HeapHead) -> Result<(), NoMemory>
    ensures { OnOk result (text.new ≡ text.old ++ tuple_text head) }
{
    push_decimal_field(text, b" xmin ", head.xmin)?;
    push_decimal_field(text, b" xmax ", head.xmax)?;
    push_decimal_field(text, b" field3 ", head.field3)?;
    text.push_slice(b" ctid ")?;
    push_tid(text, head.ctid)?;
    push_hex_field(text, b" infomask2 ", head.infomask2)?;
    push_hex_field(text, b" infomask ", head.infomask)?;
    push_decimal_field(text, b" hoff ", head.hoff as u32)
}
