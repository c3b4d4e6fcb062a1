//! The text of one page of a B-tree index.
ghost use Rattle.std.specs.Prelude.{◌≡◌, ◌++◌, ◌≤◌, IfOk, OnOk};
ghost use Rattle.page_layout.specs.Page.{HasItems, count_of};
ghost use Rattle.page_layout.specs.View.{page_bytes};
ghost use Rattle.reports.specs.Show.{flag_word, kind_word, meta_line, metapage_text, node_text, tree_head_text};
ghost use Rattle.reports.specs.Show.{tree_header_line, tree_item_line, tree_items_text, tree_lines, tree_page_text};
ghost use Rattle.reports.specs.Show.{tree_pointer_text};

use crate::fields::{push_decimal_field, push_hex_field, push_long_hex_field, push_tid};
use crate::page_parts::{push_item_rule, push_page_rule, push_places, push_storage};
use bt_meta::{HeadKind, Meta, Opaque, TreeHead, is_idle, meta, opaque, tree_head};
use key_orders::{Octets, Tid};
use outside::NoMemory;
use page_layout::{LineFlag, LinePtr, PageHeader, PageKind, PageView, Rule};
use std::alloc::Global;

/// The text of one page of a B-tree index, whose block 0 is the metapage: the metapage's numbers, or
/// the page's special space and each of its items, with the head of each index tuple. A page that
/// breaks one of P1 to P4 is that rule alone, a new page one line; a page that is no part of the tree
/// has no items, and an item that breaks B5 is told so; other rules aren't asked.
pub fn show_tree(alloc: Global, page: PageView<'_>, block: u32) -> Result<Octets, NoMemory>
    ensures { IfOk result (λ text. text ≡ tree_page_text block (page_bytes page.entry)) }
{
    let mut text = Octets::new(alloc);
    push_tree_page(&mut text, page, block)?;
    Ok(text)
}

#[tactic(auto, unfolding(crate::specs::Show::tree_page_text))]
fn push_tree_page(text: &mut Octets, page: PageView<'_>, block: u32) -> Result<(), NoMemory>
    ensures { OnOk result (text.new ≡ text.old ++ tree_page_text block (page_bytes page.entry)) }
{
    if block == 0 {
        push_metapage(text, page)
    } else {
        push_node(text, page)
    }
}

#[tactic(auto, unfolding(crate::specs::Show::metapage_text, crate::specs::Show::page_text))]
fn push_metapage(text: &mut Octets, page: PageView<'_>) -> Result<(), NoMemory>
    ensures { OnOk result (text.new ≡ text.old ++ metapage_text (page_bytes page.entry)) }
{
    match page.page_rule(PageKind::Meta) {
        Some(rule) => push_page_rule(text, rule),
        None if page.is_new() => text.push_slice(b"page new\n"),
        None => push_meta(text, meta(page)),
    }
}

#[tactic(auto, unfolding(crate::specs::Show::meta_line))]
fn push_meta(text: &mut Octets, numbers: Meta) -> Result<(), NoMemory>
    ensures { OnOk result (text.new ≡ text.old ++ meta_line numbers) }
{
    push_long_hex_field(text, b"meta magic ", numbers.magic)?;
    push_decimal_field(text, b" version ", numbers.version)?;
    push_decimal_field(text, b" root ", numbers.root)?;
    push_decimal_field(text, b" level ", numbers.level)?;
    push_decimal_field(text, b" fastroot ", numbers.fastroot)?;
    push_decimal_field(text, b" fastlevel ", numbers.fastlevel)?;
    text.push_slice(b"\n")
}

#[tactic(auto, unfolding(crate::specs::Show::node_text, crate::specs::Show::page_text))]
fn push_node(text: &mut Octets, page: PageView<'_>) -> Result<(), NoMemory>
    ensures { OnOk result (text.new ≡ text.old ++ node_text (page_bytes page.entry)) }
{
    match page.page_rule(PageKind::Tree) {
        Some(rule) => push_page_rule(text, rule),
        None if page.is_new() => text.push_slice(b"page new\n"),
        None => push_tree_lines(text, page),
    }
}

// The lines of a page that is laid out.
#[tactic(auto, unfolding(crate::specs::Show::tree_lines))]
fn push_tree_lines(text: &mut Octets, page: PageView<'_>) -> Result<(), NoMemory>
    requires { HasItems (page_bytes page) }
    ensures { OnOk result (text.new ≡ text.old ++ tree_lines (page_bytes page.entry)) }
{
    push_tree_header(text, opaque(page), page.header())?;
    if is_idle(page) {
        return Ok(());
    }
    push_tree_items(text, page)
}

#[tactic(auto, unfolding(crate::specs::Show::tree_header_line))]
fn push_tree_header(text: &mut Octets, special: Opaque, header: PageHeader) -> Result<(), NoMemory>
    ensures { OnOk result (text.new ≡ text.old ++ tree_header_line special header) }
{
    push_decimal_field(text, b"page prev ", special.prev)?;
    push_decimal_field(text, b" next ", special.next)?;
    push_decimal_field(text, b" level ", special.level)?;
    push_hex_field(text, b" flags ", special.flags)?;
    push_places(text, header)?;
    text.push_slice(b"\n")
}

// The lines of the items.
#[tactic(auto, using(crate::specs::Show::items_laws))]
fn push_tree_items(text: &mut Octets, page: PageView<'_>) -> Result<(), NoMemory>
    requires { HasItems (page_bytes page) }
    ensures { OnOk result (text.new ≡ text.old
        ++ tree_items_text (page_bytes page.entry) (count_of (page_bytes page.entry))) }
{
    for k in 0..page.item_count() {
        push_tree_item(text, page, k + 1, page.item(k + 1))?;
    }
    Ok(())
}

// The line of item i, which is this line pointer.
#[tactic(auto, unfolding(crate::specs::Show::tree_item_line))]
fn push_tree_item(
    text: &mut Octets,
    page: PageView<'_>,
    i: u16,
    pointer: LinePtr,
) -> Result<(), NoMemory>
    ensures { OnOk result (text.new ≡ text.old ++ tree_item_line (page_bytes page.entry) i pointer) }
{
    push_decimal_field(text, b"item ", i as u32)?;
    push_tree_pointer(text, page, pointer)?;
    text.push_slice(b"\n")
}

// The index tuple that a line pointer points to, or that it points to none.
#[tactic(auto, unfolding(crate::specs::Show::tree_pointer_text, page_layout::specs::Page::header_of))]
fn push_tree_pointer(
    text: &mut Octets,
    page: PageView<'_>,
    pointer: LinePtr,
) -> Result<(), NoMemory>
    ensures { OnOk result (text.new ≡ text.old ++ tree_pointer_text (page_bytes page.entry) pointer) }
{
    if pointer.is_misplaced_tree_item(page.header().upper) {
        return push_item_rule(text, Rule::B5);
    }
    text.push_slice(flag_word(pointer.flag))?;
    push_storage(text, pointer)?;
    push_tree_head(text, tree_head(page.piece(pointer.off, pointer.len)))
}

// The word for a line pointer's flag, with a space before it.
fn flag_word(flag: LineFlag) -> &'static [u8]
    ensures { result.now ≡ flag_word flag }
{
    match flag {
        LineFlag::Unused => b" unused",
        LineFlag::Normal => b" normal",
        LineFlag::Redirect => b" redirect",
        LineFlag::Dead => b" dead",
    }
}

#[tactic(auto, unfolding(crate::specs::Show::tree_head_text))]
fn push_tree_head(text: &mut Octets, head: TreeHead) -> Result<(), NoMemory>
    ensures { OnOk result (text.new ≡ text.old ++ tree_head_text head) }
{
    let tid = Tid {
        block: head.block,
        item: head.item,
    };
    text.push_slice(b" tid ")?;
    push_tid(text, tid)?;
    push_hex_field(text, b" info ", head.info)?;
    text.push_slice(b" ")?;
    text.push_slice(kind_word(head.kind))
}

// The word for a form of index tuple.
fn kind_word(kind: HeadKind) -> &'static [u8]
    ensures { result.now ≡ kind_word kind }
{
    match kind {
        HeadKind::Pivot => b"pivot",
        HeadKind::Plain => b"plain",
        HeadKind::Posting => b"posting",
    }
}
