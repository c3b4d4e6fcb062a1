//! The bytes of a heap tuple on its page.
ghost use Rattle.std.specs.Prelude.{◌≡◌, ◌≤◌, Some, false, length, true, IfSome};
ghost use Rattle.std.specs.Option.{option_copied};
ghost use Rattle.page_layout.specs.Items.{is_misplaced_heap_item, is_normal};
ghost use Rattle.page_layout.specs.Page.{item_of, piece_of, upper_of};
ghost use Rattle.page_layout.specs.View.{page_bytes};
ghost use Rattle.heap_tuples.specs.Places.{IsTupleAt, tuple_at};

use page_layout::{LinePtr, PageKind, PageView};

/// The bytes of an item of a page, where they can be those of a tuple: the page keeps the rules of a
/// heap's page, and the item, counted from 1, is there, normal, and lies where items may. They are
/// 24 bytes or more.
#[tactic(auto, unfolding(page_layout::specs::Page::header_of))]
pub fn tuple_at(page: &[u8; 8192], item: u16) -> Option<&[u8]>
    ensures tuple { IsTupleAt page.now item → option_copied result ≡ Some (tuple_at page.now item) }
    ensures only { IfSome result (λ tuple. IsTupleAt page.now item) }
    ensures long { IfSome result (λ tuple. 24 ≤ length tuple.now) }
    ensures len { IfSome result (λ tuple. length tuple.now ≡ (item_of page.now item).len) }
{
    let view = PageView::new(page);
    if view.page_rule(PageKind::Heap).is_some() || item == 0 || view.item_count() < item {
        return None;
    }
    tuple_in(view, view.item(item))
}

/// The bytes that a line pointer of a page points to, where they can be those of a tuple: it is normal, and
/// points to where items may lie. They are 24 bytes or more. None comes exactly
/// where they can't.
pub fn tuple_in<'p>(page: PageView<'p>, pointer: LinePtr) -> Option<&'p [u8]>
    ensures tuple { is_normal pointer.flag ≡ true
        → is_misplaced_heap_item (upper_of (page_bytes page.entry)) pointer ≡ false
        → option_copied result ≡ Some (piece_of (page_bytes page.entry) pointer.off pointer.len) }
    ensures normal { IfSome result (λ tuple. is_normal pointer.flag ≡ true) }
    ensures placed { IfSome result (λ tuple.
        is_misplaced_heap_item (upper_of (page_bytes page.entry)) pointer ≡ false) }
    ensures bytes { IfSome result (λ tuple. tuple.now ≡ piece_of (page_bytes page.entry) pointer.off pointer.len) }
    ensures long { IfSome result (λ tuple. 24 ≤ length tuple.now) }
    ensures len { IfSome result (λ tuple. length tuple.now ≡ pointer.len) }
{
    if !pointer.flag.is_normal() || pointer.is_misplaced_heap_item(page.upper()) {
        return None;
    }
    Some(page.piece(pointer.off, pointer.len))
}
