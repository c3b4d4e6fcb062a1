//! The chunk that stands at an item of a page.
ghost use Rattle.std.specs.Prelude.{◌≡◌, ◌≤◌, false, All, IfOk, IfSome, Ok, Some, length};
ghost use Rattle.std.specs.Option.{option_copied};
ghost use Rattle.page_layout.specs.Page.{item_of};
ghost use Rattle.tuple_head.specs.Head.{has_misplaced_attributes, tuple_head_of};
ghost use Rattle.toast_chunks.specs.Stored.{HasRow, content_at, content_of};
ghost use Rattle.toast_chunks.specs.Rows.{toast_columns};
ghost use Rattle.varlena_attrs.specs.Shown.{IsWithin, shown_in};
ghost use Rattle.heap_tuples.specs.Tuples.{attributes_in};

use crate::rows::{TOAST_COLUMNS, content_in};
use heap_tuples::{try_read_tuple, tuple_at};
use outside::NoMemory;
use varlena_attrs::{AttrBuffer, AttrPlace};

// The bytes of the chunk that a row's tuple has.
fn content_of<'p>(tuple: &'p [u8], buffer: &mut AttrBuffer) -> Result<Option<&'p [u8]>, NoMemory>
    requires long { 24 ≤ length tuple.now }
    ensures { IfOk result (λ content. has_misplaced_attributes (length tuple.now) (tuple_head_of tuple.now) ≡ false
        → option_copied content ≡ content_of (attributes_in toast_columns tuple.now)) }
{
    match try_read_tuple(buffer, &TOAST_COLUMNS, tuple)? {
        Some(body) => Ok(chunk_content(body, buffer.as_slice())),
        None => Ok(None),
    }
}

// The bytes of the chunk that a row's attributes are.
fn chunk_content<'p>(body: &'p [u8], places: &[AttrPlace]) -> Option<&'p [u8]>
    requires { All (IsWithin (length body.now)) places.now }
    ensures { option_copied result ≡ content_of (Ok (shown_in body.now places.now)) }
{
    match places {
        [_, _, content] => content_in(body, *content),
        _ => None,
    }
}

/// The bytes of the chunk that an item of a page is, where there is such a row.
pub(crate) fn content_at<'p>(
    page: &'p [u8; 8192],
    item: u16,
    buffer: &mut AttrBuffer,
) -> Result<Option<&'p [u8]>, NoMemory>
    ensures { IfOk result (λ content. HasRow page.now item → option_copied content ≡ content_at page.now item) }
{
    match tuple_at(page, item) {
        Some(tuple) => content_of(tuple, buffer),
        None => Ok(None),
    }
}
