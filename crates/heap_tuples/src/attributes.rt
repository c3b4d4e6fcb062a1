//! The attributes of a heap tuple, whose header is given.
ghost use Rattle.std.specs.Prelude.{◌≡◌, ◌-◌, ◌≤◌, false, true, Ok, [], drop, length};
ghost use Rattle.std.specs.Prelude.{OnOk, OnErr, IfOk, IfErr, IfSome, All};
ghost use Rattle.std.specs.Option.{is_some, option_copied};
ghost use Rattle.key_orders.specs.Types.{HasAlignment};
ghost use Rattle.tuple_head.specs.Head.{has_misplaced_attributes, tuple_head_of};
ghost use Rattle.varlena_attrs.specs.Inline.{are_inline};
ghost use Rattle.varlena_attrs.specs.Shown.{FaultIn, IsWithin, shown_in};
ghost use Rattle.heap_tuples.specs.Tuples.{IsRead, attributes_in, body_of, nulls_of, parts_of};

use key_orders::ColType;
use outside::NoMemory;
use tuple_head::{HeapHead, heap_head};
use varlena_attrs::{AttrBuffer, AttrFault, ColumnLayout, TupleColumns};

// The null bits, where there are some: from byte 23 up to the header's end.
#[inline]
fn nulls_of<'p>(tuple: &'p [u8], head: &HeapHead) -> Option<&'p [u8]>
    requires header { head.now ≡ tuple_head_of tuple.now }
    requires begins { 23 ≤ head.now.hoff }
    requires within { head.now.hoff ≤ length tuple.now }
    ensures { option_copied result ≡ nulls_of tuple.now }
{
    if head.has_nulls() {
        Some(&tuple[23..head.hoff as usize])
    } else {
        None
    }
}

// What follows the header.
#[inline]
fn body_of<'p>(tuple: &'p [u8], head: &HeapHead) -> &'p [u8]
    requires header { head.now ≡ tuple_head_of tuple.now }
    requires within { head.now.hoff ≤ length tuple.now }
    ensures { result.now ≡ body_of tuple.now }
{
    &tuple[head.hoff as usize..]
}

/// Reads the attributes of a heap tuple, whose header is given and ends within the tuple, into a
/// buffer. The answer is the tuple's body, in which the places lie. Columns and faults are those of
/// `AttrBuffer::read`; after a fault the buffer is empty.
#[tactic(auto, unfolding(crate::specs::Tuples::attributes_in))]
pub fn read_tuple<'p>(
    buffer: &mut AttrBuffer,
    columns: &[ColType],
    tuple: &'p [u8],
    head: &HeapHead,
) -> Result<&'p [u8], AttrFault>
    requires aligned { All HasAlignment columns.now }
    requires header { head.now ≡ tuple_head_of tuple.now }
    requires begins { 23 ≤ head.now.hoff }
    requires within { head.now.hoff ≤ length tuple.now }
    ensures body { IfOk result (λ body. body.now ≡ body_of tuple.now) }
    ensures value { IfOk result (λ body. attributes_in columns.now tuple.now ≡ Ok (shown_in body.now buffer.new)) }
    ensures within { IfOk result (λ body. All (IsWithin (length body.now)) buffer.new) }
    ensures count { OnOk result (length buffer.new ≡ length columns.now) }
    ensures fault { IfErr result (FaultIn (attributes_in columns.now tuple.now)) }
    ensures empty { OnErr result (buffer.new ≡ []) }
{
    let body = body_of(tuple, head);
    buffer.read(columns, body, nulls_of(tuple, head), head.natts())?;
    Ok(body)
}

/// Reads the attributes of a heap tuple of 24 bytes or more into a buffer. The answer is the tuple's body,
/// in which the places lie, and `None` where its header doesn't end within it or a column can't be read.
pub fn try_read_tuple<'p>(
    buffer: &mut AttrBuffer,
    columns: &[ColType],
    tuple: &'p [u8],
) -> Result<Option<&'p [u8]>, NoMemory>
    requires long { 24 ≤ length tuple.now }
    requires aligned { All HasAlignment columns.now }
    ensures value { IfOk result (λ found. IfSome found (λ body.
        attributes_in columns.now tuple.now ≡ Ok (shown_in body.now buffer.new))) }
    ensures within { IfOk result (λ found. IfSome found (λ body. All (IsWithin (length body.now)) buffer.new)) }
    ensures end { IfOk result (λ found. IfSome found (λ body.
        body.now ≡ drop (length tuple.now - length body.now) tuple.now)) }
    ensures part { IfOk result (λ found. IfSome found (λ body. length body.now ≤ length tuple.now)) }
    ensures read { IfOk result (λ found. has_misplaced_attributes (length tuple.now) (tuple_head_of tuple.now) ≡ false
        → IsRead columns.now tuple.now (option_copied found)) }
{
    let head = heap_head(tuple);
    let hoff = head.hoff as usize;
    if hoff < 23 || tuple.len() < hoff {
        return Ok(None);
    }
    match read_tuple(buffer, columns, tuple, &head) {
        Ok(body) => Ok(Some(body)),
        Err(AttrFault::NoMemory) => Err(NoMemory),
        Err(_) => Ok(None),
    }
}

/// The attributes of a heap tuple of 24 bytes or more, to be read one after the other; `None` where its
/// header doesn't end within it. It reads none yet, and takes no memory.
#[inline]
pub fn tuple_columns<'p>(columns: &'p [ColType], tuple: &'p [u8]) -> Option<TupleColumns<'p>>
    requires long { 24 ≤ length tuple.now }
    requires aligned { All HasAlignment columns.now }
    ensures parts { IfSome result (λ t. t ≡ parts_of columns.now tuple.now) }
    ensures end { IfSome result (λ t. t.body ≡ drop (length tuple.now - length t.body) tuple.now) }
    ensures part { IfSome result (λ t. length t.body ≤ length tuple.now) }
    ensures some { has_misplaced_attributes (length tuple.now) (tuple_head_of tuple.now) ≡ false
        → is_some result ≡ true }
{
    let head = heap_head(tuple);
    let hoff = head.hoff as usize;
    if tuple.len() < hoff || hoff < 23 {
        return None;
    }
    let body = body_of(tuple, &head);
    let nulls = nulls_of(tuple, &head);
    Some(TupleColumns::new(columns, body, nulls, head.natts()))
}

/// Whether the attributes of a heap tuple, whose header is given and ends within the tuple, can be
/// read, and all its values are stored in line: none stands in a TOAST table. It takes no memory.
#[inline]
#[tactic(auto, unfolding(crate::specs::Tuples::attributes_in))]
pub fn are_inline(layout: &ColumnLayout<'_>, tuple: &[u8], head: &HeapHead) -> bool
    requires header { head.now ≡ tuple_head_of tuple.now }
    requires begins { 23 ≤ head.now.hoff }
    requires within { head.now.hoff ≤ length tuple.now }
    ensures { result ≡ are_inline (attributes_in layout.now tuple.now) }
{
    layout.are_inline(body_of(tuple, head), nulls_of(tuple, head), head.natts())
}
