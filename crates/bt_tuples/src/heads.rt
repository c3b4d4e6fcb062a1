//! What the head of an index tuple says of the rest.
ghost use Rattle.std.specs.Prelude.{◌≡◌, ◌≤◌, length};
ghost use Rattle.std.specs.Option.{option_copied};
ghost use Rattle.bt_meta.specs.Heads.{tree_head_of};
ghost use Rattle.bt_tuples.specs.Tuples.{body_begin, body_end, body_in, has_null_bits, keeps_tid, null_bits_in};
ghost use Rattle.bt_tuples.specs.Tuples.{number_of, size_of};

use bt_meta::{
    BT_OFFSET_LIMIT, BT_PIVOT_HEAP_TID_ATTR, HeadKind, INDEX_NULL_MASK, INDEX_SIZE_LIMIT, TID_LEN,
    TreeHead,
};
use page_layout::has_bit;

// The bytes of a head (IndexTupleData), of null bits (IndexAttributeBitMapData), and of both with the
// padding after them.
const HEAD_LEN: usize = 8;

const NULL_BITS_LEN: usize = 4;

const PADDED_LEN: usize = 16;

// The size that the tuple states.
#[inline]
pub(crate) fn size_of(head: TreeHead) -> u16
    ensures { result ≡ size_of head }
{
    head.info % INDEX_SIZE_LIMIT
}

// Whether there are null bits.
#[inline]
#[tactic(auto, unfolding(crate::specs::Tuples::has_null_bits))]
pub(crate) fn has_null_bits(head: TreeHead) -> bool
    ensures { result ≡ has_null_bits head }
{
    has_bit(head.info, INDEX_NULL_MASK)
}

// How many values a pivot keeps, or how many TIDs a posting tuple lists.
#[inline]
pub(crate) fn number_of(head: TreeHead) -> u16
    ensures { result ≡ number_of head }
{
    head.item % BT_OFFSET_LIMIT
}

// Whether a pivot keeps a TID.
#[inline]
#[tactic(auto, unfolding(crate::specs::Tuples::keeps_tid))]
pub(crate) fn keeps_tid(head: TreeHead) -> bool
    ensures { result ≡ keeps_tid head }
{
    has_bit(head.item, BT_PIVOT_HEAP_TID_ATTR)
}

// Where the values begin.
#[inline]
pub(crate) fn body_begin(head: TreeHead) -> usize
    ensures { result ≡ body_begin head }
{
    if has_null_bits(head) {
        PADDED_LEN
    } else {
        HEAD_LEN
    }
}

// Where they end, in a tuple of so many bytes.
#[inline]
pub(crate) fn body_end(head: TreeHead, size: usize) -> usize
    requires { 6 ≤ size }
    ensures place { result ≡ body_end head size }
    ensures within { result ≤ size }
{
    match head.kind {
        HeadKind::Plain => size,
        HeadKind::Pivot if keeps_tid(head) => size - TID_LEN,
        HeadKind::Pivot => size,
        HeadKind::Posting => (head.block as usize).min(size),
    }
}

// The bytes of the values.
#[inline]
pub(crate) fn body_of<'p>(tuple: &'p [u8], head: TreeHead) -> &'p [u8]
    requires long { 8 ≤ length tuple.now }
    requires head { head ≡ tree_head_of tuple.now }
    requires begins { body_begin head ≤ body_end head (length tuple.now) }
    ensures { result.now ≡ body_in tuple.now }
{
    &tuple[body_begin(head)..body_end(head, tuple.len())]
}

// The null bits, where there are some.
#[inline]
pub(crate) fn null_bits_of<'p>(tuple: &'p [u8], head: TreeHead) -> Option<&'p [u8]>
    requires long { 8 ≤ length tuple.now }
    requires head { head ≡ tree_head_of tuple.now }
    requires begins { body_begin head ≤ body_end head (length tuple.now) }
    ensures { option_copied result ≡ null_bits_in tuple.now }
{
    if has_null_bits(head) {
        Some(&tuple[HEAD_LEN..HEAD_LEN + NULL_BITS_LEN])
    } else {
        None
    }
}
