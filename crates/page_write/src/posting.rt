//! Posting tuples: items of leaves that have one key and several TIDs.
ghost use Rattle.std.specs.Prelude.{◌≡◌, ◌≤◌, ◌++◌, length, OnOk};
ghost use Rattle.page_write.specs.Posting.{HasListRoom, list_bytes, padded_list, posting_size, posting_tuple};

use crate::index_tuples::{BodyFlags, index_size, push_body, push_index_head};
use crate::words::{push_tid, push_zeros};
use bt_meta::{BT_IS_POSTING, INDEX_ALT_TID_MASK};
use key_orders::Tid;
use outside::NoMemory;
use page_layout::max_align;

// Adds TIDs, one after the other.
fn push_tids(out: &mut Vec<u8>, tids: &[Tid]) -> Result<(), NoMemory>
    ensures { OnOk result (out.new.items ≡ out.old.items ++ list_bytes tids.now) }
{
    for tid in tids {
        push_tid(out, *tid)?;
    }
    Ok(())
}

// Adds TIDs and their padding, after a body of so many bytes.
#[tactic(auto, unfolding(crate::specs::Posting::padded_list))]
fn push_list(out: &mut Vec<u8>, tids: &[Tid], body: &[u8]) -> Result<(), NoMemory>
    requires short { length body.now ≤ 8160 }
    requires room { HasListRoom (length body.now) (length tids.now) }
    ensures { OnOk result (out.new.items ≡ out.old.items ++ padded_list (length body.now) tids.now) }
{
    let padding = posting_size(tids, body) - (index_size(body) + 6 * tids.len() as u16);
    push_tids(out, tids)?;
    push_zeros(out, padding)
}

// The bytes of the tuple.
fn posting_size(tids: &[Tid], body: &[u8]) -> u16
    requires short { length body.now ≤ 8160 }
    requires room { HasListRoom (length body.now) (length tids.now) }
    ensures value { result ≡ posting_size (length body.now) (length tids.now) }
    ensures most { result ≤ 8184 }
{
    max_align(index_size(body) + 6 * tids.len() as u16)
}

/// Puts an item of a leaf with several TIDs in the place of what the buffer held (nbtree README, "Notes about
/// deduplication"). The body has the null bits, if there are any, and the values, each at its alignment. The
/// tuple has at most 8184 bytes.
#[tactic(auto, unfolding(crate::specs::Posting::posting_tuple))]
pub fn put_posting_tuple(
    out: &mut Vec<u8>,
    tids: &[Tid],
    flags: BodyFlags,
    body: &[u8],
) -> Result<(), NoMemory>
    requires short { length body.now ≤ 8160 }
    requires room { HasListRoom (length body.now) (length tids.now) }
    ensures { OnOk result (out.new.items ≡ posting_tuple tids.now flags body.now) }
{
    let size = posting_size(tids, body);
    out.clear();
    push_index_head(
        out,
        u32::from(index_size(body)),
        BT_IS_POSTING + tids.len() as u16,
        INDEX_ALT_TID_MASK + flags.masks() + size,
    )?;
    push_body(out, body)?;
    push_list(out, tids, body)
}
