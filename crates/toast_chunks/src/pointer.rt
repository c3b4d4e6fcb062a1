//! What a pointer to a TOAST value says of it.
ghost use Rattle.std.specs.Prelude.{◌≡◌, ◌↔◌, ◌+◌, ◌<◌, ◌≤◌, ◌^◌, IsTrue};
ghost use Rattle.toast_chunks.specs.Pointer.{KeepsPointerRule, chunk_count, chunk_size, is_compressed};
ghost use Rattle.toast_chunks.specs.Pointer.{keeps_pointer_rule, method_of, raw_size, stored_size};

use varlena_attrs::ToastPointer;

/// The most bytes of a value before compression, its header of 4 included: `MaxAllocSize` of
/// `utils/memutils.h`.
const MOST_RAW: u32 = 1073741823;

/// The bytes of a chunk, but for a value's last one: `TOAST_MAX_CHUNK_SIZE` of `access/heaptoast.h`
/// for pages of 8192 bytes.
pub(crate) const CHUNK: u32 = 1996;

// The raw size, 0 where it is negative.
fn raw_size(p: ToastPointer) -> u32
    ensures { result ≡ raw_size p }
{
    if p.raw_size < 0 { 0 } else { p.raw_size as u32 }
}

/// The bytes of the value in the TOAST table, all chunks together.
#[inline]
#[tactic(auto, unfolding(crate::specs::Pointer::stored_size))]
pub fn stored_size(p: ToastPointer) -> u32
    ensures size { result ≡ stored_size p }
    ensures limit { result < 2 ^ 30 }
{
    p.ext_info % 0x4000_0000
}

// The method of compression: 0 is pglz, 1 is LZ4.
#[tactic(auto, unfolding(crate::specs::Pointer::method_of))]
fn method_of(p: ToastPointer) -> u32
    ensures { result ≡ method_of p }
{
    p.ext_info / 0x4000_0000
}

/// Whether the value is compressed: fewer bytes are stored than the value has
/// (`VARATT_EXTERNAL_IS_COMPRESSED`).
#[inline]
pub fn is_compressed(p: ToastPointer) -> bool
    ensures { result ≡ is_compressed p }
{
    stored_size(p) + 4 < raw_size(p)
}

/// Whether the pointer's numbers can be those of a value: true exactly where it keeps H20. Its raw
/// size is 4 to 1073741823, the stored size is at most the raw size less 4, and a compressed value
/// has a known method, 0 or 1.
#[tactic(auto, unfolding(crate::specs::Pointer::keeps_pointer_rule))]
pub fn pointer_rule(p: ToastPointer) -> bool
    ensures value { result ≡ keeps_pointer_rule p }
    ensures rule { IsTrue result ↔ KeepsPointerRule p }
{
    let raw = raw_size(p);
    4 <= raw
        && raw <= MOST_RAW
        && stored_size(p) + 4 <= raw
        && (!is_compressed(p) || method_of(p) <= 1)
}

// How many chunks a value of so many stored bytes has.
#[tactic(auto, unfolding(crate::specs::Pointer::chunk_count))]
pub(crate) fn chunk_count(stored: u32) -> u32
    requires { stored < 2 ^ 30 }
    ensures count { result ≡ chunk_count stored }
    ensures limit { result < 2 ^ 20 }
{
    stored.div_ceil(CHUNK)
}

// The bytes of chunk k of a value of so many stored bytes.
#[tactic(auto, unfolding(crate::specs::Pointer::chunk_size))]
pub(crate) fn chunk_size(stored: u32, k: u32) -> u32
    requires { k < 2 ^ 20 }
    ensures { result ≡ chunk_size stored k }
{
    stored.saturating_sub(CHUNK * k).min(CHUNK)
}
