//! The value of a pointer.
ghost use Rattle.std.specs.Prelude.{◌≡◌, ◌++◌, ◌≤◌, true, IfOk, OnOk};
ghost use Rattle.outside.specs.Outside.{AskedAtMost, IfTold, Tells};
ghost use Rattle.rel_files.specs.Relation.{IsAttached};
ghost use Rattle.toast_chunks.specs.Chunks.{is_whole};
ghost use Rattle.toast_chunks.specs.InHand.{Grows};
ghost use Rattle.toast_chunks.specs.Pointer.{chunk_count, stored_size};
ghost use Rattle.toast_chunks.specs.Stored.{AllStand};
ghost use Rattle.toast_chunks.specs.Value.{HasBytes, IsState, value_of_pointer};

use crate::fault::ToastFault;
use crate::map::ToastMap;
use crate::pointer::{chunk_count, is_compressed, stored_size};
use crate::reader::push_chunk;
use key_orders::Octets;
use outside::Files;
use rel_files::Relation;
use std::alloc::Global;
use varlena_attrs::{AttrBuffer, ToastPointer};

/// What the value of a pointer is.
#[derive(Drop)]
pub enum ToastState {
    /// Its chunks are whole: the bytes that they make.
    Whole(Octets),
    /// Its chunks are whole, and what they make is compressed.
    Packed,
    /// Its chunks aren't those that it should have.
    Broken,
}

/// Memory in which chunks are read. It serves one value after another.
#[derive(Drop)]
pub struct ChunkReader {
    page: [u8; 8192],
    attrs: AttrBuffer,
}

impl ChunkReader {
    /// Nothing is read yet.
    pub fn new(alloc: Global) -> ChunkReader {
        ChunkReader {
            page: [0u8; 8192],
            attrs: AttrBuffer::new(alloc),
        }
    }
}

/// Adds the bytes of a whole value's chunks to others, joined by their numbers, with one read for each of them at most.
/// After an error a part of them may stand there.
pub fn push_value<F: Files>(
    files: &mut F,
    toast: &Relation,
    map: &ToastMap,
    p: ToastPointer,
    reader: &mut ChunkReader,
    bytes: &mut Vec<u8>,
) -> Result<(), ToastFault>
    requires attached { IfTold F.seen files.old (λ names. IsAttached names toast.now) }
    requires stand { IfTold F.seen files.old (λ names. AllStand names toast.now map.now) }
    requires whole { is_whole map.now p ≡ true }
    ensures bytes { OnOk result (IfTold F.seen files.old (λ names.
        bytes.new.items ≡ bytes.old.items ++ value_of_pointer names toast.now map.now p)) }
    ensures grows { Grows bytes.old.items bytes.new.items }
    ensures asked { AskedAtMost (chunk_count (stored_size p)) F.seen files.old files.new result
        ToastFault.ReadFault }
{
    let mut in_hand = None;
    for k in 0..chunk_count(stored_size(p)) {
        match map.find(p.value_id, k) {
            Some(chunk) => push_chunk(
                files,
                toast,
                chunk.tid,
                &mut reader.page,
                &mut in_hand,
                &mut reader.attrs,
                bytes,
            )?,
            None => {}
        }
    }
    Ok(())
}

// The bytes of a whole value.
fn joined<F: Files>(
    alloc: Global,
    files: &mut F,
    toast: &Relation,
    map: &ToastMap,
    p: ToastPointer,
) -> Result<Octets, ToastFault>
    requires attached { IfTold F.seen files.old (λ names. IsAttached names toast.now) }
    requires stand { IfTold F.seen files.old (λ names. AllStand names toast.now map.now) }
    requires whole { is_whole map.now p ≡ true }
    ensures bytes { Tells F.seen files.old result (λ bytes names. bytes ≡ value_of_pointer names toast.now map.now p) }
    ensures asked { AskedAtMost (chunk_count (stored_size p)) F.seen files.old files.new result
        ToastFault.ReadFault }
{
    let mut reader = ChunkReader::new(alloc);
    let mut bytes = Vec::new(alloc);
    push_value(files, toast, map, p, &mut reader, &mut bytes)?;
    Ok(Octets::from_vec(bytes))
}

/// The value of a pointer, by the chunks of a map, which stand in the TOAST table that is given. `Broken`
/// comes exactly where `ToastMap::whole` is false, and `Packed` exactly where it is true and the value is
/// compressed. Otherwise the chunks are read and joined by their numbers, with one read for each of them at most. It is
/// asked of pointers that keep H20; of others the same holds by their sizes as they stand.
///
/// `ReadFault` comes only where the files couldn't be read. Where files don't tell what they hold, a
/// row that isn't where the map says adds no bytes.
pub fn value<F: Files>(
    alloc: Global,
    files: &mut F,
    toast: &Relation,
    map: &ToastMap,
    p: ToastPointer,
) -> Result<ToastState, ToastFault>
    requires attached { IfTold F.seen files.old (λ names. IsAttached names toast.now) }
    requires stand { IfTold F.seen files.old (λ names. AllStand names toast.now map.now) }
    ensures state { IfOk result (IsState map.now p) }
    ensures bytes { Tells F.seen files.old result (λ state names.
        HasBytes state (value_of_pointer names toast.now map.now p)) }
    ensures asked { AskedAtMost (chunk_count (stored_size p)) F.seen files.old files.new result
        ToastFault.ReadFault }
{
    if !map.whole(p) {
        return Ok(ToastState::Broken);
    }
    if is_compressed(p) {
        return Ok(ToastState::Packed);
    }
    Ok(ToastState::Whole(joined(alloc, files, toast, map, p)?))
}
