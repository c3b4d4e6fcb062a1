//! The chunks of a TOAST table, found by their value and number.
ghost use Rattle.std.specs.Prelude.{◌≡◌, ◌↔◌, ◌∷◌, [], ◌++◌, ◌+◌, ◌<◌, ◌≤◌, ◌^◌, ℕ, Some, pos, unwrap_or};
ghost use Rattle.std.specs.Prelude.{vec_capacity, vec_len, IfOk, IsSome, IsTrue, OnErr, OnOk};
ghost use Rattle.std.specs.BTreeMap.{Updates, get};
ghost use Rattle.std.specs.Ordering.{nat_cmp};
ghost use Rattle.toast_chunks.specs.declared.value_chunks.ValueChunks.TheVariants.{Empty};
ghost use Rattle.toast_chunks.specs.Chunks.{IsWhole, is_whole};
ghost use Rattle.toast_chunks.specs.Index.{FindsChunk};
ghost use Rattle.toast_chunks.specs.ValueChunks.{Describes};

use crate::pointer::stored_size;
use crate::value_chunks::ValueChunks;
use key_orders::Tid;
use outside::NoMemory;
use std::alloc::Global;
use std::collections::BTreeMap;
use std::marker::Model;
use varlena_attrs::ToastPointer;

/// A live chunk of a TOAST table.
#[derive(Clone, Copy, Debug)]
pub struct Chunk {
    /// The value that it belongs to (`chunk_id`).
    pub id: u32,
    /// Its number in that value, from 0 (`chunk_seq`).
    pub seq: i32,
    /// Its place in the table.
    pub tid: Tid,
    /// Its bytes (`chunk_data`); `None` where they can't be read or the chunk has no number.
    pub size: Option<u32>,
}

// The value and the number of a chunk.
#[derive(Clone, Copy, Debug, PartialEq, Eq, PartialOrd, Ord)]
pub(crate) struct ChunkNumber {
    pub(crate) id: u32,
    pub(crate) seq: i32,
}

/// The live chunks of a TOAST table: their places and sizes, and none of their bytes. Contracts see
/// the list of the chunks in the order in which they were added. It keeps its allocator.
#[derive(Drop)]
pub struct ToastMap {
    chunks: Vec<Chunk>,
    // What tells whether the chunks of a value are whole.
    values: BTreeMap<u32, ValueChunks>,
    // A place in `chunks` of the chunk of each number.
    places: BTreeMap<ChunkNumber, usize>,
}

impl Model for ToastMap {
    ghost use Rattle.std.specs.Prelude.{List};
    ghost use Rattle.toast_chunks.specs.declared.map.Chunk.{Chunk};
    ghost use Rattle.toast_chunks.specs.Index.{IsIndexed};

    ghost Value = { List Chunk };

    ghost view = { λ m. m.chunks.items };

    ghost invariant = { λ m. IsIndexed m.chunks.items m.values m.places };
}

impl ToastMap {
    /// A map without chunks.
    pub fn new(alloc: Global) -> ToastMap
        ensures { result ≡ [] }
    {
        ToastMap {
            chunks: Vec::new(alloc),
            values: BTreeMap::new(alloc),
            places: BTreeMap::new(alloc),
        }
    }

    /// Adds a live chunk. `size` is `None` where the chunk's bytes aren't plain or its number is
    /// null; such a chunk fits no value, and still belongs to that of `id`. After `NoMemory` the map
    /// is unchanged.
    pub fn add(&mut self, id: u32, seq: i32, tid: Tid, size: Option<u32>) -> Result<(), NoMemory>
        ensures ok { OnOk result (self.new ≡ self.old ++ record { id = id; seq = seq; tid = tid; size = size } ∷ []) }
        ensures err { OnErr result (self.new ≡ self.old) }
    {
        let value = value_with_room(&mut self.values, id)?;
        self.chunks.reserve(1)?;
        let again = self
            .places
            .insert(ChunkNumber { id, seq }, self.chunks.len())?
            .is_some();
        set_value(&mut self.values, id, value.with(seq, size, again));
        push_with_room(&mut self.chunks, Chunk { id, seq, tid, size });
        Ok(())
    }

    // The chunks of a value.
    fn chunks_of(&self, id: u32) -> ValueChunks
        ensures { Describes self.now id result }
    {
        self.values.get(&id).copied().unwrap_or(ValueChunks::Empty)
    }

    // A chunk of number k of a value.
    pub(crate) fn find(&self, id: u32, k: u32) -> Option<Chunk>
        requires { k < 2 ^ 31 }
        ensures { FindsChunk self.now id (pos k) result }
    {
        let number = ChunkNumber { id, seq: k as i32 };
        match self.places.get(&number) {
            None => None,
            Some(place) => Some(self.chunks[*place]),
        }
    }

    /// Whether the chunks of the pointer's value are those that it should have, each once: true exactly
    /// where the pointer keeps H21. It takes one look-up, however many chunks the value has.
    pub fn whole(&self, p: ToastPointer) -> bool
        ensures whole { IsTrue result ↔ IsWhole self.now p }
        ensures value { result ≡ is_whole self.now p }
    {
        self.chunks_of(p.value_id).is_whole(stored_size(p))
    }
}

// The chunks of a value, with room for what they are next.
fn value_with_room(
    values: &mut BTreeMap<u32, ValueChunks>,
    id: u32,
) -> Result<ValueChunks, NoMemory>
    ensures value { IfOk result (λ v. v ≡ unwrap_or (get nat_cmp values.old id) Empty) }
    ensures room { OnOk result (IsSome (get nat_cmp values.new id)) }
    ensures same { (q : ℕ) → unwrap_or (get nat_cmp values.new q) Empty ≡ unwrap_or (get nat_cmp values.old q) Empty }
{
    let value = values.get(&id).copied().unwrap_or(ValueChunks::Empty);
    values.insert(id, value)?;
    Ok(value)
}

// Sets the chunks of a value that has room, which can't fail.
fn set_value(values: &mut BTreeMap<u32, ValueChunks>, id: u32, value: ValueChunks)
    requires { IsSome (get nat_cmp values.old id) }
    ensures { Updates nat_cmp values.old values.new id (Some value) }
{
    let _ = values.insert(id, value);
}

// Adds a chunk where there is room, which can't fail.
fn push_with_room(chunks: &mut Vec<Chunk>, chunk: Chunk)
    requires { vec_len chunks.old + 1 ≤ vec_capacity chunks.old }
    ensures { chunks.new.items ≡ chunks.old.items ++ chunk ∷ [] }
{
    let _ = chunks.push(chunk);
}
