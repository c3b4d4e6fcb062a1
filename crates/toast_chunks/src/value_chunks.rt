//! What a map keeps of the chunks of one value, from which it tells whether they are whole: enough to add
//! one more chunk, in whatever order they come, and not the chunks themselves.
ghost use Rattle.std.specs.Prelude.{◌≡◌, ◌↔◌, ◌∷◌, [], ◌++◌, ◌<◌, ◌≤◌, ◌^◌, IsTrue, List, Some, count_by, pos};
ghost use Rattle.varlena_attrs.specs.declared.places.ToastPointer.{ToastPointer};
ghost use Rattle.toast_chunks.specs.declared.map.Chunk.{Chunk};
ghost use Rattle.toast_chunks.specs.Chunks.{is_numbered, is_whole};
ghost use Rattle.toast_chunks.specs.Pointer.{stored_size};
ghost use Rattle.toast_chunks.specs.ValueChunks.{Describes};

use crate::pointer::{CHUNK, chunk_count, chunk_size};

/// The chunks of one value, whatever the order in which they were added, in 16 bytes.
#[derive(Clone, Copy, Debug)]
pub(crate) enum ValueChunks {
    /// There is none.
    Empty,
    /// Each has a number of its own from 0 on, and all but that of the greatest number are full. Such
    /// chunks are a whole value's by how many there are, their greatest number and the size of its chunk.
    Fit {
        /// How many there are.
        count: u32,
        /// The greatest number.
        last: u32,
        /// The bytes of the chunk of that number.
        size: u32,
    },
    /// They are those of no whole value, whatever chunks there are besides.
    Unfit,
}

impl ValueChunks {
    /// These chunks and another one of the same value, of this number and size; `again` says whether
    /// there is one of its number among them.
    pub(crate) fn with(self, seq: i32, size: Option<u32>, again: bool) -> ValueChunks
        ensures { (chunks : List Chunk) (c : Chunk) → Describes chunks c.id self → c.seq ≡ seq → c.size ≡ size
            → (IsTrue again ↔ 1 ≤ count_by (is_numbered c.id c.seq) chunks)
            → Describes (chunks ++ c ∷ []) c.id result }
    {
        let Some(size) = size else {
            return ValueChunks::Unfit;
        };
        if again || seq < 0 {
            return ValueChunks::Unfit;
        }
        self.with_fit(seq as u32, size)
    }

    // These chunks and another one, of a number that isn't among them.
    fn with_fit(self, seq: u32, size: u32) -> ValueChunks
        requires { seq < 2 ^ 31 }
        ensures { (chunks : List Chunk) (c : Chunk) → Describes chunks c.id self → c.seq ≡ pos seq
            → c.size ≡ Some size → count_by (is_numbered c.id c.seq) chunks ≡ 0
            → Describes (chunks ++ c ∷ []) c.id result }
    {
        match self {
            ValueChunks::Empty => ValueChunks::Fit {
                count: 1,
                last: seq,
                size,
            },
            ValueChunks::Fit {
                count,
                last,
                size: last_size,
            } => {
                let (lower_size, last, size) = if last < seq {
                    (last_size, seq, size)
                } else {
                    (size, last, last_size)
                };
                if lower_size == CHUNK {
                    // There are no more of them than numbers, which are below 2 ^ 31.
                    ValueChunks::Fit {
                        count: count.saturating_add(1),
                        last,
                        size,
                    }
                } else {
                    ValueChunks::Unfit
                }
            }
            ValueChunks::Unfit => ValueChunks::Unfit,
        }
    }

    /// Whether these are the chunks that a value of so many stored bytes should have, each once.
    pub(crate) fn is_whole(self, stored: u32) -> bool
        requires { stored < 2 ^ 30 }
        ensures { (chunks : List Chunk) (p : ToastPointer) → Describes chunks p.value_id self
            → stored ≡ stored_size p → result ≡ is_whole chunks p }
    {
        match self {
            ValueChunks::Empty => stored == 0,
            ValueChunks::Fit { count, last, size } => {
                count == chunk_count(stored) && last < count && size == chunk_size(stored, last)
            }
            ValueChunks::Unfit => false,
        }
    }
}
