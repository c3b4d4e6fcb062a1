//! The rows of a TOAST table.
ghost use Rattle.std.specs.Prelude.{◌≡◌, ◌≤◌, All, length};
ghost use Rattle.std.specs.Option.{option_copied};
ghost use Rattle.toast_chunks.specs.Rows.{content_in, number_in, row_of};
ghost use Rattle.varlena_attrs.specs.Shown.{IsWithin, shown_at, shown_in};

use key_orders::ColType;
use page_layout::u32_at;
use varlena_attrs::AttrPlace;

/// The columns of a TOAST table: `chunk_id`, an oid, `chunk_seq`, an int4, and `chunk_data`, a bytea.
pub const TOAST_COLUMNS: [ColType; 3] = [
    ColType::Fixed { len: 4, align: 4 },
    ColType::Int4,
    ColType::Bytea,
];

/// What a row of a TOAST table says of its chunk, as `ToastMap::add` takes it.
#[derive(Clone, Copy, Debug, PartialEq, Eq)]
pub struct ChunkRow {
    /// The value that the chunk belongs to.
    pub id: u32,
    /// Its number in the value, 0 where it has none.
    pub seq: i32,
    /// Its bytes, `None` where they aren't plain or the chunk has no number.
    pub size: Option<u32>,
}

// The bytes of a value, where they are plain.
pub(crate) fn content_in(body: &[u8], place: AttrPlace) -> Option<&[u8]>
    requires { IsWithin (length body.now) place }
    ensures { option_copied result ≡ content_in (shown_at body.now place) }
{
    match place {
        AttrPlace::Plain { start, len } => Some(&body[start..start + len]),
        AttrPlace::Null
        | AttrPlace::Missing
        | AttrPlace::Packed { .. }
        | AttrPlace::External { .. } => None,
    }
}

// The number that a value of four bytes is.
#[tactic(auto, unfolding(crate::specs::Rows::number_in))]
fn number_in(body: &[u8], place: AttrPlace) -> Option<u32>
    requires { IsWithin (length body.now) place }
    ensures { result ≡ number_in (shown_at body.now place) }
{
    match content_in(body, place) {
        Some(bytes) if bytes.len() == 4 => Some(u32_at(bytes, 0)),
        _ => None,
    }
}

/// What a row of a TOAST table says of its chunk, by the attributes of its tuple, which lie in the
/// tuple's body on a page. `None` exactly where the row names no value: its `chunk_id` is null. Columns
/// that the tuple doesn't store count as null.
#[tactic(auto, unfolding(crate::specs::Rows::row_of))]
pub fn chunk_row(body: &[u8], places: &[AttrPlace]) -> Option<ChunkRow>
    requires within { All (IsWithin (length body.now)) places.now }
    requires page { length body.now ≤ 8192 }
    ensures { result ≡ row_of (shown_in body.now places.now) }
{
    let [id, seq, data] = places else {
        return None;
    };
    let id = number_in(body, *id)?;
    let content = content_in(body, *data);
    match number_in(body, *seq) {
        None => Some(ChunkRow {
            id,
            seq: 0,
            size: None,
        }),
        Some(seq) => Some(ChunkRow {
            id,
            seq: seq.cast_signed(),
            size: content.map(|bytes| bytes.len() as u32),
        }),
    }
}
