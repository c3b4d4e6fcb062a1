//! Steps over the tables.
ghost use Rattle.std.specs.Prelude.{◌≡◌, ◌+◌, ◌∷◌, ◌++◌, ◌<◌, ◌≤◌, [], List, drop, length};
ghost use Rattle.std.specs.Prelude.{IfOk, None, Ok, OnErr, OnOk, Some, true};
ghost use Rattle.std.specs.Bool.{OnFalse, OnTrue};
ghost use Rattle.key_orders.specs.declared.columns.Value.{Value as Shown};
ghost use Rattle.key_orders.specs.declared.columns.Value.TheVariants.{Int};
ghost use Rattle.key_storage.specs.RowLists.{NUMBERS, number_bytes};
ghost use Rattle.key_storage.specs.Rows.{row_values};
ghost use Rattle.key_attrs.specs.Columns.{tree_columns};
ghost use Rattle.join_slots.specs.Met.{is_key, keyed, met_by};
ghost use Rattle.join_slots.specs.Slots.{AreBits, AreStarts, found_slot, key_of, keys_of, mets_of};
ghost use Rattle.join_slots.specs.Told.{TellsKey};

use key_attrs::{IndexColumns, has_stored_key};
use key_orders::Tid;
use key_storage::{NUMBERS, RowValues, is_number, is_stored};
use outside::NoMemory;
use page_layout::{is_set, set_bit};

/// Which rows are kept, and their keys.
#[derive(Clone, Copy)]
pub(crate) struct Kept<'a> {
    pub(crate) first: u32,
    pub(crate) starts: &'a [u32],
    pub(crate) records: &'a [u32],
    pub(crate) arena: &'a [u8],
}

/// The slot of a line pointer.
#[inline]
pub(crate) fn find(first: u32, starts: &[u32], tid: Tid) -> Option<usize>
    ensures { result ≡ found_slot first starts.now tid }
{
    if tid.block < first {
        return None;
    }
    if tid.item == 0 {
        return None;
    }
    let block = (tid.block - first) as usize;
    if starts.len() <= block + 1 {
        return None;
    }
    let next = starts[block] as usize + tid.item as usize;
    if (starts[block + 1] as usize) < next {
        return None;
    }
    Some(next - 1)
}

// The bytes from a place on.
#[inline]
fn bytes_from(arena: &[u8], at: u32) -> &[u8]
    ensures { result.now ≡ drop at arena.now }
{
    match arena.split_at_checked(at as usize) {
        Some((_, bytes)) => bytes,
        None => &[],
    }
}

/// Of how many line pointers at a time slots and keys are read ahead.
const AHEAD: usize = 512;

// What was read ahead of so many line pointers: what their slots say, and the bytes of bits and keys, all in one.
#[derive(Clone, Copy)]
struct ReadAhead {
    places: [u32; AHEAD],
    bytes: u8,
}

// What the slot of a line pointer says, 0 where there is none; the byte with its bit is read, too.
#[inline]
fn place_of(kept: Kept<'_>, bits: &[u8], tid: Tid, bytes: &mut u8) -> u32 {
    let Some(slot) = find(kept.first, kept.starts, tid) else {
        return 0;
    };
    if let Some(byte) = bits.get(slot / 8) {
        *bytes ^= *byte;
    }
    match kept.records.get(slot) {
        Some(place) => *place,
        None => 0,
    }
}

// The slots and the bits of the first line pointers.
fn slots_ahead(kept: Kept<'_>, bits: &[u8], tids: &[Tid]) -> ReadAhead {
    let mut read = ReadAhead {
        places: [0; AHEAD],
        bytes: 0,
    };
    for (place, tid) in read.places.iter_mut().zip(tids.iter()) {
        *place = place_of(kept, bits, *tid, &mut read.bytes);
    }
    read
}

// The keys at places.
fn keys_ahead(arena: &[u8], places: &[u32; AHEAD]) -> u8 {
    let mut bytes = 0u8;
    for place in places.iter() {
        if let Some(byte) = arena.get(*place as usize) {
            bytes ^= *byte;
        }
    }
    bytes
}

/// Reads what looks for the rows at these line pointers will read, of the first 512 of them. What it is means nothing.
pub(crate) fn read_ahead(kept: Kept<'_>, bits: &[u8], tids: &[Tid]) -> u8 {
    let read = slots_ahead(kept, bits, tids);
    read.bytes ^ keys_ahead(kept.arena, &read.places)
}

// A number as a key.
#[inline]
fn number_bytes(number: u32) -> [u8; 6]
    ensures { result ≡ number_bytes number }
{
    let b = number.to_le_bytes();
    [1, 6, b[0], b[1], b[2], b[3]]
}

// Whether a slot says that this is the key.
#[inline]
#[tactic(auto, unfolding(crate::specs::Slots::key_of))]
pub(crate) fn holds(arena: &[u8], place: u32, values: RowValues<'_>) -> bool
    ensures { result ≡ is_key (row_values values.entry) (key_of arena.now place) }
{
    if place == 0 {
        return false;
    }
    if NUMBERS <= place {
        return is_stored(&number_bytes(place - NUMBERS), values);
    }
    is_stored(bytes_from(arena, place - 1), values)
}

// Whether a slot says that the key lies in the arena that an index tuple without null bits has, whose body this is.
// `false` says nothing.
#[inline]
fn holds_plain(arena: &[u8], place: u32, columns: &IndexColumns<'_>, body: &[u8]) -> bool
    ensures { OnTrue result ((key : List Shown) → TellsKey (tree_columns columns.now) body.now key
        → is_key key (key_of arena.now place) ≡ true) }
{
    if place == 0 || NUMBERS <= place {
        return false;
    }
    match bytes_from(arena, place - 1).split_first() {
        Some((count, values)) => {
            let columns_count = columns.specs.len() + columns.more.len();
            *count as usize == columns_count && has_stored_key(columns, body, values)
        }
        None => false,
    }
}

// Sets the bit of the row that is rooted there, if its key is this one.
pub(crate) fn meet_in(kept: Kept<'_>, bits: &mut [u8], tid: Tid, values: RowValues<'_>)
    requires starts { AreStarts kept.starts.now kept.records.now }
    requires bits { AreBits kept.records.now bits.old }
    ensures met { mets_of kept.entry.first kept.entry.starts.now bits.new
        ≡ met_by (keys_of kept.entry.first kept.entry.starts.now kept.entry.records.now kept.entry.arena.now)
        (mets_of kept.entry.first kept.entry.starts.now bits.old) (keyed tid (row_values values.entry)) }
    ensures bits { AreBits kept.entry.records.now bits.new }
{
    match find(kept.first, kept.starts, tid) {
        Some(slot) => {
            if holds(kept.arena, kept.records[slot], values) {
                set_bit(bits, slot);
            }
        }
        None => {}
    }
}

// Does the same for the key of an index tuple without null bits, which has this body, where its bytes tell as they lie
// whether it is the row's; whether they do.
#[inline]
pub(crate) fn meet_plain_in(
    kept: Kept<'_>,
    bits: &mut [u8],
    tid: Tid,
    columns: &IndexColumns<'_>,
    body: &[u8],
) -> bool
    requires starts { AreStarts kept.starts.now kept.records.now }
    requires bits { AreBits kept.records.now bits.old }
    ensures met { OnTrue result ((key : List Shown) → TellsKey (tree_columns columns.now) body.now key
        → mets_of kept.entry.first kept.entry.starts.now bits.new
        ≡ met_by (keys_of kept.entry.first kept.entry.starts.now kept.entry.records.now kept.entry.arena.now)
        (mets_of kept.entry.first kept.entry.starts.now bits.old) (keyed tid key)) }
    ensures same { OnFalse result (bits.new ≡ bits.old) }
    ensures bits { AreBits kept.entry.records.now bits.new }
{
    let Some(slot) = find(kept.first, kept.starts, tid) else {
        return true;
    };
    let place = kept.records[slot];
    if place == 0 {
        return true;
    }
    if !holds_plain(kept.arena, place, columns, body) {
        return false;
    }
    set_bit(bits, slot);
    true
}

// Whether a slot says that the key is this number. `false` says nothing.
#[inline]
fn holds_number(arena: &[u8], place: u32, number: i64) -> bool
    ensures { OnTrue result (key_of arena.now place ≡ Some (Int number ∷ [])) }
{
    if NUMBERS <= place {
        return i64::from(place - NUMBERS) == number;
    }
    place != 0 && is_number(bytes_from(arena, place - 1), number)
}

// Sets the bit of the row that is rooted there, if its key is this number, as the bytes tell; whether they do.
#[inline]
pub(crate) fn meet_number_in(kept: Kept<'_>, bits: &mut [u8], tid: Tid, number: i64) -> bool
    requires starts { AreStarts kept.starts.now kept.records.now }
    requires bits { AreBits kept.records.now bits.old }
    ensures is { OnTrue result (keys_of kept.entry.first kept.entry.starts.now kept.entry.records.now
        kept.entry.arena.now tid ≡ Some (Int number ∷ [])) }
    ensures met { OnTrue result (mets_of kept.entry.first kept.entry.starts.now bits.new
        ≡ met_by (keys_of kept.entry.first kept.entry.starts.now kept.entry.records.now kept.entry.arena.now)
        (mets_of kept.entry.first kept.entry.starts.now bits.old) (keyed tid (Int number ∷ []))) }
    ensures same { OnFalse result (bits.new ≡ bits.old) }
    ensures bits { AreBits kept.entry.records.now bits.new }
{
    let Some(slot) = find(kept.first, kept.starts, tid) else {
        return false;
    };
    if !holds_number(kept.arena, kept.records[slot], number) {
        return false;
    }
    set_bit(bits, slot);
    true
}

/// Whether the row that is rooted there was met.
pub(crate) fn is_met_in(kept: Kept<'_>, bits: &[u8], tid: Tid) -> bool
    requires starts { AreStarts kept.starts.now kept.records.now }
    requires bits { AreBits kept.records.now bits.now }
    ensures { result ≡ mets_of kept.entry.first kept.entry.starts.now bits.now tid }
{
    match find(kept.first, kept.starts, tid) {
        Some(slot) => is_set(bits, slot),
        None => false,
    }
}

/// Whether this key is kept for the row that is rooted there.
pub(crate) fn is_kept_in(kept: Kept<'_>, tid: Tid, values: RowValues<'_>) -> bool
    requires starts { AreStarts kept.starts.now kept.records.now }
    ensures { result ≡ is_key (row_values values.entry)
        (keys_of kept.entry.first kept.entry.starts.now kept.entry.records.now kept.entry.arena.now tid) }
{
    match find(kept.first, kept.starts, tid) {
        Some(slot) => holds(kept.arena, kept.records[slot], values),
        None => false,
    }
}

/// A row whose values are written behind the keys of others: its slot, and what that will say.
#[derive(Clone, Copy)]
pub struct BegunRow {
    pub(crate) slot: usize,
    pub(crate) place: u32,
}

/// Writes behind the keys how many values the row of a slot will have.
pub(crate) fn begin_at(slot: usize, arena: &mut Vec<u8>, count: u8) -> Result<BegunRow, NoMemory>
    ensures slot { IfOk result (λ row. row.slot ≡ slot) }
    ensures place { IfOk result (λ row. row.place ≡ length arena.old.items + 1) }
    ensures low { IfOk result (λ row. row.place < NUMBERS) }
    ensures arena { OnOk result (arena.new.items ≡ arena.old.items ++ count ∷ []) }
    ensures same { OnErr result (arena.new.items ≡ arena.old.items) }
{
    let used = arena.len();
    if NUMBERS as usize <= used + 1 {
        return Err(NoMemory);
    }
    let place = used as u32 + 1;
    arena.push(count)?;
    Ok(BegunRow { slot, place })
}
