//! The entries of an index that is to be built.
ghost use Rattle.std.specs.Prelude.{◌≡◌, ◌≢◌, ◌<◌, [], ◌∷◌, ◌++◌, All, IfOk, OnErr, OnOk, false, length, map, vec_capacity};
ghost use Rattle.std.specs.Prelude.{vec_len};
ghost use Rattle.std.specs.Bool.{OnTrue};
ghost use Rattle.key_orders.specs.Values.{value_shown};
ghost use Rattle.key_attrs.specs.Keyed.{key_types, more_types};
ghost use Rattle.key_storage.specs.Rows.{row_values};
ghost use Rattle.key_storage.specs.Stored.{IsStorable, stored_key};
ghost use Rattle.page_write.specs.Bodies.{IsShortEnough};
ghost use Rattle.bt_image.specs.Image.{leaf_entry};
ghost use Rattle.bt_build.specs.Places.{tid_of};
ghost use Rattle.bt_build.specs.Listed.{AreColumns, AreValues, IsNewTid, with_entry};
ghost use Rattle.bt_build.specs.Outcome.{IsAnswer};

use crate::build::{BuiltTree, build_kept};
use crate::fault::IndexFault;
use crate::source::Source;
use key_orders::{ColType, KeySpec, MoreSpec, Tid, ValueRef, key_prefix};
use key_storage::{RowValues, write_key};
use outside::NoMemory;
use page_write::index_body_length;
use std::alloc::Global;
use std::marker::Model;

// A value of an index has fewer bytes than these (varatt.h).
const MOST_BYTES: usize = 1073741820;

// The most bytes of a body that a place can tell: more are told as so many.
const MOST_LENGTH: usize = 65535;

// Where the values of an entry lie in the arena, a number of its key that rises with keys, its TID, and how many bytes
// the body of its item has, or 65535 where it has more. The parts of the TID stand for themselves, so that a place has
// 24 bytes.
#[derive(Clone, Copy, Debug, PartialEq, Eq)]
pub(crate) struct Place {
    pub(crate) prefix: u64,
    pub(crate) at: usize,
    pub(crate) block: u32,
    pub(crate) item: u16,
    pub(crate) body_length: u16,
}

impl Place {
    pub(crate) fn tid(self) -> Tid
        ensures { result ≡ tid_of self }
    {
        Tid {
            block: self.block,
            item: self.item,
        }
    }
}

/// The entries of an index that is to be built, in the order in which they were added. Contracts see the columns of the
/// index and the list of the entries (`Listed`).
#[derive(Drop)]
pub struct EntryList {
    specs: Vec<KeySpec>,
    more: Vec<MoreSpec>,
    types: Vec<ColType>,
    arena: Vec<u8>,
    // The values of the entry that was added last.
    row: Vec<u8>,
    places: Vec<Place>,
}

impl Model for EntryList {
    ghost use Rattle.bt_build.specs.Kept.{AreKept, listed_in};
    ghost use Rattle.bt_build.specs.Places.{tid_of};
    ghost use Rattle.bt_build.specs.Listed.{Listed};

    ghost Value = { Listed };

    ghost view = { λ l. listed_in l.specs.items l.more.items l.arena.items l.places.items };

    ghost invariant = { λ l. AreKept l.specs.items l.more.items l.types.items l.arena.items l.places.items };
}

// Whether a value has fewer bytes than a varlena's header can state.
fn is_short(value: ValueRef<'_>) -> bool
    ensures { OnTrue result (IsShortEnough (value_shown value.entry)) }
{
    match value {
        ValueRef::Null | ValueRef::Bool(_) | ValueRef::Int(_) => true,
        ValueRef::Bytes(bytes) => bytes.len() < MOST_BYTES,
    }
}

fn are_short(values: &[ValueRef<'_>]) -> bool
    ensures { OnTrue result (All (λ v. IsShortEnough (value_shown v)) values.now) }
{
    for i in 0..values.len() {
        if !is_short(values[i]) {
            return false;
        }
    }
    true
}

fn key_types(alloc: Global, specs: &[KeySpec]) -> Result<Vec<ColType>, NoMemory>
    ensures { IfOk result (λ types. types.items ≡ key_types specs.now) }
{
    let types = specs.iter().map(|k| k.ctype).collect(alloc)?;
    Ok(types)
}

// Adds the types of included columns.
fn add_more_types(types: &mut Vec<ColType>, more: &[MoreSpec]) -> Result<(), NoMemory>
    ensures { OnOk result (types.new.items ≡ types.old.items ++ more_types more.now) }
{
    for i in 0..more.len() {
        types.push(more[i].ctype)?;
    }
    Ok(())
}

fn own_specs(alloc: Global, specs: &[KeySpec]) -> Result<Vec<KeySpec>, NoMemory>
    ensures { IfOk result (λ own. own.items ≡ specs.now) }
{
    let own = specs.to_vec(alloc)?;
    Ok(own)
}

fn own_more(alloc: Global, more: &[MoreSpec]) -> Result<Vec<MoreSpec>, NoMemory>
    ensures { IfOk result (λ own. own.items ≡ more.now) }
{
    let own = more.to_vec(alloc)?;
    Ok(own)
}

pub(crate) fn own_places(alloc: Global, places: &[Place]) -> Result<Vec<Place>, NoMemory>
    ensures { IfOk result (λ own. own.items ≡ places.now) }
{
    let own = places.to_vec(alloc)?;
    Ok(own)
}

// Adds a place where there is room, which takes no memory.
fn push_in_room(places: &mut Vec<Place>, place: Place)
    requires { vec_len places.old < vec_capacity places.old }
    ensures { places.new.items ≡ places.old.items ++ place ∷ [] }
{
    let _ = places.push(place);
}

// Adds values behind the others, wherever these end, by way of a buffer. After `NoMemory` the others are as they were.
fn push_key(arena: &mut Vec<u8>, row: &mut Vec<u8>, values: RowValues<'_>) -> Result<(), NoMemory>
    requires few { length (row_values values) < 256 }
    ensures ok { OnOk result (arena.new.items ≡ arena.old.items ++ stored_key (row_values values.entry)) }
    ensures storable { OnOk result (All IsStorable (row_values values.entry)) }
    ensures err { OnErr result (arena.new.items ≡ arena.old.items) }
{
    row.clear();
    write_key(row, values)?;
    arena.extend_from_slice(row)?;
    Ok(())
}

impl EntryList {
    /// No entries of an index of these columns: from 1 to 8 of its key, and at most 24 that it includes, each with an
    /// alignment of 1, 2, 4 or 8.
    pub fn new(alloc: Global, specs: &[KeySpec], more: &[MoreSpec]) -> Result<EntryList, NoMemory>
        requires { AreColumns specs.now more.now }
        ensures { IfOk result (λ l. l ≡ record { specs = specs.now; more = more.now; entries = [] }) }
    {
        let mut types = key_types(alloc, specs)?;
        add_more_types(&mut types, more)?;
        let specs = own_specs(alloc, specs)?;
        let more = own_more(alloc, more)?;
        Ok(EntryList {
            specs,
            more,
            types,
            arena: Vec::new(alloc),
            row: Vec::new(alloc),
            places: Vec::new(alloc),
        })
    }

    /// Adds the entry of a row at the end: its values, one for each column, and its TID, which no entry has yet. After
    /// `NoMemory` nothing changed; it comes too where values would have more than 4 GiB together, or one of them a GiB.
    pub fn add(&mut self, values: RowValues<'_>, tid: Tid) -> Result<(), NoMemory>
        requires values { AreValues self.old (map value_shown values.key.now) (map value_shown values.more.now) }
        requires item { tid.item ≢ 0 }
        requires fresh { IsNewTid self.old tid }
        ensures ok { OnOk result (self.new ≡ with_entry self.old
            (leaf_entry (map value_shown values.entry.key.now) (map value_shown values.entry.more.now) tid false)) }
        ensures err { OnErr result (self.new ≡ self.old) }
    {
        if !are_short(values.key) || !are_short(values.more) {
            return Err(NoMemory);
        }
        let at = self.arena.len();
        let prefix = key_prefix(&self.specs, values.key);
        let whole = index_body_length(&self.types, values.key, values.more);
        self.places.reserve(1)?;
        push_key(&mut self.arena, &mut self.row, values)?;
        let place = Place {
            prefix,
            at,
            block: tid.block,
            item: tid.item,
            body_length: whole.min(MOST_LENGTH) as u16,
        };
        push_in_room(&mut self.places, place);
        Ok(())
    }

    // The index of the entries.
    pub(crate) fn build(&self, alloc: Global) -> Result<BuiltTree, IndexFault>
        ensures { IsAnswer self.now result }
    {
        let source = Source {
            specs: &self.specs,
            more: &self.more,
            types: &self.types,
            arena: &self.arena,
        };
        build_kept(alloc, source, &self.places)
    }
}
