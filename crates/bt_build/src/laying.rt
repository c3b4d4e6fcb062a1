//! The bytes of items.
ghost use Rattle.std.specs.Prelude.{◌≡◌, All, OnOk, drop, map, take};
ghost use Rattle.laws_built_index.specs.Items.{leaf_item};
ghost use Rattle.bt_build.specs.Groups.{IsItem, entries_in};
ghost use Rattle.bt_build.specs.Places.{tid_of};
ghost use Rattle.bt_build.specs.Source.{IsPlaceOf, IsSource, entries_of};

use crate::entries::Place;
use crate::groups::Item;
use crate::source::{Source, put_entry_body};
use key_orders::{Tid, ValueRef};
use outside::NoMemory;
use page_write::{put_plain_tuple, put_posting_tuple};
use std::alloc::Global;

// What items are laid in, one after the other.
#[derive(Drop)]
pub(crate) struct Buffers<'a> {
    pub(crate) values: Vec<ValueRef<'a>>,
    pub(crate) body: Vec<u8>,
    pub(crate) tids: Vec<Tid>,
    pub(crate) tuple: Vec<u8>,
}

impl<'a> Buffers<'a> {
    pub(crate) fn new(alloc: Global) -> Buffers<'a> {
        Buffers {
            values: Vec::new(alloc),
            body: Vec::new(alloc),
            tids: Vec::new(alloc),
            tuple: Vec::new(alloc),
        }
    }
}

// Puts the TIDs of places in the place of what the list held.
fn put_tids(tids: &mut Vec<Tid>, places: &[Place]) -> Result<(), NoMemory>
    ensures { OnOk result (tids.new.items ≡ map tid_of places.now) }
{
    tids.clear();
    for i in 0..places.len() {
        tids.push(places[i].tid())?;
    }
    Ok(())
}

// Lays an item of a leaf.
pub(crate) fn put_item<'a>(
    source: Source<'a>,
    places: &[Place],
    item: Item,
    buffers: &mut Buffers<'a>,
) -> Result<(), NoMemory>
    requires source { IsSource source }
    requires kept { All (IsPlaceOf source) places.now }
    requires item { IsItem source.specs.now source.more.now (entries_of source places.now) item }
    ensures { OnOk result (buffers.new.tuple.items ≡ leaf_item source.entry.specs.now source.entry.more.now
        (entries_in (entries_of source.entry places.now) item)) }
{
    let place = places[item.first];
    let flags = put_entry_body(source, place, &mut buffers.values, &mut buffers.body)?;
    if item.count == 1 {
        return put_plain_tuple(&mut buffers.tuple, place.tid(), flags, &buffers.body);
    }
    let (_, later) = places.split_at(item.first);
    let (shared, _) = later.split_at(item.count as usize);
    put_tids(&mut buffers.tids, shared)?;
    put_posting_tuple(&mut buffers.tuple, &buffers.tids, flags, &buffers.body)
}
