//! What entries are laid from: the columns of the index, and the values that lie in the arena.
ghost use Rattle.std.specs.Prelude.{◌≡◌, ◌++◌, IfOk, OnOk, nat_lt};
ghost use Rattle.page_write.specs.Bodies.{body_flags, index_body};
ghost use Rattle.page_write.specs.Tuples.{index_size};
ghost use Rattle.laws_built_index.specs.Items.{entry_types};
ghost use Rattle.bt_build.specs.Outcome.{lower_tid, lowest_tid};
ghost use Rattle.bt_build.specs.Places.{large_tids};
ghost use Rattle.bt_build.specs.Source.{IsPlaceOf, IsSource, entry_of};

use crate::bodies::{put_body, read_values};
use crate::entries::Place;
use crate::order::{behind_count, compare_tids};
use key_orders::{ColType, KeySpec, MoreSpec, Tid, ValueRef};
use outside::NoMemory;
use page_write::BodyFlags;

// The most bytes of a body whose plain item isn't too large: with a head of 8 bytes it has 2704 (BTMaxItemSize).
const MOST_BODY: u16 = 2696;

#[derive(Clone, Copy)]
pub(crate) struct Source<'a> {
    pub(crate) specs: &'a [KeySpec],
    pub(crate) more: &'a [MoreSpec],
    // The types of the values of an entry.
    pub(crate) types: &'a [ColType],
    pub(crate) arena: &'a [u8],
}

// The places of the entries in order.
#[derive(Clone, Copy)]
pub(crate) struct Sorted<'a> {
    pub(crate) source: Source<'a>,
    pub(crate) places: &'a [Place],
}

// Puts the body of an entry in the place of what the buffer held.
pub(crate) fn put_entry_body<'a>(
    source: Source<'a>,
    place: Place,
    values: &mut Vec<ValueRef<'a>>,
    body: &mut Vec<u8>,
) -> Result<BodyFlags, NoMemory>
    requires source { IsSource source }
    requires kept { IsPlaceOf source place }
    ensures body { OnOk result (body.new.items ≡ index_body (entry_types source.entry.specs.now source.entry.more.now)
        ((entry_of source.entry place).entry.values ++ (entry_of source.entry place).more)) }
    ensures flags { IfOk result (λ flags. flags
        ≡ body_flags (entry_types source.entry.specs.now source.entry.more.now)
        ((entry_of source.entry place).entry.values ++ (entry_of source.entry place).more)) }
{
    read_values(
        values,
        behind_count(source.arena, place.at),
        source.types.len(),
    )?;
    put_body(body, source.types, values)
}

// Whether the plain item of a body of so many bytes is too large.
fn is_too_long(body_length: u16) -> bool
    ensures { result ≡ nat_lt 2704 (index_size body_length) }
{
    MOST_BODY < body_length
}

fn lower_tid(tid: Tid, other: Option<Tid>) -> Tid
    ensures { result ≡ lower_tid tid other }
{
    match other {
        Some(other) => {
            if compare_tids(other, tid).is_lt() {
                other
            } else {
                tid
            }
        }
        None => tid,
    }
}

// The lowest TID of the entries whose plain items are too large.
pub(crate) fn large_tid(places: &[Place]) -> Option<Tid>
    ensures { result ≡ lowest_tid (large_tids places.now) }
{
    let mut lowest = None;
    let mut left = places.len();
    while 0 < left {
        left -= 1;
        let place = places[left];
        if is_too_long(place.body_length) {
            lowest = Some(lower_tid(place.tid(), lowest));
        }
    }
    lowest
}
