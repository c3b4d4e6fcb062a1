//! The separators between neighbouring entries.
ghost use Rattle.std.specs.Prelude.{◌≡◌, ◌≤◌, List, OnOk, length};
ghost use Rattle.key_orders.specs.declared.columns.KeySpec.{KeySpec as Spec};
ghost use Rattle.bt_image.specs.Image.{minus_infinity};
ghost use Rattle.laws_built_index.specs.Items.{MaySplit, pivot_item};
ghost use Rattle.bt_build.specs.Separators.{front_of, split_item, split_of};
ghost use Rattle.bt_build.specs.Source.{AreSorted, IsPlaceOf, IsSource, entries_sorted, entry_of};

use crate::bodies::{put_body, read_values};
use crate::entries::Place;
use crate::laying::Buffers;
use crate::order::{behind_count, compare_in_column};
use crate::source::{Sorted, Source};
use key_storage::read_value;
use laws_built_index::separators_may_be_laid;
use outside::NoMemory;
use page_write::{BodyFlags, Kept, put_pivot_tuple};

// What a separator has that keeps nothing.
const NOTHING: Kept = Kept {
    count: 0,
    tid: None,
};

const NO_VALUES: BodyFlags = BodyFlags {
    nulls: false,
    varwidth: false,
};

// How many first values of the right entry the separator of two neighbours keeps, and whether the TID of the left one:
// as few values as differ, or all with the TID where none does (nbtree README, "Notes about suffix truncation").
pub(crate) fn split_between(source: Source<'_>, left: Place, right: Place) -> Kept
    requires source { IsSource source }
    requires left { IsPlaceOf source left }
    requires right { IsPlaceOf source right }
    ensures count { result.count ≡ length (split_of source.entry.specs.now (entry_of source.entry left)
        (entry_of source.entry right)).kept }
    ensures tid { result.tid ≡ (split_of source.entry.specs.now (entry_of source.entry left)
        (entry_of source.entry right)).tid }
{
    let mut a = behind_count(source.arena, left.at);
    let mut b = behind_count(source.arena, right.at);
    for i in 0..source.specs.len() {
        let (x, after_x) = read_value(a);
        let (y, after_y) = read_value(b);
        if compare_in_column(&source.specs[i], x, y).is_ne() {
            return Kept {
                count: i as u16 + 1,
                tid: None,
            };
        }
        a = after_x;
        b = after_y;
    }
    Kept {
        count: source.specs.len() as u16,
        tid: Some(left.tid()),
    }
}

// Lays a separator that keeps so many first values of the entry on its right, with a downlink.
fn put_kept<'a>(
    source: Source<'a>,
    right: Place,
    kept: Kept,
    down: u32,
    buffers: &mut Buffers<'a>,
) -> Result<(), NoMemory>
    requires source { IsSource source }
    requires right { IsPlaceOf source right }
    requires count { kept.count ≤ length source.specs.now }
    requires may { MaySplit source.specs.now (front_of (entry_of source right) kept) }
    ensures { OnOk result (buffers.new.tuple.items
        ≡ pivot_item source.entry.specs.now down (front_of (entry_of source.entry right) kept)) }
{
    let count = kept.count as usize;
    read_values(
        &mut buffers.values,
        behind_count(source.arena, right.at),
        count,
    )?;
    let flags = put_body(&mut buffers.body, &source.types[..count], &buffers.values)?;
    put_pivot_tuple(&mut buffers.tuple, down, kept, flags, &buffers.body)
}

// Lays a separator that keeps nothing.
fn put_nothing(tuple: &mut Vec<u8>, down: u32) -> Result<(), NoMemory>
    ensures { OnOk result ((specs : List Spec) → tuple.new.items ≡ pivot_item specs down minus_infinity) }
{
    put_pivot_tuple(tuple, down, NOTHING, NO_VALUES, &[])
}

// Lays the separator before an entry, counted from 0, with a downlink, 0 for a high key. Where there is none, it keeps
// nothing.
pub(crate) fn put_separator<'a>(
    sorted: Sorted<'a>,
    before: usize,
    down: u32,
    buffers: &mut Buffers<'a>,
) -> Result<(), NoMemory>
    requires { AreSorted sorted }
    ensures item { OnOk result (buffers.new.tuple.items
        ≡ split_item sorted.entry.source.specs.now (entries_sorted sorted.entry) before down) }
    ensures short { OnOk result (length buffers.new.tuple.items ≤ 2712) }
{
    separators_may_be_laid();
    if before == 0 || sorted.places.len() <= before {
        return put_nothing(&mut buffers.tuple, down);
    }
    let right = sorted.places[before];
    let kept = split_between(sorted.source, sorted.places[before - 1], right);
    put_kept(sorted.source, right, kept, down, buffers)
}
