//! The order of entries, by the values that lie in the arena.
ghost use Rattle.std.specs.Prelude.{◌≡◌, ◌+◌, IsPermutation, IsSortedBy, drop, length};
ghost use Rattle.laws_search.specs.Keys.{compare_values};
ghost use Rattle.key_orders.specs.Keys.{columns_of, tid_order};
ghost use Rattle.key_orders.specs.Orders.{column_order, null_table, value_order};
ghost use Rattle.key_orders.specs.Values.{value_shown};
ghost use Rattle.key_storage.specs.Stored.{values_read};
ghost use Rattle.bt_build.specs.Places.{is_below, key_order_at, place_order};

use crate::entries::Place;
use key_orders::{KeySpec, Tid, ValueRef, key_orders_are_total};
use key_storage::read_value;
use std::cmp::Ordering;

// The order of two values. Those of a column are of one kind, or null.
fn compare_kinds(a: ValueRef<'_>, b: ValueRef<'_>) -> Ordering
    ensures { result ≡ value_order (value_shown a.entry) (value_shown b.entry) }
{
    match (a, b) {
        (ValueRef::Int(x), ValueRef::Int(y)) => x.cmp(&y),
        (ValueRef::Bytes(x), ValueRef::Bytes(y)) => x.cmp(y),
        (ValueRef::Bool(x), ValueRef::Bool(y)) => x.cmp(&y),
        (ValueRef::Null, ValueRef::Null) => Ordering::Equal,
        (ValueRef::Null, _) => Ordering::Less,
        (_, ValueRef::Null) => Ordering::Greater,
        (ValueRef::Bool(_), _) => Ordering::Less,
        (_, ValueRef::Bool(_)) => Ordering::Greater,
        (ValueRef::Int(_), ValueRef::Bytes(_)) => Ordering::Less,
        (ValueRef::Bytes(_), ValueRef::Int(_)) => Ordering::Greater,
    }
}

// The place of nulls, and how two values stand if neither is null.
fn with_nulls(first: bool, a_null: bool, b_null: bool, inside: Ordering) -> Ordering
    ensures { result ≡ null_table first a_null b_null inside }
{
    match (first, a_null, b_null) {
        (_, false, false) => inside,
        (_, true, true) => Ordering::Equal,
        (true, true, false) | (false, false, true) => Ordering::Less,
        (true, false, true) | (false, true, false) => Ordering::Greater,
    }
}

// The order of two values of a column, whatever they are.
pub(crate) fn compare_in_column(spec: &KeySpec, a: ValueRef<'_>, b: ValueRef<'_>) -> Ordering
    ensures { result ≡ column_order spec.now (value_shown a.entry) (value_shown b.entry) }
{
    let inside = if spec.desc {
        compare_kinds(b, a)
    } else {
        compare_kinds(a, b)
    };
    let a_null = matches!(a, ValueRef::Null);
    let b_null = matches!(b, ValueRef::Null);
    with_nulls(spec.nulls_first, a_null, b_null, inside)
}

// What lies behind the byte that counts the values of a key.
pub(crate) fn behind_count(arena: &[u8], at: usize) -> &[u8]
    ensures { result.now ≡ drop (at + 1) arena.now }
{
    match arena.split_at_checked(at.saturating_add(1)) {
        Some((_, rest)) => rest,
        None => &[],
    }
}

// The order of the first values of two keys.
fn compare_stored(specs: &[KeySpec], a: &[u8], b: &[u8]) -> Ordering
    ensures { result ≡ compare_values (columns_of specs.now) 0 (values_read (length specs.now) a.now)
        (values_read (length specs.now) b.now) }
{
    let mut left = a;
    let mut right = b;
    for i in 0..specs.len() {
        let (x, after_x) = read_value(left);
        let (y, after_y) = read_value(right);
        let found = compare_in_column(&specs[i], x, y);
        if found.is_ne() {
            return found;
        }
        left = after_x;
        right = after_y;
    }
    Ordering::Equal
}

// The order of the keys at two places of the arena.
pub(crate) fn compare_keys(specs: &[KeySpec], arena: &[u8], a: usize, b: usize) -> Ordering
    ensures { result ≡ key_order_at specs.now arena.now a b }
{
    compare_stored(specs, behind_count(arena, a), behind_count(arena, b))
}

pub(crate) fn compare_tids(a: Tid, b: Tid) -> Ordering
    ensures { result ≡ tid_order a b }
{
    a.block.cmp(&b.block).then(a.item.cmp(&b.item))
}

fn compare_places(specs: &[KeySpec], arena: &[u8], a: Place, b: Place) -> Ordering
    ensures { result ≡ place_order specs.now arena.now a b }
{
    let prefixes = a.prefix.cmp(&b.prefix);
    if prefixes.is_ne() {
        return prefixes;
    }
    let keys = compare_keys(specs, arena, a.at, b.at);
    if keys.is_ne() {
        return keys;
    }
    compare_tids(a.tid(), b.tid())
}

// Puts places in the order of their entries.
pub(crate) fn sort_places(specs: &[KeySpec], arena: &[u8], places: &mut [Place])
    ensures permutation { IsPermutation places.old places.new }
    ensures sorted { IsSortedBy (is_below specs.now arena.now) places.new }
{
    key_orders_are_total();
    places.sort_unstable_by(|a, b| compare_places(specs, arena, *a, *b));
}
