//! A number for the first value of a key, by which many keys are told apart at once.
ghost use Rattle.std.specs.Prelude.{◌≡◌, ◌<◌, ℕ, true, List, map};
ghost use Rattle.std.specs.declared.cmp.Ordering.TheVariants.{Less};
ghost use Rattle.laws_search.specs.Keys.{compare_values};
ghost use Rattle.key_orders.specs.declared.columns.Value.{Value as Shown};
ghost use Rattle.key_orders.specs.Values.{value_shown};
ghost use Rattle.key_orders.specs.Keys.{columns_of, fits_columns};
ghost use Rattle.key_orders.specs.Prefixes.{IsHeld, IsPrefix, value_number};
ghost use Rattle.key_orders.specs.Prefixes.{directed_number, null_number, rising_number};

use crate::columns::{KeySpec, ValueRef};
use crate::eight::eight_number;

/// A number for the first value of a key: where that of one key is smaller than that of another, the
/// first key is below the second in the order of keys, if both fit the columns. Equal numbers say
/// nothing. So keys are sorted by these numbers first, and those of the same number by their values.
///
/// Null has 0 or `u64::MAX`, by its place; a list without values has 0. Of bytes the first eight
/// count. In a column with `desc` it is the other way round for values that aren't null.
#[inline]
pub fn key_prefix(specs: &[KeySpec], values: &[ValueRef<'_>]) -> u64
    ensures prefix { IsPrefix specs.now (map value_shown values.now) result }
    ensures below { (other : List Shown) (number : ℕ) → IsPrefix specs.now other number → result < number
        → fits_columns specs.now (map value_shown values.now) ≡ true → fits_columns specs.now other ≡ true
        → compare_values (columns_of specs.now) 0 (map value_shown values.now) other ≡ Less }
{
    let Some(spec) = specs.first() else {
        return 0;
    };
    let Some(value) = values.first() else {
        return 0;
    };
    value_prefix(spec, *value)
}

// The number of a value in its column.
#[inline]
fn value_prefix(spec: &KeySpec, value: ValueRef<'_>) -> u64
    ensures number { result ≡ value_number spec.now (value_shown value.entry) }
    ensures held { IsHeld (value_shown value.entry) }
{
    match value {
        ValueRef::Null => null_number(spec.nulls_first),
        ValueRef::Bool(_) | ValueRef::Int(_) | ValueRef::Bytes(_) => {
            directed_number(spec.desc, rising_number(value))
        }
    }
}

// A number that rises with the values of a type.
#[inline]
fn rising_number(value: ValueRef<'_>) -> u64
    ensures number { result ≡ rising_number (value_shown value.entry) }
    ensures held { IsHeld (value_shown value.entry) }
{
    match value {
        ValueRef::Null => 0,
        ValueRef::Bool(b) => u64::from(b),
        ValueRef::Int(n) => n.cast_unsigned().wrapping_add(0x8000_0000_0000_0000),
        ValueRef::Bytes(bytes) => eight_number(bytes),
    }
}

// The other way round, where the values of a column fall.
#[inline]
fn directed_number(falls: bool, number: u64) -> u64
    ensures { result ≡ directed_number falls number }
{
    if falls { u64::MAX - number } else { number }
}

// Before or after all numbers.
#[inline]
fn null_number(first: bool) -> u64
    ensures { result ≡ null_number first }
{
    if first { 0 } else { u64::MAX }
}
