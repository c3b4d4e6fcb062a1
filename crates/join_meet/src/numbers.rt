//! Entries of an index of one column, which meet their rows by a number.
ghost use Rattle.std.specs.Prelude.{◌≡◌, ◌≢◌, ◌∷◌, [], IfSome, None, Ok};
ghost use Rattle.std.specs.Bool.{OnTrue};
ghost use Rattle.key_orders.specs.declared.columns.Value.TheVariants.{Int};
ghost use Rattle.key_attrs.specs.Columns.{all_types};
ghost use Rattle.key_attrs.specs.Keyed.{key_values};
ghost use Rattle.join_slots.specs.Met.{keyed, met_by};
ghost use Rattle.join_slots.specs.Slots.{SameRange, keys_in, met_in};

use join_slots::RowSlots;
use key_attrs::{IndexColumns, plain_first_value};
use key_orders::{Tid, ValueRef};
use key_storage::RowValues;

// The one value in an index tuple without null bits, which has this body, if it is a number. `None` says nothing.
#[inline]
pub(crate) fn lone_number(columns: &IndexColumns<'_>, body: &[u8]) -> Option<i64>
    ensures { IfSome result (λ n. key_values (all_types columns.now) body.now None ≡ Ok (Int n ∷ [])) }
{
    if columns.count() != 1 {
        return None;
    }
    match plain_first_value(columns, body)? {
        ValueRef::Int(n) => Some(n),
        ValueRef::Null | ValueRef::Bool(_) | ValueRef::Bytes(_) => None,
    }
}

// Meets the row that an entry names whose one value is a number; `true` says that a row is kept there. `false` says
// nothing.
#[inline]
pub(crate) fn meet_number(slots: &mut RowSlots, tid: Tid, number: i64) -> bool
    ensures kept { OnTrue result (keys_in slots.old tid ≢ None) }
    ensures met { met_in slots.new
        ≡ met_by (keys_in slots.old) (met_in slots.old) (keyed tid (Int number ∷ [])) }
    ensures keys { keys_in slots.new ≡ keys_in slots.old }
    ensures range { SameRange slots.old slots.new }
{
    if slots.meet_number(tid, number) {
        return true;
    }
    let key = [ValueRef::Int(number)];
    let values = RowValues {
        key: &key,
        more: &[],
    };
    slots.meet(tid, values);
    false
}
