//! Values of columns, the orders of index keys, and a number for a key's first value that mostly decides.
#![tactic(auto)]

mod bytewise;
mod columns;
mod compare;
mod eight;
mod laws;
mod more;
mod octets;
mod orders;
mod prefixes;
mod refs;
mod scans;
mod separators;
mod types;
mod values;

pub use columns::{ColType, KeySpec, Value, ValueRef};
pub use compare::{cmp_entry, cmp_sep, cmp_two_seps, cmp_values, fits_columns};
pub use laws::{
    goes_right_has_the_laws, key_orders_are_total, keys_are_searchable, within_has_the_laws,
};
pub use more::{MAX_MORE_COLUMNS, MoreRefs, MoreSpec};
pub use octets::Octets;
pub use orders::{BoolOrder, BytesOrder, IntOrder, KeyOrder, NullPlace, Reversed};
pub use prefixes::key_prefix;
pub use refs::{KeyRefs, MAX_KEY_COLUMNS};
pub use scans::{
    Scan, ScanDirection, ScanFault, before_low, goes_right, matches, past_high, within,
};
pub use separators::{SepRef, Separator};
pub use types::{ValueKind, value_of};
pub use values::fits_type;

/// The place of a tuple in its table (`ctid`): its block, counted from 0, and its item, counted
/// from 1.
#[derive(Clone, Copy, Debug, PartialEq, Eq)]
pub struct Tid {
    pub block: u32,
    pub item: u16,
}
