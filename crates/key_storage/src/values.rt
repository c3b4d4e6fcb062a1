//! The values of a row in an index.

use key_orders::ValueRef;

/// The values of a row in an index, as they lie: those of its key, and behind them those of the columns that the index
/// includes. Contracts see one list (`row_values`).
#[derive(Clone, Copy)]
pub struct RowValues<'a> {
    pub key: &'a [ValueRef<'a>],
    pub more: &'a [ValueRef<'a>],
}
