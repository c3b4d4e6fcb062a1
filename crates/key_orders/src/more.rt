//! Columns that an index includes beside its key, and their values as they lie on a page.
ghost use Rattle.std.specs.Prelude.{◌≡◌, ◌<◌, ◌≤◌, [], ◌∷◌, ◌++◌, length, map};
ghost use Rattle.key_orders.specs.Values.{value_shown};

use crate::columns::{ColType, ValueRef};
use std::marker::Model;

/// How many columns an index may include beside its key here.
pub const MAX_MORE_COLUMNS: usize = 24;

/// A column that an index includes beside its key (`INCLUDE` of `CREATE INDEX`). Its values are kept
/// in leaves alone, and no order looks at them, so it may be of any type.
#[derive(Clone, Copy, Debug, PartialEq, Eq)]
pub struct MoreSpec {
    /// The column of the table, counted from 0.
    pub column: u16,
    pub ctype: ColType,
}

/// The values of the included columns, or the first of them, where they lie: at most
/// `MAX_MORE_COLUMNS`. Contracts see the list of the values.
#[derive(Drop)]
pub struct MoreRefs<'p> {
    values: [ValueRef<'p>; MAX_MORE_COLUMNS],
    len: usize,
}

impl<'p> Model for MoreRefs<'p> {
    ghost use Rattle.std.specs.Prelude.{◌≡◌, ◌≤◌, List, length, map, take};
    ghost use Rattle.key_orders.specs.declared.columns.Value.{Value as Shown};
    ghost use Rattle.key_orders.specs.Values.{value_shown};

    ghost Value = { List Shown };

    ghost view = { λ k. map value_shown (take k.len k.values) };

    ghost invariant = { λ k. (k.len ≤ 24) × (length k.values ≡ 24) };
}

impl<'p> MoreRefs<'p> {
    /// No values.
    #[inline]
    pub fn new() -> MoreRefs<'p>
        ensures { result ≡ [] }
    {
        MoreRefs {
            values: [ValueRef::Null; MAX_MORE_COLUMNS],
            len: 0,
        }
    }

    /// Adds a value at the end.
    #[inline]
    pub fn push(&mut self, v: ValueRef<'p>)
        requires { length self.old < MAX_MORE_COLUMNS }
        ensures { self.new ≡ self.old ++ value_shown v.entry ∷ [] }
    {
        self.values[self.len] = v;
        self.len += 1;
    }

    /// The values.
    #[inline]
    pub fn as_slice(&self) -> &[ValueRef<'p>]
        ensures values { map value_shown result.now ≡ self.now }
        ensures few { length result.now ≤ MAX_MORE_COLUMNS }
    {
        &self.values[..self.len]
    }
}
