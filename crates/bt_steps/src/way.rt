//! What a search goes by on its way down a tree.
ghost use Rattle.std.specs.Prelude.{◌≡◌, List};
ghost use Rattle.laws_search.specs.Keys.{goes_right};
ghost use Rattle.key_orders.specs.declared.columns.KeySpec.{KeySpec as Spec};
ghost use Rattle.key_orders.specs.Keys.{IsKey, IsKeySeparator, columns_of};
ghost use Rattle.key_orders.specs.Scans.{FitsKey};
ghost use Rattle.key_orders.specs.Separators.{separator_of};
ghost use Rattle.bt_steps.specs.Sought.{is_below, is_within};
ghost use Rattle.bt_steps.specs.Ways.{Goes, GoesLower};
ghost use Rattle.bt_steps.specs.WayLaws.{scan_lower, sought_lower, within_lower};

use key_orders::{KeyRefs, KeySpec, Scan, SepRef, Tid, cmp_sep, goes_right};

/// What a search goes by: of which keys it goes right. It goes right of each key below one that it goes
/// right of, so that it can look for the last such by halves.
pub trait Way {
    // it is a way by keys of these columns
    ghost fits: { Self → List Spec → Type 0 };

    // the keys that it goes right of, in an index with these key columns
    ghost goes: { Self → List Spec → Goes };

    /// Whether it goes right of what a page keeps.
    fn goes_right(&self, specs: &[KeySpec], key: &SepRef<'_>) -> bool
        requires fits { fits self.now specs.now }
        requires key { IsKeySeparator specs.now (separator_of key.now) }
        ensures { result ≡ goes self.now specs.now (separator_of key.now) };

    ghost lower: { (w : Self) (specs : List Spec) → GoesLower specs (goes w specs) };
}

// A scan goes right of what no entry at or below meets its low bound.
impl Way for Scan {
    ghost fits = { λ scan specs. FitsKey specs scan };

    ghost goes = { λ scan specs s. goes_right (columns_of specs) scan.low s };

    ghost lower = { λ scan specs. scan_lower specs scan };

    #[inline]
    fn goes_right(&self, specs: &[KeySpec], key: &SepRef<'_>) -> bool {
        goes_right(specs, self, key)
    }
}

/// An entry that is sought: a value for each column of the key, and the TID.
#[derive(Clone, Copy)]
pub struct Sought<'k> {
    pub key: &'k KeyRefs<'k>,
    pub tid: Tid,
}

// The way to the leaf on which the entry may stand goes right of each separator below it.
impl<'k> Way for Sought<'k> {
    ghost fits = { λ sought specs. IsKey specs sought.key.now };

    ghost goes = { λ sought specs s. is_below specs sought.key.now sought.tid s };

    ghost lower = { λ sought specs. sought_lower specs sought.key.now sought.tid };

    #[inline]
    fn goes_right(&self, specs: &[KeySpec], key: &SepRef<'_>) -> bool {
        !cmp_sep(specs, self.key, self.tid, key).is_le()
    }
}

/// The way over a leaf to the item that may have the entry: it goes right of each key that isn't above it.
#[derive(Clone, Copy)]
pub struct UpTo<'k> {
    pub sought: Sought<'k>,
}

impl<'k> Way for UpTo<'k> {
    ghost fits = { λ up specs. IsKey specs up.sought.key.now };

    ghost goes = { λ up specs s. is_within specs up.sought.key.now up.sought.tid s };

    ghost lower = { λ up specs. within_lower specs up.sought.key.now up.sought.tid };

    #[inline]
    fn goes_right(&self, specs: &[KeySpec], key: &SepRef<'_>) -> bool {
        !cmp_sep(specs, self.sought.key, self.sought.tid, key).is_lt()
    }
}
