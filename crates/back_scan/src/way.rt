//! What a search from the high bound down goes by.
ghost use Rattle.key_orders.specs.Scans.{FitsKey};
ghost use Rattle.back_scan.specs.WayLaws.{reach_lower};
ghost use Rattle.back_scan.specs.Descents.{reach_goes};

use bt_steps::Way;
use key_orders::{KeySpec, Scan, SepRef, within};

/// The way to the last leaf that a scan reaches: it goes right of what the scan reaches beyond.
#[derive(Clone, Copy)]
pub struct Reach<'a> {
    pub scan: &'a Scan,
}

impl<'a> Way for Reach<'a> {
    ghost fits = { λ reach specs. FitsKey specs reach.scan.now };

    ghost goes = { λ reach specs s. reach_goes specs reach.scan.now s };

    ghost lower = { λ reach specs. reach_lower specs reach.scan.now };

    #[inline]
    fn goes_right(&self, specs: &[KeySpec], key: &SepRef<'_>) -> bool {
        within(specs, self.scan, key)
    }
}
