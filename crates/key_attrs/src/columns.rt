//! The columns of an index: those of its key, and those that it includes.
ghost use Rattle.std.specs.Prelude.{◌≡◌, ◌≤◌, All, length};
ghost use Rattle.key_orders.specs.Types.{HasAlignment};
ghost use Rattle.key_attrs.specs.Keyed.{key_types, more_types};

use key_orders::{KeySpec, MoreSpec};

/// The columns of an index: at most 8 of its key, and at most 24 that it includes beside it
/// (`INCLUDE` of `CREATE INDEX`), each of a type whose values are aligned.
#[derive(Clone, Copy)]
pub struct IndexColumns<'a> {
    /// Those of the key.
    pub specs: &'a [KeySpec],
    /// Those that are included.
    pub more: &'a [MoreSpec],
    pub ghost few: { length specs.now ≤ 8 },
    pub ghost few_more: { length more.now ≤ 24 },
    pub ghost aligned: { All HasAlignment (key_types specs.now) },
    pub ghost aligned_more: { All HasAlignment (more_types more.now) },
}

impl<'a> IndexColumns<'a> {
    /// The columns of an index with these in its key and these beside it.
    #[inline]
    pub fn new(specs: &'a [KeySpec], more: &'a [MoreSpec]) -> IndexColumns<'a>
        requires few { length specs.now ≤ 8 }
        requires few_more { length more.now ≤ 24 }
        requires aligned { All HasAlignment (key_types specs.now) }
        requires aligned_more { All HasAlignment (more_types more.now) }
        ensures specs { result.specs.now ≡ specs.now }
        ensures more { result.more.now ≡ more.now }
    {
        IndexColumns { specs, more }
    }
}
