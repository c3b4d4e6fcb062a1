//! The entries of a map.
ghost use Rattle.std.specs.Prelude.{◌≤◌};

/// A relation, and the number of its file (`utils/cache/relmapper.c`, `RelMapping`).
#[derive(Clone, Copy, Debug, PartialEq, Eq)]
pub struct MapEntry {
    /// The relation's number in pg_class.
    pub oid: u32,
    /// The number of its file.
    pub file: u32,
}

// The most places that a map has.
pub(crate) const MOST_PLACES: usize = 64;

/// The entries of a map.
#[derive(Clone, Copy, Debug, PartialEq, Eq)]
pub struct FileMap {
    pub(crate) entries: [MapEntry; MOST_PLACES],
    pub(crate) count: usize,
    ghost few: { count ≤ 64 },
}
