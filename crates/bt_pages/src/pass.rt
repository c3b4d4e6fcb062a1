//! One pass over the items of a page.

/// What one pass over the items of a page tells of them together.
#[derive(Clone, Copy, Debug, PartialEq, Eq)]
pub enum Pass {
    /// The page is a half-dead leaf, whose keys aren't read.
    HalfDead,
    /// An item breaks a rule by itself, or has a compressed value.
    NotPlain,
    /// Each item is plain, and one isn't above the one before it, or the last is past the high key.
    Disordered,
    /// Each item is plain, and they rise.
    Ordered,
}
