//! What is read of a page beside the one that is judged.
use bt_meta::Opaque;

/// What a link to a page asks of it: a sibling, or a page one level down.
#[derive(Clone, Copy, Debug, PartialEq, Eq)]
pub struct Glance {
    /// The page is no part of the tree (`bt_meta::is_idle`).
    pub idle: bool,
    /// Its special space: its siblings and its level.
    pub special: Opaque,
}
