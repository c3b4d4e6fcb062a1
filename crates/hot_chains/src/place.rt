//! What is known of one item.
use page_layout::Rule;

#[derive(Clone, Copy)]
pub(crate) struct Place {
    // The item to which it steps, or 0.
    pub(crate) next: u16,
    // Whether index entries may name it.
    pub(crate) is_root: bool,
    // Whether it is a live heap-only tuple, which a root has to reach.
    pub(crate) needs_root: bool,
    // The first rule that it breaks by its own step: H3, H14 or H15.
    pub(crate) rule: Option<Rule>,
}
