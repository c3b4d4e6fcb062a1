//! What a search of an index needs to know of its levels.
use page_layout::Rule;

/// Where searches of an index begin, and what was counted on its levels.
#[derive(Clone, Copy, Debug)]
pub struct TreeShape {
    /// The block of the fast root, 0 in an empty tree.
    pub fastroot: u32,
    /// The level of the fast root, 0 for a leaf.
    pub fastlevel: u32,
    /// How many pages are right halves, to which no downlink leads yet, on all levels: pages that a split
    /// made and that the level above doesn't name so far. 0 in an empty tree.
    pub right_halves: u32,
    /// How many leaves are half-dead: a deletion took their downlinks, and they still stand in the chain of
    /// the lowest level. 0 in an empty tree.
    pub half_dead: u32,
}

/// What was found on the levels of an index.
#[derive(Clone, Copy, Debug)]
pub struct LevelsFound {
    /// The first of L1 to L9 that the index breaks, and the block that is named for it.
    pub finding: Option<(Rule, u32)>,
    /// What its levels have. Where it breaks a rule, only the fast root and its level say something.
    pub shape: TreeShape,
}
