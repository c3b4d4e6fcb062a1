// How a page stands in its level.
ghost use Rattle.std.specs.Prelude.{◌≡◌};
ghost use Rattle.laws_search.specs.Levels.{is_live};
ghost use Rattle.bt_level_step.specs.Roles.{marked_role, role_named};

/// What a page's role depends on, beside the pages around it.
#[derive(Clone, Copy, Debug, PartialEq, Eq)]
pub struct PageMarks {
    /// It is a leaf (`BTP_LEAF`).
    pub leaf: bool,
    /// It is about to be deleted (`BTP_HALF_DEAD`).
    pub half_dead: bool,
    /// The downlink to its right half is missing (`BTP_INCOMPLETE_SPLIT`).
    pub incomplete_split: bool,
    /// It has a right sibling.
    pub has_next: bool,
    /// It has exactly one downlink.
    pub one_child: bool,
}

/// How a page stands in its level.
#[derive(Clone, Copy, Debug, PartialEq, Eq)]
pub enum PageRole {
    /// A half-dead leaf, or an internal page that is about to be deleted.
    Dead,
    /// A downlink leads to it.
    Linked,
    /// The right half of an unfinished split, which has no downlink yet.
    RightHalf,
    /// None of these, which no page should be (L3).
    Neither,
}

impl PageRole {
    /// Whether searches read the page's keys.
    pub fn is_live(self) -> bool
        ensures { result ≡ is_live (role_named self) }
    {
        match self {
            PageRole::Linked | PageRole::RightHalf => true,
            PageRole::Dead | PageRole::Neither => false,
        }
    }
}

impl PageMarks {
    /// The role of the page, where `linked` says whether a downlink leads to it, and `after_split`
    /// whether the page to its left is live with an incomplete split. The first that applies.
    pub fn role(&self, linked: bool, after_split: bool) -> PageRole
        ensures { role_named result ≡ marked_role self.now linked after_split }
    {
        if self.leaf && self.half_dead {
            PageRole::Dead
        } else if linked {
            PageRole::Linked
        } else if after_split {
            PageRole::RightHalf
        } else if !self.leaf && self.has_next && self.one_child {
            PageRole::Dead
        } else {
            PageRole::Neither
        }
    }
}
