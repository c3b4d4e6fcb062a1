//! Block 0 of an index, its metapage.
ghost use Rattle.std.specs.Prelude.{◌≡◌, ◌<◌};
ghost use Rattle.page_layout.specs.View.{page_bytes};
ghost use Rattle.bt_levels.specs.Lists.{first_doubt, first_rule};

use bt_meta::{BTREE_VERSION, meta, meta_rule};
use page_layout::{PageKind, PageView, Rule};
use reports::Reason;

/// The first of P1 to P4, M1 and M2 that block 0 of an index of so many blocks breaks.
#[tactic(auto, unfolding(crate::specs::Lists::first_rule))]
pub fn first_rule(page: PageView<'_>, blocks: u32) -> Option<Rule>
    requires { 0 < blocks }
    ensures { result ≡ first_rule blocks (page_bytes page.entry) }
{
    match page.page_rule(PageKind::Meta) {
        Some(rule) => Some(rule),
        None => meta_rule(page, blocks),
    }
}

/// U4 of block 0, where it breaks this rule or none: the index is of version 2 or 3.
#[tactic(auto, unfolding(crate::specs::Lists::first_doubt))]
pub fn first_doubt(page: PageView<'_>, blocks: u32, rule: Option<Rule>) -> Option<Reason>
    requires { rule ≡ first_rule blocks (page_bytes page) }
    ensures { result ≡ first_doubt blocks (page_bytes page.entry) }
{
    if rule.is_some() || meta(page).version == BTREE_VERSION {
        return None;
    }
    Some(Reason::U4)
}
