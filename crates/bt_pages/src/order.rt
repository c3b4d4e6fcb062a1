//! One pass over the items of a page, in which each is read once.
ghost use Rattle.std.specs.Prelude.{◌≡◌, false, None};
ghost use Rattle.page_layout.specs.Page.{count_of, page_rule_of};
ghost use Rattle.page_layout.specs.View.{page_bytes};
ghost use Rattle.bt_meta.specs.Flags.{is_half_dead};
ghost use Rattle.bt_meta.specs.Pages.{opaque_of};
ghost use Rattle.bt_pages.specs.Passes.{is_disordered, pass_by, pass_of};
ghost use Rattle.bt_pages.specs.Questions.{are_plain};

use crate::high_key::is_past_high_key;
use crate::pass::Pass;
use crate::quiet::is_quiet_leaf;
use crate::turns::Turns;
use bt_meta::opaque;
use key_attrs::IndexColumns;
use page_layout::{PageKind, PageView};

// Goes over the items of a page that isn't half-dead.
fn pass_over(page: PageView<'_>, columns: &IndexColumns<'_>) -> Pass
    requires page { page_rule_of PageKind.Tree (page_bytes page) ≡ None }
    requires live { is_half_dead (opaque_of (page_bytes page)) ≡ false }
    ensures { result ≡ pass_by false
        (are_plain columns.now.specs.now columns.now.more.now (page_bytes page.entry)
        (count_of (page_bytes page.entry)))
        (is_disordered columns.now.specs.now columns.now.more.now (page_bytes page.entry)) }
{
    let mut turns = Turns::new(page);
    let mut is_disordered = false;
    for k in 0..page.item_count() {
        match turns.read(page, k + 1, columns) {
            None => return Pass::NotPlain,
            Some(is_low) => is_disordered = is_disordered || is_low,
        }
    }
    if page.item_count() == 0 {
        return Pass::Ordered;
    }
    if is_disordered || is_past_high_key(page, columns, turns.last()) {
        Pass::Disordered
    } else {
        Pass::Ordered
    }
}

/// What one pass over the items of a page tells of them together. It takes no memory.
#[tactic(auto, unfolding(crate::specs::Passes::pass_of))]
pub fn pass_of_items(page: PageView<'_>, columns: &IndexColumns<'_>) -> Pass
    requires page { page_rule_of PageKind.Tree (page_bytes page) ≡ None }
    ensures { result ≡ pass_of columns.now.specs.now columns.now.more.now (page_bytes page.entry) }
{
    if opaque(page).is_half_dead() {
        return Pass::HalfDead;
    }
    if is_quiet_leaf(page, columns) {
        return Pass::Ordered;
    }
    pass_over(page, columns)
}
