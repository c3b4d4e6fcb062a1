//! What a page's role on its level depends on.
ghost use Rattle.std.specs.Prelude.{◌≡◌, List, None};
ghost use Rattle.page_layout.specs.Page.{page_rule_of};
ghost use Rattle.page_layout.specs.View.{page_bytes};
ghost use Rattle.laws_search.specs.Levels.{is_single};
ghost use Rattle.bt_level_step.specs.Shows.{ShowsMarks};
ghost use Rattle.key_orders.specs.declared.columns.KeySpec.{KeySpec as Spec};
ghost use Rattle.key_orders.specs.declared.more.MoreSpec.{MoreSpec as More};
ghost use Rattle.bt_image.specs.Image.{page_image};

use crate::roles::PageMarks;
use bt_image::first_data;
use bt_meta::opaque;
use page_layout::{PageKind, PageView};

// Whether a page has exactly one downlink.
fn has_one_child(page: PageView<'_>) -> bool
    requires page { page_rule_of PageKind.Tree (page_bytes page) ≡ None }
    ensures { (specs : List Spec) (more : List More)
        → is_single (page_image specs more (page_bytes page.entry)).children ≡ result }
{
    !opaque(page).is_leaf() && page.item_count() == first_data(page)
}

/// The marks of a page.
pub fn marks_of(page: PageView<'_>) -> PageMarks
    requires page { page_rule_of PageKind.Tree (page_bytes page) ≡ None }
    ensures { (specs : List Spec) (more : List More)
        → ShowsMarks (page_image specs more (page_bytes page.entry)) result }
{
    let special = opaque(page);
    PageMarks {
        leaf: special.is_leaf(),
        half_dead: special.is_half_dead(),
        incomplete_split: special.is_split_unfinished(),
        has_next: special.next != 0,
        one_child: has_one_child(page),
    }
}
