//! The rules of a page's links: to its siblings (B12), and from an item of an internal page to a page one
//! level down (B13).
ghost use Rattle.std.specs.Prelude.{◌≡◌, ◌≤◌, ◌<◌, ◌-◌, List, ℕ, IfOk, false, find, None, not, ◌==◌, ◌&&◌};
ghost use Rattle.outside.specs.Outside.{AskedAtMost, IfTold, Tells};
ghost use Rattle.page_layout.specs.Page.{count_of, page_rule_of};
ghost use Rattle.page_layout.specs.View.{page_bytes};
ghost use Rattle.key_orders.specs.declared.columns.KeySpec.{KeySpec as Spec};
ghost use Rattle.key_orders.specs.declared.more.MoreSpec.{MoreSpec as More};
ghost use Rattle.bt_meta.specs.Pages.{opaque_of};
ghost use Rattle.bt_tuples.specs.Rules.{breaks_place};
ghost use Rattle.rel_files.specs.Faults.{read_fault};
ghost use Rattle.rel_files.specs.Relation.{IsAttached};
ghost use Rattle.bt_image.specs.Image.{downlink_in, item_at};
ghost use Rattle.bt_image.specs.Pages.{breaks_downlink, breaks_siblings, is_bad_sibling};
ghost use Rattle.bt_pages.specs.Questions.{breaks_item, downlink_rules, has_downlink, sibling_rule};
ghost use Rattle.bt_pages.specs.Seen.{HasSeen, StaysSeen};
ghost use Rattle.bt_pages.specs.Trees.{tree_seen};

use crate::seen::SeenTree;
use bt_image::first_data;
use bt_meta::{HeadKind, opaque, tree_head};
use outside::Files;
use page_layout::{PageKind, PageView, Rule};
use rel_files::ReadFault;

// Whether a block of this level has a left sibling that is a bad one.
fn is_bad_left<F: Files>(
    files: &mut F,
    tree: &mut SeenTree<'_>,
    b: u32,
    level: u32,
    left: u32,
) -> Result<bool, ReadFault>
    requires attached { IfTold F.seen files.old (λ names. IsAttached names tree.old.rules.relation.now) }
    requires seen { IfTold F.seen files.old (λ names. HasSeen names tree.old) }
    requires level { IfTold F.seen files.old (λ names.
        level ≡ (opaque_of ((tree_seen names tree.old.rules).block b)).level) }
    ensures told { Tells F.seen files.old result (λ bad names.
        let seen = tree_seen names tree.old.rules in
        bad ≡ (not (left == 0)
        && is_bad_sibling seen.blocks seen.block b left (opaque_of (seen.block left)).next)) }
    ensures tree { StaysSeen F.seen files.old tree.old tree.new }
    ensures asked { AskedAtMost 2 F.seen files.old files.new result read_fault }
{
    if left == 0 {
        return Ok(false);
    }
    if left >= tree.rules.relation.blocks() {
        return Ok(true);
    }
    let page = tree.look(files, left)?;
    Ok(page.idle || page.special.level != level || page.special.next != b)
}

// Whether it has such a right sibling.
fn is_bad_right<F: Files>(
    files: &mut F,
    tree: &mut SeenTree<'_>,
    b: u32,
    level: u32,
    right: u32,
) -> Result<bool, ReadFault>
    requires attached { IfTold F.seen files.old (λ names. IsAttached names tree.old.rules.relation.now) }
    requires seen { IfTold F.seen files.old (λ names. HasSeen names tree.old) }
    requires level { IfTold F.seen files.old (λ names.
        level ≡ (opaque_of ((tree_seen names tree.old.rules).block b)).level) }
    ensures told { Tells F.seen files.old result (λ bad names.
        let seen = tree_seen names tree.old.rules in
        bad ≡ (not (right == 0)
        && is_bad_sibling seen.blocks seen.block b right (opaque_of (seen.block right)).prev)) }
    ensures tree { StaysSeen F.seen files.old tree.old tree.new }
    ensures asked { AskedAtMost 2 F.seen files.old files.new result read_fault }
{
    if right == 0 {
        return Ok(false);
    }
    if right >= tree.rules.relation.blocks() {
        return Ok(true);
    }
    let page = tree.look(files, right)?;
    Ok(page.idle || page.special.level != level || page.special.prev != b)
}

/// B12 of a block, whose page is in hand: it has a left or a right sibling that isn't a block of the
/// index, is no part of the tree, has another level or doesn't link back. It reads at most twice of each.
/// `ReadFault` comes only where the files couldn't be read.
#[tactic(auto, unfolding(crate::specs::Questions::sibling_rule, bt_image::specs::Pages::breaks_siblings))]
pub fn sibling_rule<F: Files>(
    files: &mut F,
    tree: &mut SeenTree<'_>,
    page: PageView<'_>,
    b: u32,
) -> Result<Option<Rule>, ReadFault>
    requires attached { IfTold F.seen files.old (λ names. IsAttached names tree.old.rules.relation.now) }
    requires seen { IfTold F.seen files.old (λ names. HasSeen names tree.old) }
    requires page { IfTold F.seen files.old (λ names. page_bytes page ≡ (tree_seen names tree.old.rules).block b) }
    ensures told { Tells F.seen files.old result (λ rule names.
        rule ≡ sibling_rule (tree_seen names tree.old.rules) b) }
    ensures tree { StaysSeen F.seen files.old tree.old tree.new }
    ensures asked { AskedAtMost 4 F.seen files.old files.new result read_fault }
{
    let special = opaque(page);
    if is_bad_left(files, tree, b, special.level, special.prev)? {
        return Ok(Some(Rule::B12));
    }
    if is_bad_right(files, tree, b, special.level, special.next)? {
        return Ok(Some(Rule::B12));
    }
    Ok(None)
}

// Where the downlink of item i leads.
#[tactic(auto, unfolding(bt_image::specs::Image::item_at, bt_tuples::specs::Items::meaning_of))]
fn downlink(page: PageView<'_>, i: u16) -> u32
    requires page { page_rule_of PageKind.Tree (page_bytes page) ≡ None }
    requires first { 1 ≤ i }
    requires last { i ≤ count_of (page_bytes page) }
    requires placed { breaks_place (page_bytes page) i ≡ false }
    ensures { (specs : List Spec) (more : List More)
        → result ≡ downlink_in (item_at specs more (page_bytes page.entry) i) }
{
    let item = page.item(i);
    let head = tree_head(page.piece(item.off, item.len));
    match head.kind {
        HeadKind::Pivot => head.block,
        HeadKind::Plain | HeadKind::Posting => 0,
    }
}

// Whether a downlink from a page of this level is a bad one.
#[tactic(auto, unfolding(bt_image::specs::Pages::breaks_downlink))]
fn is_bad_downlink<F: Files>(
    files: &mut F,
    tree: &mut SeenTree<'_>,
    level: u32,
    down: u32,
) -> Result<bool, ReadFault>
    requires attached { IfTold F.seen files.old (λ names. IsAttached names tree.old.rules.relation.now) }
    requires seen { IfTold F.seen files.old (λ names. HasSeen names tree.old) }
    ensures told { Tells F.seen files.old result (λ bad names.
        let seen = tree_seen names tree.old.rules in bad ≡ breaks_downlink seen.blocks seen.block level down) }
    ensures tree { StaysSeen F.seen files.old tree.old tree.new }
    ensures asked { AskedAtMost 2 F.seen files.old files.new result read_fault }
{
    if down == 0 || down >= tree.rules.relation.blocks() {
        return Ok(true);
    }
    let page = tree.look(files, down)?;
    Ok(page.idle || u64::from(page.special.level) + 1 != u64::from(level))
}

/// B13 of item i, if it is asked: on an internal page the downlink of a data item is 0, isn't a block of
/// the index, or leads to a page that is no part of the tree or isn't one level down. It reads at most
/// twice. `ReadFault` comes only where the files couldn't be read.
pub fn downlink_rule<F: Files>(
    files: &mut F,
    tree: &mut SeenTree<'_>,
    page: PageView<'_>,
    i: u16,
) -> Result<Option<Rule>, ReadFault>
    requires page { page_rule_of PageKind.Tree (page_bytes page) ≡ None }
    requires first { 1 ≤ i }
    requires last { i ≤ count_of (page_bytes page) }
    requires placed { breaks_place (page_bytes page) i ≡ false }
    requires attached { IfTold F.seen files.old (λ names. IsAttached names tree.old.rules.relation.now) }
    requires seen { IfTold F.seen files.old (λ names. HasSeen names tree.old) }
    ensures told { Tells F.seen files.old result (λ rule names.
        rule ≡ find (breaks_item (tree_seen names tree.old.rules) (page_bytes page.entry) i)
        (downlink_rules (has_downlink (page_bytes page.entry) i))) }
    ensures tree { StaysSeen F.seen files.old tree.old tree.new }
    ensures asked { AskedAtMost 2 F.seen files.old files.new result read_fault }
{
    let special = opaque(page);
    if special.is_leaf() || i < first_data(page) {
        return Ok(None);
    }
    if is_bad_downlink(files, tree, special.level, downlink(page, i))? {
        return Ok(Some(Rule::B13));
    }
    Ok(None)
}
