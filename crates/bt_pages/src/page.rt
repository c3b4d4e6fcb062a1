//! Judges one page of a tree.
ghost use Rattle.std.specs.Prelude.{◌≡◌, ◌*◌, ◌≤◌, false, None};
ghost use Rattle.outside.specs.Adds.{AddsIn};
ghost use Rattle.outside.specs.Outside.{AskedAtMost, IfTold, Tells};
ghost use Rattle.page_layout.specs.Page.{count_of, page_rule_of};
ghost use Rattle.page_layout.specs.View.{page_bytes};
ghost use Rattle.bt_tuples.specs.Rules.{breaks_place};
ghost use Rattle.rel_files.specs.Faults.{read_fault};
ghost use Rattle.rel_files.specs.Relation.{IsAttached};
ghost use Rattle.reports.specs.Added.{doubt_at, each_upto, finding_at, joined, report_lists};
ghost use Rattle.bt_pages.specs.Found.{item_lists, items_lists, page_lists};
ghost use Rattle.bt_pages.specs.Passes.{pass_of};
ghost use Rattle.bt_pages.specs.Questions.{item_rule, own_doubt, rule_on_page};
ghost use Rattle.bt_pages.specs.Seen.{HasSeen, StaysSeen};
ghost use Rattle.bt_pages.specs.Trees.{tree_seen};

use crate::alone::lone_rule;
use crate::items::{ItemFound, found_on_page};
use crate::neighbours::{downlink_rule, sibling_rule};
use crate::order::pass_of_items;
use crate::pass::Pass;
use crate::seen::SeenTree;
use bt_meta::{is_idle, opaque};
use key_orders::Tid;
use outside::{Files, NoMemory};
use page_layout::{PageKind, PageView, Rule};
use rel_files::{PageFault, ReadFault};
use reports::{Place, Reason, Rel, Report};

/// Adds what is found at a place: the rule that is broken there, and why it can't be judged. After
/// `NoMemory` the report has a first part of that.
pub fn add_found(
    report: &mut Report,
    place: Place,
    rule: Option<Rule>,
    doubt: Option<Reason>,
) -> Result<(), NoMemory>
    ensures { AddsIn report_lists result report.old report.new (joined (finding_at place rule) (doubt_at place doubt)) }
{
    report.add_rule(place, rule)?;
    match doubt {
        None => Ok(()),
        Some(reason) => report.unjudged(reason, place),
    }
}

// The first rule that an item breaks, by what is found of it before its downlink is followed.
fn rule_of_item<F: Files>(
    files: &mut F,
    tree: &mut SeenTree<'_>,
    page: PageView<'_>,
    i: u16,
    found: ItemFound,
) -> Result<Option<Rule>, ReadFault>
    requires page { page_rule_of PageKind.Tree (page_bytes page) ≡ None }
    requires first { 1 ≤ i }
    requires last { i ≤ count_of (page_bytes page) }
    requires placed { found.rule ≡ None → breaks_place (page_bytes page) i ≡ false }
    requires attached { IfTold F.seen files.old (λ names. IsAttached names tree.old.rules.relation.now) }
    requires seen { IfTold F.seen files.old (λ names. HasSeen names tree.old) }
    requires rule { found.rule ≡ rule_on_page tree.old.rules.columns.specs.now tree.old.rules.columns.more.now
        (page_bytes page) i }
    ensures told { Tells F.seen files.old result (λ rule names.
        rule ≡ item_rule (tree_seen names tree.old.rules) (page_bytes page.entry) i) }
    ensures tree { StaysSeen F.seen files.old tree.old tree.new }
    ensures asked { AskedAtMost 2 F.seen files.old files.new result read_fault }
{
    match found.rule {
        Some(rule) => Ok(Some(rule)),
        None => Ok(downlink_rule(files, tree, page, i)?),
    }
}

// Judges an item, by what one pass over the items of its page told.
fn judge_item<F: Files>(
    files: &mut F,
    tree: &mut SeenTree<'_>,
    page: PageView<'_>,
    at: Tid,
    pass: Pass,
    report: &mut Report,
) -> Result<(), PageFault>
    requires page { page_rule_of PageKind.Tree (page_bytes page) ≡ None }
    requires first { 1 ≤ at.item }
    requires last { at.item ≤ count_of (page_bytes page) }
    requires attached { IfTold F.seen files.old (λ names. IsAttached names tree.old.rules.relation.now) }
    requires seen { IfTold F.seen files.old (λ names. HasSeen names tree.old) }
    requires pass { pass ≡ pass_of tree.old.rules.columns.specs.now tree.old.rules.columns.more.now (page_bytes page) }
    ensures lists { IfTold F.seen files.old (λ names. AddsIn report_lists result report.old report.new
        (item_lists (tree_seen names tree.old.rules) at.block (page_bytes page.entry) at.item)) }
    ensures tree { StaysSeen F.seen files.old tree.old tree.new }
    ensures asked { AskedAtMost 2 F.seen files.old files.new result PageFault.ReadFault }
{
    let found = found_on_page(page, at.item, &tree.rules.columns, pass);
    let place = Place::Item(Rel::Index(tree.rules.number), at.block, at.item);
    let rule = rule_of_item(files, tree, page, at.item, found)?;
    add_found(report, place, rule, found.doubt)?;
    Ok(())
}

// Judges the items of a page one by one, by what a pass over them told. For each it reads at most twice.
fn judge_each<F: Files>(
    files: &mut F,
    tree: &mut SeenTree<'_>,
    page: PageView<'_>,
    b: u32,
    pass: Pass,
    report: &mut Report,
) -> Result<(), PageFault>
    requires page { page_rule_of PageKind.Tree (page_bytes page) ≡ None }
    requires attached { IfTold F.seen files.old (λ names. IsAttached names tree.old.rules.relation.now) }
    requires seen { IfTold F.seen files.old (λ names. HasSeen names tree.old) }
    requires pass { pass ≡ pass_of tree.old.rules.columns.specs.now tree.old.rules.columns.more.now (page_bytes page) }
    ensures lists { IfTold F.seen files.old (λ names. AddsIn report_lists result report.old report.new
        (items_lists (tree_seen names tree.old.rules) b (page_bytes page.entry))) }
    ensures tree { StaysSeen F.seen files.old tree.old tree.new }
    ensures asked { AskedAtMost (2 * count_of (page_bytes page.entry)) F.seen files.old files.new result
        PageFault.ReadFault }
{
    for k in 0..page.item_count() {
        let at = Tid {
            block: b,
            item: k + 1,
        };
        judge_item(files, tree, page, at, pass, report)?;
    }
    Ok(())
}

// Judges the items of a page: in one pass, and then, where that tells of something to be found or the
// items have downlinks, one by one. There are at most 2038 of them.
fn judge_items<F: Files>(
    files: &mut F,
    tree: &mut SeenTree<'_>,
    page: PageView<'_>,
    b: u32,
    report: &mut Report,
) -> Result<(), PageFault>
    requires page { page_rule_of PageKind.Tree (page_bytes page) ≡ None }
    requires attached { IfTold F.seen files.old (λ names. IsAttached names tree.old.rules.relation.now) }
    requires seen { IfTold F.seen files.old (λ names. HasSeen names tree.old) }
    ensures lists { IfTold F.seen files.old (λ names. AddsIn report_lists result report.old report.new
        (items_lists (tree_seen names tree.old.rules) b (page_bytes page.entry))) }
    ensures tree { StaysSeen F.seen files.old tree.old tree.new }
    ensures asked { AskedAtMost 4076 F.seen files.old files.new result PageFault.ReadFault }
{
    let pass = pass_of_items(page, &tree.rules.columns);
    match pass {
        Pass::Ordered if opaque(page).is_leaf() => Ok(()),
        _ => judge_each(files, tree, page, b, pass, report),
    }
}

/// Judges the page of a block of an index, which isn't block 0: its header and its flags (P1 to P4, B1
/// to B4), and where it breaks none of these and is part of the tree, its siblings (B12) and its items
/// (B5 to B11, B13, U5). What is asked of a sibling or of a page one level down is read of them. It reads at
/// most 4080 times: twice of each of two siblings, and twice for each of at most 2038 items.
///
/// `ReadFault` comes only where the count of the files' faults rose. After an error the report has a
/// first part of what it would have got.
pub fn judge_page<F: Files>(
    files: &mut F,
    tree: &mut SeenTree<'_>,
    page: PageView<'_>,
    b: u32,
    report: &mut Report,
) -> Result<(), PageFault>
    requires attached { IfTold F.seen files.old (λ names. IsAttached names tree.old.rules.relation.now) }
    requires seen { IfTold F.seen files.old (λ names. HasSeen names tree.old) }
    requires page { IfTold F.seen files.old (λ names. page_bytes page ≡ (tree_seen names tree.old.rules).block b) }
    ensures lists { IfTold F.seen files.old (λ names. AddsIn report_lists result report.old report.new
        (page_lists (tree_seen names tree.old.rules) b (page_bytes page.entry))) }
    ensures tree { StaysSeen F.seen files.old tree.old tree.new }
    ensures asked { AskedAtMost 4080 F.seen files.old files.new result PageFault.ReadFault }
{
    let place = Place::Block(Rel::Index(tree.rules.number), b);
    match lone_rule(page) {
        Some(rule) => {
            report.add_rule(place, Some(rule))?;
            Ok(())
        }
        None => {
            if is_idle(page) {
                return Ok(());
            }
            let rule = sibling_rule(files, tree, page, b)?;
            report.add_rule(place, rule)?;
            judge_items(files, tree, page, b, report)
        }
    }
}
