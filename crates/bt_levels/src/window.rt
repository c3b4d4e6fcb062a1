//! Two pages of an index in hand: a block that is judged, and the one after it, to which it mostly links.
ghost use Rattle.std.specs.Prelude.{◌≡◌, ◌+◌, ◌<◌, OnOk};
ghost use Rattle.outside.specs.Adds.{AddsIn};
ghost use Rattle.outside.specs.Outside.{AskedAtMost, IfTold};
ghost use Rattle.rel_files.specs.Faults.{read_fault};
ghost use Rattle.rel_files.specs.Relation.{IsAttached, count_of};
ghost use Rattle.reports.specs.Added.{report_lists};
ghost use Rattle.bt_pages.specs.Found.{block_lists};
ghost use Rattle.bt_pages.specs.Seen.{HasSeen, StaysSeen};
ghost use Rattle.bt_pages.specs.Trees.{tree_seen};
ghost use Rattle.bt_levels.specs.Window.{held_page};

use bt_level_check::InHand;
use bt_pages::{SeenTree, judge_page};
use outside::Files;
use page_layout::PageView;
use rel_files::{PageFault, ReadFault};
use reports::Report;

// Reads a block, and keeps what it shows.
fn read_block<F: Files>(
    files: &mut F,
    tree: &mut SeenTree<'_>,
    b: u32,
    page: &mut [u8; 8192],
) -> Result<(), ReadFault>
    requires attached { IfTold F.seen files.old (λ names. IsAttached names tree.old.rules.relation.now) }
    requires seen { IfTold F.seen files.old (λ names. HasSeen names tree.old) }
    requires inside { b < count_of tree.old.rules.relation.now }
    ensures page { OnOk result (IfTold F.seen files.old (λ names.
        page.new ≡ (tree_seen names tree.old.rules).block b)) }
    ensures tree { StaysSeen F.seen files.old tree.old tree.new }
    ensures asked { AskedAtMost 1 F.seen files.old files.new result read_fault }
{
    tree.rules.relation.read_block(files, b, page)?;
    tree.saw(PageView::new(page), b);
    Ok(())
}

// Judges the page of a block, once the next block was read.
fn judge_block<F: Files>(
    files: &mut F,
    tree: &mut SeenTree<'_>,
    b: u32,
    page: &[u8; 8192],
    next: &mut [u8; 8192],
    report: &mut Report,
) -> Result<(), PageFault>
    requires attached { IfTold F.seen files.old (λ names. IsAttached names tree.old.rules.relation.now) }
    requires seen { IfTold F.seen files.old (λ names. HasSeen names tree.old) }
    requires inside { b < count_of tree.old.rules.relation.now }
    requires page { IfTold F.seen files.old (λ names. page.now ≡ (tree_seen names tree.old.rules).block b) }
    ensures lists { IfTold F.seen files.old (λ names. AddsIn report_lists result report.old report.new
        (block_lists (tree_seen names tree.old.rules) b)) }
    ensures next { OnOk result (IfTold F.seen files.old (λ names.
        b + 1 < count_of tree.old.rules.relation.now
        → next.new ≡ (tree_seen names tree.old.rules).block (b + 1))) }
    ensures tree { StaysSeen F.seen files.old tree.old tree.new }
    ensures asked { AskedAtMost 4081 F.seen files.old files.new result PageFault.ReadFault }
{
    if tree.rules.relation.blocks() - b > 1 {
        read_block(files, tree, b + 1, next)?;
    }
    judge_page(files, tree, PageView::new(page), b, report)
}

// The page of the block that is judged next, and room for the one after it.
#[derive(Drop)]
pub struct Window {
    left: [u8; 8192],
    right: [u8; 8192],
    // Which of them is judged next.
    is_right: bool,
}

impl Window {
    // No page yet.
    pub fn new() -> Window {
        Window {
            left: [0; 8192],
            right: [0; 8192],
            is_right: false,
        }
    }

    // The page that is judged next, which is that of block b.
    pub fn held(&self, b: u32) -> InHand<'_>
        ensures block { result.block ≡ b }
        ensures page { result.page.now ≡ held_page self.now }
    {
        let page = if self.is_right {
            &self.right
        } else {
            &self.left
        };
        InHand { block: b, page }
    }

    // Reads block 1, if there is one.
    pub fn begin<F: Files>(
        &mut self,
        files: &mut F,
        tree: &mut SeenTree<'_>,
    ) -> Result<(), ReadFault>
        requires attached { IfTold F.seen files.old (λ names. IsAttached names tree.old.rules.relation.now) }
        requires seen { IfTold F.seen files.old (λ names. HasSeen names tree.old) }
        ensures page { OnOk result (IfTold F.seen files.old (λ names.
            1 < count_of tree.old.rules.relation.now
            → held_page self.new ≡ (tree_seen names tree.old.rules).block 1)) }
        ensures tree { StaysSeen F.seen files.old tree.old tree.new }
        ensures asked { AskedAtMost 1 F.seen files.old files.new result read_fault }
    {
        self.is_right = false;
        if tree.rules.relation.blocks() > 1 {
            read_block(files, tree, 1, &mut self.left)?;
        }
        Ok(())
    }

    // Judges the block in hand, and goes on to the next one, if there is one: one read for that, and at
    // most 4080 for what is asked of other blocks.
    pub fn judge_next<F: Files>(
        &mut self,
        files: &mut F,
        tree: &mut SeenTree<'_>,
        b: u32,
        report: &mut Report,
    ) -> Result<(), PageFault>
        requires attached { IfTold F.seen files.old (λ names. IsAttached names tree.old.rules.relation.now) }
        requires seen { IfTold F.seen files.old (λ names. HasSeen names tree.old) }
        requires inside { b < count_of tree.old.rules.relation.now }
        requires page { IfTold F.seen files.old (λ names.
            held_page self.old ≡ (tree_seen names tree.old.rules).block b) }
        ensures lists { IfTold F.seen files.old (λ names. AddsIn report_lists result report.old report.new
            (block_lists (tree_seen names tree.old.rules) b)) }
        ensures next { OnOk result (IfTold F.seen files.old (λ names.
            b + 1 < count_of tree.old.rules.relation.now
            → held_page self.new ≡ (tree_seen names tree.old.rules).block (b + 1))) }
        ensures tree { StaysSeen F.seen files.old tree.old tree.new }
        ensures asked { AskedAtMost 4081 F.seen files.old files.new result PageFault.ReadFault }
    {
        let result = if self.is_right {
            judge_block(files, tree, b, &self.right, &mut self.left, report)
        } else {
            judge_block(files, tree, b, &self.left, &mut self.right, report)
        };
        self.is_right = !self.is_right;
        result
    }
}
