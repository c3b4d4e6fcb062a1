//! Judges a page of a table.
ghost use Rattle.std.specs.Prelude.{◌≡◌, ◌≤◌, true, length, OnOk};
ghost use Rattle.outside.specs.Outside.{Asked, IfTold, Tells};
ghost use Rattle.page_layout.specs.Page.{HasItems};
ghost use Rattle.page_layout.specs.View.{page_bytes};
ghost use Rattle.heap_page_check.specs.Found.{both_found};
ghost use Rattle.heap_page_check.specs.Pages.{found_by_rule, is_flagged_visible, page_found};
ghost use Rattle.heap_page_check.specs.Quiet.{IsPlain};
ghost use Rattle.heap_page_check.specs.Table.{AreReadable, chunks_seen, table_seen};

use crate::items::judge_items;
use crate::joint::{are_plain, judge_joint};
use crate::quiet::is_quiet_page;
use crate::table::TableRules;
use crate::work::Work;
use liveness::Transactions;
use page_layout::{PageKind, PageView, has_bit};
use rel_files::PageFault;
use reports::Place;
use vis_map::MapBits;

// The flag of a page that says that all its tuples are visible to everyone (`PD_ALL_VISIBLE`).
const ALL_VISIBLE: u16 = 0x0004;

/// A page in hand: its bytes, its block, and what the visibility map says of the block.
#[derive(Clone, Copy)]
pub struct PageInHand<'p> {
    pub view: PageView<'p>,
    pub block: u32,
    pub bits: MapBits,
}

impl PageInHand<'_> {
    /// Whether the page says of itself that all its tuples are visible to everyone.
    #[tactic(auto, unfolding(crate::specs::Pages::is_flagged_visible, page_layout::specs::Page::header_of))]
    pub(crate) fn is_flagged_visible(self) -> bool
        ensures { result ≡ is_flagged_visible (page_bytes self.entry.view) }
    {
        has_bit(self.view.header().flags, ALL_VISIBLE)
    }
}

// Judges a page whose header keeps its rules: its items, each by itself, and then, where nothing was found,
// all together. The answer is that of `judge_table_page`.
fn judge_sound_page<F: Transactions>(
    files: &mut F,
    table: &TableRules<'_>,
    at: PageInHand<'_>,
    work: &mut Work,
) -> Result<bool, PageFault>
    requires columns { AreReadable table.now.columns.now }
    requires page { HasItems (page_bytes at.view) }
    ensures found { OnOk result (IfTold F.seen files.old (λ names. work.new.found ≡ both_found work.old.found
        (found_by_rule (table_seen names table.now) (chunks_seen table.now.toast)
        at.entry.bits at.entry.block (page_bytes at.entry.view) None))) }
    ensures plain { Tells F.seen files.old result (λ plain names. plain ≡ true
        → IsPlain (table_seen names table.now) (page_bytes at.entry.view)) }
    ensures asked { Asked F.seen files.old files.new result PageFault.ReadFault }
{
    if is_quiet_page(table, at) {
        return Ok(true);
    }
    let before = work.found.counts();
    work.clear();
    judge_items(files, table, at, work)?;
    if work.found.counts() == before {
        let plain = are_plain(&work.states);
        judge_joint(table.kind.rel(), at, work)?;
        return Ok(plain);
    }
    Ok(false)
}

/// Judges a page of a table: its header, and where that breaks no rule its items. The answer is whether that told that
/// the page is plain, as most pages of a heap are: by a look at each item, or by the states of all.
#[tactic(auto, unfolding(crate::specs::Pages::page_found))]
pub fn judge_table_page<F: Transactions>(
    files: &mut F,
    table: &TableRules<'_>,
    at: PageInHand<'_>,
    work: &mut Work,
) -> Result<bool, PageFault>
    requires columns { AreReadable table.now.columns.now }
    ensures found { OnOk result (IfTold F.seen files.old (λ names. work.new.found ≡ both_found work.old.found
        (page_found (table_seen names table.now) (chunks_seen table.now.toast)
        at.entry.bits at.entry.block (page_bytes at.entry.view)))) }
    ensures plain { Tells F.seen files.old result (λ plain names. plain ≡ true
        → IsPlain (table_seen names table.now) (page_bytes at.entry.view)) }
    ensures asked { Asked F.seen files.old files.new result PageFault.ReadFault }
{
    match at.view.page_rule(PageKind::Heap) {
        Some(rule) => {
            let place = Place::Block(table.kind.rel(), at.block);
            work.found.add_rule(place, Some(rule))?;
            Ok(false)
        }
        None => judge_sound_page(files, table, at, work),
    }
}
