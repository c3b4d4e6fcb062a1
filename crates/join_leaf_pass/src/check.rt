//! The leaves of an index, one after another.
ghost use Rattle.std.specs.Prelude.{◌≡◌, ◌<◌, ◌≤◌, None, OnOk, true};
ghost use Rattle.std.specs.Option.{option_copied};
ghost use Rattle.outside.specs.Adds.{AddsIn};
ghost use Rattle.outside.specs.Outside.{AskedAtMost, IfTold, Tells};
ghost use Rattle.page_layout.specs.Page.{count_of, page_rule_of};
ghost use Rattle.page_layout.specs.declared.page.PageKind.TheVariants.{Tree};
ghost use Rattle.reports.specs.Added.{report_lists};
ghost use Rattle.rel_files.specs.Ahead.{IsAheadOf};
ghost use Rattle.bt_levels.specs.Files.{number_of, relation_of};
ghost use Rattle.bt_levels.specs.Sound.{HoldsTree, block_count, file_of, held_block, index_columns};
ghost use Rattle.bt_steps.specs.Pages.{IsReadable, is_live_leaf};
ghost use Rattle.join_meet.specs.Meeting.{HaveMet, all_entries, leaf_entries};
ghost use Rattle.join_distinct.specs.Apart.{AreApart};
ghost use Rattle.join_distinct.specs.Items.{RisesTo};
ghost use Rattle.join_leaf_pass.specs.Passes.{AreTargets, IsApartSoFar, strays_of, strays_on};

use crate::leaf::{Named, Seen};
use crate::spans::Spans;
use bt_levels::SoundTree;
use heap_targets::RootSet;
use join_distinct::Rise;
use join_meet::meet_page;
use join_slots::RowSlots;
use outside::{Files, NoMemory};
use rel_files::{Ahead, PageFault};
use reports::Report;

// What is in hand while leaves are gone over: blocks that were read together, and what was seen of entries.
#[derive(Drop)]
struct Hands {
    blocks: Ahead,
    seen: Seen,
}

/// An index in which nothing was found, and what a pass over its leaves is asked of its entries, beside which rows they
/// meet.
#[derive(Clone, Copy)]
pub struct Leaves<'a> {
    pub tree: &'a SoundTree,
    /// What the entries may name, where that is asked.
    pub targets: Option<&'a RootSet>,
    /// Whether it is asked that no two of them have the same values.
    pub apart: bool,
}

impl Leaves<'_> {
    // Has the entries of a page meet their rows, and judges what they name, where that is asked.
    fn judge_page(
        self,
        page: &[u8; 8192],
        b: u32,
        seen: &mut Seen,
        slots: &mut RowSlots,
        report: &mut Report,
    ) -> Result<(), NoMemory>
        ensures met { OnOk result ((is_live_leaf page.now ≡ true
            → IsReadable (index_columns self.entry.tree.now) page.now)
            → HaveMet (leaf_entries (index_columns self.entry.tree.now) page.now) slots.old slots.new) }
        ensures lists { AreTargets (option_copied self.entry.targets) slots.old
            → (is_live_leaf page.now ≡ true → IsReadable (index_columns self.entry.tree.now) page.now)
            → AddsIn report_lists result report.old report.new
            (strays_on (number_of (file_of self.entry.tree.now)) (index_columns self.entry.tree.now)
            (option_copied self.entry.targets) b page.now) }
        ensures rise { is_live_leaf page.now ≡ true → page_rule_of Tree page.now ≡ None
            → OnOk result (RisesTo (index_columns self.entry.tree.now) page.now (count_of page.now) seen.new.rise) }
        ensures apart { seen.new.apart ≡ seen.old.apart }
    {
        seen.begin();
        let Some(targets) = self.targets else {
            seen.ahead.add_page(page);
            seen.rise = Rise::Untold;
            meet_page(slots, &self.tree.columns(), page, &seen.ahead);
            return Ok(());
        };
        let named = Named {
            number: self.tree.index(),
            columns: self.tree.columns(),
            targets,
        };
        named.judge_page(page, b, seen, slots, report)
    }

    // Takes a block that isn't the first in hand, judges what its entries name and whether their keys are apart, and
    // has them meet their rows.
    fn take_block<F: Files>(
        self,
        files: &mut F,
        b: u32,
        hands: &mut Hands,
        slots: &mut RowSlots,
        report: &mut Report,
    ) -> Result<(), PageFault>
        requires holds { IfTold F.seen files.old (λ names. HoldsTree names self.tree.now) }
        requires hand { IfTold F.seen files.old (λ names.
            IsAheadOf names (relation_of (file_of self.tree.now)) hands.old.blocks) }
        requires not_meta { 1 ≤ b }
        requires below { b < block_count self.tree.now }
        ensures lists { IfTold F.seen files.old (λ names. AreTargets (option_copied self.entry.targets) slots.old
            → AddsIn report_lists result report.old report.new
            (strays_on (number_of (file_of self.entry.tree.now)) (index_columns self.entry.tree.now)
            (option_copied self.entry.targets) b (held_block names self.entry.tree.now b))) }
        ensures met { OnOk result (IfTold F.seen files.old (λ names.
            HaveMet (leaf_entries (index_columns self.entry.tree.now) (held_block names self.entry.tree.now b))
            slots.old slots.new)) }
        ensures apart { OnOk result (IfTold F.seen files.old (λ names. hands.new.seen.apart ≡ true
            → IsApartSoFar names self.entry.tree.now b hands.old.seen.apart)) }
        ensures hand { IfTold F.seen files.old (λ names.
            IsAheadOf names (relation_of (file_of self.entry.tree.now)) hands.new.blocks) }
        ensures asked { AskedAtMost 1 F.seen files.old files.new result PageFault.ReadFault }
    {
        self.tree.take_ahead(files, b, &mut hands.blocks)?;
        let page = hands.blocks.page(b);
        self.judge_page(page, b, &mut hands.seen, slots, report)?;
        hands.seen.apart = hands.seen.is_still_apart(page, &self.tree.columns());
        Ok(())
    }

    /// Has the entries of the index that aren't killed meet the rows that are kept, and adds to the report, by block,
    /// item and place in the item, each entry of its leaves, killed or not, that names what the set doesn't have (X2),
    /// where there is a set; then it is also kept which heap blocks each leaf names. Each block but the first is read
    /// once, up to eight by one call.
    ///
    /// Where it is asked, the answer tells whether no two entries of one leaf have the same values and no high key of a
    /// leaf keeps a TID, so that no two entries of the index have the same values
    /// ([`apart_leaves_have_no_equal_keys`](join_distinct::apart_leaves_have_no_equal_keys)). `false` says nothing.
    ///
    /// `ReadFault` comes only where the count of the files' faults rose. After an error the report has a first
    /// part of what it would have got, and what was met is unspecified.
    pub fn check_entries<F: Files>(
        self,
        files: &mut F,
        slots: &mut RowSlots,
        spans: &mut Spans,
        report: &mut Report,
    ) -> Result<bool, PageFault>
        requires holds { IfTold F.seen files.old (λ names. HoldsTree names self.tree.now) }
        ensures lists { IfTold F.seen files.old (λ names. AreTargets (option_copied self.entry.targets) slots.old
            → AddsIn report_lists result report.old report.new
            (strays_of names (option_copied self.entry.targets) self.entry.tree.now)) }
        ensures met { OnOk result (IfTold F.seen files.old (λ names.
            HaveMet (all_entries (index_columns self.entry.tree.now) (block_count self.entry.tree.now)
            (held_block names self.entry.tree.now)) slots.old slots.new)) }
        ensures apart { Tells F.seen files.old result (λ apart names. apart ≡ true
            → AreApart names self.entry.tree.now) }
        ensures asked { AskedAtMost (block_count self.entry.tree.now) F.seen files.old files.new result
            PageFault.ReadFault }
    {
        if self.targets.is_some() {
            spans.begin(self.tree.blocks())?;
        }
        let mut hands = Hands {
            blocks: Ahead::new(),
            seen: Seen::new(self.apart),
        };
        for k in 0..self.tree.blocks().saturating_sub(1) {
            self.take_block(files, k + 1, &mut hands, slots, report)?;
            if self.targets.is_some() {
                spans.keep(k + 1, hands.seen.span);
            }
        }
        Ok(hands.seen.apart)
    }
}
