//! A later pass over the leaves of an index: over those alone that may name rows of its range.
ghost use Rattle.std.specs.Prelude.{◌≡◌, ◌<◌, ◌≤◌, OnOk};
ghost use Rattle.outside.specs.Outside.{AskedAtMost, IfTold};
ghost use Rattle.rel_files.specs.Ahead.{IsAheadOf};
ghost use Rattle.rel_files.specs.Faults.{read_fault};
ghost use Rattle.bt_levels.specs.Files.{relation_of};
ghost use Rattle.bt_levels.specs.Sound.{HoldsTree, block_count, file_of, held_block, index_columns};
ghost use Rattle.join_meet.specs.Meeting.{HaveMetSome, all_entries, leaf_entries};

use crate::spans::Spans;
use bt_levels::SoundTree;
use join_meet::{HeapRange, Near, meet_near};
use join_slots::RowSlots;
use outside::Files;
use rel_files::{Ahead, ReadFault};

// A range of heap blocks, which heap blocks the leaves name, and what is in hand while leaves are gone over: blocks
// that were read together, and the items of a leaf that are near.
#[derive(Drop)]
struct Pass<'a> {
    range: HeapRange,
    spans: &'a Spans,
    blocks: Ahead,
    near: Near,
}

impl Pass<'_> {
    // Takes a block that isn't the first in hand, if its entries may name rows of the range, and has those that may
    // meet theirs.
    fn meet_block<F: Files>(
        &mut self,
        files: &mut F,
        tree: &SoundTree,
        b: u32,
        slots: &mut RowSlots,
    ) -> Result<(), ReadFault>
        requires holds { IfTold F.seen files.old (λ names. HoldsTree names tree.now) }
        requires hand { IfTold F.seen files.old (λ names.
            IsAheadOf names (relation_of (file_of tree.now)) self.old.blocks) }
        requires not_meta { 1 ≤ b }
        requires below { b < block_count tree.now }
        ensures met { OnOk result (IfTold F.seen files.old (λ names.
            HaveMetSome (leaf_entries (index_columns tree.now) (held_block names tree.now b)) slots.old slots.new)) }
        ensures hand { IfTold F.seen files.old (λ names.
            IsAheadOf names (relation_of (file_of tree.now)) self.new.blocks) }
        ensures asked { AskedAtMost 1 F.seen files.old files.new result read_fault }
    {
        if !self.spans.may_name(b, self.range) {
            return Ok(());
        }
        tree.take_ahead(files, b, &mut self.blocks)?;
        let page = self.blocks.page(b);
        meet_near(slots, &tree.columns(), page, self.range, &mut self.near);
        Ok(())
    }
}

/// Has entries of an index that aren't killed meet the rows that are kept of a range of heap blocks: those of the
/// leaves that may name some of these, as an earlier pass told. A row that wasn't met may have an entry all the same.
/// Each block but the first is read once at most, up to eight by one call.
///
/// `ReadFault` comes only where the count of the files' faults rose. After it what was met is unspecified.
pub fn meet_some<F: Files>(
    files: &mut F,
    tree: &SoundTree,
    spans: &Spans,
    range: HeapRange,
    slots: &mut RowSlots,
) -> Result<(), ReadFault>
    requires holds { IfTold F.seen files.old (λ names. HoldsTree names tree.now) }
    ensures met { OnOk result (IfTold F.seen files.old (λ names.
        HaveMetSome (all_entries (index_columns tree.now) (block_count tree.now) (held_block names tree.now))
        slots.old slots.new)) }
    ensures asked { AskedAtMost (block_count tree.now) F.seen files.old files.new result read_fault }
{
    let mut pass = Pass {
        range,
        spans,
        blocks: Ahead::new(),
        near: Near::new(),
    };
    for k in 0..tree.blocks().saturating_sub(1) {
        pass.meet_block(files, tree, k + 1, slots)?;
    }
    Ok(())
}
