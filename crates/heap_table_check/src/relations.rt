//! Judges the blocks of a table's file.
ghost use Rattle.std.specs.Prelude.{◌≡◌, ◌+◌, ◌<◌, ℕ, List, None, IfOk, OnOk};
ghost use Rattle.outside.specs.Outside.{Asked, IfTold, Names};
ghost use Rattle.rel_files.specs.Ahead.{IsAheadOf};
ghost use Rattle.rel_files.specs.Relation.{count_of};
ghost use Rattle.rel_files.specs.declared.relation.Relation.{Relation as Related};
ghost use Rattle.heap_page_check.specs.Found.{both_found, nothing_found, only_listed};
ghost use Rattle.heap_page_check.specs.Table.{AreReadable, Table, rel_of};
ghost use Rattle.heap_table_check.specs.Known.{TellsOfBlocks};
ghost use Rattle.heap_table_check.specs.Relations.{segment_found};
ghost use Rattle.heap_table_check.specs.TableFiles.{AreAtHand, found_of_block, found_of_blocks, found_of_table};
ghost use Rattle.heap_table_check.specs.TableFiles.{TellsOfFile};

use crate::known::KnownBlocks;
use crate::map::MapPage;
use heap_page_check::{Found, PageInHand, TableKind, TableRules, Work, judge_table_page};
use liveness::Transactions;
use outside::NoMemory;
use page_layout::{PageView, Rule};
use rel_files::{Ahead, PageFault, Relation};
use reports::Place;
use std::alloc::Global;

/// The file of a table, with the visibility map of its blocks, where it has one.
#[derive(Clone, Copy)]
pub(crate) struct TableFile<'a> {
    pub(crate) relation: &'a Relation,
    pub(crate) map: Option<&'a Relation>,
}

/// What is in hand while a table is judged: pages of it, a page of its visibility map, what was found, and what is
/// known of its blocks.
#[derive(Drop)]
pub(crate) struct Hands {
    pub(crate) ahead: Ahead,
    pub(crate) map: MapPage,
    pub(crate) work: Work,
    pub(crate) known: KnownBlocks,
}

/// What was found of a table, and what is known of its blocks.
#[derive(Drop)]
pub(crate) struct JudgedFile {
    pub(crate) found: Found,
    pub(crate) known: KnownBlocks,
}

impl Hands {
    /// No page is in hand, and nothing was found.
    pub(crate) fn new(alloc: Global) -> Result<Hands, NoMemory>
        ensures ahead { IfOk result (λ hands. (names : Names) (r : Related) → IsAheadOf names r hands.ahead) }
        ensures map { IfOk result (λ hands. hands.map.block ≡ None) }
        ensures found { IfOk result (λ hands. hands.work.found ≡ nothing_found) }
        ensures known { IfOk result (λ hands. (table : Table) (pages : ℕ → List ℕ)
            → TellsOfBlocks table pages 0 hands.known) }
    {
        Ok(Hands {
            ahead: Ahead::new(),
            map: MapPage::new(),
            work: Work::new(alloc)?,
            known: KnownBlocks::new(alloc),
        })
    }

    /// What was found, and what is known of the blocks.
    pub(crate) fn into_judged(self) -> JudgedFile
        ensures found { result.found ≡ self.work.found }
        ensures known { result.known ≡ self.known }
    {
        let Hands { work, known, .. } = self;
        JudgedFile {
            found: work.into_found(),
            known,
        }
    }
}

// Takes a block of a table in hand, judges it, and adds it to the blocks that are known.
fn judge_block<F: Transactions>(
    files: &mut F,
    table: &TableRules<'_>,
    file: TableFile<'_>,
    block: u32,
    hands: &mut Hands,
) -> Result<(), PageFault>
    requires columns { AreReadable table.now.columns.now }
    requires inside { block < count_of file.relation.now }
    requires at_hand { IfTold F.seen files.old (λ names. AreAtHand names file hands.old.ahead hands.old.map) }
    ensures found { OnOk result (IfTold F.seen files.old (λ names.
        hands.new.work.found ≡ both_found hands.old.work.found (found_of_block names table.now file.entry block))) }
    ensures known { IfTold F.seen files.old (λ names. TellsOfFile names table.now file.entry block hands.old.known
        → OnOk result (TellsOfFile names table.now file.entry (block + 1) hands.new.known)) }
    ensures at_hand { IfTold F.seen files.old (λ names. AreAtHand names file.entry hands.new.ahead hands.new.map) }
    ensures asked { Asked F.seen files.old files.new result PageFault.ReadFault }
{
    let bits = hands.map.bits_of(files, file.map, block)?;
    hands.ahead.take(files, file.relation, block)?;
    let view = PageView::new(hands.ahead.page(block));
    let at = PageInHand { view, block, bits };
    let plain = judge_table_page(files, table, at, &mut hands.work)?;
    hands.known.add(view, plain)?;
    Ok(())
}

// Reads and judges the blocks of a table, one after the other.
#[tactic(auto, unfolding(crate::specs::Relations::blocks_found))]
fn judge_blocks<F: Transactions>(
    files: &mut F,
    table: &TableRules<'_>,
    file: TableFile<'_>,
    hands: &mut Hands,
) -> Result<(), PageFault>
    requires columns { AreReadable table.now.columns.now }
    requires at_hand { IfTold F.seen files.old (λ names. AreAtHand names file hands.old.ahead hands.old.map) }
    ensures found { OnOk result (IfTold F.seen files.old (λ names.
        hands.new.work.found ≡ both_found hands.old.work.found (found_of_blocks names table.now file.entry))) }
    ensures known { IfTold F.seen files.old (λ names. TellsOfFile names table.now file.entry 0 hands.old.known
        → OnOk result (TellsOfFile names table.now file.entry (count_of file.entry.relation.now) hands.new.known)) }
    ensures asked { Asked F.seen files.old files.new result PageFault.ReadFault }
{
    for block in 0..file.relation.blocks() {
        judge_block(files, table, file, block, hands)?;
    }
    Ok(())
}

// Adds the finding of a segment that is too long.
fn add_segment(found: &mut Found, kind: TableKind, long: Option<u32>) -> Result<(), NoMemory>
    ensures { OnOk result (found.new ≡ both_found found.old (only_listed (segment_found (rel_of kind) long))) }
{
    match long {
        None => Ok(()),
        Some(segment) => found.add_rule(Place::Segment(kind.rel(), segment), Some(Rule::S1)),
    }
}

/// Judges a table: its segments, and then its blocks.
pub(crate) fn judge_table<F: Transactions>(
    files: &mut F,
    table: &TableRules<'_>,
    file: TableFile<'_>,
    hands: &mut Hands,
) -> Result<(), PageFault>
    requires columns { AreReadable table.now.columns.now }
    requires at_hand { IfTold F.seen files.old (λ names. AreAtHand names file hands.old.ahead hands.old.map) }
    ensures found { OnOk result (IfTold F.seen files.old (λ names.
        hands.new.work.found ≡ both_found hands.old.work.found (found_of_table names table.now file.entry))) }
    ensures known { IfTold F.seen files.old (λ names. TellsOfFile names table.now file.entry 0 hands.old.known
        → OnOk result (TellsOfFile names table.now file.entry (count_of file.entry.relation.now) hands.new.known)) }
    ensures asked { Asked F.seen files.old files.new result PageFault.ReadFault }
{
    add_segment(
        &mut hands.work.found,
        table.kind,
        file.relation.long_segment(),
    )?;
    judge_blocks(files, table, file, hands)
}
