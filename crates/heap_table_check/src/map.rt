//! The visibility map of a heap: judges its pages, and reads what it says of heap blocks.
ghost use Rattle.std.specs.Prelude.{◌≡◌, ◌<◌, None, Some, IfOk, OnOk};
ghost use Rattle.std.specs.Option.{option_copied};
ghost use Rattle.outside.specs.Outside.{Asked, IfTold, Tells};
ghost use Rattle.rel_files.specs.Faults.{read_fault};
ghost use Rattle.rel_files.specs.Blocks.{block_of};
ghost use Rattle.rel_files.specs.Relation.{IsAttached, base_of, count_of, size_of};
ghost use Rattle.page_layout.specs.Page.{page_rule_of};
ghost use Rattle.reports.specs.Added.{joined};
ghost use Rattle.heap_table_check.specs.Map.{bits_seen, map_block_found, map_blocks_found, page_bits};

use outside::{Files, NoMemory};
use page_layout::{PageKind, PageView, Rule};
use rel_files::{PageFault, ReadFault, Relation};
use reports::{Place, Rel, Report};
use vis_map::{MapBits, bits_in, map_page_of};

/// The page of the map that is in hand, so that none is read twice in a row.
#[derive(Drop)]
pub(crate) struct MapPage {
    // Its block, where one is in hand.
    pub(crate) block: Option<u32>,
    pub(crate) bytes: [u8; 8192],
}

impl MapPage {
    ghost use Rattle.heap_table_check.specs.MapPage.{IsMapAttached, IsMapInHand, IsOptionalMapInHand};

    /// No page is in hand.
    pub(crate) fn new() -> MapPage
        ensures { result.block ≡ None }
    {
        MapPage {
            block: None,
            bytes: [0u8; 8192],
        }
    }

    // Takes a page of the map in hand.
    fn take<F: Files>(&mut self, files: &mut F, map: &Relation, block: u32) -> Result<(), ReadFault>
        requires attached { IfTold F.seen files.old (λ names. IsAttached names map.now) }
        requires inside { block < count_of map.now }
        requires hand { IfTold F.seen files.old (λ names. IsMapInHand names map.now self.old) }
        ensures hand { IfTold F.seen files.old (λ names. IsMapInHand names map.now self.new) }
        ensures taken { OnOk result (self.new.block ≡ Some block) }
        ensures bytes { OnOk result (IfTold F.seen files.old (λ names.
            self.new.bytes ≡ block_of names (base_of map.now) (size_of map.now) block)) }
        ensures asked { Asked F.seen files.old files.new result read_fault }
    {
        if self.block == Some(block) {
            return Ok(());
        }
        self.block = None;
        map.read_block(files, block, &mut self.bytes)?;
        self.block = Some(block);
        Ok(())
    }

    // The first rule that the page in hand breaks.
    fn rule(&self) -> Option<Rule>
        ensures { result ≡ page_rule_of PageKind.Map self.now.bytes }
    {
        PageView::new(&self.bytes).page_rule(PageKind::Map)
    }

    // What the page in hand says of a heap block.
    #[tactic(auto, unfolding(crate::specs::Map::page_bits))]
    fn bits(&self, heap_block: u32) -> MapBits
        ensures { result ≡ page_bits self.now.bytes heap_block }
    {
        match self.rule() {
            None => bits_in(PageView::new(&self.bytes), heap_block),
            Some(_) => MapBits::NONE,
        }
    }

    /// What the map says of a heap block: nothing where there is no map, no page for the block, or
    /// the page breaks a rule.
    pub(crate) fn bits_of<F: Files>(
        &mut self,
        files: &mut F,
        map: Option<&Relation>,
        heap_block: u32,
    ) -> Result<MapBits, ReadFault>
        requires attached { IfTold F.seen files.old (λ names. IsMapAttached names (option_copied map)) }
        requires hand { IfTold F.seen files.old (λ names. IsOptionalMapInHand names (option_copied map) self.old) }
        ensures told { Tells F.seen files.old result (λ bits names.
            bits ≡ bits_seen names (option_copied map.entry) heap_block) }
        ensures hand { IfTold F.seen files.old (λ names. IsOptionalMapInHand names (option_copied map.entry) self.new) }
        ensures asked { Asked F.seen files.old files.new result read_fault }
    {
        let Some(map) = map else {
            return Ok(MapBits::NONE);
        };
        let block = map_page_of(heap_block);
        if map.blocks() <= block {
            return Ok(MapBits::NONE);
        }
        self.take(files, map, block)?;
        Ok(self.bits(heap_block))
    }

    // Judges a page of the map, which is then in hand.
    fn judge_page<F: Files>(
        &mut self,
        files: &mut F,
        map: &Relation,
        block: u32,
        report: &mut Report,
    ) -> Result<(), PageFault>
        requires attached { IfTold F.seen files.old (λ names. IsAttached names map.now) }
        requires inside { block < count_of map.now }
        requires hand { IfTold F.seen files.old (λ names. IsMapInHand names map.now self.old) }
        ensures found { OnOk result (IfTold F.seen files.old (λ names. report.new ≡ joined report.old
            (map_block_found names (base_of map.now) (size_of map.now) block))) }
        ensures hand { IfTold F.seen files.old (λ names. IsMapInHand names map.now self.new) }
        ensures asked { Asked F.seen files.old files.new result PageFault.ReadFault }
    {
        self.take(files, map, block)?;
        report.add_rule(Place::Block(Rel::Map, block), self.rule())?;
        Ok(())
    }

    /// Judges the pages of the map, one after the other. The last is then in hand.
    #[tactic(auto, unfolding(crate::specs::Map::map_blocks_found))]
    pub(crate) fn judge_pages<F: Files>(
        &mut self,
        files: &mut F,
        map: &Relation,
        report: &mut Report,
    ) -> Result<(), PageFault>
        requires attached { IfTold F.seen files.old (λ names. IsAttached names map.now) }
        requires hand { IfTold F.seen files.old (λ names. IsMapInHand names map.now self.old) }
        ensures found { OnOk result (IfTold F.seen files.old (λ names. report.new ≡ joined report.old
            (map_blocks_found names (base_of map.now) (size_of map.now) (count_of map.now)))) }
        ensures hand { IfTold F.seen files.old (λ names. IsMapInHand names map.now self.new) }
        ensures asked { Asked F.seen files.old files.new result PageFault.ReadFault }
    {
        for block in 0..map.blocks() {
            self.judge_page(files, map, block, report)?;
        }
        Ok(())
    }
}
