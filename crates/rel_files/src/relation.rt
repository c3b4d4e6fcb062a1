//! A relation in segments.
ghost use Rattle.std.specs.Prelude.{◌≡◌, ◌+◌, ◌*◌, ◌<◌, ◌≤◌, IfErr, IfOk, IfSome, OnOk, drop, length, take};
ghost use Rattle.outside.specs.Outside.{AskedAtMost, IfTold, Tells};
ghost use Rattle.rel_files.specs.Blocks.{block_of};
ghost use Rattle.rel_files.specs.Faults.{read_fault};

use crate::check_fault::PageFault;
use crate::fault::{AttachFault, ReadFault};
use crate::segments::find_last;
use outside::{FileName, Files, Part};
use std::alloc::Global;

/// The blocks of a relation (a table, an index, a map or a TOAST table) in its segment files, as
/// `storage/smgr/md.c` lays them. It keeps the relation's name and numbers, and none of its bytes:
/// each call is given the files anew.
#[derive(Drop)]
pub struct Relation {
    base: String,
    segment_blocks: u32,
    blocks: u32,
    long: Option<u32>,
    ghost some: { 1 ≤ segment_blocks },
}

impl Relation {
    ghost use Rattle.rel_files.specs.Relation.{FindsFront, IsAttached, IsPast, IsRefused, IsRelationOf, base_of};
    ghost use Rattle.rel_files.specs.Relation.{count_of, long_of, size_of};
    ghost use Rattle.rel_files.specs.Ahead.{AreBlocks, IsRun};

    /// Attaches a relation, whose name without a segment's number is `base`. `segment_blocks` is the
    /// number of blocks of a full segment, 1 to 131072 (131072 in a server as it is built by
    /// default), and `limit` the most blocks that are accepted, at most 4194304.
    ///
    /// It asks for the length of one segment after another, and of none after one that isn't full.
    /// A part of a block at a segment's end doesn't count. A segment that is longer than a full one
    /// counts as full, ends the relation, and is told by `long_segment`.
    ///
    /// `NoFile` comes exactly where segment 0 isn't held, `TooLarge` exactly where the relation has
    /// more than `limit` blocks, with the count at the first segment where it does, and `ReadFault`
    /// only where a segment couldn't be asked for.
    pub fn attach<F: Files>(
        alloc: Global,
        files: &mut F,
        base: &str,
        segment_blocks: u32,
        limit: u32,
    ) -> Result<Relation, AttachFault>
        requires some { 1 ≤ segment_blocks }
        requires small { segment_blocks ≤ 131072 }
        requires few { limit ≤ 4194304 }
        ensures base { IfOk result (λ r. base_of r ≡ base.now) }
        ensures size { IfOk result (λ r. size_of r ≡ segment_blocks) }
        ensures within { IfOk result (λ r. count_of r ≤ limit) }
        ensures told { Tells F.seen files.old result (λ r names.
            IsRelationOf names base.now segment_blocks limit r) }
        ensures refused { IfErr result (λ e. IfTold F.seen files.old (λ names.
            IsRefused names base.now segment_blocks limit e)) }
        ensures past { IfErr result (IsPast limit) }
        ensures asked { AskedAtMost 0 F.seen files.old files.new result AttachFault.ReadFault }
    {
        let Some(last) = find_last(files, base, segment_blocks, limit / segment_blocks)? else {
            return Err(AttachFault::NoFile);
        };
        let blocks = last.count(segment_blocks);
        if blocks > limit {
            return Err(AttachFault::TooLarge { blocks, limit });
        }
        Ok(Relation {
            base: String::from_str(alloc, base)?,
            segment_blocks,
            blocks,
            long: last.long(segment_blocks),
        })
    }

    /// Attaches the front of a relation: its blocks below `limit`. It asks for segment 0, and for
    /// each next segment while the last one was full and `limit` isn't reached. `base`,
    /// `segment_blocks` and the ranges are those of `attach`.
    ///
    /// `None` comes exactly where segment 0 isn't held, and `ReadFault` only where a segment
    /// couldn't be asked for.
    pub fn attach_front<F: Files>(
        alloc: Global,
        files: &mut F,
        base: &str,
        segment_blocks: u32,
        limit: u32,
    ) -> Result<Option<Relation>, PageFault>
        requires some { 1 ≤ segment_blocks }
        requires small { segment_blocks ≤ 131072 }
        requires few { limit ≤ 4194304 }
        ensures base { IfOk result (λ front. IfSome front (λ r. base_of r ≡ base.now)) }
        ensures size { IfOk result (λ front. IfSome front (λ r. size_of r ≡ segment_blocks)) }
        ensures within { IfOk result (λ front. IfSome front (λ r. count_of r ≤ limit)) }
        ensures told { Tells F.seen files.old result (λ front names.
            FindsFront names base.now segment_blocks limit front) }
        ensures asked { AskedAtMost 0 F.seen files.old files.new result PageFault.ReadFault }
    {
        let reach = limit.saturating_sub(1) / segment_blocks;
        let Some(last) = find_last(files, base, segment_blocks, reach)? else {
            return Ok(None);
        };
        Ok(Some(Relation {
            base: String::from_str(alloc, base)?,
            segment_blocks,
            blocks: last.count(segment_blocks).min(limit),
            long: last.long(segment_blocks),
        }))
    }

    /// The number of its blocks.
    pub fn blocks(&self) -> u32
        ensures { result ≡ count_of self.now }
    {
        self.blocks
    }

    /// The first of the segments asked for that has more blocks than a full one, `None` exactly
    /// where none has.
    pub fn long_segment(&self) -> Option<u32>
        ensures { result ≡ long_of self.now }
    {
        self.long
    }

    /// Reads a block into `out`; blocks count from 0. `ReadFault` comes only where the files
    /// couldn't be read, and `out` is then unspecified.
    pub fn read_block<F: Files>(
        &self,
        files: &mut F,
        b: u32,
        out: &mut [u8; 8192],
    ) -> Result<(), ReadFault>
        requires attached { IfTold F.seen files.old (λ names. IsAttached names self.now) }
        requires below { b < count_of self.now }
        ensures bytes { OnOk result (IfTold F.seen files.old (λ names.
            out.new ≡ block_of names (base_of self.now) (size_of self.now) b)) }
        ensures asked { AskedAtMost 1 F.seen files.old files.new result read_fault }
    {
        self.read_part(files, b, 0, out)?;
        Ok(())
    }

    /// Reads bytes of a block into `out`, from a place of the block on, counted from 0: for what needs
    /// little of a block. `ReadFault` comes only where the files couldn't be read, and `out` is then
    /// unspecified.
    pub fn read_part<F: Files>(
        &self,
        files: &mut F,
        b: u32,
        at: u16,
        out: &mut [u8],
    ) -> Result<(), ReadFault>
        requires attached { IfTold F.seen files.old (λ names. IsAttached names self.now) }
        requires below { b < count_of self.now }
        requires within { at + length out.old ≤ 8192 }
        ensures bytes { OnOk result (IfTold F.seen files.old (λ names.
            out.new ≡ take (length out.old) (drop at (block_of names (base_of self.now) (size_of self.now) b)))) }
        ensures asked { AskedAtMost 1 F.seen files.old files.new result read_fault }
    {
        let segment = b / self.segment_blocks;
        let place = b % self.segment_blocks;
        let name = FileName {
            base: self.base.as_str(),
            part: Part::Segment(segment),
        };
        files.read_at(name, 8192 * place as u64 + at as u64, out)?;
        Ok(())
    }

    // How many blocks from one on can be read at once: at most so many, and of its segment alone.
    pub(crate) fn run_from(&self, b: u32, most: u32) -> u32
        requires below { b < count_of self.now }
        requires some { 1 ≤ most }
        ensures run { IsRun self.now b result }
        ensures most { result ≤ most }
    {
        let left = self.segment_blocks - b % self.segment_blocks;
        most.min(left).min(self.blocks - b)
    }

    // Reads blocks of one segment that follow one another into `out`.
    pub(crate) fn read_run<F: Files>(
        &self,
        files: &mut F,
        b: u32,
        count: u32,
        out: &mut [u8],
    ) -> Result<(), ReadFault>
        requires attached { IfTold F.seen files.old (λ names. IsAttached names self.now) }
        requires run { IsRun self.now b count }
        requires room { length out.old ≡ 8192 * count }
        ensures bytes { OnOk result (IfTold F.seen files.old (λ names. AreBlocks names self.now b count out.new)) }
        ensures asked { AskedAtMost 1 F.seen files.old files.new result read_fault }
    {
        let name = FileName {
            base: self.base.as_str(),
            part: Part::Segment(b / self.segment_blocks),
        };
        let place = b % self.segment_blocks;
        files.read_at(name, 8192 * place as u64, out)?;
        Ok(())
    }
}
