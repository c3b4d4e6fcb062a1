//! The segments of a relation, one after another up to its last.
ghost use Rattle.std.specs.Prelude.{◌≡◌, ◌↔◌, ℕ, suc, ◌+◌, ◌-◌, ◌*◌, ◌/◌, ◌<◌, ◌≤◌, ◌^◌, List, min, length, IfOk};
ghost use Rattle.std.specs.Prelude.{IfSome, Some, None, if◌then◌else◌, nat_lt};
ghost use Rattle.outside.specs.declared.files.Part.TheVariants.{Segment};
ghost use Rattle.outside.specs.Outside.{AskedAtMost, Names, Tells, failed};
ghost use Rattle.rel_files.specs.Blocks.{block_of, blocks_below, blocks_of, front_blocks_of, front_long_segment_of};
ghost use Rattle.rel_files.specs.Blocks.{last_segment, long_segment_of, segment_length};
ghost use Rattle.rel_files.specs.Ends.{IsEnd, IsLong};
ghost use Rattle.rel_files.specs.Segments.{FindsLast, FindsBlocks};

use outside::{Failed, FileName, Files, Part};

// The last segment that is asked for, and its whole blocks.
#[derive(Clone, Copy)]
pub struct Last {
    pub segment: u32,
    pub blocks: u64,
}

// The whole blocks of a segment, `None` exactly where it isn't held.
fn ask<F: Files>(files: &mut F, base: &str, segment: u32) -> Result<Option<u64>, Failed>
    ensures told { Tells F.seen files.old result (λ found names.
        FindsBlocks (names base.now (Segment segment)) found) }
    ensures asked { AskedAtMost 0 F.seen files.old files.new result failed }
{
    let name = FileName {
        base,
        part: Part::Segment(segment),
    };
    match files.length(name)? {
        None => Ok(None),
        Some(length) => Ok(Some(length / 8192)),
    }
}

// The last segment of a relation: the first that isn't full, but none past `reach`. It asks for no
// segment after it. `None` exactly where the first segment isn't held.
pub fn find_last<F: Files>(
    files: &mut F,
    base: &str,
    segment_blocks: u32,
    reach: u32,
) -> Result<Option<Last>, Failed>
    ensures told { Tells F.seen files.old result (λ last names.
        FindsLast names base.now segment_blocks reach last) }
    ensures within { IfOk result (λ last. IfSome last (λ last. last.segment ≤ reach)) }
    ensures asked { AskedAtMost 0 F.seen files.old files.new result failed }
{
    let Some(first) = ask(files, base, 0)? else {
        return Ok(None);
    };
    let mut segment = 0;
    let mut blocks = first;
    while blocks == segment_blocks as u64 && segment < reach {
        segment += 1;
        blocks = ask(files, base, segment)?.unwrap_or(0);
    }
    Ok(Some(Last { segment, blocks }))
}

impl Last {
    // The blocks of all segments up to this one, where those before it are full.
    pub fn count(self, segment_blocks: u32) -> u32
        requires { self.segment * segment_blocks + segment_blocks < 2 ^ 32 }
        ensures { result ≡ self.segment * segment_blocks + min self.blocks segment_blocks }
    {
        self.segment * segment_blocks + self.blocks.min(segment_blocks as u64) as u32
    }

    // This segment, where it has more blocks than a full one.
    pub fn long(self, segment_blocks: u32) -> Option<u32>
        ensures { result ≡ (if nat_lt segment_blocks self.blocks then Some self.segment else None) }
    {
        (self.blocks > segment_blocks as u64).then_some(self.segment)
    }
}

/// Laws of the counting, for proofs over blocks: the limit is no part of what a relation's blocks
/// are.
pub fn counts_have_the_laws()
    // Where the relation ends with segment e, its blocks are the sum over the segments 0 to e:
    // within the limit exactly so, and past the limit exactly where that sum is.
    ensures whole { (names : Names) (base : List ℕ) (size limit e : ℕ) → let len = segment_length names base in
        1 ≤ size → IsEnd len size e →
        min (blocks_of names base size limit) (limit + 1) ≡ min (blocks_below len size (suc e)) (limit + 1) }
    // Any higher limit gives the same, as far as this one goes.
    ensures higher { (names : Names) (base : List ℕ) (size limit more : ℕ) → 1 ≤ size → limit ≤ more →
        min (blocks_of names base size more) (limit + 1) ≡ min (blocks_of names base size limit) (limit + 1) }
    // A count within its limit has found the end.
    ensures end { (names : Names) (base : List ℕ) (size limit : ℕ) → let len = segment_length names base in
        1 ≤ size → blocks_of names base size limit ≤ limit → IsEnd len size (last_segment len size (limit / size)) }
    // The segment with which a count passes its limit is the first with which it does.
    ensures first { (names : Names) (base : List ℕ) (size limit : ℕ) → let len = segment_length names base in
        blocks_below len size (last_segment len size (limit / size)) ≤ limit }
    // The blocks of a front are counted over the segments that are asked for it.
    ensures front { (names : Names) (base : List ℕ) (size limit : ℕ) → let len = segment_length names base in
        1 ≤ size → front_blocks_of names base size limit
        ≡ min (blocks_below len size (suc (last_segment len size ((limit - 1) / size)))) limit }
    // The segment that is told is the one of those asked for that is too long.
    ensures long { (names : Names) (base : List ℕ) (size limit k : ℕ) →
        (long_segment_of names base size limit ≡ Some k)
        ↔ IsLong (segment_length names base) size (limit / size) k }
    ensures front_long { (names : Names) (base : List ℕ) (size limit k : ℕ) →
        (front_long_segment_of names base size limit ≡ Some k)
        ↔ IsLong (segment_length names base) size ((limit - 1) / size) k }
    // A block that is counted has all its bytes.
    ensures block { (names : Names) (base : List ℕ) (size limit b : ℕ) → 1 ≤ size →
        b < blocks_of names base size limit → length (block_of names base size b) ≡ 8192 }
{}
