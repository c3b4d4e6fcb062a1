//! Blocks of a relation that are read several at once, and lent one by one.
ghost use Rattle.std.specs.Prelude.{◌≡◌, ◌+◌, ◌<◌, ◌≤◌, ◌↔◌, IsTrue, OnOk};
ghost use Rattle.outside.specs.Outside.{AskedAtMost, IfTold, Names};
ghost use Rattle.rel_files.specs.Blocks.{block_of};
ghost use Rattle.rel_files.specs.Faults.{read_fault};

use crate::fault::ReadFault;
use crate::relation::Relation;
use outside::Files;

// How many blocks are read at once, and their bytes.
const AT_ONCE: u32 = 8;

const BYTES: usize = 65536;

// The numbers of blocks that follow one another.
#[derive(Clone, Copy)]
struct Run {
    first: u32,
    count: u32,
    ghost few: { count ≤ 8 },
}

/// Blocks of a relation that follow one another, read by one call and lent one by one: for what needs
/// the blocks of a relation in order. It is used with one relation, and keeps nothing of it but these
/// bytes.
#[derive(Drop)]
pub struct Ahead {
    bytes: [u8; BYTES],
    run: Run,
}

impl Run {
    // No block.
    fn none() -> Run
        ensures { result.count ≡ 0 }
    {
        Run { first: 0, count: 0 }
    }

    // Whether it has a block.
    fn has(self, b: u32) -> bool
        ensures { IsTrue result ↔ (self.first ≤ b) × (b < self.first + self.count) }
    {
        self.first <= b && b - self.first < self.count
    }
}

impl Ahead {
    ghost use Rattle.rel_files.specs.Ahead.{IsAheadOf, IsInHand, page_in_hand};
    ghost use Rattle.rel_files.specs.Relation.{IsAttached, base_of, count_of, size_of};
    ghost use Rattle.rel_files.specs.declared.relation.Relation.{Relation as Related};

    /// No block is in hand.
    pub fn new() -> Ahead
        ensures { (names : Names) (r : Related) → IsAheadOf names r result }
    {
        Ahead {
            bytes: [0; BYTES],
            run: Run::none(),
        }
    }

    /// Takes a block of the relation in hand, and lets the others go where it wasn't: it is then read
    /// together with up to seven that follow it in its segment. Blocks count from 0.
    ///
    /// `ReadFault` comes only where the files couldn't be read, also where the block itself could have
    /// been read, but not those that follow it. No block is then in hand.
    pub fn take<F: Files>(
        &mut self,
        files: &mut F,
        relation: &Relation,
        b: u32,
    ) -> Result<(), ReadFault>
        requires attached { IfTold F.seen files.old (λ names. IsAttached names relation.now) }
        requires below { b < count_of relation.now }
        requires hand { IfTold F.seen files.old (λ names. IsAheadOf names relation.now self.old) }
        ensures hand { IfTold F.seen files.old (λ names. IsAheadOf names relation.now self.new) }
        ensures taken { OnOk result (IsInHand self.new b) }
        ensures bytes { OnOk result (IfTold F.seen files.old (λ names.
            page_in_hand self.new b ≡ block_of names (base_of relation.now) (size_of relation.now) b)) }
        ensures asked { AskedAtMost 1 F.seen files.old files.new result read_fault }
    {
        if self.run.has(b) {
            return Ok(());
        }
        self.run = Run::none();
        let count = relation.run_from(b, AT_ONCE);
        relation.read_run(files, b, count, &mut self.bytes[..count as usize * 8192])?;
        self.run = Run { first: b, count };
        Ok(())
    }

    /// Lends a block that is in hand.
    pub fn page(&self, b: u32) -> &[u8; 8192]
        requires { IsInHand self.now b }
        ensures { result.now ≡ page_in_hand self.now b }
    {
        let at = (b - self.run.first) as usize * 8192;
        self.bytes[at..].first_chunk::<8192>().unwrap()
    }
}
