//! Sets of the blocks of an index.
ghost use Rattle.std.specs.Prelude.{◌≡◌, ◌<◌, ◌==◌, ◌||◌, ℕ, IfOk, length};
ghost use Rattle.bt_level_check.specs.Sets.{IsEmptySet, is_in};

use outside::NoMemory;
use std::alloc::Global;
use std::marker::Model;

/// A set of blocks of a file of so many, counted from 0. Contracts see for each block whether it is in
/// the set.
#[derive(Drop)]
pub struct BlockSet {
    members: Vec<bool>,
}

impl Model for BlockSet {
    ghost use Rattle.std.specs.Prelude.{Bool, List};

    ghost Value = { List Bool };

    ghost view = { λ set. set.members.items };
}

impl BlockSet {
    /// A set without blocks, of a file of so many.
    pub fn new(alloc: Global, blocks: u32) -> Result<BlockSet, NoMemory>
        ensures sized { IfOk result (λ set. length set ≡ blocks) }
        ensures empty { IfOk result IsEmptySet }
    {
        let members = vec![in alloc; false; blocks as usize]?;
        Ok(BlockSet { members })
    }

    /// Puts a block into the set.
    pub fn add(&mut self, b: u32)
        requires { b < length self.old }
        ensures sized { length self.new ≡ length self.old }
        ensures added { (q : ℕ) → is_in self.new q ≡ (is_in self.old q || (b == q)) }
    {
        self.members[b as usize] = true;
    }

    /// Whether a block is in the set.
    pub fn has(&self, b: u32) -> bool
        requires { b < length self.now }
        ensures { result ≡ is_in self.now b }
    {
        self.members[b as usize]
    }
}
