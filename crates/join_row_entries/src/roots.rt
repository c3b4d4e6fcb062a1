//! Which roots have an entry.
ghost use Rattle.std.specs.Prelude.{◌≡◌, ◌≤◌, false, true};
ghost use Rattle.key_orders.specs.declared.Tid.{Tid as Place};
ghost use Rattle.join_row_entries.specs.Roots.{IsNoneTaken, IsOnlyTaken, is_taken, may_take};

use key_orders::Tid;
use std::marker::Model;

// A heap page has at most 2042 line pointers, so the number of each is below.
const ITEMS: usize = 2048;

/// The roots that have an entry, as far as it must be kept: all of the blocks before the last one, and which of that.
/// Contracts see both (`Taken`).
#[derive(Drop)]
pub(crate) struct TakenRoots {
    block: u32,
    items: [bool; ITEMS],
}

impl Model for TakenRoots {
    ghost use Rattle.std.specs.Prelude.{◌≡◌, length};
    ghost use Rattle.join_row_entries.specs.Roots.{Taken};

    ghost Value = { Taken };

    ghost view = { λ r. record { block = r.block; items = r.items } };

    ghost invariant = { λ r. length r.items ≡ 2048 };
}

impl TakenRoots {
    /// None is taken.
    pub(crate) fn new() -> TakenRoots
        ensures { IsNoneTaken result }
    {
        TakenRoots {
            block: 0,
            items: [false; ITEMS],
        }
    }

    // Whether a root may be taken.
    fn may_take(&self, root: Tid) -> bool
        ensures { result ≡ may_take self.now root }
    {
        let item = root.item as usize;
        if item == 0 {
            return false;
        }
        if ITEMS <= item {
            return false;
        }
        if root.block != self.block {
            return self.block < root.block;
        }
        !self.items[item]
    }

    // Goes on to the block of a root that may be taken.
    fn go_on(&mut self, block: u32)
        requires { self.old.block ≤ block }
        ensures block { self.new.block ≡ block }
        ensures kept { (t : Place) → is_taken self.old t ≡ true → is_taken self.new t ≡ true }
        ensures others { (t : Place) → block ≤ t.block → is_taken self.new t ≡ is_taken self.old t }
    {
        if self.block < block {
            self.block = block;
            self.items = [false; ITEMS];
        }
    }

    /// Takes a root, whose block mustn't lie before the last one, and which mustn't be taken yet; whether that was so.
    pub(crate) fn take(&mut self, root: Tid) -> bool
        ensures may { result ≡ may_take self.old root }
        ensures itself { result ≡ true → is_taken self.new root ≡ true }
        ensures kept { (t : Place) → is_taken self.old t ≡ true → is_taken self.new t ≡ true }
        ensures others { IsOnlyTaken root self.old self.new }
    {
        if !self.may_take(root) {
            return false;
        }
        self.go_on(root.block);
        self.items[root.item as usize] = true;
        true
    }
}
