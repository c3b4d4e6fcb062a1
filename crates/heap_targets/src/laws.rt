//! What a set tells of a heap whose pages filled it.
ghost use Rattle.std.specs.Prelude.{ℕ, List};
ghost use Rattle.key_orders.specs.declared.Tid.{Tid as Place};
ghost use Rattle.heap_targets.specs.Targets.{GrowsByPage, TellsOfPages};

/// A set that was filled from the pages of blocks 0 to n - 1 holds of a TID exactly what the page of its block
/// says of the item, and nothing of later blocks (`tells`); and filling goes on by the page of block n (`grows`).
pub fn set_tells_of_pages()
    ensures tells { (pages : ℕ → List ℕ) (n : ℕ) (tid : Place) → TellsOfPages pages n tid }
    ensures grows { (pages : ℕ → List ℕ) (n : ℕ) → GrowsByPage pages n }
{}
