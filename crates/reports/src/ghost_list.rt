//! A list that only proofs read: it takes no memory, and its functions do nothing when they run.
ghost use Rattle.std.specs.Prelude.{◌≡◌, List, [], ◌∷◌, ◌++◌};
ghost use Rattle.std.specs.Borrow.{ftrue};

use std::marker::{Model, PhantomData};

/// Clauses read the list as `items`. It has no bytes, so its three functions are proved by hand: each
/// makes a value of no bytes at the list that its clause names.
#[derive(Drop)]
pub struct GhostList<T> {
    of: PhantomData<T>,
    pub ghost items: { List T },
}

impl<T> Model for GhostList<T> {
    ghost also_owns = { λ _. ftrue };
}

impl<T> GhostList<T> {
    // Of nothing.
    pub fn new() -> GhostList<T>
        ensures { result.items ≡ [] }
    {
        GhostList { of: PhantomData }
    }

    // This list, and one member more.
    pub fn pushed(&self, _next: &T) -> GhostList<T>
        ensures { result.items ≡ self.now.items ++ _next.now ∷ [] }
    {
        GhostList { of: PhantomData }
    }

    // This list, and then another.
    pub fn joined(&self, _rest: &GhostList<T>) -> GhostList<T>
        ensures { result.items ≡ self.now.items ++ _rest.now.items }
    {
        GhostList { of: PhantomData }
    }
}
