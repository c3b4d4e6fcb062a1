//! What is stored is read back.
ghost use Rattle.std.specs.Prelude.{◌≡◌, ◌++◌, ℕ, All, Decides, List};
ghost use Rattle.key_orders.specs.declared.columns.Value.{Value as Shown};
ghost use Rattle.key_storage.specs.Same.{same_key};
ghost use Rattle.key_storage.specs.Stored.{IsStorable, key_read, stored_key};

/// A key that is stored is read back, whatever stands behind it (`back`), and the test of two keys says whether they
/// are equal (`same`).
#[tactic(auto, using(crate::proofs::StoredLaws::key_back, crate::proofs::SameLaws::keys_decide))]
pub fn keys_are_read_back()
    ensures back { (key : List Shown) (rest : List ℕ) → All IsStorable key
        → key_read (stored_key key ++ rest) ≡ key }
    ensures same { (a b : List Shown) → Decides (same_key a b) (a ≡ b) }
{}
