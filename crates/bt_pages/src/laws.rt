//! What the lists of a report say of a block.
ghost use Rattle.std.specs.Prelude.{◌≡◌, ℕ, All, false};
ghost use Rattle.page_layout.specs.declared.rules.Rule.{Rule};
ghost use Rattle.bt_meta.specs.Pages.{is_idle};
ghost use Rattle.reports.specs.declared.places.Place.{Place};
ghost use Rattle.reports.specs.declared.places.Reason.{Reason};
ghost use Rattle.bt_image.specs.Pages.{KeepsPage};
ghost use Rattle.bt_pages.specs.Broken.{AreEmpty, BreaksBlock, DoubtsBlock, IsDoubtedAt, IsFoundAt};
ghost use Rattle.bt_pages.specs.Found.{block_lists};
ghost use Rattle.bt_pages.specs.Trees.{Tree};

/// What `judge_page` adds to a report of a block is what is broken there and what is in doubt.
///
/// - `sound`: each finding is a rule that is asked at its place and is broken there.
/// - `doubts`: each place that can't be judged has a compressed value, and breaks no rule of its own.
/// - `listed`: each place where a rule is broken is among those of the findings, with the first rule
///   that is broken there.
/// - `doubted`: each item in doubt is among the places that can't be judged.
/// - `complete`, `certain`: where nothing is listed, no rule is broken and nothing is in doubt.
/// - `kept`: and then a page that is part of the tree keeps all that the image of an index is built on.
pub fn blocks_are_judged()
    ensures sound { (tree : Tree) (b : ℕ)
        → All (λ f. BreaksBlock tree b f.rule f.place) (block_lists tree b).findings }
    ensures doubts { (tree : Tree) (b : ℕ)
        → All (λ u. DoubtsBlock tree b u.reason u.place) (block_lists tree b).unjudged }
    ensures listed { (tree : Tree) (b : ℕ) (rule : Rule) (place : Place)
        → BreaksBlock tree b rule place → IsFoundAt (block_lists tree b) place }
    ensures doubted { (tree : Tree) (b : ℕ) (reason : Reason) (place : Place)
        → DoubtsBlock tree b reason place → IsDoubtedAt (block_lists tree b) place }
    ensures complete { (tree : Tree) (b : ℕ) → AreEmpty (block_lists tree b)
        → (rule : Rule) (place : Place) → BreaksBlock tree b rule place → ⊥ }
    ensures certain { (tree : Tree) (b : ℕ) → AreEmpty (block_lists tree b)
        → (reason : Reason) (place : Place) → DoubtsBlock tree b reason place → ⊥ }
    ensures kept { (tree : Tree) (b : ℕ) → AreEmpty (block_lists tree b) → is_idle (tree.block b) ≡ false
        → KeepsPage tree.specs tree.more tree.blocks tree.block b }
{}
