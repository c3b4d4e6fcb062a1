//! The first page of a level.
ghost use Rattle.std.specs.Prelude.{◌≡◌, ◌<◌, ◌≤◌, ◌+◌, ◌*◌, ℕ, Some, length};
ghost use Rattle.outside.specs.Outside.{Asked, AskedAtMost, IfTold, Tells};
ghost use Rattle.rel_files.specs.Faults.{read_fault};
ghost use Rattle.rel_files.specs.Relation.{IsAttached, count_of};
ghost use Rattle.laws_search.specs.Searchable.{IsInUse};
ghost use Rattle.bt_meta.specs.Pages.{opaque_of};
ghost use Rattle.bt_pages.specs.Trees.{tree_seen};
ghost use Rattle.bt_level_check.specs.Budget.{TakesReads};
ghost use Rattle.bt_level_check.specs.Trees.{HoldsPages, image_of};
ghost use Rattle.bt_level_check.specs.Walked.{IsFirstPage, IsWithin, lefts_of};

use bt_pages::{TreeRules, glance_at};
use outside::Files;
use rel_files::ReadFault;

// The left sibling of a block, 0 where it has none or isn't a block.
fn left_of<F: Files>(files: &mut F, tree: &TreeRules<'_>, b: u32) -> Result<u32, ReadFault>
    requires attached { IfTold F.seen files.old (λ names. IsAttached names tree.now.relation.now) }
    ensures told { Tells F.seen files.old result (λ left names. b < count_of tree.now.relation.now
        → left ≡ (opaque_of ((tree_seen names tree.now).block b)).prev) }
    ensures asked { AskedAtMost 2 F.seen files.old files.new result read_fault }
{
    if b >= tree.relation.blocks() {
        return Ok(0);
    }
    let page = glance_at(files, tree.relation, b)?;
    Ok(page.special.prev)
}

/// The first page of the level that this page is part of, by the links to the left; or None where they
/// come back to the page, or don't end within `steps`, of which each link that is followed takes one.
/// `ReadFault` comes only where the count of the files' faults rose.
pub fn first_page<F: Files>(
    files: &mut F,
    tree: &TreeRules<'_>,
    entry: u32,
    steps: &mut u32,
) -> Result<Option<u32>, ReadFault>
    requires few { steps.old ≤ count_of tree.now.relation.now }
    requires attached { IfTold F.seen files.old (λ names. IsAttached names tree.now.relation.now) }
    ensures fewer { steps.new ≤ steps.old }
    ensures told { Tells F.seen files.old result (λ first names. let x = image_of (tree_seen names tree.now) in
        HoldsPages names tree.now → IsInUse x entry → IsWithin x entry steps.old → IsFirstPage x entry first) }
    ensures steps { Tells F.seen files.old result (λ first names. let x = image_of (tree_seen names tree.now) in
        HoldsPages names tree.now → IsInUse x entry → (b : ℕ) → first ≡ Some b
        → steps.new + length (lefts_of x entry) ≡ steps.old) }
    ensures taken { TakesReads F.seen files.old files.new 2 (2 * steps.old) (2 * steps.new) }
    ensures asked { Asked F.seen files.old files.new result read_fault }
{
    let mut block = entry;
    let mut next = left_of(files, tree, entry)?;
    while *steps > 0 {
        if next == 0 {
            return Ok(Some(block));
        }
        if next == entry {
            return Ok(None);
        }
        *steps -= 1;
        block = next;
        next = left_of(files, tree, next)?;
    }
    Ok(None)
}
