//! What the check of an index finds in one that was built: nothing by itself; and beside its table, of whose live rows
//! it was built, nothing but equal keys.
//!
//! The crate has no code. Its functions do nothing; their contracts are the theorems, and a caller has them by
//! calling.
#![tactic(auto)]

ghost use Rattle.std.specs.Prelude.{◌≡◌, ◌≤◌, ◌<◌, ℕ, List, None};
ghost use Rattle.outside.specs.Outside.{Names};
ghost use Rattle.rel_files.specs.Blocks.{long_segment_of};
ghost use Rattle.case_file.specs.Record.{CaseRecord};
ghost use Rattle.bt_image.specs.Image.{LeafEntry};
ghost use Rattle.rel_files.specs.Refusals.{index_limit};
ghost use Rattle.bt_pages.specs.Broken.{AreEmpty};
ghost use Rattle.bt_levels.specs.Index.{index_of, tree_lists, tree_of};
ghost use Rattle.bt_build.specs.Order.{in_order};
ghost use Rattle.laws_built_index.specs.Files.{AreBlocksOf, IsFileOf};
ghost use Rattle.laws_built_index.specs.Sizes.{AreIndexable, index_tree};
ghost use Rattle.laws_built_clean.specs.Remade.{IsClean, IsRemade};
ghost use Rattle.laws_built_clean.specs.Written.{IsWritten};

use bt_levels::indexes_are_judged;
use heap_rows::rows_are_live_tuples;
use join_rules::heaps_and_indexes_are_judged;
use laws_built_index::{
    built_files_are_sound, built_files_keep_the_rules, index_trees_may_be_laid,
};

/// Nothing is found of an index of a case, and nothing is in doubt, where its files hold the blocks of the tree that is
/// built from entries that may be indexed, the numbers of these blocks fit 32 bits, and no segment is longer than the
/// case says.
pub fn built_indexes_are_quiet()
    ensures { (case : CaseRecord) (names : Names) (n : ℕ) (es : List LeafEntry)
        → AreIndexable (index_of case n).keys (index_of case n).more es
        → (index_tree (index_of case n).keys (index_of case n).more es).blocks < 4294967296
        → AreBlocksOf (index_of case n).keys (index_of case n).more
        (index_tree (index_of case n).keys (index_of case n).more es)
        (tree_of case names n).blocks (tree_of case names n).block
        → long_segment_of names (index_of case n).file case.segment_blocks index_limit ≡ None
        → AreEmpty (tree_lists case names n) }
{
    index_trees_may_be_laid();
    built_files_are_sound();
    built_files_keep_the_rules();
    indexes_are_judged();
}

/// What holds of an index of a case whose files hold the bytes that are built of given entries (`IsWritten`).
///
/// - `quiet`: nothing is found of it, and nothing is in doubt.
/// - `file`: it is a sound index of exactly these entries, in order, each once (`IsFileOf`).
pub fn written_indexes_are_sound()
    ensures quiet { (case : CaseRecord) (names : Names) (n : ℕ) (es : List LeafEntry) → 1 ≤ case.segment_blocks
        → IsWritten case names n es → AreEmpty (tree_lists case names n) }
    ensures file { (case : CaseRecord) (names : Names) (n : ℕ) (es : List LeafEntry) → 1 ≤ case.segment_blocks
        → IsWritten case names n es → IsFileOf (index_of case n).keys (index_of case n).more
        (tree_of case names n).blocks (tree_of case names n).block (in_order (index_of case n).keys es) }
{
    index_trees_may_be_laid();
    built_files_are_sound();
    built_indexes_are_quiet();
}

/// Nothing is found of an index whose files hold the bytes that are built of the entries of the live rows (`IsRemade`),
/// by itself, and beside its table nothing but equal keys in a unique index (`IsClean`).
pub fn remade_indexes_are_clean()
    ensures { (case : CaseRecord) (names : Names) (n : ℕ) → IsRemade case names n → IsClean case names n }
{
    written_indexes_are_sound();
    rows_are_live_tuples();
    heaps_and_indexes_are_judged();
}
