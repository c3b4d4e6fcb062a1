//! Judges an index of a case.
ghost use Rattle.std.specs.Prelude.{◌≡◌, ◌≤◌, ◌↔◌, ◌*◌, IfOk, IfSome, IsSome, length};
ghost use Rattle.outside.specs.Adds.{AddsIn};
ghost use Rattle.outside.specs.Outside.{AskedAtMost, IfTold, Tells};
ghost use Rattle.rel_files.specs.Relation.{count_of};
ghost use Rattle.reports.specs.Added.{report_lists};
ghost use Rattle.bt_pages.specs.Broken.{AreEmpty};
ghost use Rattle.bt_levels.specs.Files.{BelongsTo, IsFileOf, number_of, relation_of};
ghost use Rattle.bt_level_check.specs.Shape.{IsShapeOf};
ghost use Rattle.bt_levels.specs.Index.{index_of, tree_lists, tree_of};
ghost use Rattle.bt_levels.specs.Sound.{HoldsTree, IsSoundIndexOf, file_of};

use crate::files::TreeFile;
use crate::judge::judge_index;
use crate::laws::indexes_are_judged;
use crate::sound::SoundTree;
use bt_image::kept_rules_make_a_sound_image;
use bt_level_check::TreeShape;
use bt_pages::TreeRules;
use case_file::Case;
use key_attrs::IndexColumns;
use key_orders::{KeySpec, MoreSpec, key_orders_are_total};
use outside::{Files, NoMemory};
use rel_files::PageFault;
use reports::Report;
use std::alloc::Global;

// The columns of index `n` of a case.
fn case_columns(case: &Case, n: u16) -> IndexColumns<'_>
    requires first { 1 ≤ n }
    requires last { n ≤ length case.now.indexes }
    ensures specs { result.specs.now ≡ (index_of case.now n).keys }
    ensures more { result.more.now ≡ (index_of case.now n).more }
{
    case.sound();
    IndexColumns::new(case.index_keys(n), case.index_more(n))
}

// What the rules of the index need to know.
fn rules_of<'p>(case: &'p Case, at: &'p TreeFile) -> TreeRules<'p>
    requires { BelongsTo case.now at.now }
    ensures number { result.number ≡ number_of at.now }
    ensures specs { result.columns.specs.now ≡ (index_of case.now (number_of at.now)).keys }
    ensures more { result.columns.more.now ≡ (index_of case.now (number_of at.now)).more }
    ensures relation { result.relation.now ≡ relation_of at.now }
{
    TreeRules {
        number: at.index,
        columns: case_columns(case, at.index),
        relation: &at.relation,
    }
}

// Judges the file of the index.
fn judge_file<F: Files>(
    alloc: Global,
    files: &mut F,
    case: &Case,
    at: &TreeFile,
    report: &mut Report,
) -> Result<Option<TreeShape>, PageFault>
    requires told { IfTold F.seen files.old (λ names. IsFileOf case.now names at.now) }
    requires belong { BelongsTo case.now at.now }
    ensures lists { IfTold F.seen files.old (λ names. AddsIn report_lists result report.old report.new
        (tree_lists case.now names (number_of at.now))) }
    ensures quiet { Tells F.seen files.old result (λ shape names.
        IsSome shape ↔ AreEmpty (tree_lists case.now names (number_of at.now))) }
    ensures shape { Tells F.seen files.old result (λ shape names.
        IfSome shape (IsShapeOf (tree_of case.now names (number_of at.now)))) }
    ensures asked { AskedAtMost (4096 * count_of (relation_of at.now)) F.seen files.old files.new result
        PageFault.ReadFault }
{
    let tree = rules_of(case, at);
    let shape = judge_index(alloc, files, &tree, report)?;
    Ok(shape)
}

// The columns of a key, in memory of their own.
fn keys_of(alloc: Global, specs: &[KeySpec]) -> Result<Vec<KeySpec>, NoMemory>
    ensures { IfOk result (λ keys. keys.items ≡ specs.now) }
{
    let keys = specs.to_vec(alloc)?;
    Ok(keys)
}

// The columns beside it, in memory of their own.
fn included_of(alloc: Global, more: &[MoreSpec]) -> Result<Vec<MoreSpec>, NoMemory>
    ensures { IfOk result (λ columns. columns.items ≡ more.now) }
{
    let columns = more.to_vec(alloc)?;
    Ok(columns)
}

/// Judges an index of a case, and adds to the report all that is found of it and all that can't be
/// judged: its segments (S1); block 0 (P1 to P4, M1, M2, U4); where nothing came up there, each other
/// block by its number (P1 to P4, B1 to B13, U5); and where nothing came up at all, the first of the
/// rules on levels that is broken (L1 to L9).
///
/// The answer is `None` exactly where something was added. `ReadFault` comes only where the count of the
/// files' faults rose. After an error the report has a first part of
/// what it would have got. Whatever the files hold, there are at most 4096 reads for each block of the index.
pub fn check_tree<F: Files>(
    alloc: Global,
    files: &mut F,
    case: &Case,
    at: TreeFile,
    report: &mut Report,
) -> Result<Option<SoundTree>, PageFault>
    requires told { IfTold F.seen files.old (λ names. IsFileOf case.now names at) }
    requires belong { BelongsTo case.now at }
    ensures lists { IfTold F.seen files.old (λ names. AddsIn report_lists result report.old report.new
        (tree_lists case.now names (number_of at))) }
    ensures quiet { Tells F.seen files.old result (λ sound names.
        IsSome sound ↔ AreEmpty (tree_lists case.now names (number_of at))) }
    ensures sound { IfOk result (λ answer. IfSome answer (IsSoundIndexOf case.now (number_of at))) }
    ensures told { IfOk result (λ answer. IfSome answer (λ sound. IfTold F.seen files.old (λ names.
        IsFileOf case.now names (file_of sound)))) }
    ensures holds { IfOk result (λ answer. IfSome answer (λ sound. IfTold F.seen files.old (λ names.
        HoldsTree names sound))) }
    ensures asked { AskedAtMost (4096 * count_of (relation_of at)) F.seen files.old files.new result
        PageFault.ReadFault }
{
    indexes_are_judged();
    key_orders_are_total();
    kept_rules_make_a_sound_image();
    let Some(shape) = judge_file(alloc, files, case, &at, report)? else {
        return Ok(None);
    };
    let specs = keys_of(alloc, case.index_keys(at.index))?;
    let more = included_of(alloc, case.index_more(at.index))?;
    case.sound();
    Ok(Some(SoundTree {
        file: at,
        specs,
        more,
        shape,
    }))
}
