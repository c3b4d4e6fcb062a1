//! The file of an index.
ghost use Rattle.std.specs.Prelude.{◌≡◌, ◌≤◌, IfOk, length};
ghost use Rattle.outside.specs.Outside.{Asked, IfTold, Tells};
ghost use Rattle.rel_files.specs.Refusals.{TellsRefusal};

use case_file::Case;
use outside::Files;
use rel_files::{CheckFault, Relation, Which, attach_file};
use std::alloc::Global;

/// The file of an index of a case, whose name and length are known. It stores none of its bytes: it is
/// used with the files and the case that it was made with.
#[derive(Drop)]
pub struct TreeFile {
    pub(crate) index: u16,
    pub(crate) relation: Relation,
}

impl TreeFile {
    ghost use Rattle.bt_levels.specs.Files.{BelongsTo, IsFileOf, number_of, refusal_of};

    /// Attaches the file of an index, which counts from 1 in the order of the case.
    ///
    /// `NoFile` comes exactly where its first segment isn't there, `TooLarge` exactly where it has more
    /// than 1048576 blocks, with the count at the first segment where it does, and `ReadFault` only where
    /// the count of the files' faults rose.
    pub fn attach<F: Files>(
        alloc: Global,
        files: &mut F,
        case: &Case,
        index: u16,
    ) -> Result<TreeFile, CheckFault>
        requires first { 1 ≤ index }
        requires last { index ≤ length case.now.indexes }
        ensures number { IfOk result (λ at. number_of at ≡ index) }
        ensures told { Tells F.seen files.old result (λ at names. IsFileOf case.now names at) }
        ensures belong { IfOk result (BelongsTo case.now) }
        ensures refusal { IfTold F.seen files.old (λ names. TellsRefusal (refusal_of case.now names index) result) }
        ensures asked { Asked F.seen files.old files.new result CheckFault.ReadFault }
    {
        case.sound();
        let file = case.index_file(index);
        match attach_file(
            alloc,
            files,
            Which::Index(index),
            file,
            case.segment_blocks(),
        ) {
            Ok(relation) => Ok(TreeFile { index, relation }),
            Err(fault) => Err(fault),
        }
    }
}
