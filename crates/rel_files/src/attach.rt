//! Attaches a file that a case names, or says why it is refused.

ghost use Rattle.std.specs.Prelude.{◌≡◌, ◌≤◌, IfOk};
ghost use Rattle.rel_files.specs.Refusals.{IsNamed, TellsRefusal, fault_of, file_refusal, limit_of};
ghost use Rattle.outside.specs.Outside.{Asked, IfTold, Tells};
ghost use Rattle.rel_files.specs.Relation.{IsRelationOf};

use crate::check_fault::{CheckFault, Which};
use crate::fault::AttachFault;
use crate::relation::Relation;
use outside::Files;
use std::alloc::Global;

// How many blocks a heap may have (32 GiB of blocks of 8192 bytes), and a TOAST table or an index (8 GiB).
const HEAP_LIMIT: u32 = 4_194_304;

const OTHER_LIMIT: u32 = 1_048_576;

// How many blocks this file may have.
fn limit_of(which: Which) -> u32
    ensures { result ≡ limit_of which }
{
    match which {
        Which::Heap => HEAP_LIMIT,
        Which::Toast => OTHER_LIMIT,
        Which::Index(_) => OTHER_LIMIT,
    }
}

// The same fault, of the file that is meant.
fn fault_of(which: Which, fault: AttachFault) -> CheckFault
    ensures { result ≡ fault_of which fault }
{
    match fault {
        AttachFault::NoFile => CheckFault::NoFile(which),
        AttachFault::TooLarge { blocks, limit } => CheckFault::TooLarge {
            which,
            blocks,
            limit,
        },
        AttachFault::ReadFault => CheckFault::ReadFault,
        AttachFault::NoMemory => CheckFault::NoMemory,
    }
}

/// Attaches a file that has to be there: a heap of at most 4194304 blocks, or a TOAST table or an index of at most
/// 1048576. `base` is its name without a segment's number, and `segment_blocks` how many blocks a full segment has
/// (1 to 131072).
///
/// `NoFile` comes exactly where the first segment isn't there, `TooLarge` exactly where the file has
/// more blocks, with the count at the first segment where it does, and `ReadFault` only where the
/// count of the files' faults rose.
pub fn attach_file<F: Files>(
    alloc: Global,
    files: &mut F,
    which: Which,
    base: &str,
    segment_blocks: u32,
) -> Result<Relation, CheckFault>
    requires some { 1 ≤ segment_blocks }
    requires small { segment_blocks ≤ 131072 }
    ensures named { IfOk result (IsNamed base.now segment_blocks) }
    ensures told { Tells F.seen files.old result (λ r names. IsRelationOf names base.now segment_blocks
        (limit_of which) r) }
    ensures refusal { IfTold F.seen files.old (λ names.
        TellsRefusal (file_refusal which names base.now segment_blocks) result) }
    ensures asked { Asked F.seen files.old files.new result CheckFault.ReadFault }
{
    match Relation::attach(alloc, files, base, segment_blocks, limit_of(which)) {
        Ok(relation) => Ok(relation),
        Err(fault) => Err(fault_of(which, fault)),
    }
}
