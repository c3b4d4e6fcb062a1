//! A file that is read by itself, as one segment: its length, and its blocks one by one.
ghost use Rattle.std.specs.Prelude.{◌≡◌, ◌+◌, ◌*◌, ◌≤◌, Some, length, OnOk};
ghost use Rattle.outside.specs.declared.files.Part.TheVariants.{Segment};
ghost use Rattle.outside.specs.Outside.{Asked, IfHeld, IsHeldAnd, Tells};
ghost use Rattle.rel_files.specs.Blocks.{block_in};
ghost use Rattle.cmd_answers.specs.Seen.{IsOpening};

use crate::fault::RunFault;
use crate::output::{Output, Unit, no_file_output, too_large_output};
use outside::{FileName, Files, Part};
use std::alloc::Global;

// How many blocks a file may have.
const BLOCK_LIMIT: u64 = 16384;

/// What is known of a file before a block of it is read.
#[derive(Drop)]
pub enum Opening {
    /// How many whole blocks of 8192 bytes it has; a part of a block at its end doesn't count.
    Blocks(u32),
    /// Why no block of it is read: it isn't there, or has too many.
    Refused(Output),
}

/// Asks for the length of a file that is read by itself.
#[tactic(auto, unfolding(crate::specs::Files::lone_file_refusal))]
pub fn open_file<F: Files>(alloc: Global, files: &mut F, file: &str) -> Result<Opening, RunFault>
    ensures opening { Tells F.seen files.old result (λ o names. IsOpening file.now (names file.now (Segment 0)) o) }
    ensures asked { Asked F.seen files.old files.new result RunFault.ReadFault }
{
    let name = FileName {
        base: file,
        part: Part::Segment(0),
    };
    match files.length(name)? {
        None => Ok(Opening::Refused(no_file_output(alloc, file)?)),
        Some(len) if BLOCK_LIMIT < len / 8192 => Ok(Opening::Refused(too_large_output(
            alloc,
            file,
            Unit::Blocks,
            len / 8192,
            BLOCK_LIMIT,
        )?)),
        Some(len) => Ok(Opening::Blocks((len / 8192) as u32)),
    }
}

/// Reads one block into the page.
pub fn read_block<F: Files>(
    files: &mut F,
    file: &str,
    block: u32,
    page: &mut [u8; 8192],
) -> Result<(), RunFault>
    requires { IsHeldAnd F.seen files.old file.now (Segment 0) (λ bytes. 8192 * block + 8192 ≤ length bytes) }
    ensures bytes { OnOk result (IfHeld F.seen files.old file.now (Segment 0) (λ bytes.
        page.new ≡ block_in (Some bytes) block)) }
    ensures asked { Asked F.seen files.old files.new result RunFault.ReadFault }
{
    let name = FileName {
        base: file,
        part: Part::Segment(0),
    };
    files.read_at(name, 8192 * block as u64, page)?;
    Ok(())
}
