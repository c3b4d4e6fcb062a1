//! Reads the text of a case file.
ghost use Rattle.std.specs.Prelude.{◌≡◌, ◌+◌, ◌≤◌, length, take, drop, IfOk, OnOk};
ghost use Rattle.outside.specs.declared.files.Part.TheVariants.{Segment};
ghost use Rattle.outside.specs.Outside.{Asked, IfHeld, IsHeldAnd};

use crate::fault::RunFault;
use key_orders::Octets;
use outside::{FileName, Files, Part};
use std::alloc::Global;

// How many bytes are read at once.
const PIECE: usize = 8192;

// Reads the bytes of a file from a place on, and adds them to the text.
fn add_piece<F: Files>(
    files: &mut F,
    file: &str,
    at: u64,
    piece: &mut [u8],
    text: &mut Octets,
) -> Result<(), RunFault>
    requires { IsHeldAnd F.seen files.old file.now (Segment 0) (λ bytes. at + length piece.old ≤ length bytes) }
    ensures text { OnOk result (IfHeld F.seen files.old file.now (Segment 0)
        (λ bytes. text.old ≡ take at bytes → text.new ≡ take (at + length piece.old) bytes)) }
    ensures asked { Asked F.seen files.old files.new result RunFault.ReadFault }
{
    let name = FileName {
        base: file,
        part: Part::Segment(0),
    };
    files.read_at(name, at, piece)?;
    text.push_slice(piece)?;
    Ok(())
}

/// The bytes of a file of this length, read in pieces of 8192 bytes.
pub fn read_text<F: Files>(
    alloc: Global,
    files: &mut F,
    file: &str,
    len: usize,
) -> Result<Octets, RunFault>
    requires { IsHeldAnd F.seen files.old file.now (Segment 0) (λ bytes. length bytes ≡ len) }
    ensures text { IfOk result (λ text. IfHeld F.seen files.old file.now (Segment 0) (λ bytes. text ≡ bytes)) }
    ensures asked { Asked F.seen files.old files.new result RunFault.ReadFault }
{
    let mut text = Octets::new(alloc);
    let mut buffer = [0u8; PIECE];
    let mut done = 0usize;
    while done < len {
        let count = PIECE.min(len - done);
        add_piece(files, file, done as u64, &mut buffer[..count], &mut text)?;
        done += count;
    }
    Ok(text)
}
