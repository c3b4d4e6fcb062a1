//! A piece of pg_xact.
ghost use Rattle.std.specs.Prelude.{◌≡◌, ◌/◌, ◌≤◌};

use crate::{XIDS_PER_BYTE, XidState, state_by_byte};
use outside::Files;
use rel_files::{ReadFault, Slru};

// How many transactions have their bits in a piece.
const XIDS_PER_PIECE: u32 = 256;

const PIECES_PER_PAGE: u32 = 128;

const PIECE_BYTES: usize = 64;

/// 64 bytes of pg_xact, the states of 256 transactions. The pieces of all pages are numbered from 0.
#[derive(Clone, Copy)]
pub struct Piece {
    pub number: u32,
    // How many of its bytes are held: the first ones.
    held: u32,
    bytes: [u8; 64],
}

/// The number of the piece that has a transaction's bits.
pub fn piece_of(xid: u32) -> u32
    ensures { result ≡ xid / 256 }
{
    xid / XIDS_PER_PIECE
}

impl Piece {
    ghost use Rattle.std.specs.Prelude.{List, ℕ, IfOk};
    ghost use Rattle.outside.specs.Outside.{AskedAtMost, Names, Tells};
    ghost use Rattle.rel_files.specs.Faults.{read_fault};
    ghost use Rattle.rel_files.specs.Slru.{dir_of};
    ghost use Rattle.xact_status.specs.Status.{status_byte, status_of};
    ghost use Rattle.xact_status.specs.Pieces.{IsPieceOf};

    /// Reads the piece with a number, which is below 16777216.
    pub fn read<F: Files>(files: &mut F, xact: &Slru, number: u32) -> Result<Piece, ReadFault>
        ensures number { IfOk result (λ piece. piece.number ≡ number) }
        ensures told { Tells F.seen files.old result (λ piece names. IsPieceOf names (dir_of xact.now) piece) }
        ensures asked { AskedAtMost 1 F.seen files.old files.new result read_fault }
    {
        let mut bytes = [0u8; 64];
        let place = number % PIECES_PER_PAGE * PIECE_BYTES as u32;
        let held = xact.bytes(files, number / PIECES_PER_PAGE, place as u16, &mut bytes)? as u32;
        Ok(Piece {
            number,
            held,
            bytes,
        })
    }

    // The byte of a transaction, where it is held.
    #[inline]
    fn byte(&self, xid: u32) -> Option<u8>
        requires { self.now.number ≡ xid / 256 }
        ensures { (names : Names) (folder : List ℕ) → IsPieceOf names folder self.now
            → result ≡ status_byte names folder xid }
    {
        let place = xid % XIDS_PER_PIECE / XIDS_PER_BYTE;
        if self.held <= place {
            return None;
        }
        Some(self.bytes[place as usize])
    }

    /// The state of a transaction from 3 on that has its bits in this piece.
    #[inline]
    pub fn state(&self, xid: u32) -> XidState
        requires here { self.now.number ≡ xid / 256 }
        requires normal { 3 ≤ xid }
        ensures { (names : Names) (folder : List ℕ) → IsPieceOf names folder self.now
            → result ≡ status_of names folder xid }
    {
        state_by_byte(self.byte(xid), xid)
    }
}
