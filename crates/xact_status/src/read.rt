//! What was read of pg_xact, kept so that it isn't read again.
ghost use Rattle.std.specs.Prelude.{◌≡◌, ◌↔◌, ◌/◌, ◌≤◌};

use crate::piece::{Piece, piece_of};
use crate::{XidState, status};
use outside::{Files, NoMemory};
use page_layout::FIRST_NORMAL_XID;
use rel_files::{ReadFault, Slru};
use std::alloc::Global;

// How many pieces are kept: together 262144 transactions, in 76 KiB.
const PLACES: usize = 1024;

/// Pieces of a folder pg_xact that were read: at most one at each of 1024 places, where a later one takes
/// the place of an earlier one. A piece has 64 bytes, the states of 256 transactions that follow one
/// another, so rows of the same transactions, or of near ones, cost one read.
#[derive(Drop)]
pub struct StatesRead {
    alloc: Global,
    xact: Slru,
    places: Vec<Option<Piece>>,
}

impl StatesRead {
    ghost use Rattle.std.specs.Prelude.{ℕ, List, IfOk, IfSome, IsTrue, OnOk};
    ghost use Rattle.outside.specs.Outside.{AskedAtMost, IfTold, Names, Tells};
    ghost use Rattle.rel_files.specs.Faults.{read_fault};
    ghost use Rattle.rel_files.specs.Slru.{dir_of};
    ghost use Rattle.xact_status.specs.Status.{status_of};
    ghost use Rattle.xact_status.specs.Pieces.{AreTrue, IsPieceOf};

    /// None yet, for this folder. It takes memory for the folder's name alone; that for pieces is taken
    /// with the first one.
    pub fn new(alloc: Global, xact: &Slru) -> Result<StatesRead, NoMemory>
        ensures says_true { (names : Names) → IfOk result (AreTrue names) }
    {
        Ok(StatesRead {
            alloc,
            xact: Slru::new(alloc, xact.dir())?,
            places: Vec::new(alloc),
        })
    }

    /// Whether they are of this folder.
    #[inline]
    pub fn are_of(&self, xact: &Slru) -> bool
        ensures { IsTrue result ↔ (dir_of self.now.xact ≡ dir_of xact.now) }
    {
        self.xact.dir() == xact.dir()
    }

    // The state of a transaction from 3 on, if the piece that has its bits is kept.
    #[inline]
    fn find(&self, xid: u32) -> Option<XidState>
        requires { 3 ≤ xid }
        ensures { (names : Names) → AreTrue names self.now
            → IfSome result (λ state. state ≡ status_of names (dir_of self.now.xact) xid) }
    {
        match self.places.get(piece_of(xid) as usize % PLACES) {
            Some(Some(piece)) if piece.number == piece_of(xid) => Some(piece.state(xid)),
            _ => None,
        }
    }

    // Takes the memory for pieces, if it isn't taken yet and can be had.
    fn make_places(&mut self)
        ensures folder { dir_of self.new.xact ≡ dir_of self.old.xact }
        ensures says_true { (names : Names) → AreTrue names self.old → AreTrue names self.new }
    {
        if self.places.is_empty() {
            if let Ok(places) = vec![in self.alloc; None; PLACES] {
                self.places = places;
            }
        }
    }

    // Keeps a piece, if there is memory for it.
    fn keep(&mut self, piece: Piece)
        ensures folder { dir_of self.new.xact ≡ dir_of self.old.xact }
        ensures says_true { (names : Names) → IsPieceOf names (dir_of self.old.xact) piece
            → AreTrue names self.old → AreTrue names self.new }
    {
        self.make_places();
        let place = piece.number as usize % PLACES;
        if place < self.places.len() {
            self.places[place] = Some(piece);
        }
    }

    /// What `status` gives of their folder, from memory where the bits are there; else the piece that has
    /// them is read and kept. Nothing is kept after a fault, nor where memory for it is refused.
    pub fn status<F: Files>(&mut self, files: &mut F, xid: u32) -> Result<XidState, ReadFault>
        requires { IfTold F.seen files.old (λ names. AreTrue names self.old) }
        ensures told { Tells F.seen files.old result (λ state names.
            state ≡ status_of names (dir_of self.old.xact) xid) }
        ensures says_true { IfTold F.seen files.old (λ names. AreTrue names self.new) }
        ensures asked { AskedAtMost 1 F.seen files.old files.new result read_fault }
    {
        if xid < FIRST_NORMAL_XID {
            return status(files, &self.xact, xid);
        }
        if let Some(state) = self.find(xid) {
            return Ok(state);
        }
        let piece = Piece::read(files, &self.xact, piece_of(xid))?;
        self.keep(piece);
        Ok(piece.state(xid))
    }
}
