//! Whether a transaction committed, by the files of pg_xact of a stopped cluster.
//!
//! Sources: PostgreSQL 16's `access/transam.h`, `access/clog.h`, `access/transam/clog.c` and
//! `access/transam/README`.
#![tactic(auto)]

ghost use Rattle.std.specs.Prelude.{◌≡◌};
ghost use Rattle.outside.specs.Outside.{AskedAtMost, Tells};
ghost use Rattle.rel_files.specs.Faults.{read_fault};
ghost use Rattle.rel_files.specs.Slru.{dir_of};
ghost use Rattle.xact_status.specs.Status.{SaysTrue, state_by_byte, status_of, two_bits};

mod piece;
mod read;

use outside::Files;
use page_layout::FIRST_NORMAL_XID;
pub use read::StatesRead;
use rel_files::{ReadFault, Slru};

const XIDS_PER_BYTE: u32 = 4;

const XIDS_PER_PAGE: u32 = 32768;

/// What the two bits of a committed transaction are.
const COMMITTED: u8 = 1;

/// What is known of a transaction of a stopped cluster.
#[derive(Clone, Copy, Debug, PartialEq, Eq)]
pub enum XidState {
    /// It committed.
    Committed,
    /// It didn't commit: it is no transaction, it aborted, or it was still in progress, alone or below
    /// another, and so never will.
    NotCommitted,
    /// The byte that says it isn't held.
    Missing,
}

// The two bits of a transaction in the byte that it shares with three others.
#[inline]
fn two_bits(byte: u8, xid: u32) -> u8
    ensures { result ≡ two_bits xid byte }
{
    (byte >> (2 * (xid % XIDS_PER_BYTE))) % 4
}

// The state of a transaction from 3 on, by the byte that has its bits, where it is held.
#[inline]
fn state_by_byte(byte: Option<u8>, xid: u32) -> XidState
    ensures { result ≡ state_by_byte xid byte }
{
    match byte {
        None => XidState::Missing,
        Some(byte) if two_bits(byte, xid) == COMMITTED => XidState::Committed,
        Some(_) => XidState::NotCommitted,
    }
}

/// The state of the transaction `xid` by the files of pg_xact, whose folder is `xact`.
///
/// Id 0 is no transaction and not committed. Ids 1 and 2 are those of a new cluster's first rows and
/// of frozen rows, and count as committed. From 3 on two bits decide, those from bit `2 * (xid % 4)`
/// on of byte `xid % 32768 / 4` of page `xid / 32768`: 1 is committed; 0 (in progress), 2 (aborted) and
/// 3 (committed, but below a transaction that hasn't) aren't, since nothing runs in a stopped cluster.
/// `Missing` is said exactly where that byte isn't held.
///
/// `ReadFault` comes only where a file can't be read. One byte at most is asked for, and no memory.
#[tactic(auto, unfolding(crate::specs::Status::status_of))]
pub fn status<F: Files>(files: &mut F, xact: &Slru, xid: u32) -> Result<XidState, ReadFault>
    ensures told { Tells F.seen files.old result (λ state names. state ≡ status_of names (dir_of xact.now) xid) }
    ensures says_true { Tells F.seen files.old result (λ state names.
        SaysTrue names (dir_of xact.now) xid state) }
    ensures asked { AskedAtMost 1 F.seen files.old files.new result read_fault }
{
    if xid == 0 {
        return Ok(XidState::NotCommitted);
    }
    if xid < FIRST_NORMAL_XID {
        return Ok(XidState::Committed);
    }
    let page = xid / XIDS_PER_PAGE;
    let place = xid % XIDS_PER_PAGE / XIDS_PER_BYTE;
    let byte = xact.byte(files, page, place as u16)?;
    Ok(state_by_byte(byte, xid))
}
