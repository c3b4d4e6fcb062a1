//! Where the members of a multixact begin and end.
ghost use Rattle.std.specs.Prelude.{◌≡◌};
ghost use Rattle.outside.specs.Outside.{AskedAtMost, Tells};
ghost use Rattle.rel_files.specs.Faults.{read_fault};
ghost use Rattle.rel_files.specs.Slru.{dir_of};
ghost use Rattle.multi_members.specs.Members.{begin_of, end_of, successor};

use crate::bytes::read_u32;
use outside::Files;
use rel_files::{Cluster, ReadFault, Slru};

const OFFSETS_PER_PAGE: u32 = 2048;

// Where the members of a multixact begin, or end.
#[derive(Clone, Copy)]
pub enum Edge {
    // At the member of this number.
    At(u32),
    // Some byte of the number isn't held.
    NotHeld,
    // The number is 0.
    NotWritten,
}

// The multixact after one: 0 is none.
fn successor(multi: u32) -> u32
    ensures { result ≡ successor multi }
{
    if multi == u32::MAX { 1 } else { multi + 1 }
}

// Where the members of a multixact begin.
#[tactic(auto, unfolding(crate::specs::Members::offset_of))]
pub fn begin_of<F: Files>(files: &mut F, offsets: &Slru, multi: u32) -> Result<Edge, ReadFault>
    ensures told { Tells F.seen files.old result (λ edge names.
        edge ≡ begin_of names (dir_of offsets.now) multi) }
    ensures asked { AskedAtMost 1 F.seen files.old files.new result read_fault }
{
    let page = multi / OFFSETS_PER_PAGE;
    let place = (multi % OFFSETS_PER_PAGE * 4) as u16;
    match read_u32(files, offsets, page, place)? {
        None => Ok(Edge::NotHeld),
        Some(0) => Ok(Edge::NotWritten),
        Some(number) => Ok(Edge::At(number)),
    }
}

// Where they end. No file says it of the last multixact that was given out.
pub fn end_of<F: Files>(
    files: &mut F,
    offsets: &Slru,
    cluster: &Cluster,
    multi: u32,
) -> Result<Edge, ReadFault>
    ensures told { Tells F.seen files.old result (λ edge names.
        edge ≡ end_of names (dir_of offsets.now) cluster.now multi) }
    ensures asked { AskedAtMost 1 F.seen files.old files.new result read_fault }
{
    let next = successor(multi);
    if next == cluster.next_multi {
        Ok(Edge::At(cluster.next_member))
    } else {
        begin_of(files, offsets, next)
    }
}
