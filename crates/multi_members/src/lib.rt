//! Which transaction a multixact says updated a row, by the files of pg_multixact of a stopped cluster.
//!
//! Sources: section "Multixacts and Wraparound" of the PostgreSQL 16 manual, and the server's
//! `access/multixact.h` and `access/transam/multixact.c`.
#![tactic(auto)]

ghost use Rattle.std.specs.Prelude.{◌≡◌, IsTrue};
ghost use Rattle.outside.specs.Outside.{AskedAtMost, Tells};
ghost use Rattle.rel_files.specs.Ranges.{is_multi_in_range};
ghost use Rattle.rel_files.specs.Faults.{read_fault};
ghost use Rattle.rel_files.specs.Slru.{dir_of};
ghost use Rattle.multi_members.specs.Updater.{SaysTrue, updater_of};

mod answers;
mod bytes;
mod edges;
mod groups;
mod members;
mod state;

pub use answers::Answers;
use edges::{Edge, begin_of, end_of};
use members::first_updater;
use outside::Files;
use rel_files::{Cluster, ReadFault, Slru};
pub use state::MultiState;

/// How many members of one multixact are looked at.
const MEMBERS_LIMIT: u32 = 65536;

/// What the multixact `multi` says of an updater, by the folders of pg_multixact: `offsets` has the
/// number of each multixact's first member, and `members` has the members.
///
/// The members of a multixact are those with the numbers from its own first one to before that of the
/// next multixact, or to before `cluster.next_member` where it is the last that was given out. Both
/// multixacts and members are numbered round at 2 ^ 32; multixact 0 is none, so 1 comes after 4294967295.
/// A member is a transaction and its status: 4 and 5 update or delete, and all others lock. A member of
/// transaction 0 is none.
///
/// The answer is the first of these that applies:
/// - `Missing`: a byte of the first member's number isn't held;
/// - `Unfinished`: that number is 0;
/// - `Missing`, `Unfinished`: the same of the number where they end, if a file says it;
/// - `TooLong`: there are more than 65536 numbers between;
/// - member by member `Missing`, where its status or a byte of its transaction isn't held, or `Updater`
///   of the transaction that updates, with which the search ends;
/// - `NoUpdater`.
///
/// `ReadFault` comes only where a file can't be read. It takes no memory. It reads twice of `offsets`, and
/// of `members` once for 256 members, and anew at the begin of each page.
#[tactic(auto, unfolding(crate::specs::Updater::updater_of), using(crate::proofs::Law::updater_of_says_true))]
pub fn updater<F: Files>(
    files: &mut F,
    offsets: &Slru,
    members: &Slru,
    cluster: &Cluster,
    multi: u32,
) -> Result<MultiState, ReadFault>
    requires { IsTrue (is_multi_in_range cluster.now multi) }
    ensures told { Tells F.seen files.old result (λ state names.
        state ≡ updater_of names (dir_of offsets.now) (dir_of members.now) cluster.now multi) }
    ensures says_true { Tells F.seen files.old result (λ state names.
        SaysTrue names (dir_of offsets.now) (dir_of members.now) cluster.now multi state) }
    ensures asked { AskedAtMost 327688 F.seen files.old files.new result read_fault }
{
    let begin = match begin_of(files, offsets, multi)? {
        Edge::At(number) => number,
        Edge::NotHeld => return Ok(MultiState::Missing),
        Edge::NotWritten => return Ok(MultiState::Unfinished),
    };
    let end = match end_of(files, offsets, cluster, multi)? {
        Edge::At(number) => number,
        Edge::NotHeld => return Ok(MultiState::Missing),
        Edge::NotWritten => return Ok(MultiState::Unfinished),
    };
    let count = end.wrapping_sub(begin);
    if count > MEMBERS_LIMIT {
        return Ok(MultiState::TooLong);
    }
    first_updater(files, members, begin, count)
}
