//! The table of lives, over the logs in files.
ghost use Rattle.std.specs.Prelude.{◌≡◌};
ghost use Rattle.outside.specs.Outside.{AskedAtMost, Tells};
ghost use Rattle.rel_files.specs.Faults.{read_fault};
ghost use Rattle.liveness.specs.LogFiles.{log_files_of, logs_of};
ghost use Rattle.liveness.specs.Logs.{is_normal};
ghost use Rattle.liveness.specs.Life.{SaysTrue, UpdateSaysTrue, deleter_judged, inserter_life, judged_by_multi};
ghost use Rattle.liveness.specs.Life.{judged_of, plain, remover_judged};

use crate::memory::Memory;
use crate::remembering::Remembering;
use crate::states::{Doubt, Judged, Life, Status3};
use crate::transactions::Transactions;
use multi_members::MultiState;
use outside::Files;
use page_layout::{FIRST_NORMAL_XID, Rule};
use rel_files::{ReadFault, multi_in_range, xid_in_range};
use tuple_head::HeapHead;
use xact_status::XidState;

// Whether a transaction is one of those that are given out.
fn is_normal(xid: u32) -> bool
    ensures { result ≡ is_normal xid }
{
    FIRST_NORMAL_XID <= xid
}

// What is known of a tuple where no update is named.
fn plain(life: Life) -> Judged
    ensures { result ≡ plain life }
{
    Judged { life, update: 0 }
}

// The inserter's part: None goes on to the deleter's.
#[tactic(auto, unfolding(crate::specs::Life::inserter_life))]
fn inserter_life<F: Transactions>(
    files: &mut F,
    logs: &Status3<'_>,
    head: &HeapHead,
) -> Result<Option<Life>, ReadFault>
    ensures told { Tells F.seen files.old result (λ life names.
        life ≡ inserter_life (logs_of names (log_files_of logs.now)) head.now) }
    ensures asked { AskedAtMost 1 F.seen files.old files.new result read_fault }
{
    let x = head.xmin_seen();
    if head.old_form() {
        return Ok(Some(Life::Unjudged(Doubt::U1)));
    }
    if x == 0 {
        return Ok(Some(Life::Dead));
    }
    if is_normal(x) && !xid_in_range(&logs.cluster, x) {
        return Ok(Some(Life::Broken(Rule::H9)));
    }
    if head.xmin_hinted_invalid() {
        return Ok(Some(Life::Dead));
    }
    if !is_normal(x) || head.is_xmin_committed() {
        return Ok(None);
    }
    Ok(match files.status(logs, x)? {
        XidState::Missing => Some(Life::Broken(Rule::H12)),
        XidState::Committed => None,
        XidState::NotCommitted => Some(Life::Dead),
    })
}

// The part for a remover x.
#[tactic(auto, unfolding(crate::specs::Life::remover_judged))]
fn remover_judged<F: Transactions>(
    files: &mut F,
    logs: &Status3<'_>,
    hinted: bool,
    x: u32,
) -> Result<Judged, ReadFault>
    ensures told { Tells F.seen files.old result (λ judged names.
        judged ≡ remover_judged (logs_of names (log_files_of logs.now)) hinted x) }
    ensures asked { AskedAtMost 1 F.seen files.old files.new result read_fault }
{
    let dead = Judged {
        life: Life::Dead,
        update: x,
    };
    if x == 0 {
        return Ok(plain(Life::Live));
    }
    if !is_normal(x) {
        return Ok(dead);
    }
    if !xid_in_range(&logs.cluster, x) {
        return Ok(plain(Life::Broken(Rule::H11)));
    }
    if hinted {
        return Ok(dead);
    }
    Ok(match files.status(logs, x)? {
        XidState::Missing => plain(Life::Broken(Rule::H12)),
        XidState::Committed => dead,
        XidState::NotCommitted => Judged {
            life: Life::Live,
            update: x,
        },
    })
}

// The part for a multixact.
fn judged_by_multi<F: Transactions>(
    files: &mut F,
    logs: &Status3<'_>,
    multi: MultiState,
) -> Result<Judged, ReadFault>
    ensures told { Tells F.seen files.old result (λ judged names.
        judged ≡ judged_by_multi (logs_of names (log_files_of logs.now)) multi) }
    ensures asked { AskedAtMost 1 F.seen files.old files.new result read_fault }
{
    match multi {
        MultiState::Missing => Ok(plain(Life::Broken(Rule::H13))),
        MultiState::Unfinished => Ok(plain(Life::Unjudged(Doubt::U2))),
        MultiState::TooLong => Ok(plain(Life::Unjudged(Doubt::U3))),
        MultiState::NoUpdater => Ok(plain(Life::Live)),
        MultiState::Updater(x) => remover_judged(files, logs, false, x),
    }
}

// The deleter's part.
#[tactic(auto, unfolding(crate::specs::Life::deleter_judged))]
fn deleter_judged<F: Transactions>(
    files: &mut F,
    logs: &Status3<'_>,
    head: &HeapHead,
) -> Result<Judged, ReadFault>
    ensures told { Tells F.seen files.old result (λ judged names.
        judged ≡ deleter_judged (logs_of names (log_files_of logs.now)) head.now) }
    ensures asked { AskedAtMost 327689 F.seen files.old files.new result read_fault }
{
    if head.is_xmax_invalid() || head.locked_only() {
        return Ok(plain(Life::Live));
    }
    if !head.is_multi() {
        return remover_judged(files, logs, head.is_xmax_committed(), head.xmax);
    }
    if !multi_in_range(&logs.cluster, head.xmax) {
        return Ok(plain(Life::Broken(Rule::H10)));
    }
    let multi = files.updater(logs, head.xmax)?;
    judged_by_multi(files, logs, multi)
}

/// The same as `life`, of files in which transactions are looked up: where many tuples are judged, what was
/// found of the last transactions can so be remembered.
#[tactic(auto, unfolding(crate::specs::Life::judged_of))]
pub fn life_in<F: Transactions>(
    files: &mut F,
    logs: &Status3<'_>,
    head: &HeapHead,
) -> Result<Judged, ReadFault>
    ensures told { Tells F.seen files.old result (λ judged names.
        judged ≡ judged_of (logs_of names (log_files_of logs.now)) head.now) }
    ensures says_true { Tells F.seen files.old result (λ judged names.
        SaysTrue names (log_files_of logs.now) head.now judged.life) }
    ensures update_says_true { Tells F.seen files.old result (λ judged names.
        UpdateSaysTrue names (log_files_of logs.now) head.now judged.update) }
    ensures asked { AskedAtMost 327690 F.seen files.old files.new result read_fault }
{
    match inserter_life(files, logs, head)? {
        Some(life) => Ok(plain(life)),
        None => deleter_judged(files, logs, head),
    }
}

/// Whether the tuple with this header is live, and what deleted or updated it, by these logs.
///
/// The first of these that applies decides; the update is 0 unless said:
/// - an old form: U1;
/// - the inserter, or 2 where the tuple is frozen, is 0: dead; it is out of range: H9; a hint says that
///   it failed: dead;
/// - the inserter is from 3 on and not hinted committed: H12 where pg_xact's byte isn't held, dead where
///   it didn't commit;
/// - xmax doesn't count, or only locks: live;
/// - xmax is a multixact: H10 where it is out of range, H13 where a byte of it isn't held, U2 where it
///   wasn't finished, U3 where it has too many members, live where no member updates; else its updater
///   is the remover, and else xmax is;
/// - the remover is 0: live; it is 1 or 2: dead, with the remover as the update; it is out of range: H11;
/// - a hint says that xmax committed, and it is no multixact: dead, with the remover as the update;
/// - H12 where pg_xact's byte of the remover isn't held; else dead if it committed and live if not, with
///   the remover as the update.
///
/// A server decides the same for a snapshot that sees all that committed (`heapam_visibility.c`). Only
/// the hints of `access/htup_details.h` are believed, never written.
///
/// It reads at most 327690 times: once for each of two transactions, and at most 327688 times for a multixact.
/// `ReadFault` comes only where a file can't be read. It takes no memory.
pub fn life<F: Files>(
    files: &mut F,
    logs: &Status3<'_>,
    head: &HeapHead,
) -> Result<Judged, ReadFault>
    ensures told { Tells F.seen files.old result (λ judged names.
        judged ≡ judged_of (logs_of names (log_files_of logs.now)) head.now) }
    ensures says_true { Tells F.seen files.old result (λ judged names.
        SaysTrue names (log_files_of logs.now) head.now judged.life) }
    ensures update_says_true { Tells F.seen files.old result (λ judged names.
        UpdateSaysTrue names (log_files_of logs.now) head.now judged.update) }
    ensures asked { AskedAtMost 327690 F.seen files.old files.new result read_fault }
{
    life_in(
        &mut Remembering::new(files, &mut Memory::none()),
        logs,
        head,
    )
}
