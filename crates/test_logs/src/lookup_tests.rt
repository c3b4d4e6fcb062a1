//! What is looked up once and remembered, and what isn't.
use crate::checks::{holds, same};
use crate::liveness_tests::{CLUSTER, Folders, head, updated_under_locks};
use crate::quiet_files::QuietFiles;
use liveness::{Judged, Life, Memory, Remembering, Status3, Transactions, life_in};
use multi_members::MultiState;
use rel_files::{ReadFault, Slru, multi_in_range};
use std::alloc::Global;
use std::process::Abort;
use std::test::Fail;
use xact_status::XidState;

// Looks up tuples that multixact 5 updated, inserted by the transactions 700 to 703.
fn look_up_four(rt: &impl Abort, files: &mut QuietFiles, memory: &mut Memory, logs: &Status3<'_>) {
    let want = Judged {
        life: Life::Dead,
        update: 712,
    };
    let mut found = Remembering::new(files, memory);
    for xmin in 700..704u32 {
        same(
            rt,
            &life_in(&mut found, logs, &head(xmin, 5, 0x1000)),
            &Ok(want),
            xmin,
        );
    }
}

#[test]
fn transactions_are_looked_up_once(rt: HostRuntime) -> Result<(), Fail> {
    let folders = Folders::new(rt.alloc())?;
    let logs = folders.logs(CLUSTER);
    let mut files = updated_under_locks(rt.alloc(), 0x55)?;
    // The first takes a piece of pg_xact for its inserter, and three reads for its multixact; the others take none,
    // since 700 to 703 and 712 stand in one piece.
    files.fail_read(5);
    let mut memory = Memory::new(rt.alloc(), &logs)?;
    look_up_four(&rt, &mut files, &mut memory, &logs);
    same(&rt, &files.reads(), &4, 0);
    Ok(())
}

// What is known of transaction 700 and of multixact 5.
fn known(
    rt: &impl Abort,
    files: &mut QuietFiles,
    memory: &mut Memory,
    logs: &Status3<'_>,
) -> Result<(XidState, MultiState), ReadFault> {
    assert!(rt; multi_in_range(&logs.cluster, 5));
    let mut found = Remembering::new(files, memory);
    let state = found.status(logs, 700)?;
    Ok((state, found.updater(logs, 5)?))
}

// Looks up twice what is in these logs and what is in others, of which some are in another folder, and tests how many
// reads it takes.
fn look_twice(
    rt: &impl Abort,
    alloc: Global,
    memory: &mut Memory,
    logs: &Status3<'_>,
    reads: u64,
) -> Result<(), Fail> {
    let other = Slru::new(alloc, "other")?;
    let others = Status3 {
        xact: &other,
        members: &other,
        ..*logs
    };
    let mut files = updated_under_locks(alloc, 0x55)?;
    let here = (XidState::Committed, MultiState::Updater(712));
    let there = (XidState::Missing, MultiState::Missing);
    for turn in 0..2 {
        same(rt, &known(rt, &mut files, memory, logs), &Ok(here), turn);
        same(
            rt,
            &known(rt, &mut files, memory, &others),
            &Ok(there),
            turn,
        );
    }
    holds(rt, files.reads() == reads, 2);
    Ok(())
}

// Of the other logs only where the members begin and end is there to be read, twice in each turn. Of the memory's own
// the state takes one read and the multixact three, once.
#[test]
fn other_logs_are_looked_up_anew(rt: HostRuntime) -> Result<(), Fail> {
    let folders = Folders::new(rt.alloc())?;
    let logs = folders.logs(CLUSTER);
    look_twice(
        &rt,
        rt.alloc(),
        &mut Memory::new(rt.alloc(), &logs)?,
        &logs,
        8,
    )?;
    look_twice(&rt, rt.alloc(), &mut Memory::none(), &logs, 12)
}
