//! Tuples over logs in files in memory.
use crate::checks::{holds, same};
use crate::logs::{Segment, files_of};
use crate::quiet_files::QuietFiles;
use key_orders::Tid;
use liveness::Doubt::{U1, U2, U3};
use liveness::Life::{Broken, Dead, Live, Unjudged};
use liveness::{Judged, Life, Status3, life};
use outside::NoMemory;
use page_layout::Rule::{H9, H10, H11, H12, H13};
use rel_files::{Cluster, ReadFault, Slru};
use std::alloc::Global;
use std::process::Abort;
use std::test::Fail;
use tuple_head::HeapHead;

/// The logs' folders in memory.
#[derive(Drop)]
pub struct Folders {
    xact: Slru,
    offsets: Slru,
    members: Slru,
}

impl Folders {
    pub fn new(alloc: Global) -> Result<Folders, NoMemory> {
        Ok(Folders {
            xact: Slru::new(alloc, "xact")?,
            offsets: Slru::new(alloc, "offsets")?,
            members: Slru::new(alloc, "members")?,
        })
    }

    pub fn logs(&self, cluster: Cluster) -> Status3<'_> {
        Status3 {
            xact: &self.xact,
            offsets: &self.offsets,
            members: &self.members,
            cluster,
        }
    }
}

// A page of a log.
fn page<'a>(folder: &'a str, fill: u8, bytes: &'a [(usize, u8)]) -> Segment<'a> {
    Segment {
        folder,
        number: 0,
        fill,
        len: 8192,
        bytes,
    }
}

// Files with a page of each log.
fn pages(
    alloc: Global,
    xact: &[(usize, u8)],
    offsets: &[(usize, u8)],
    members: &[(usize, u8)],
) -> Result<QuietFiles, NoMemory> {
    let held = [
        page("xact", 0x55, xact),
        page("offsets", 0, offsets),
        page("members", 0, members),
    ];
    files_of(alloc, &held)
}

/// A tuple's header.
pub fn head(xmin: u32, xmax: u32, infomask: u16) -> HeapHead {
    HeapHead {
        xmin,
        xmax,
        field3: 0,
        ctid: Tid { block: 0, item: 0 },
        infomask2: 0,
        infomask,
        hoff: 0,
    }
}

/// The cluster of most tests.
pub const CLUSTER: Cluster = Cluster {
    next_xid: 50000,
    oldest_xid: 3,
    next_multi: 20,
    oldest_multi: 1,
    next_member: 100,
};

// Transactions 712 (aborted), 716 (in progress) and 720 (committed below another) didn't commit, and of those from
// 32768 on no byte is held.
const XACT: [(usize, u8); 3] = [(178, 0x56), (179, 0x54), (180, 0x57)];

// The first members of the multixacts from 1 on are 1, 4, 5, 6, 0, 9, 7, 5000, 5001, 10, 11, 12 and 13.
const OFFSETS: [(usize, u8); 14] = [
    (4, 1),
    (8, 4),
    (12, 5),
    (16, 6),
    (24, 9),
    (28, 7),
    (32, 0x88),
    (33, 0x13),
    (36, 0x89),
    (37, 0x13),
    (40, 10),
    (44, 11),
    (48, 12),
    (52, 13),
];

// Members 1, 2 and 5 lock for 710, 711 and 714, and members 3, 4, 10, 11 and 12 update, by 712, 713, 2, 60000 and
// 40000.
const MEMBERS: [(usize, u8); 20] = [
    (8, 0xc6),
    (9, 2),
    (12, 0xc7),
    (13, 2),
    (3, 4),
    (16, 0xc8),
    (17, 2),
    (20, 5),
    (24, 0xc9),
    (25, 2),
    (28, 0xca),
    (29, 2),
    (42, 4),
    (52, 2),
    (43, 4),
    (56, 0x60),
    (57, 0xea),
    (60, 4),
    (64, 0x40),
    (65, 0x9c),
];

fn files(alloc: Global) -> Result<QuietFiles, NoMemory> {
    pages(alloc, &XACT, &OFFSETS, &MEMBERS)
}

// A tuple's xmin, xmax and infomask, and what is known of it.
type Row = (u32, u32, u16, Life, u32);

// Tests what is known of some tuples.
fn expect(
    rt: &impl Abort,
    alloc: Global,
    files: &mut QuietFiles,
    cluster: Cluster,
    rows: &[Row],
) -> Result<(), Fail> {
    let folders = Folders::new(alloc)?;
    let logs = folders.logs(cluster);
    let mut row = 0u32;
    for (xmin, xmax, infomask, life, update) in rows {
        row = row.wrapping_add(1);
        let want = Judged {
            life: *life,
            update: *update,
        };
        same(
            rt,
            &judged(files, &logs, *xmin, *xmax, *infomask),
            &Ok(want),
            row,
        );
    }
    Ok(())
}

fn judged(
    files: &mut QuietFiles,
    logs: &Status3<'_>,
    xmin: u32,
    xmax: u32,
    infomask: u16,
) -> Result<Judged, ReadFault> {
    life(files, logs, &head(xmin, xmax, infomask))
}

const INSERTERS: [Row; 24] = [
    // an old form, whatever else
    (0, 0, 0x0008, Unjudged(U1), 0),
    (700, 5, 0x4900, Unjudged(U1), 0),
    (60000, 0, 0x8100, Unjudged(U1), 0),
    // no inserter
    (0, 0, 0x0000, Dead, 0),
    (0, 713, 0x0100, Dead, 0),
    (0, 0, 0x0300, Live, 0),
    // out of range, hinted or not
    (60000, 0, 0x0000, Broken(H9), 0),
    (50000, 0, 0x0100, Broken(H9), 0),
    (60000, 0, 0x0200, Broken(H9), 0),
    (60000, 0, 0x0300, Live, 0),
    (49999, 0, 0x0100, Live, 0),
    // hinted invalid
    (700, 0, 0x0200, Dead, 0),
    (2, 0, 0x0200, Dead, 0),
    (40000, 0, 0x0200, Dead, 0),
    // the log
    (40000, 0, 0x0000, Broken(H12), 0),
    (40000, 0, 0x0100, Live, 0),
    (712, 713, 0x0000, Dead, 0),
    (716, 0, 0x0000, Dead, 0),
    (720, 0, 0x0000, Dead, 0),
    (712, 0, 0x0100, Live, 0),
    (700, 0, 0x0000, Live, 0),
    (1, 0, 0x0000, Live, 0),
    (2, 0, 0x0000, Live, 0),
    (3, 0, 0x0000, Live, 0),
];

#[test]
fn the_inserter_is_asked_first(rt: HostRuntime) -> Result<(), Fail> {
    let mut files = files(rt.alloc())?;
    expect(&rt, rt.alloc(), &mut files, CLUSTER, &INSERTERS)
}

const REMOVERS: [Row; 34] = [
    // xmax doesn't count, or only locks
    (700, 713, 0x0800, Live, 0),
    (700, 60000, 0x0c00, Live, 0),
    (700, 713, 0x0080, Live, 0),
    (700, 713, 0x0040, Live, 0),
    (700, 713, 0x0050, Dead, 713),
    (700, 713, 0x0010, Dead, 713),
    // a transaction
    (700, 0, 0x0400, Live, 0),
    (700, 1, 0x0000, Dead, 1),
    (700, 2, 0x0000, Dead, 2),
    (700, 60000, 0x0400, Broken(H11), 0),
    (700, 50000, 0x0000, Broken(H11), 0),
    (700, 712, 0x0400, Dead, 712),
    (700, 40000, 0x0400, Dead, 40000),
    (700, 40000, 0x0000, Broken(H12), 0),
    (700, 713, 0x0000, Dead, 713),
    (700, 712, 0x0000, Live, 712),
    (700, 716, 0x0000, Live, 716),
    (700, 720, 0x0000, Live, 720),
    // a multixact
    (700, 20, 0x1000, Broken(H10), 0),
    (700, 0, 0x1000, Broken(H10), 0),
    (700, 20, 0x1080, Live, 0),
    (700, 20, 0x1800, Live, 0),
    (700, 1, 0x1000, Live, 712),
    (700, 1, 0x1400, Live, 712),
    (700, 1, 0x1040, Live, 712),
    (700, 2, 0x1100, Dead, 713),
    (700, 3, 0x1000, Live, 0),
    (700, 4, 0x1000, Unjudged(U2), 0),
    (700, 5, 0x1000, Unjudged(U2), 0),
    (700, 6, 0x1000, Unjudged(U3), 0),
    (700, 8, 0x1000, Broken(H13), 0),
    (700, 10, 0x1000, Dead, 2),
    (700, 11, 0x1000, Broken(H11), 0),
    (700, 12, 0x1000, Broken(H12), 0),
];

#[test]
fn then_the_remover(rt: HostRuntime) -> Result<(), Fail> {
    let mut files = files(rt.alloc())?;
    expect(&rt, rt.alloc(), &mut files, CLUSTER, &REMOVERS)
}

const WRAPPED: Cluster = Cluster {
    oldest_xid: 4294967000,
    next_xid: 10,
    oldest_multi: 4294967000,
    next_multi: 3,
    ..CLUSTER
};

const ROUND: [Row; 13] = [
    (9, 0, 0x0900, Live, 0),
    (9, 0, 0x0000, Live, 0),
    (10, 0, 0x0900, Broken(H9), 0),
    (4294967000, 0, 0x0900, Live, 0),
    (4294966999, 0, 0x0900, Broken(H9), 0),
    (4294967295, 0, 0x0000, Broken(H12), 0),
    (9, 4294967295, 0x0400, Dead, 4294967295),
    (9, 4294967295, 0x0000, Broken(H12), 0),
    (9, 10, 0x0000, Broken(H11), 0),
    (9, 3, 0x1000, Broken(H10), 0),
    (9, 2, 0x1000, Broken(H11), 0),
    (9, 4294966999, 0x1000, Broken(H10), 0),
    (9, 4294967000, 0x1000, Broken(H13), 0),
];

#[test]
fn numbers_go_round(rt: HostRuntime) -> Result<(), Fail> {
    let mut files = files(rt.alloc())?;
    expect(&rt, rt.alloc(), &mut files, WRAPPED, &ROUND)
}

/// Of the members of multixact 5, 710 and 711 lock for a key, and 712 updates.
pub fn updated_under_locks(alloc: Global, byte_178: u8) -> Result<QuietFiles, NoMemory> {
    let members = [
        (8, 0xc6),
        (9, 2),
        (12, 0xc7),
        (13, 2),
        (3, 4),
        (16, 0xc8),
        (17, 2),
    ];
    pages(alloc, &[(178, byte_178)], &[(20, 1), (24, 4)], &members)
}

#[test]
fn an_updater_stands_inside_a_multixact(rt: HostRuntime) -> Result<(), Fail> {
    let alloc = rt.alloc();
    // 712 committed, so the tuple that it made is live, and not the one that it updated
    let rows = [(700, 5, 0x1100, Dead, 712), (712, 0, 0x2800, Live, 0)];
    expect(
        &rt,
        alloc,
        &mut updated_under_locks(alloc, 0x55)?,
        CLUSTER,
        &rows,
    )?;
    // it aborted
    let rows = [(700, 5, 0x1100, Live, 712), (712, 0, 0x2800, Dead, 0)];
    expect(
        &rt,
        alloc,
        &mut updated_under_locks(alloc, 0x56)?,
        CLUSTER,
        &rows,
    )
}

#[test]
fn each_fault_is_handed_on(rt: HostRuntime) -> Result<(), Fail> {
    let folders = Folders::new(rt.alloc())?;
    let logs = folders.logs(CLUSTER);
    // One byte says that 700 committed, two numbers say where the members are, these stand in one group, and one byte
    // says of 712.
    for call in 1..=6u32 {
        let mut files = updated_under_locks(rt.alloc(), 0x55)?;
        files.fail_length(call.into());
        let found = judged(&mut files, &logs, 700, 5, 0x1000);
        holds(&rt, found.is_err() == (call < 6), call);
    }
    Ok(())
}

// What the fixture says of a transaction, and of a multixact's updater.
fn committed(xid: u32) -> bool {
    xid != 0 && xid != 712
}

fn updater(multi: u32) -> u32 {
    match multi {
        1 => 712,
        2 => 713,
        _ => 0,
    }
}

// Whether a tuple was inserted, by its bits.
fn is_inserted(xmin: u32, infomask: u16) -> bool {
    match infomask & 0x0300 {
        0x0300 => true,
        0x0200 => false,
        0x0100 => xmin != 0,
        _ => committed(xmin),
    }
}

// Whether it was deleted.
fn is_deleted(xmax: u32, infomask: u16) -> bool {
    let multi = infomask & 0x1000 != 0;
    let remover = if multi { updater(xmax) } else { xmax };
    let locks = infomask & 0x0080 != 0 || infomask & 0x1050 == 0x0040;
    let hinted = infomask & 0x1400 == 0x0400;
    let removes = remover != 0 && (hinted || committed(remover));
    infomask & 0x0800 == 0 && !locks && removes
}

// Whether the answer fits the bits.
fn fits(xmin: u32, xmax: u32, infomask: u16, life: Life) -> bool {
    let old = infomask & 0xc008 != 0;
    let multi = infomask & 0x1000 != 0;
    let is_there = is_inserted(xmin, infomask) && !is_deleted(xmax, infomask);
    match life {
        Live => !old && is_there,
        Dead => !old && !is_there,
        Unjudged(U1) => old,
        Unjudged(U2 | U3) => false,
        Broken(rule) => rule == H10 && !old && multi && (xmax == 0 || xmax == 712),
    }
}

// Tries all values of infomask.
fn expect_fits(
    rt: &impl Abort,
    files: &mut QuietFiles,
    logs: &Status3<'_>,
    xmin: u32,
    xmax: u32,
) -> Result<(), Fail> {
    for infomask in 0..=u16::MAX {
        let found = judged(files, logs, xmin, xmax, infomask)?;
        assert!(rt;
            fits(xmin, xmax, infomask, found.life),
            "{xmin} {xmax} {infomask}"
        );
    }
    Ok(())
}

#[test]
fn live_is_inserted_and_not_deleted(rt: HostRuntime) -> Result<(), Fail> {
    let folders = Folders::new(rt.alloc())?;
    let logs = folders.logs(CLUSTER);
    let mut files = files(rt.alloc())?;
    for xmin in [0, 700, 712] {
        for xmax in [0, 1, 2, 3, 712] {
            expect_fits(&rt, &mut files, &logs, xmin, xmax)?;
        }
    }
    Ok(())
}
