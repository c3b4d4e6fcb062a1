//! Multixacts in files in memory.
use crate::checks::{holds, same};
use crate::logs::{Segment, files_of, members, offsets};
use crate::quiet_files::QuietFiles;
use multi_members::MultiState::{Missing, NoUpdater, TooLong, Unfinished, Updater};
use multi_members::{Answers, MultiState, updater};
use outside::NoMemory;
use rel_files::{Cluster, ReadFault, Slru, multi_in_range};
use std::alloc::Global;
use std::process::Abort;
use std::test::Fail;

// Multixact 5 has the members 1 to 3.
const OFFSETS: [(usize, u8); 2] = [(20, 1), (24, 4)];

// Transactions 710 and 711 lock for a key, and 712 updates.
const MEMBERS: [(usize, u8); 7] = [
    (8, 0xc6),
    (9, 2),
    (12, 0xc7),
    (13, 2),
    (3, 4),
    (16, 0xc8),
    (17, 2),
];

const CLUSTER: Cluster = Cluster {
    next_xid: 1000,
    oldest_xid: 3,
    next_multi: 10,
    oldest_multi: 1,
    next_member: 100,
};

// The folders of pg_multixact, and the numbers of a cluster.
#[derive(Drop)]
struct Folders {
    offsets: Slru,
    members: Slru,
    cluster: Cluster,
}

fn folders_of(alloc: Global, cluster: Cluster) -> Result<Folders, NoMemory> {
    Ok(Folders {
        offsets: Slru::new(alloc, "offsets")?,
        members: Slru::new(alloc, "members")?,
        cluster,
    })
}

fn state(
    rt: &impl Abort,
    files: &mut QuietFiles,
    folders: &Folders,
    multi: u32,
) -> Result<MultiState, ReadFault> {
    assert!(rt; multi_in_range(&folders.cluster, multi));
    updater(
        files,
        &folders.offsets,
        &folders.members,
        &folders.cluster,
        multi,
    )
}

// How many bytes of the two files are held, and of each a byte that is another: what multixact 5 says then.
type Row = (usize, (usize, u8), usize, (usize, u8), MultiState);

const SAME: (usize, u8) = (0, 0);

const IN_ORDER: [Row; 26] = [
    // the first of status 4 or 5, whatever comes after it
    (8192, SAME, 8192, SAME, Updater(712)),
    (8192, SAME, 8192, (3, 5), Updater(712)),
    (8192, SAME, 8192, (2, 5), Updater(711)),
    (8192, SAME, 8192, (1, 4), Updater(710)),
    (8192, SAME, 12, (1, 4), Updater(710)),
    // statuses that lock, and an unknown one
    (8192, SAME, 8192, (3, 0), NoUpdater),
    (8192, SAME, 8192, (3, 1), NoUpdater),
    (8192, SAME, 8192, (3, 2), NoUpdater),
    (8192, SAME, 8192, (3, 3), NoUpdater),
    (8192, SAME, 8192, (3, 6), NoUpdater),
    // the last member isn't one of it, or there is none at all
    (8192, (24, 3), 8192, SAME, NoUpdater),
    (8192, (24, 1), 0, SAME, NoUpdater),
    // no begin, no end, and which of them is asked for first
    (8192, (20, 0), 8192, SAME, Unfinished),
    (8192, (24, 0), 8192, SAME, Unfinished),
    (23, (20, 0), 8192, SAME, Missing),
    (24, (20, 0), 8192, SAME, Unfinished),
    (27, (24, 0), 8192, SAME, Missing),
    (28, (24, 0), 8192, SAME, Unfinished),
    (23, SAME, 8192, SAME, Missing),
    (27, SAME, 8192, SAME, Missing),
    (28, SAME, 8192, SAME, Updater(712)),
    // a member's status is held and its transaction isn't, or not all of it
    (8192, SAME, 11, (1, 4), Missing),
    (8192, SAME, 16, SAME, Missing),
    (8192, SAME, 19, SAME, Missing),
    (8192, SAME, 20, SAME, Updater(712)),
    // the begin is past the end
    (8192, (20, 5), 8192, SAME, TooLong),
];

fn files_of_five(alloc: Global, row: &Row) -> Result<QuietFiles, NoMemory> {
    let (offsets_len, offset, members_len, member, _) = *row;
    let [begin, end] = OFFSETS;
    let edges = [begin, end, offset];
    let mut bytes = MEMBERS.to_vec(alloc)?;
    bytes.push(member)?;
    let held = [
        Segment {
            len: offsets_len,
            ..offsets(0, &edges)
        },
        Segment {
            len: members_len,
            ..members(0, &bytes)
        },
    ];
    files_of(alloc, &held)
}

// What multixact 5 says then.
fn state_of_five(
    rt: &impl Abort,
    alloc: Global,
    folders: &Folders,
    row: &Row,
) -> Result<MultiState, Fail> {
    let mut files = files_of_five(alloc, row)?;
    Ok(state(rt, &mut files, folders, 5)?)
}

#[test]
fn members_are_looked_at_in_order(rt: HostRuntime) -> Result<(), Fail> {
    let folders = folders_of(rt.alloc(), CLUSTER)?;
    let mut row = 0u32;
    for case in &IN_ORDER {
        row = row.wrapping_add(1);
        let found = state_of_five(&rt, rt.alloc(), &folders, case)?;
        same(&rt, &found, &case.4, row);
    }
    Ok(())
}

// Tests what a multixact says where these segments are held.
fn expect(
    rt: &impl Abort,
    alloc: Global,
    segments: &[Segment<'_>],
    cluster: Cluster,
    multi: u32,
    want: MultiState,
) -> Result<(), Fail> {
    let mut files = files_of(alloc, segments)?;
    let folders = folders_of(alloc, cluster)?;
    same(rt, &state(rt, &mut files, &folders, multi)?, &want, multi);
    Ok(())
}

// Of two members the first locks for transaction 8, and the second updates by 9.

#[test]
fn members_1635_and_1636_stand_on_two_pages(rt: HostRuntime) -> Result<(), Fail> {
    let edges = [(20, 0x63), (21, 0x06), (24, 0x65), (25, 0x06)];
    let pair = [(8163, 1), (8176, 8), (8192, 5), (8196, 9)];
    let held = [offsets(0, &edges), members(0, &pair)];
    expect(&rt, rt.alloc(), &held, CLUSTER, 5, Updater(9))
}

#[test]
fn members_52351_and_52352_stand_in_two_segments(rt: HostRuntime) -> Result<(), Fail> {
    let edges = [(20, 0x7f), (21, 0xcc), (24, 0x81), (25, 0xcc)];
    let (first, second) = ([(262115, 1), (262128, 8)], [(0, 5), (4, 9)]);
    let held = [offsets(0, &edges), members(0, &first), members(1, &second)];
    expect(&rt, rt.alloc(), &held, CLUSTER, 5, Updater(9))?;
    expect(&rt, rt.alloc(), &held[..2], CLUSTER, 5, Missing)
}

#[test]
fn member_0_comes_after_4294967295(rt: HostRuntime) -> Result<(), Fail> {
    let edges = [(20, 0xff), (21, 0xff), (22, 0xff), (23, 0xff), (24, 1)];
    let (first, second) = ([(46123, 1), (46136, 8)], [(0, 5), (4, 9)]);
    let held = [
        offsets(0, &edges),
        members(82040, &first),
        members(0, &second),
    ];
    expect(&rt, rt.alloc(), &held, CLUSTER, 5, Updater(9))
}

#[test]
fn multixacts_65535_and_65536_stand_in_two_segments(rt: HostRuntime) -> Result<(), Fail> {
    let cluster = Cluster {
        next_multi: 70000,
        ..CLUSTER
    };
    let (begin, end, pair) = ([(262140, 1)], [(0, 3)], [(1, 1), (8, 8), (2, 5), (12, 9)]);
    let held = [offsets(0, &begin), offsets(1, &end), members(0, &pair)];
    expect(&rt, rt.alloc(), &held, cluster, 65535, Updater(9))
}

#[test]
fn multixact_1_comes_after_4294967295(rt: HostRuntime) -> Result<(), Fail> {
    let cluster = Cluster {
        oldest_multi: 4294967290,
        next_multi: 3,
        ..CLUSTER
    };
    // An end at the number under multixact 0 would leave the second member out.
    let (begin, end) = ([(262140, 1)], [(0, 2), (4, 3)]);
    let pair = [(1, 1), (8, 8), (2, 5), (12, 9)];
    let held = [offsets(65535, &begin), offsets(0, &end), members(0, &pair)];
    expect(&rt, rt.alloc(), &held, cluster, 4294967295, Updater(9))?;
    // Where it is the last that was given out, the cluster has its end, and no file is asked.
    let last = Cluster {
        next_multi: 1,
        next_member: 2,
        ..cluster
    };
    expect(&rt, rt.alloc(), &held, last, 4294967295, NoUpdater)
}

#[test]
fn the_next_member_may_be_0(rt: HostRuntime) -> Result<(), Fail> {
    let cluster = Cluster {
        next_member: 0,
        ..CLUSTER
    };
    let begin = [(36, 0xff), (37, 0xff), (38, 0xff), (39, 0xff), (40, 1)];
    let (last, other) = ([(46123, 4), (46136, 6)], [(0, 5), (4, 9)]);
    let held = [
        offsets(0, &begin),
        members(82040, &last),
        members(0, &other),
    ];
    expect(&rt, rt.alloc(), &held, cluster, 9, Updater(6))
}

#[test]
fn at_most_65536_members_are_looked_at(rt: HostRuntime) -> Result<(), Fail> {
    let folders = folders_of(rt.alloc(), CLUSTER)?;
    // All but the last are of transaction 0 and passed over, whatever their status.
    let (first, last) = ([(1, 5)], [(66016, 5), (66020, 9)]);
    // Groups 0 to 16384 are read by 64, and anew on each of 41 pages: 409 groups take seven reads, and the 25 groups of
    // the last page one.
    for (low, want, reads) in [(1, Updater(9), 283), (2, TooLong, 2)] {
        let edges = [(20, 1), (24, low), (26, 1)];
        let held = [offsets(0, &edges), members(0, &first), members(1, &last)];
        let mut files = files_of(rt.alloc(), &held)?;
        same(
            &rt,
            &state(&rt, &mut files, &folders, 5)?,
            &want,
            low.into(),
        );
        same(&rt, &files.reads(), &reads, low.into());
    }
    Ok(())
}

// Multixact 5 begins at member 10 and ends before member 9, so it would have nearly all members there are.
#[test]
fn members_past_the_limit_are_not_read(rt: HostRuntime) -> Result<(), Fail> {
    let folders = folders_of(rt.alloc(), CLUSTER)?;
    let held = [offsets(0, &[(20, 10), (24, 9)]), members(0, &MEMBERS)];
    let mut files = files_of(rt.alloc(), &held)?;
    same(&rt, &state(&rt, &mut files, &folders, 5)?, &TooLong, 0);
    holds(&rt, files.reads() <= 8, 1);
    Ok(())
}

#[test]
fn each_fault_is_handed_on(rt: HostRuntime) -> Result<(), Fail> {
    let folders = folders_of(rt.alloc(), CLUSTER)?;
    let held = [offsets(0, &OFFSETS), members(0, &MEMBERS)];
    // The two edges, and the one group of the members: each asks for a length and for bytes.
    for call in 1..=4u32 {
        let mut files = files_of(rt.alloc(), &held)?;
        if call % 2 == 0 {
            files.fail_read(call.into());
        } else {
            files.fail_length(call.into());
        }
        let found = state(&rt, &mut files, &folders, 5);
        holds(&rt, found.is_err() == (call < 4), call);
    }
    Ok(())
}

// What answers for these folders say of a multixact.
fn answer(
    rt: &impl Abort,
    files: &mut QuietFiles,
    answers: &mut Answers,
    folders: &Folders,
    multi: u32,
) -> Option<MultiState> {
    assert!(rt; answers.are_for(&folders.offsets, &folders.members, &folders.cluster));
    assert!(rt; multi_in_range(&folders.cluster, multi));
    answers.updater(files, multi).ok()
}

// Multixacts 5 and 261 stand at one place of the memory.
const EDGES: [(usize, u8); 4] = [(20, 1), (24, 4), (1044, 2), (1048, 3)];

const LATER: Cluster = Cluster {
    next_multi: 300,
    ..CLUSTER
};

// What is answered one after the other. The second look-up asks nothing of the files, so that the third begins with
// the fourth length, which fails.
const ANSWERED: [(u32, Option<MultiState>); 6] = [
    (5, Some(Updater(712))),
    (5, Some(Updater(712))),
    (261, None),
    (261, Some(NoUpdater)),
    (5, Some(Updater(712))),
    (261, Some(NoUpdater)),
];

fn expect_answers(
    rt: &impl Abort,
    files: &mut QuietFiles,
    answers: &mut Answers,
    folders: &Folders,
) {
    let mut row = 0u32;
    for (multi, want) in ANSWERED {
        row = row.wrapping_add(1);
        same(rt, &answer(rt, files, answers, folders, multi), &want, row);
    }
    // Four were looked up, by three reads each.
    same(rt, &files.reads(), &12, 6);
}

#[test]
fn what_was_found_is_remembered(rt: HostRuntime) -> Result<(), Fail> {
    let folders = folders_of(rt.alloc(), LATER)?;
    let mut answers = Answers::new(rt.alloc(), &folders.offsets, &folders.members, &LATER)?;
    let mut files = files_of(rt.alloc(), &[offsets(0, &EDGES), members(0, &MEMBERS)])?;
    files.fail_length(4);
    expect_answers(&rt, &mut files, &mut answers, &folders);
    Ok(())
}

#[test]
fn answers_are_for_their_folders(rt: HostRuntime) -> Result<(), Fail> {
    let Folders {
        offsets,
        members,
        ..
    } = folders_of(rt.alloc(), CLUSTER)?;
    let answers = Answers::new(rt.alloc(), &offsets, &members, &CLUSTER)?;
    holds(&rt, answers.are_for(&offsets, &members, &CLUSTER), 0);
    holds(&rt, !answers.are_for(&members, &members, &CLUSTER), 1);
    holds(&rt, !answers.are_for(&offsets, &offsets, &CLUSTER), 2);
    holds(&rt, !answers.are_for(&offsets, &members, &LATER), 3);
    Ok(())
}
