//! Control files.
use crate::checks::same;
use crate::laid::{FILE, held, put, put_each};
use cluster_control::ClusterState::{
    InArchiveRecovery, InCrashRecovery, InProduction, Other, ShutDown, ShutDownInRecovery,
    ShuttingDown, StartingUp,
};
use cluster_control::ControlFault::{
    NotShutDown, NotThere, OtherBuild, Short, UnknownVersion, WrongCrc,
};
use cluster_control::{CONTROL_BYTES, ControlFault, ControlFile, control_of_files, read_control};
use memory_files::MemFiles;
use outside::NoMemory;
use rel_files::{Cluster, ReadFault};
use std::alloc::Global;
use std::process::Abort;
use std::test::Fail;

// The first 288 bytes of the control file of a cluster that version 15 made, by fours.
const CONTROL: [u32; 72] = [
    0xc3f28c3e, 0x6b104195, 1300, 202209061, 1, 0, 0x6b104196, 0, 0x1500718, 0, 0x1500718, 0, 1, 1,
    1, 0, 724, 0, 13572, 1, 0, 716, 1, 1, 1, 0, 0x6b104196, 0, 0, 0, 0, 0, 1000, 0, 0, 0, 0, 0, 0,
    0, 0, 0, 0, 1, 0, 100, 8, 10, 0, 64, 0, 8, 0, 0x4132d687, 8192, 131072, 8192, 16777216, 64, 32,
    1996, 2048, 1, 0, 0x79de75fb, 0x5c5f6e23, 0x78e71deb, 0xe5ca2be4, 0xb2651335, 0x2d9d67a5,
    0xf230da53, 0xe18bca54,
];

// The CRC that stands behind them.
const CRC: u32 = 0x875E4F6F;

// What pg_controldata says of it.
const TOLD: ControlFile = ControlFile {
    system_identifier: 7714738273179044926,
    control_version: 1300,
    catalog_version: 202209061,
    state: ShutDown,
    checkpoint: 0x1500718,
    timeline: 1,
    next_xid: 724,
    next_multi: 1,
    next_member: 0,
    oldest_xid: 716,
    oldest_multi: 1,
    segment_blocks: 131072,
    log_file_bytes: 16777216,
    has_checksums: false,
};

const OF_17: ControlFile = ControlFile {
    control_version: 1700,
    ..TOLD
};

const SUMMED: ControlFile = ControlFile {
    has_checksums: true,
    next_xid: 30064771972,
    ..TOLD
};

// How many bytes a file has, its numbers that are others than the real one's, its CRC, and what is told of it.
type Row = (
    usize,
    &'static [(u16, u32)],
    u32,
    Result<ControlFile, ControlFault>,
);

const ROWS: [Row; 22] = [
    (8192, &[], CRC, Ok(TOLD)),
    (8193, &[], CRC, Ok(TOLD)),
    (8191, &[], CRC, Err(Short)),
    (8192, &[(100, 1)], CRC, Err(WrongCrc)),
    (8192, &[(8, 1201)], 0xC8CDE3E2, Err(UnknownVersion(1201))),
    (8192, &[(8, 1700)], 0x5973C9C5, Ok(OF_17)),
    // alignment, float, blocks and names
    (8192, &[(204, 4)], 0x1443F47B, Err(OtherBuild)),
    (8192, &[(208, 0x80000000)], 0xB19A5073, Err(OtherBuild)),
    (8192, &[(216, 16384)], 0x46A6B93A, Err(OtherBuild)),
    (8192, &[(232, 63)], 0xD64F449D, Err(OtherBuild)),
    // states
    (8192, &[(16, 0)], 0x74221581, Err(NotShutDown(StartingUp))),
    (
        8192,
        &[(16, 2)],
        0x9736D6AC,
        Err(NotShutDown(ShutDownInRecovery)),
    ),
    (8192, &[(16, 3)], 0x644A8C42, Err(NotShutDown(ShuttingDown))),
    (
        8192,
        &[(16, 4)],
        0xB7E7E52A,
        Err(NotShutDown(InCrashRecovery)),
    ),
    (
        8192,
        &[(16, 5)],
        0x449BBFC4,
        Err(NotShutDown(InArchiveRecovery)),
    ),
    (8192, &[(16, 6)], 0x54F32607, Err(NotShutDown(InProduction))),
    (8192, &[(16, 7)], 0xA78F7CE9, Err(NotShutDown(Other(7)))),
    (
        8192,
        &[(16, u32::MAX)],
        0x03782AF9,
        Err(NotShutDown(Other(u32::MAX))),
    ),
    // the first of two causes
    (8192, &[(8, 1201)], CRC, Err(WrongCrc)),
    (8192, &[(16, 6), (216, 16384)], 0x950BD052, Err(OtherBuild)),
    (
        8192,
        &[(252, 1), (64, 900), (68, 7)],
        0xA6B9B495,
        Ok(SUMMED),
    ),
    (0, &[], CRC, Err(Short)),
];

fn files_of(alloc: Global, row: &Row) -> Result<MemFiles, NoMemory> {
    let (len, others, crc, _) = *row;
    let mut bytes = vec![in alloc; 0u8; len]?;
    put(&mut bytes, 0, &CONTROL);
    put_each(&mut bytes, others);
    put(&mut bytes, 288, &[crc]);
    held(alloc, &bytes)
}

#[test]
fn control_files_are_told_or_refused(rt: HostRuntime) -> Result<(), Fail> {
    let mut number = 0u32;
    for row in ROWS {
        number = number.wrapping_add(1);
        let mut files = files_of(rt.alloc(), &row)?;
        same(&rt, &control_of_files(&mut files, FILE), &Ok(row.3), number);
    }
    Ok(())
}

// What is told of a file whose name nothing has, whose length fails, and whose bytes fail.
fn expect_faults(rt: &impl Abort, alloc: Global) -> Result<(), Fail> {
    let [real, ..] = ROWS;
    let mut files = files_of(alloc, &real)?;
    same(
        rt,
        &control_of_files(&mut files, "none"),
        &Ok(Err(NotThere)),
        100,
    );
    files.fail_length(1)?;
    files.fail_read(1)?;
    same(
        rt,
        &control_of_files(&mut files, FILE),
        &Err(ReadFault),
        101,
    );
    same(
        rt,
        &control_of_files(&mut files, FILE),
        &Err(ReadFault),
        102,
    );
    same(rt, &control_of_files(&mut files, FILE), &Ok(Ok(TOLD)), 103);
    Ok(())
}

const TEXTS: [(ControlFault, &str); 6] = [
    (NotThere, "the control file isn't there"),
    (Short, "the control file is short"),
    (WrongCrc, "the control file's CRC is wrong"),
    (
        UnknownVersion(1201),
        "the control file's version 1201 isn't known",
    ),
    (OtherBuild, "the control file is of another build"),
    (NotShutDown(InProduction), "the cluster is in production"),
];

// A case's numbers have no epoch.
const NUMBERS: Cluster = Cluster {
    next_xid: 900,
    oldest_xid: 716,
    next_multi: 1,
    oldest_multi: 1,
    next_member: 0,
};

#[test]
fn faults_are_told_and_have_texts(rt: HostRuntime) -> Result<(), Fail> {
    expect_faults(&rt, rt.alloc())?;
    for (fault, want) in TEXTS {
        let text = format!(in rt.alloc(); "{fault}")?;
        assert!(rt; text.as_str() == want);
    }
    let mut bytes = [0; CONTROL_BYTES];
    put(&mut bytes, 0, &CONTROL);
    put(&mut bytes, 288, &[CRC]);
    same(&rt, &read_control(&bytes), &Ok(TOLD), 0);
    same(&rt, &SUMMED.numbers(), &NUMBERS, 1);
    Ok(())
}
