//! Maps.
use crate::checks::same;
use crate::laid::{FILE, held, put, put_each};
use cluster_map::MapFault::{NamedTwice, NotThere, WrongCount, WrongCrc, WrongLength, WrongMagic};
use cluster_map::{FileMap, MapFault, map_of_files, read_map};
use memory_files::MemFiles;
use outside::NoMemory;
use rel_files::ReadFault;
use std::alloc::Global;
use std::process::Abort;
use std::test::Fail;

// An oid, its file, and how many oids from it on have the files from that on.
type Run = (u32, u32, u8);

// The map of a database that version 15 made: 17 entries.
const REAL: [Run; 11] = [
    (1259, 1259, 1),
    (1249, 1249, 1),
    (1255, 1255, 1),
    (1247, 1247, 1),
    (2836, 2836, 2),
    (4171, 4171, 2),
    (2690, 2690, 2),
    (2703, 2703, 2),
    (2658, 2658, 2),
    (2662, 2662, 2),
    (3455, 3455, 1),
];

// The CRC that stands at 504 in it.
const CRC: (u16, u32) = (504, 0xD19C326B);

const TWICE: [Run; 3] = [(1260, 1260, 1), (1262, 1262, 1), (1262, 1262, 1)];

// As many as 524 bytes have places for.
const FULL: [Run; 1] = [(1259, 5000, 64)];

const FULL_CRC: (u16, u32) = (520, 0x7FBBDE4F);

// Puts a magic number, a count and the entries.
fn put_runs(bytes: &mut [u8], runs: &[Run]) {
    let mut at = 8u16;
    let mut count = 0u32;
    for (oid, file, len) in runs {
        for k in 0..*len {
            let k = u32::from(k);
            put(bytes, at, &[oid.wrapping_add(k), file.wrapping_add(k)]);
            at = at.saturating_add(8);
            count = count.wrapping_add(1);
        }
    }
    put(bytes, 0, &[0x00592717, count]);
}

// How many bytes a map has, its entries, its CRC and other numbers, an oid, and that one's file or a refusal.
type Row = (
    usize,
    &'static [Run],
    &'static [(u16, u32)],
    u32,
    Result<Option<u32>, MapFault>,
);

const ROWS: [Row; 24] = [
    (512, &REAL, &[CRC], 1259, Ok(Some(1259))),
    (512, &REAL, &[CRC], 2837, Ok(Some(2837))),
    (512, &REAL, &[CRC], 1262, Ok(None)),
    (524, &FULL, &[FULL_CRC], 1259, Ok(Some(5000))),
    (524, &FULL, &[FULL_CRC], 1322, Ok(Some(5063))),
    (524, &FULL, &[FULL_CRC], 9, Ok(None)),
    (512, &[], &[(504, 0x378350BD)], 0, Ok(None)),
    (0, &REAL, &[CRC], 0, Err(WrongLength)),
    (511, &REAL, &[CRC], 0, Err(WrongLength)),
    (513, &REAL, &[CRC], 0, Err(WrongLength)),
    (523, &FULL, &[FULL_CRC], 0, Err(WrongLength)),
    (525, &FULL, &[FULL_CRC], 0, Err(WrongLength)),
    (
        512,
        &REAL,
        &[(504, 0x3FA690EB), (0, 0x00592718)],
        0,
        Err(WrongMagic),
    ),
    (
        512,
        &REAL,
        &[(504, 0xC31E242D), (4, 63)],
        0,
        Err(WrongCount(63)),
    ),
    (512, &REAL, &[CRC, (4, 63)], 0, Err(WrongCount(63))),
    (
        524,
        &FULL,
        &[(520, 0x0A067A1B), (4, 65)],
        0,
        Err(WrongCount(65)),
    ),
    (
        512,
        &REAL,
        &[CRC, (4, u32::MAX)],
        0,
        Err(WrongCount(u32::MAX)),
    ),
    (
        524,
        &FULL,
        &[FULL_CRC, (4, u32::MAX)],
        0,
        Err(WrongCount(u32::MAX)),
    ),
    (512, &REAL, &[CRC, (12, 1260)], 0, Err(WrongCrc)),
    (512, &REAL, &[(504, 0xD19C326C)], 0, Err(WrongCrc)),
    // what stands behind the CRC is nothing's
    (512, &REAL, &[CRC, (508, 5)], 3455, Ok(Some(3455))),
    (512, &TWICE, &[(504, 0x8A981557)], 0, Err(NamedTwice(1262))),
    // 45 entries of zeros behind the 17
    (
        512,
        &REAL,
        &[(504, 0xB6D9D88A), (4, 62)],
        0,
        Err(NamedTwice(0)),
    ),
    (512, &REAL, &[(504, 0xE1A1446B), (4, 0)], 1259, Ok(None)),
];

fn bytes_of(alloc: Global, row: &Row) -> Result<Vec<u8>, NoMemory> {
    let (len, runs, words, _, _) = *row;
    let mut bytes = vec![in alloc; 0u8; len]?;
    put_runs(&mut bytes, runs);
    put_each(&mut bytes, words);
    Ok(bytes)
}

// The file of an oid in a map that was told.
fn file_of(told: &Result<FileMap, MapFault>, oid: u32) -> Result<Option<u32>, MapFault> {
    match told {
        Ok(map) => Ok(map.file(oid)),
        Err(fault) => Err(*fault),
    }
}

#[test]
fn maps_are_told_or_refused(rt: HostRuntime) -> Result<(), Fail> {
    let mut number = 0u32;
    for row in ROWS {
        number = number.wrapping_add(1);
        let (_, _, _, oid, want) = row;
        let bytes = bytes_of(rt.alloc(), &row)?;
        same(&rt, &file_of(&read_map(&bytes), oid), &want, number);
        let told = map_of_files(&mut held(rt.alloc(), &bytes)?, FILE)?;
        same(&rt, &file_of(&told, oid), &want, number);
    }
    Ok(())
}

// A name that nothing has, a length that fails, and bytes that fail.
fn expect_faults(rt: &impl Abort, files: &mut MemFiles) -> Result<(), Fail> {
    same(rt, &map_of_files(files, "none"), &Ok(Err(NotThere)), 100);
    files.fail_length(1)?;
    files.fail_read(1)?;
    same(rt, &map_of_files(files, FILE), &Err(ReadFault), 101);
    same(rt, &map_of_files(files, FILE), &Err(ReadFault), 102);
    Ok(())
}

// A relation's number of pg_class, its oid, and the number of its file.
const NUMBERS: [(u32, u32, Option<u32>); 3] = [
    (77, 1259, Some(77)),
    (0, 1259, Some(1259)),
    (0, 9, None),
];

// The first row's map is told after two faults.
#[test]
fn numbers_of_files_are_told(rt: HostRuntime) -> Result<(), Fail> {
    let [real, ..] = ROWS;
    let mut files = held(rt.alloc(), &bytes_of(rt.alloc(), &real)?)?;
    expect_faults(&rt, &mut files)?;
    let told = map_of_files(&mut files, FILE)?;
    for (own, oid, want) in NUMBERS {
        let number = told.map(|map| map.file_number(own, oid));
        same(&rt, &number, &Ok(want), oid);
    }
    Ok(())
}
