//! How often files are read where a table of more than a hundred blocks is judged together with its two indexes.
ghost use Rattle.heap_indexed.specs.Meetings.{BelongToIt};

use crate::sound::{sound_heap, sound_index};
use case_file::Case;
use heap_indexed::{check_indexes, meet_indexes};
use join_row_keys::IndexedTable;
use memory_files::SureFiles;
use outside::{FileName, Files, Part};
use rel_build::build_case;
use reports::Report;
use std::alloc::Global;
use std::test::Fail;
use test_fixtures::UntoldFiles;

// The files of a generated table.
const FILES: [(&str, Part); 4] = [
    ("t", Part::Segment(0)),
    ("i1", Part::Segment(0)),
    ("i2", Part::Segment(0)),
    ("xact", Part::Slru(0)),
];

// The bytes of a file.
fn bytes_of(alloc: Global, files: &mut SureFiles, name: FileName<'_>) -> Result<Vec<u8>, Fail> {
    let Some(length) = files.length(name)? else {
        return Err("no file".into());
    };
    let mut bytes = vec![in alloc; 0u8; length as usize]?;
    if length < bytes.len() as u64 {
        return Err("another length".into());
    }
    files.read_at(name, 0, &mut bytes)?;
    Ok(bytes)
}

// The files of a generated table, which don't tell what they hold.
fn untold(alloc: Global, built: &mut SureFiles) -> Result<UntoldFiles, Fail> {
    let mut files = UntoldFiles::new(alloc);
    for (base, part) in FILES {
        let bytes = bytes_of(alloc, built, FileName { base, part })?;
        files.add(base, part, bytes)?;
    }
    Ok(files)
}

// Whether there is a report, in which nothing is found.
fn is_clean(report: Option<Report>) -> bool {
    match report {
        Some(report) => report.counts() == (0, 0),
        None => false,
    }
}

// How often files are read for the reports on a table together with two indexes, in which nothing is found.
fn reads_of(alloc: Global, files: &mut UntoldFiles, at: IndexedTable<'_>) -> Result<u64, Fail>
    requires { BelongToIt at }
{
    let before = files.reads;
    let mut reports = check_indexes(alloc, files, at)?;
    if !is_clean(reports.pop_front()) || !is_clean(reports.pop_front()) {
        return Err("found".into());
    }
    Ok(files.reads.saturating_sub(before))
}

// How many times a block of the heap is taken in hand where entries of its indexes meet its rows.
fn blocks_of(alloc: Global, files: &mut UntoldFiles, at: IndexedTable<'_>) -> Result<u64, Fail>
    requires { BelongToIt at }
{
    Ok(meet_indexes(alloc, files, at)?.blocks)
}

// Both of a table with two indexes.
fn counted(alloc: Global, files: &mut UntoldFiles, case: &Case) -> Result<(u64, u64), Fail> {
    let heap = sound_heap(alloc, files, case)?;
    let first = sound_index(alloc, files, case, 1)?;
    let second = sound_index(alloc, files, case, 2)?;
    let mut trees = Vec::new(alloc);
    trees.push(first)?;
    trees.push(second)?;
    let at = IndexedTable {
        case,
        heap: &heap,
        trees: &trees,
    };
    let reads = reads_of(alloc, files, at)?;
    let blocks = blocks_of(alloc, files, at)?;
    Ok((reads, blocks))
}

// 20000 rows stand on 109 blocks, 185 on each, and each index has 69. All rows are one range, so that each block of the
// heap is read once, and of each index the 68 blocks behind its metapage once, eight by one read at most.
#[test]
fn blocks_of_a_table_and_its_indexes_are_read_once(rt: HostRuntime) -> Result<(), Fail> {
    let alloc = rt.alloc();
    let mut built = build_case(alloc, 7, 20000)?;
    let mut files = untold(alloc, &mut built.files)?;
    let (reads, blocks) = counted(alloc, &mut files, &built.case)?;
    assert!(rt; 109 + 2 * 9 <= reads && reads <= 109 + 2 * 68, "{reads}");
    assert!(rt; 109 <= blocks && blocks <= 109 * 3, "{blocks}");
    Ok(())
}
