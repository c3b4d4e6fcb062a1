//! A file of one block, one that isn't there, and one whose length can't be asked.
use crate::checks::same;
use memory_files::MemFiles;
use outside::Part;
use rel_files::{CheckFault, Which, attach_file};
use std::alloc::Global;
use std::test::Fail;

// How many blocks the file of a name has, in segments of 8 blocks.
fn blocks_of(
    alloc: Global,
    files: &mut MemFiles,
    which: Which,
    base: &str,
) -> Result<u32, CheckFault> {
    let relation = attach_file(alloc, files, which, base, 8)?;
    Ok(relation.blocks())
}

const INDEX: Which = Which::Index(2);

// Files that are attached one after the other, the last where its length can't be asked.
const OUTCOMES: [(Which, &str, Result<u32, CheckFault>); 3] = [
    (Which::Heap, "t", Ok(1)),
    (INDEX, "i", Err(CheckFault::NoFile(INDEX))),
    (Which::Heap, "t", Err(CheckFault::ReadFault)),
];

#[test]
fn files_are_attached_or_refused(rt: HostRuntime) -> Result<(), Fail> {
    let mut files = MemFiles::new(rt.alloc());
    files.add("t", Part::Segment(0), &[0; 8192])?;
    files.fail_length(3)?;
    let mut row = 0u32;
    for (which, base, want) in OUTCOMES {
        row = row.wrapping_add(1);
        same(
            &rt,
            &blocks_of(rt.alloc(), &mut files, which, base),
            &want,
            row,
        );
    }
    Ok(())
}
