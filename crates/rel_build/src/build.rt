//! The files and the case of a generated table.
ghost use Rattle.std.specs.Prelude.{◌≡◌, ◌↔◌, ◌<◌, ◌≤◌, Err, IfOk};
ghost use Rattle.memory_files.specs.Memory.{sure_state};
ghost use Rattle.rel_build.specs.Files.{IsBuilt, commit_log, held_with};

use crate::fault::BuildFault;
use crate::rows::{ROWS_ON_PAGE, pages_for, rows_below};
use crate::table::table_file;
use crate::trees::{Key, sort_by_group, tree_blocks, tree_file};
use case_file::Case;
use memory_files::SureFiles;
use outside::{NoMemory, Part};
use page_write::push_zeros;
use std::alloc::Global;

/// The most rows that a generated table may have.
pub const MAX_ROWS: u32 = 20000;

/// A table with two indexes, in files that never fail, and the case that names them.
#[derive(Drop)]
pub struct BuiltCase {
    /// The table `t`, its indexes `i1` and `i2`, and the commit log's segment 0 in `xact`.
    pub files: SureFiles,
    /// Which file is which, and how the columns are stored.
    pub case: Case,
    /// How many blocks the table has.
    pub heap_blocks: u32,
    /// How many blocks each of the indexes has.
    pub index_blocks: u32,
}

// The first page of the commit log.
#[tactic(auto, unfolding(crate::specs::Files::commit_log))]
fn commit_log(alloc: Global) -> Result<Vec<u8>, NoMemory>
    ensures { IfOk result (λ page. page.items ≡ commit_log) }
{
    let mut page = Vec::new(alloc);
    page.push(0x40)?;
    push_zeros(&mut page, 8191)?;
    Ok(page)
}

// Holds the files.
fn held_with(
    alloc: Global,
    table: &[u8],
    by_id: &[u8],
    by_group: &[u8],
) -> Result<SureFiles, NoMemory>
    ensures { IfOk result (λ files. sure_state files ≡ record {
      held = held_with table.now by_id.now by_group.now;
      reads = 0;
    }) }
{
    let log = commit_log(alloc)?;
    let mut files = SureFiles::new(alloc);
    files.add("t", Part::Segment(0), table)?;
    files.add("i1", Part::Segment(0), by_id)?;
    files.add("i2", Part::Segment(0), by_group)?;
    files.add("xact", Part::Slru(0), &log)?;
    Ok(files)
}

// The files and the case of so many rows.
fn build(alloc: Global, seed: u64, count: u32) -> Result<BuiltCase, NoMemory>
    requires { count ≤ 20000 }
    ensures { IfOk result (IsBuilt seed count) }
{
    let mut rows = rows_below(alloc, seed, count)?;
    let table = table_file(alloc, &rows)?;
    let by_id = tree_file(alloc, Key::Id, &rows)?;
    let index_blocks = tree_blocks(&rows);
    sort_by_group(&mut rows)?;
    let by_group = tree_file(alloc, Key::Group, &rows)?;
    let files = held_with(alloc, &table, &by_id, &by_group)?;
    let case = Case::generated(alloc)?;
    Ok(BuiltCase {
        files,
        case,
        heap_blocks: pages_for(ROWS_ON_PAGE as usize, count as usize) as u32,
        index_blocks,
    })
}

/// Builds the files and the case of a table of so many rows with two indexes. The same seed and number give the
/// same bytes.
///
/// `TooMany` comes exactly where there are to be more rows than 20000.
pub fn build_case(alloc: Global, seed: u64, rows: u32) -> Result<BuiltCase, BuildFault>
    ensures built { IfOk result (IsBuilt seed rows) }
    ensures too_many { (result ≡ Err BuildFault.TooMany) ↔ (MAX_ROWS < rows) }
{
    if MAX_ROWS < rows {
        return Err(BuildFault::TooMany);
    }
    Ok(build(alloc, seed, rows)?)
}
