//! The command `pages`: judges the pages of one heap file.
ghost use Rattle.std.specs.Prelude.{◌≡◌, ◌+◌, ◌*◌, ◌/◌, ◌≤◌, Some, length, IfOk, OnOk};
ghost use Rattle.outside.specs.declared.files.Part.TheVariants.{Segment};
ghost use Rattle.outside.specs.Outside.{Asked, IfHeld, IsHeldAnd, Tells};
ghost use Rattle.outside.specs.Adds.{each_below};
ghost use Rattle.reports.specs.Added.{joined, report_lists};
ghost use Rattle.cmd_answers.specs.Outcome.{owed_by, reported};
ghost use Rattle.cmd_answers.specs.Pages.{block_found, file_found, pages_judged};
ghost use Rattle.cmd_answers.specs.Seen.{outcome_seen};

use crate::blocks::{Opening, open_file, read_block};
use crate::fault::RunFault;
use crate::output::{Output, report_output};
use heap_page_check::judge_page;
use outside::Files;
use reports::Report;
use std::alloc::Global;

// Reads one block into the page, and judges it.
fn judge_block<F: Files>(
    alloc: Global,
    files: &mut F,
    file: &str,
    block: u32,
    page: &mut [u8; 8192],
    report: &mut Report,
) -> Result<(), RunFault>
    requires { IsHeldAnd F.seen files.old file.now (Segment 0) (λ bytes. 8192 * block + 8192 ≤ length bytes) }
    ensures found { OnOk result (IfHeld F.seen files.old file.now (Segment 0)
        (λ bytes. report.new ≡ joined report.old (block_found (Some bytes) block))) }
    ensures asked { Asked F.seen files.old files.new result RunFault.ReadFault }
{
    read_block(files, file, block, page)?;
    judge_page(alloc, page, block, report)?;
    Ok(())
}

// Reads and judges the first blocks, with one page in hand.
fn judge_blocks<F: Files>(
    alloc: Global,
    files: &mut F,
    file: &str,
    blocks: u32,
    report: &mut Report,
) -> Result<(), RunFault>
    requires { IsHeldAnd F.seen files.old file.now (Segment 0) (λ bytes. 8192 * blocks ≤ length bytes) }
    ensures found { OnOk result (IfHeld F.seen files.old file.now (Segment 0)
        (λ bytes. report.new ≡ joined report.old (each_below report_lists (block_found (Some bytes)) blocks))) }
    ensures asked { Asked F.seen files.old files.new result RunFault.ReadFault }
{
    let mut page = [0u8; 8192];
    for block in 0..blocks {
        judge_block(alloc, files, file, block, &mut page, report)?;
    }
    Ok(())
}

// The report on a file of so many blocks.
fn judged_output<F: Files>(
    alloc: Global,
    files: &mut F,
    file: &str,
    blocks: u32,
) -> Result<Output, RunFault>
    requires { IsHeldAnd F.seen files.old file.now (Segment 0) (λ bytes. length bytes / 8192 ≡ blocks) }
    ensures output { IfOk result (λ o. IfHeld F.seen files.old file.now (Segment 0)
        (λ bytes. outcome_seen o ≡ reported (file_found (Some bytes)))) }
    ensures asked { Asked F.seen files.old files.new result RunFault.ReadFault }
{
    let mut report = Report::new(alloc);
    judge_blocks(alloc, files, file, blocks, &mut report)?;
    Ok(report_output(alloc, &report)?)
}

/// The output of `pages`: the report on the file's whole blocks of 8192 bytes, or why there is none.
pub fn pages_output<F: Files>(alloc: Global, files: &mut F, file: &str) -> Result<Output, RunFault>
    ensures output { Tells F.seen files.old result (λ o names.
        outcome_seen o ≡ owed_by (pages_judged file.now (names file.now (Segment 0)))) }
    ensures asked { Asked F.seen files.old files.new result RunFault.ReadFault }
{
    match open_file(alloc, files, file)? {
        Opening::Refused(output) => Ok(output),
        Opening::Blocks(blocks) => judged_output(alloc, files, file, blocks),
    }
}
