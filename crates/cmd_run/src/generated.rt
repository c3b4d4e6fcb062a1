//! The command `gen`: builds a table with two indexes in memory, and judges them as `all` does.
ghost use Rattle.std.specs.Prelude.{◌≡◌, ◌≢◌, ◌≤◌, ◌++◌, ℕ, Err, IfOk, OnOk};
ghost use Rattle.memory_files.specs.Memory.{sure_seen, sure_state};
ghost use Rattle.outside.specs.Outside.{IfTold};
ghost use Rattle.case_file.specs.Generated.{generated_case};
ghost use Rattle.rel_build.specs.Files.{IsBuilt, built_files};
ghost use Rattle.cmd_run.specs.All.{all_found};
ghost use Rattle.cmd_run.specs.Generated.{counts_text, generated_owed, index_line};
ghost use Rattle.cmd_answers.specs.Outcome.{reported};
ghost use Rattle.cmd_answers.specs.Seen.{outcome_seen};

use crate::all::whole_output;
use case_file::Case;
use cmd_answers::{Output, RunFault, Unit, too_large_output};
use key_orders::Octets;
use memory_files::SureFiles;
use outside::NoMemory;
use rel_build::{BuildFault, BuiltCase, MAX_ROWS, build_case, built_files_are_held};
use std::alloc::Global;

// Adds the line of an index: its number, its blocks and its entries.
fn add_index_line(text: &mut Octets, n: u64, blocks: u32, entries: u32) -> Result<(), NoMemory>
    ensures { OnOk result (text.new ≡ text.old ++ index_line n blocks entries) }
{
    text.push_slice(b"index ")?;
    text.push_decimal(n)?;
    text.push_slice(b" blocks ")?;
    text.push_decimal(blocks as u64)?;
    text.push_slice(b" entries ")?;
    text.push_decimal(entries as u64)?;
    text.push_slice(b"\n")?;
    Ok(())
}

// The lines that count what was built.
fn counts_text(
    alloc: Global,
    rows: u32,
    heap_blocks: u32,
    index_blocks: u32,
) -> Result<Octets, NoMemory>
    ensures { IfOk result (λ text. text ≡ counts_text rows heap_blocks index_blocks) }
{
    let mut text = Octets::new(alloc);
    text.push_slice(b"rows ")?;
    text.push_decimal(rows as u64)?;
    text.push_slice(b"\nheap blocks ")?;
    text.push_decimal(heap_blocks as u64)?;
    text.push_slice(b"\n")?;
    add_index_line(&mut text, 1, index_blocks, rows)?;
    add_index_line(&mut text, 2, index_blocks, rows)?;
    Ok(text)
}

// The report on what was built.
fn built_output(alloc: Global, files: &mut SureFiles, case: &Case) -> Result<Output, RunFault>
    ensures output { IfOk result (λ o. (seed rows : ℕ) → rows ≤ 20000
        → (sure_state files.old).held ≡ built_files seed rows → case.now ≡ generated_case
        → outcome_seen o ≡ reported (all_found generated_case (built_files seed rows))) }
    ensures unread { result ≢ Err RunFault.ReadFault }
{
    built_files_are_held();
    whole_output(alloc, files, case)
}

// What was built, in counts and by its report.
#[tactic(auto, using(crate::proofs::GeneratedLaws::counted_is))]
fn counted_output(alloc: Global, rows: u32, built: &mut BuiltCase) -> Result<Output, RunFault>
    requires few { rows ≤ 20000 }
    ensures output { IfOk result (λ o. (seed : ℕ) → IsBuilt seed rows built.old
        → outcome_seen o ≡ generated_owed seed rows) }
    ensures unread { result ≢ Err RunFault.ReadFault }
{
    let mut text = counts_text(alloc, rows, built.heap_blocks, built.index_blocks)?;
    let report = built_output(alloc, &mut built.files, &built.case)?;
    text.push_slice(report.text.as_slice())?;
    Ok(Output {
        text,
        answer: report.answer,
    })
}

/// The output of `gen`: counts of the table and of the indexes that are built from a seed, and the report on them.
/// More rows than 20000 are refused. No file is read but those that were built.
#[tactic(auto, using(crate::proofs::GeneratedLaws::many_owed))]
pub fn gen_output(alloc: Global, seed: u64, rows: u32) -> Result<Output, RunFault>
    ensures output { IfOk result (λ o. outcome_seen o ≡ generated_owed seed rows) }
    ensures unread { result ≢ Err RunFault.ReadFault }
{
    match build_case(alloc, seed, rows) {
        Ok(mut built) => counted_output(alloc, rows, &mut built),
        Err(BuildFault::TooMany) => Ok(too_large_output(
            alloc,
            "gen",
            Unit::Rows,
            rows as u64,
            MAX_ROWS as u64,
        )?),
        Err(BuildFault::NoMemory) => Err(RunFault::NoMemory),
    }
}
