//! What a command is to write, and what it answers.
ghost use Rattle.std.specs.Prelude.{◌≡◌, IfOk};
ghost use Rattle.cmd_answers.specs.Outcome.{bad_bound, case_refused, key_too_large, no_block, no_file, reported};
ghost use Rattle.cmd_answers.specs.Outcome.{too_large};
ghost use Rattle.cmd_answers.specs.Seen.{outcome_seen};

use crate::status::Answer;
use case_file::CaseRule;
use key_orders::{Octets, Tid};
use outside::NoMemory;
use reports::Report;
use std::alloc::Global;

/// All that a command is to write, and what it then answers.
#[derive(Drop)]
pub struct Output {
    /// The bytes that are to be written.
    pub text: Octets,
    /// What is answered where they were written.
    pub answer: Answer,
}

/// The refusal of a file that isn't there.
pub fn no_file_output(alloc: Global, name: &str) -> Result<Output, NoMemory>
    ensures { IfOk result (λ o. outcome_seen o ≡ no_file name.now) }
{
    let mut text = Octets::new(alloc);
    text.push_slice(b"refused no file ")?;
    text.push_slice(name.as_bytes())?;
    text.push_slice(b"\n")?;
    Ok(Output {
        text,
        answer: Answer::NoFile,
    })
}

/// What a file, or a table that is to be built, has too much of.
#[derive(Clone, Copy, Debug, PartialEq, Eq)]
pub enum Unit {
    /// Blocks of a file.
    Blocks,
    /// Bytes of a case file.
    Bytes,
    /// Rows of a table.
    Rows,
}

impl Unit {
    ghost use Rattle.cmd_answers.specs.Outcome.{unit_word};

    // Its word in a refusal.
    fn word(self) -> &'static [u8]
        ensures { result.now ≡ unit_word self }
    {
        match self {
            Unit::Blocks => b" blocks ",
            Unit::Bytes => b" bytes ",
            Unit::Rows => b" rows ",
        }
    }
}

/// The refusal of what has so much, and may have no more than the limit: a file, or for `gen` the table.
pub fn too_large_output(
    alloc: Global,
    name: &str,
    unit: Unit,
    count: u64,
    limit: u64,
) -> Result<Output, NoMemory>
    ensures { IfOk result (λ o. outcome_seen o ≡ too_large name.now unit count limit) }
{
    let mut text = Octets::new(alloc);
    text.push_slice(b"refused too large ")?;
    text.push_slice(name.as_bytes())?;
    text.push_slice(unit.word())?;
    text.push_decimal(count)?;
    text.push_slice(b" limit ")?;
    text.push_decimal(limit)?;
    text.push_slice(b"\n")?;
    Ok(Output {
        text,
        answer: Answer::TooLarge,
    })
}

/// The refusal of a case, with the rule that its text breaks and the place to mend.
pub fn case_refused_output(
    alloc: Global,
    rule: CaseRule,
    place: &Octets,
) -> Result<Output, NoMemory>
    ensures { IfOk result (λ o. outcome_seen o ≡ case_refused rule place.now) }
{
    let mut text = Octets::new(alloc);
    text.push_slice(b"refused case ")?;
    text.push_slice(rule.code().as_bytes())?;
    text.push_slice(b" ")?;
    text.push_slice(place.as_slice())?;
    text.push_slice(b"\n")?;
    Ok(Output {
        text,
        answer: Answer::CaseRefused,
    })
}

/// The refusal of a block that isn't among so many.
pub fn no_block_output(alloc: Global, block: u32, blocks: u32) -> Result<Output, NoMemory>
    ensures { IfOk result (λ o. outcome_seen o ≡ no_block block blocks) }
{
    let mut text = Octets::new(alloc);
    text.push_slice(b"refused no block ")?;
    text.push_decimal(block as u64)?;
    text.push_slice(b" of ")?;
    text.push_decimal(blocks as u64)?;
    text.push_slice(b"\n")?;
    Ok(Output {
        text,
        answer: Answer::NoBlock,
    })
}

/// The refusal of a bound that doesn't fit the key of its index.
pub fn bad_bound_output(alloc: Global) -> Result<Output, NoMemory>
    ensures { IfOk result (λ o. outcome_seen o ≡ bad_bound) }
{
    let text = Octets::from_slice(alloc, b"refused bound\n")?;
    Ok(Output {
        text,
        answer: Answer::BadBound,
    })
}

/// The refusal of an index of which a key is too large, with the lowest TID of such a key.
pub fn key_too_large_output(alloc: Global, tid: Tid) -> Result<Output, NoMemory>
    ensures { IfOk result (λ o. outcome_seen o ≡ key_too_large tid) }
{
    let mut text = Octets::new(alloc);
    text.push_slice(b"refused key too large ")?;
    text.push_decimal(tid.block as u64)?;
    text.push_slice(b" ")?;
    text.push_decimal(tid.item as u64)?;
    text.push_slice(b"\n")?;
    Ok(Output {
        text,
        answer: Answer::KeyTooLarge,
    })
}

/// The text of a report, with the answer of its verdict.
pub fn report_output(alloc: Global, report: &Report) -> Result<Output, NoMemory>
    ensures { IfOk result (λ o. outcome_seen o ≡ reported report.now) }
{
    let text = report.text(alloc)?;
    Ok(Output {
        text,
        answer: Answer::of(report.verdict()),
    })
}
