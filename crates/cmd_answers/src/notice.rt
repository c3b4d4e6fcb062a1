//! What the program says of itself.
ghost use Rattle.std.specs.Prelude.{◌≡◌, IfOk};
ghost use Rattle.cmd_answers.specs.Outcome.{told};
ghost use Rattle.cmd_answers.specs.Seen.{outcome_seen};

use crate::output::Output;
use crate::status::Answer;
use cmd_line::{HELP, Notice, VERSION};
use key_orders::Octets;
use outside::NoMemory;
use std::alloc::Global;

// The help.
fn help_output(alloc: Global) -> Result<Output, NoMemory>
    ensures { IfOk result (λ o. outcome_seen o ≡ told Notice.Help) }
{
    let text = Octets::from_slice(alloc, HELP.as_bytes())?;
    Ok(Output {
        text,
        answer: Answer::Clean,
    })
}

// The program's name and its version.
fn version_output(alloc: Global) -> Result<Output, NoMemory>
    ensures { IfOk result (λ o. outcome_seen o ≡ told Notice.Version) }
{
    let mut text = Octets::new(alloc);
    text.push_slice(b"kamzudrev ")?;
    text.push_slice(VERSION.as_bytes())?;
    text.push_slice(b"\n")?;
    Ok(Output {
        text,
        answer: Answer::Clean,
    })
}

/// The output of `--help` and of `--version`: the help, or the program's name and its version.
pub fn notice_output(alloc: Global, notice: Notice) -> Result<Output, NoMemory>
    ensures { IfOk result (λ o. outcome_seen o ≡ told notice) }
{
    match notice {
        Notice::Help => help_output(alloc),
        Notice::Version => version_output(alloc),
    }
}
