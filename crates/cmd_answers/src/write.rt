//! Writes the whole output.
ghost use Rattle.std.specs.Prelude.{◌≡◌, ◌⊎◌, ℕ, take, OnOk, OnErr};
ghost use Rattle.outside.specs.Outside.{HasCause, Rose, appended};
ghost use Rattle.cmd_answers.specs.Answers.{IsOutcomeCode, ending_code};
ghost use Rattle.cmd_answers.specs.Outcome.{Meets};

use crate::status::{Ending, Status};
use outside::{Failed, Sink};

// Puts all bytes. At an error the sink has taken a first part of them.
fn put_all<S: Sink>(sink: &mut S, bytes: &[u8]) -> Result<(), Failed>
    ensures whole { OnOk result (S.written sink.new ≡ appended (S.written sink.old) bytes.now) }
    ensures prefix { OnErr result ((n : ℕ) × (S.written sink.new ≡ appended (S.written sink.old) (take n bytes.now))) }
    ensures cause { HasCause (S.faults sink.old) (S.faults sink.new) result }
{
    let mut done = 0usize;
    while done < bytes.len() {
        let (_, rest) = bytes.split_at(done);
        let taken = sink.put(rest)?;
        if taken == 0 {
            return Err(Failed);
        }
        done += taken;
    }
    Ok(())
}

/// Writes bytes, which a run owes that ends so, and says how that ended.
pub fn write_text<S: Sink>(sink: &mut S, text: &[u8], owed: Ending) -> Status
    requires { IsOutcomeCode (ending_code owed) }
    ensures meets { Meets (record { bytes = text.now; code = ending_code owed }) (S.written sink.old)
        (S.written sink.new) result.code }
    ensures write_fault { result.code ≡ 8 → Rose (S.faults sink.old) (S.faults sink.new) }
    ensures codes { (result.code ≡ ending_code owed) ⊎ (result.code ≡ 8) }
    ensures known { IsOutcomeCode result.code ⊎ (result.code ≡ 8) }
{
    match put_all(sink, text) {
        Ok(()) => owed.status(),
        Err(Failed) => Ending::WriteFault.status(),
    }
}
