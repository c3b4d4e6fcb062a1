//! The top call.
ghost use Rattle.std.specs.Prelude.{◌≡◌, ◌≢◌, ◌≤◌, ◌⊎◌, Err, IfOk, None, Some, false, map, string_bytes};
ghost use Rattle.outside.specs.Outside.{Asked, IfTold, Names, Rose, Tells};
ghost use Rattle.cmd_run.specs.Commands.{AsksNoFiles, ForGenerated, ForReport, IsGenerated, IsWorth, outcome};
ghost use Rattle.cmd_run.specs.Commands.{outcome_of};
ghost use Rattle.cmd_run.specs.Copied.{ForCopy, IsCopy};
ghost use Rattle.cmd_run.specs.Generated.{generated_owed};
ghost use Rattle.cmd_run.specs.Reindex.{ForNamed, MayBeRemade};
ghost use Rattle.cmd_run.specs.Reindexed.{ForReindex, IsReindex};
ghost use Rattle.cmd_run.specs.Scanned.{ForScan, IsScan};
ghost use Rattle.cmd_answers.specs.Outcome.{Meets, usage};
ghost use Rattle.cmd_line.specs.Seen.{form_seen};
ghost use Rattle.cmd_answers.specs.Seen.{outcome_seen};
ghost use Rattle.cmd_line.specs.Words.{form_of};

use crate::all::all_output;
use crate::copy::copy_output;
use crate::generated::gen_output;
use crate::heap::heap_output;
use crate::index::index_output;
use crate::laws::reports_have_worth;
use crate::reindex::reindex_output;
use crate::scan::scan_output;
use cmd_answers::{
    Ending, Output, RunFault, Status, notice_output, pages_output, show_output, write_text,
};
use cmd_line::{Command, command_of};
use outside::{Files, Sink};
use std::alloc::Global;

// The output of a command: its report, its page, its rows or its index, or the refusal that comes first.
fn output_of<F: Files>(
    alloc: Global,
    command: Command<'_>,
    files: &mut F,
) -> Result<Output, RunFault>
    ensures output { Tells F.seen files.old result (λ o names.
        outcome_seen o ≡ outcome_of (form_seen command.entry) names) }
    ensures generated { ForGenerated (Some (form_seen command.entry)) (λ seed rows.
        IfOk result (λ o. outcome_seen o ≡ generated_owed seed rows)) }
    ensures unread { ForGenerated (Some (form_seen command.entry)) (λ seed rows. result ≢ Err RunFault.ReadFault) }
    ensures made { Tells F.seen files.old result (λ o names. ForNamed (Some (form_seen command.entry)) (λ file name.
        (outcome_seen o).code ≡ 0 → MayBeRemade file name names)) }
    ensures unasked { AsksNoFiles (Some (form_seen command.entry)) → files.new ≡ files.old }
    ensures asked { Asked F.seen files.old files.new result RunFault.ReadFault }
{
    match command {
        Command::Pages(file) => pages_output(alloc, files, file),
        Command::Heap(case) => heap_output(alloc, files, case),
        Command::Index { case, name } => index_output(alloc, files, case, name),
        Command::All(case) => all_output(alloc, files, case),
        Command::Copy(case) => copy_output(alloc, files, case),
        Command::Reindex { case, name } => reindex_output(alloc, files, case, name),
        Command::Show { of, file, block } => show_output(alloc, files, of, file, block),
        Command::Gen { seed, rows } => gen_output(alloc, seed, rows),
        Command::Scan(words) => scan_output(alloc, files, words),
        Command::Tell(notice) => Ok(notice_output(alloc, notice)?),
    }
}

/// Does what the words ask for, and says how that ended. The words are a command line without the
/// program's name. The whole output is made before the first byte is written, so that a file that
/// can't be read, or want of memory, leaves nothing written.
pub fn run<F: Files, S: Sink>(
    alloc: Global,
    words: &[String],
    files: &mut F,
    sink: &mut S,
) -> Status
    // What is written and answered is the outcome of the words and of the bytes that are held.
    ensures told { IfTold F.seen files.old (λ names.
        Meets (outcome (map string_bytes words.now) names) (S.written sink.old) (S.written sink.new) result.code) }
    // What a command's report is worth: see specs/Commands. What is true of an index of which `index` or `all`
    // finds nothing, that each search finds what it should and each live tuple is found, stands in specs/Headline.
    ensures report { IfTold F.seen files.old (λ names. ForReport (map string_bytes words.now) names (λ check lists.
        IsWorth check names lists (S.written sink.old) (S.written sink.new) result.code)) }
    // So it is with `gen` whatever the files hold and tell: it reads none of them.
    ensures generated { ForGenerated (form_of (map string_bytes words.now)) (λ seed rows. (names : Names)
        → IsGenerated seed rows names (S.written sink.old) (S.written sink.new) result.code) }
    // What `copy` is worth: see specs/Copied.
    ensures copied { IfTold F.seen files.old (λ names. ForCopy (map string_bytes words.now) names (λ file case lists.
        IsCopy file case names lists (S.written sink.old) (S.written sink.new) result.code)) }
    // What `scan` is worth: see specs/Scanned.
    ensures scanned { IfTold F.seen files.old (λ names. ForScan (map string_bytes words.now) names
        (λ case n bounds direction lists.
        IsScan case names n bounds direction lists (S.written sink.old) (S.written sink.new) result.code)) }
    // What `reindex` is worth: see specs/Reindexed.
    ensures reindexed { IfTold F.seen files.old (λ names. ForReindex (map string_bytes words.now) names
        (λ file case n lists.
        IsReindex file case names n lists (S.written sink.old) (S.written sink.new) result.code)) }
    // Words without a form are refused whatever the files hold, and no other words are.
    ensures refused { form_of (map string_bytes words.now) ≡ None →
        Meets usage (S.written sink.old) (S.written sink.new) result.code
        × ((result.code ≡ 3) ⊎ (result.code ≡ 8)) }
    ensures usage { result.code ≡ 3 → form_of (map string_bytes words.now) ≡ None }

    // Words without a form and those of `gen`, `--help` and `--version` leave the files as they are, whatever a call of
    // theirs would change: none is looked for or read.
    ensures unasked { AsksNoFiles (form_of (map string_bytes words.now)) → files.new ≡ files.old }

    // The files hold what they held. When a run gives up, and what it leaves.
    ensures same { (F.seen files.new).held ≡ (F.seen files.old).held }
    ensures nothing { (result.code ≡ 7) ⊎ (result.code ≡ 9) → S.written sink.new ≡ S.written sink.old }
    ensures read_fault { result.code ≡ 7 → Rose (F.seen files.old).faults (F.seen files.new).faults
        × ((F.seen files.new).refused ≡ false) }
    ensures write_fault { result.code ≡ 8 → Rose (S.faults sink.old) (S.faults sink.new) }
    ensures codes { result.code ≤ 12 }
{
    reports_have_worth();
    let Some(command) = command_of(words) else {
        return write_text(sink, b"refused usage\n", Ending::Usage);
    };
    match output_of(alloc, command, files) {
        Ok(output) => write_text(
            sink,
            output.text.as_slice(),
            Ending::Answered(output.answer),
        ),
        Err(RunFault::NoMemory) => Ending::NoMemory.status(),
        Err(RunFault::ReadFault) => {
            if files.refused_memory() {
                Ending::NoMemory.status()
            } else {
                Ending::ReadFault.status()
            }
        }
    }
}
