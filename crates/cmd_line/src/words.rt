//! The forms of a command line.
ghost use Rattle.std.specs.Prelude.{◌≡◌, map, string_bytes};
ghost use Rattle.std.specs.Option.{option_copied, option_map};
ghost use Rattle.cmd_line.specs.Numbers.{u32_written, u64_written};
ghost use Rattle.cmd_line.specs.Seen.{form_asked, form_seen};
ghost use Rattle.cmd_line.specs.Words.{alone};
ghost use Rattle.cmd_line.specs.Words.{case_and_name, command_form, form_of, generated_by, generated_form, name_alone};
ghost use Rattle.cmd_line.specs.Words.{named_by, page_by, scan_form, show_form, shown_by};

use crate::bounds::{ScanWords, scan_words};
use crate::notice::Notice;
use crate::numbers::{u32_written, u64_written};

/// What a page is shown as a page of.
#[derive(Clone, Copy, Debug, PartialEq, Eq)]
pub enum Shown {
    /// A heap file.
    Heap,
    /// A B-tree index.
    Tree,
}

/// What the words ask for, with the names that they give.
#[derive(Clone, Copy)]
pub enum Command<'w> {
    /// `pages FILE`: judge the pages of one heap file.
    Pages(&'w str),
    /// `heap CASE`: judge the heap of a case.
    Heap(&'w str),
    /// `index CASE NAME`: judge the heap of a case, and its index of this name.
    Index {
        /// The case's file.
        case: &'w str,
        /// The index's name.
        name: &'w str,
    },
    /// `all CASE`: judge the heap of a case, and each of its indexes.
    All(&'w str),
    /// `copy CASE`: judge the heap of a case, and write its live rows.
    Copy(&'w str),
    /// `reindex CASE NAME`: judge the heap of a case, and build its index of this name anew.
    Reindex {
        /// The case's file.
        case: &'w str,
        /// The index's name.
        name: &'w str,
    },
    /// `show heap FILE BLOCK`, `show tree FILE BLOCK`: print one page of a file.
    Show {
        /// What the page is a page of.
        of: Shown,
        /// The file.
        file: &'w str,
        /// The page's block number.
        block: u32,
    },
    /// `gen SEED ROWS`: build a table and two indexes in memory, and judge them.
    Gen {
        /// What the pseudo-random numbers begin with.
        seed: u64,
        /// How many rows the table is to have.
        rows: u32,
    },
    /// `scan CASE NAME LOW HIGH DIR`: print the entries of an index of a case between two bounds.
    Scan(ScanWords<'w>),
    /// `--help`, `--version`: print what the program says of itself.
    Tell(Notice),
}

// A command that has no words of its own.
fn alone<'w>(command: Command<'w>, words: &[String]) -> Option<Command<'w>>
    ensures { form_asked result ≡ alone (form_seen command.entry) (map string_bytes words.now) }
{
    match words {
        [] => Some(command),
        _ => None,
    }
}

// One word, which isn't empty.
#[tactic(auto, unfolding(crate::specs::Words::name_alone))]
fn name_alone(words: &[String]) -> Option<&str>
    ensures { option_copied result ≡ name_alone (map string_bytes words.now) }
{
    match words {
        [name] if !name.is_empty() => Some(name.as_str()),
        _ => None,
    }
}

// A case and a name, unless one is empty.
fn named_by<'w>(case: &'w str, name: &'w str) -> Option<(&'w str, &'w str)>
    ensures { option_map (λ w. (w.0.now, w.1.now)) result ≡ named_by case.now name.now }
{
    if case.is_empty() || name.is_empty() {
        return None;
    }
    Some((case, name))
}

// A case and a name, neither of which is empty.
#[tactic(auto, unfolding(crate::specs::Words::case_and_name))]
fn case_and_name(words: &[String]) -> Option<(&str, &str)>
    ensures { option_map (λ w. (w.0.now, w.1.now)) result ≡ case_and_name (map string_bytes words.now) }
{
    match words {
        [case, name] => named_by(case.as_str(), name.as_str()),
        _ => None,
    }
}

// What the page that a word names is a page of.
#[tactic(auto, unfolding(crate::specs::Words::shown_by))]
fn shown_by(word: &str) -> Option<Shown>
    ensures { result ≡ shown_by word.now }
{
    if word == "heap" {
        return Some(Shown::Heap);
    }
    if word == "tree" {
        return Some(Shown::Tree);
    }
    None
}

// A page of a file, whose name isn't empty, by its kind and the number of its block.
fn page_by<'w>(kind: &str, file: &'w str, block: &str) -> Option<Command<'w>>
    ensures { form_asked result ≡ page_by (shown_by kind.now) file.now (u32_written block.now) }
{
    if file.is_empty() {
        return None;
    }
    match (shown_by(kind), u32_written(block)) {
        (Some(of), Some(block)) => Some(Command::Show { of, file, block }),
        _ => None,
    }
}

// The words after `show`.
#[tactic(auto, unfolding(crate::specs::Words::show_form))]
fn show_command(words: &[String]) -> Option<Command<'_>>
    ensures { form_asked result ≡ show_form (map string_bytes words.now) }
{
    match words {
        [kind, file, block] => page_by(kind.as_str(), file.as_str(), block.as_str()),
        _ => None,
    }
}

// A seed and a number of rows.
fn generated_by<'w>(seed: &str, rows: &str) -> Option<Command<'w>>
    ensures { form_asked result ≡ generated_by (u64_written seed.now) (u32_written rows.now) }
{
    match (u64_written(seed), u32_written(rows)) {
        (Some(seed), Some(rows)) => Some(Command::Gen { seed, rows }),
        _ => None,
    }
}

// The words after `gen`.
#[tactic(auto, unfolding(crate::specs::Words::generated_form))]
fn gen_command(words: &[String]) -> Option<Command<'_>>
    ensures { form_asked result ≡ generated_form (map string_bytes words.now) }
{
    match words {
        [seed, rows] => generated_by(seed.as_str(), rows.as_str()),
        _ => None,
    }
}

// The words after `scan`.
#[tactic(auto, unfolding(crate::specs::Words::scan_form))]
fn scan_command(words: &[String]) -> Option<Command<'_>>
    ensures { form_asked result ≡ scan_form (map string_bytes words.now) }
{
    match words {
        [case, name, low, high, direction] => {
            let words = scan_words(
                case.as_str(),
                name.as_str(),
                low.as_str(),
                high.as_str(),
                direction.as_str(),
            )?;
            Some(Command::Scan(words))
        }
        _ => None,
    }
}

// The command of this name, with the words after it.
#[tactic(auto, unfolding(crate::specs::Words::command_form))]
fn named_command<'w>(command: &str, words: &'w [String]) -> Option<Command<'w>>
    ensures { form_asked result ≡ command_form command.now (map string_bytes words.now) }
{
    if command == "pages" {
        return Some(Command::Pages(name_alone(words)?));
    }
    if command == "heap" {
        return Some(Command::Heap(name_alone(words)?));
    }
    if command == "index" {
        let (case, name) = case_and_name(words)?;
        return Some(Command::Index { case, name });
    }
    if command == "reindex" {
        let (case, name) = case_and_name(words)?;
        return Some(Command::Reindex { case, name });
    }
    if command == "all" {
        return Some(Command::All(name_alone(words)?));
    }
    if command == "copy" {
        return Some(Command::Copy(name_alone(words)?));
    }
    if command == "show" {
        return show_command(words);
    }
    if command == "gen" {
        return gen_command(words);
    }
    if command == "scan" {
        return scan_command(words);
    }
    if command == "--help" {
        return alone(Command::Tell(Notice::Help), words);
    }
    if command == "--version" {
        return alone(Command::Tell(Notice::Version), words);
    }
    None
}

/// The form of the words of a command line, which are read literally: no word is an option of a command. None where
/// they have none of the forms.
#[tactic(auto, unfolding(crate::specs::Words::form_of))]
pub fn command_of(words: &[String]) -> Option<Command<'_>>
    ensures { form_asked result ≡ form_of (map string_bytes words.now) }
{
    match words {
        [] => None,
        [command, rest @ ..] => named_command(command.as_str(), rest),
    }
}
