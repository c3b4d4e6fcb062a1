//! How a run ends, and the status that tells it.
ghost use Rattle.std.specs.Prelude.{◌≡◌};
ghost use Rattle.cmd_answers.specs.Answers.{answer_by, answer_code, ending_code};

use reports::Verdict;

/// What a command answers.
#[derive(Clone, Copy, Debug, PartialEq, Eq)]
pub enum Answer {
    /// No rule is broken, and everything could be judged; or the page, the rows, the entries or the index are shown.
    Clean,
    /// A rule is broken.
    Findings,
    /// No rule is broken, and something can't be judged.
    Unjudged,
    /// Rows are shown, of which a value is compressed, so that it isn't read.
    Unread,
    /// The case file breaks a rule.
    CaseRefused,
    /// A file isn't there.
    NoFile,
    /// A file is too large.
    TooLarge,
    /// The file has no such block.
    NoBlock,
    /// A bound of a scan doesn't fit the key of the index.
    BadBound,
    /// A key of the index that is to be built is too large.
    KeyTooLarge,
}

/// How a run ends.
#[derive(Clone, Copy, Debug, PartialEq, Eq)]
pub enum Ending {
    /// With what its command answers.
    Answered(Answer),
    /// The words have none of the forms.
    Usage,
    /// A file couldn't be read.
    ReadFault,
    /// The output couldn't be written whole.
    WriteFault,
    /// Memory ran out.
    NoMemory,
}

/// The answer of a run to its caller: 0 clean, or the page, the rows, the entries or the index are shown, 1 findings, 2
/// unjudged, or a value of the rows that are shown is unread, 3 usage, 4 the case is refused, 5 no such file, 6 a file
/// is too large, 7 a file could not be read, 8 the output could not be written, 9 out of memory, 10 no such block, 11 a
/// bound doesn't fit the key, 12 a key is too large for the index.
#[derive(Clone, Copy, Debug, PartialEq, Eq)]
pub struct Status {
    /// The number that the program exits with.
    pub code: u8,
}

impl Answer {
    /// The answer of a report.
    pub fn of(verdict: Verdict) -> Answer
        ensures { result ≡ answer_by verdict }
    {
        match verdict {
            Verdict::Clean => Answer::Clean,
            Verdict::Findings => Answer::Findings,
            Verdict::Unjudged => Answer::Unjudged,
        }
    }

    fn code(self) -> u8
        ensures { result ≡ answer_code self }
    {
        match self {
            Answer::Clean => 0,
            Answer::Findings => 1,
            Answer::Unjudged => 2,
            Answer::Unread => 2,
            Answer::CaseRefused => 4,
            Answer::NoFile => 5,
            Answer::TooLarge => 6,
            Answer::NoBlock => 10,
            Answer::BadBound => 11,
            Answer::KeyTooLarge => 12,
        }
    }
}

impl Ending {
    /// The status that tells of it.
    pub fn status(self) -> Status
        ensures { result.code ≡ ending_code self }
    {
        let code = match self {
            Ending::Answered(answer) => answer.code(),
            Ending::Usage => 3,
            Ending::ReadFault => 7,
            Ending::WriteFault => 8,
            Ending::NoMemory => 9,
        };
        Status { code }
    }
}
