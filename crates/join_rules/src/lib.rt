//! The rules that join a heap and an index of it: each live tuple has its entry (X1, U6), each entry names what it may
//! name (X2), and in a unique index no live tuple has the key of another (X3). Definitions and the laws that tie a
//! report's lists to them; no code.
#![tactic(auto)]

ghost use Rattle.std.specs.Prelude.{ℕ};
ghost use Rattle.outside.specs.Outside.{Names};
ghost use Rattle.case_file.specs.Record.{CaseRecord};
ghost use Rattle.join_rules.specs.Broken.{IsJudged};

/// What is listed of a heap and an index of it is what is broken and what is in doubt: see `IsJudged`. It
/// does nothing.
pub fn heaps_and_indexes_are_judged()
    ensures { (case : CaseRecord) (names : Names) (n : ℕ) → IsJudged case names n }
{}
