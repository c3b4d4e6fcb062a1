//! What the program says of itself: its help and its version, which stand here alone.

/// The version of the program.
pub const VERSION: &str = "0.9";

/// The help.
pub const HELP: &str =
    "kamzudrev judges the files of a cleanly stopped PostgreSQL cluster, or of a copy of them, and only reads:

  kamzudrev heap CASE              a table: its visibility map, its heap and its TOAST table
  kamzudrev index CASE NAME        the same, and its B-tree index of this name
  kamzudrev all CASE               the same, and all indexes of the case
  kamzudrev copy CASE              the live rows of a table as COPY text
  kamzudrev reindex CASE NAME      the file of this index, made anew of the live rows
  kamzudrev scan CASE NAME LOW HIGH DIR
                                   the entries of an index between two bounds, in either direction
  kamzudrev pages FILE             the pages of one heap file, by themselves
  kamzudrev show heap FILE BLOCK   one page of a heap file: its header and its items
  kamzudrev show tree FILE BLOCK   one page of a B-tree file
  kamzudrev gen SEED ROWS          a sample that is built in memory
  kamzudrev --help                 this text
  kamzudrev --version              the version

CASE is a case file, which says where a table's files are and what its columns are: docs/CASE-FILE.md. All tables
of a database are judged by cases_from_server and check_cases, each of which has --help.

The status: 0 clean, or what was asked was written; 1 findings; 2 no finding, but something can't be judged;
3 other words than these; 4 the case breaks a rule; 5 a file isn't there; 6 a file is too large; 7 a file couldn't
be read; 8 the output couldn't be written; 9 out of memory; 10 there is no such block; 11 a bound doesn't fit the key;
12 a key is too large for an index.

docs/RULES.md says what each finding means and what to do, docs/MANUAL.md which copies can be judged and how.
";

/// What the program can say of itself.
#[derive(Clone, Copy, Debug, PartialEq, Eq)]
pub enum Notice {
    /// `--help`: its commands and statuses.
    Help,
    /// `--version`: its name and version.
    Version,
}
