//! The rules of a case file, and why a text gives no case.
ghost use Rattle.std.specs.Prelude.{◌≡◌};
ghost use Rattle.case_rules.specs.Rules.{rule_code};
ghost use Rattle.case_rules.specs.declared.fault.CaseFault.TheVariants as fault;

use key_orders::Octets;
use outside::NoMemory;

/// A rule that a text may break as a case file.
///
/// The rules are asked in this order, each of the whole text, and the first that is broken is told.
#[derive(Clone, Copy, Debug, PartialEq, Eq)]
pub enum CaseRule {
    /// The text isn't UTF-8, or isn't a TOML document.
    C1,
    /// A key is absent that has to be there.
    C2,
    /// A key's value is of another kind, or an element of an array of names is no text.
    C3,
    /// A number, the length of a text or the count of an array is out of range, or a missing
    /// value isn't written in hexadecimal or has a length that its type can't have.
    C4,
    /// A type is unknown, the name of a column or an index is used twice, a key column is no
    /// column of the table or may not be one of a key, or an included column is none of the table.
    C5,
    /// A table has a key that a case file doesn't know, or a column has a length or an alignment
    /// that its type doesn't take.
    C6,
    /// The oldest transaction id or multixact id is half of the way round behind the next, or more.
    C7,
}

impl CaseRule {
    /// The code of the rule, as a refusal prints it.
    #[tactic(auto, unfolding(crate::specs::Rules::rule_code))]
    pub fn code(self) -> &'static str
        ensures { result.now ≡ rule_code self }
    {
        match self {
            CaseRule::C1 => "C1",
            CaseRule::C2 => "C2",
            CaseRule::C3 => "C3",
            CaseRule::C4 => "C4",
            CaseRule::C5 => "C5",
            CaseRule::C6 => "C6",
            CaseRule::C7 => "C7",
        }
    }
}

/// Why a text gives no case.
#[derive(Drop)]
pub enum CaseFault {
    /// The text breaks this rule and none before it.
    Refused {
        rule: CaseRule,
        /// The first place where it is broken, in the order of the key table: a table as `top`,
        /// `cluster`, `heap`, `column[0]`, `index[0]` or `index[0].key[0]`, a key as
        /// `column[0].type`, an element of an array as `index[0].include[0]`, or `text` for the
        /// whole. Numbers count from 0.
        place: Octets,
    },
    /// Memory ran out before the text was judged.
    NoMemory,
}

impl From<NoMemory> for CaseFault {
    ghost from_gives = { λ _ e. e ≡ fault.NoMemory };

    fn from(_: NoMemory) -> Self {
        CaseFault::NoMemory
    }
}
