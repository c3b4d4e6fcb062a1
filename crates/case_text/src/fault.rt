//! Why a case has no text.
ghost use Rattle.std.specs.Prelude.{◌≡◌};
ghost use Rattle.case_text.specs.declared.fault.CaseTextFault.TheVariants as fault;

use case_rules::CaseRule;
use key_orders::Octets;
use outside::NoMemory;

/// Why the parts of a case have no text.
#[derive(Drop)]
pub enum CaseTextFault {
    /// A column of an index isn't found by its name: there is no column of its number, or one before it
    /// has its name, or it is a key's and its type may be none.
    NotFound,
    /// Each is found, and the text would break this rule of case files and none before it.
    Refused {
        rule: CaseRule,
        /// The first place where it is broken, as `column[0].name`; numbers count from 0.
        place: Octets,
    },
    /// Memory ran out.
    NoMemory,
}

impl From<NoMemory> for CaseTextFault {
    ghost from_gives = { λ _ e. e ≡ fault.NoMemory };

    fn from(_: NoMemory) -> Self {
        CaseTextFault::NoMemory
    }
}
