//! Reading a case file.
ghost use Rattle.std.specs.Prelude.{◌≡◌, Some, Ok, IfOk, IfErr};
ghost use Rattle.case_file.specs.Case.{case_of, meaning_of, Tells};
ghost use Rattle.toml.specs.View.{table_view};

use crate::build::case_of_table;
use crate::case::Case;
use crate::find::first_broken;
use case_rules::{CaseFault, CaseRule, all_spots, spot_text};
use key_orders::Octets;
use std::alloc::Global;
use toml::Table;

const RULES: [CaseRule; 6] = [
    CaseRule::C2,
    CaseRule::C3,
    CaseRule::C4,
    CaseRule::C5,
    CaseRule::C6,
    CaseRule::C7,
];

fn judge(alloc: Global, top: &Table) -> Result<Case, CaseFault>
    ensures ok { IfOk result (λ case. meaning_of (Some (table_view top.now)) ≡ Ok case) }
    ensures err { IfErr result (Tells (meaning_of (Some (table_view top.now)))) }
{
    let spots = all_spots(alloc, top)?;
    match first_broken(top, &spots, &RULES) {
        Some((rule, spot)) => {
            let place = spot_text(alloc, spot)?;
            Err(CaseFault::Refused { rule, place })
        }
        None => Ok(case_of_table(alloc, top)?),
    }
}

/// Reads a case file: the case that the text means, or the first rule that it breaks and where.
///
/// The text is refused exactly where its meaning is no case. `NoMemory` can come for any text.
#[tactic(auto, unfolding(crate::specs::Case::case_of, crate::specs::Case::document_of), using(crate::proofs::Utf8::utf8_laws))]
pub fn read_case(alloc: Global, text: &[u8]) -> Result<Case, CaseFault>
    ensures ok { IfOk result (λ case. case_of text.now ≡ Ok case) }
    ensures err { IfErr result (Tells (case_of text.now)) }
{
    match toml::table_from_slice(alloc, text) {
        Ok(table) => judge(alloc, &table),
        Err(error) => {
            if error.is_memory() {
                return Err(CaseFault::NoMemory);
            }
            let place = Octets::from_slice(alloc, b"text")?;
            Err(CaseFault::Refused {
                rule: CaseRule::C1,
                place,
            })
        }
    }
}
