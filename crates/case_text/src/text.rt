//! The text of a case file.
ghost use Rattle.std.specs.Prelude.{◌≡◌, true, Some, Ok, string_bytes, IfOk, IfErr};
ghost use Rattle.case_file.specs.Case.{case_of};
ghost use Rattle.toml.specs.Parse.{parse_document};
ghost use Rattle.case_text.specs.Faults.{TellsText};
ghost use Rattle.case_text.specs.Told.{are_found, case_told};
ghost use Rattle.case_text.specs.Written.{document_told};

use crate::document::document_of;
use crate::fault::CaseTextFault;
use crate::found::are_found;
use crate::parts::{ClusterPart, TablePart};
use crate::plain::{cluster_is_plain, table_is_plain};
use case_file::{CaseFault, read_case};
use outside::NoMemory;
use std::alloc::Global;

// The text of the document.
fn printed(alloc: Global, cluster: &ClusterPart, table: &TablePart) -> Result<String, NoMemory>
    ensures { IfOk result (λ s. parse_document (string_bytes s) ≡ Some (document_told cluster.now table.now)) }
{
    let document = document_of(alloc, cluster, table)?;
    match toml::table_to_string(alloc, &document) {
        Ok(text) => Ok(text),
        Err(_) => Err(NoMemory),
    }
}

/// Writes the case that the parts tell as the text of a case file. Before it is given out it is read by
/// [`read_case`], which asks the rules of case files; what it reads is exactly that case.
///
/// `NotFound` comes exactly where a column of an index isn't found by its name, and `Refused` exactly
/// where each is found and the document breaks a rule. `NoMemory` can come for any parts.
pub fn case_text(
    alloc: Global,
    cluster: &ClusterPart,
    table: &TablePart,
) -> Result<String, CaseTextFault>
    ensures reads_back { IfOk result (λ s. case_of (string_bytes s) ≡ Ok (case_told cluster.now table.now)) }
    ensures found { IfOk result (λ _. are_found table.now ≡ true) }
    ensures refused { IfErr result (TellsText cluster.now table.now) }
{
    table_is_plain(table);
    cluster_is_plain(cluster);
    if !are_found(table) {
        return Err(CaseTextFault::NotFound);
    }
    let text = printed(alloc, cluster, table)?;
    match read_case(alloc, text.as_str().as_bytes()) {
        Ok(case) => {
            case.sound();
            Ok(text)
        }
        Err(CaseFault::Refused { rule, place }) => Err(CaseTextFault::Refused { rule, place }),
        Err(CaseFault::NoMemory) => Err(CaseTextFault::NoMemory),
    }
}
