//! The logs of a case's transactions.
ghost use Rattle.std.specs.Prelude.{◌≡◌, IfOk};
ghost use Rattle.liveness.specs.LogFiles.{log_files_of};
ghost use Rattle.heap_table_check.specs.Case.{log_files_in};

use case_file::Case;
use liveness::Status3;
use outside::NoMemory;
use rel_files::{Cluster, Slru};
use std::alloc::Global;

/// Where the logs of a case stand, and the numbers of its cluster.
#[derive(Drop)]
pub struct CaseLogs {
    pub(crate) xact: Slru,
    pub(crate) offsets: Slru,
    pub(crate) members: Slru,
    pub(crate) cluster: Cluster,
}

impl CaseLogs {
    ghost use Rattle.heap_table_check.specs.CaseLogs.{log_files_kept};

    /// The logs of a case.
    pub fn new(alloc: Global, case: &Case) -> Result<CaseLogs, NoMemory>
        ensures { IfOk result (λ logs. log_files_kept logs ≡ log_files_in case.now) }
    {
        Ok(CaseLogs {
            xact: Slru::new(alloc, case.xact_dir())?,
            offsets: Slru::new(alloc, case.offsets_dir())?,
            members: Slru::new(alloc, case.members_dir())?,
            cluster: case.cluster(),
        })
    }

    /// The same, lent.
    pub fn lent(&self) -> Status3<'_>
        ensures { log_files_of result ≡ log_files_kept self.now }
    {
        Status3 {
            xact: &self.xact,
            offsets: &self.offsets,
            members: &self.members,
            cluster: self.cluster,
        }
    }
}
