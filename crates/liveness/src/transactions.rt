//! Files in which transactions are looked up.
ghost use Rattle.std.specs.Prelude.{◌≡◌, IsTrue};
ghost use Rattle.outside.specs.Outside.{AskedAtMost, Tells};
ghost use Rattle.rel_files.specs.Faults.{read_fault};
ghost use Rattle.rel_files.specs.Ranges.{is_multi_in_range};
ghost use Rattle.rel_files.specs.Slru.{dir_of};
ghost use Rattle.xact_status.specs.Status.{status_of};
ghost use Rattle.multi_members.specs.Updater.{updater_of};

use crate::states::Status3;
use multi_members::MultiState;
use outside::Files;
use rel_files::ReadFault;
use xact_status::XidState;

/// Files that say what became of transactions, by the logs among them.
pub trait Transactions: Files {
    /// The state of a transaction, as `xact_status::status` gives it.
    fn status(&mut self, logs: &Status3<'_>, xid: u32) -> Result<XidState, ReadFault>
        ensures told { Tells Self.seen self.old result (λ state names.
            state ≡ status_of names (dir_of logs.now.xact.now) xid) }
        ensures asked { AskedAtMost 1 Self.seen self.old self.new result read_fault };

    /// What a multixact says of an updater, as `multi_members::updater` gives it.
    fn updater(&mut self, logs: &Status3<'_>, multi: u32) -> Result<MultiState, ReadFault>
        requires { IsTrue (is_multi_in_range logs.now.cluster multi) }
        ensures told { Tells Self.seen self.old result (λ state names. state
            ≡ updater_of names (dir_of logs.now.offsets.now) (dir_of logs.now.members.now) logs.now.cluster multi) }
        ensures asked { AskedAtMost 327688 Self.seen self.old self.new result read_fault };
}
