//! The members of a multixact, one after another.
ghost use Rattle.std.specs.Prelude.{◌≡◌, map};
ghost use Rattle.outside.specs.Outside.{AskedAtMost, Tells};
ghost use Rattle.rel_files.specs.Faults.{read_fault};
ghost use Rattle.rel_files.specs.Slru.{dir_of};
ghost use Rattle.multi_members.specs.Members.{member_of, numbers_from};
ghost use Rattle.multi_members.specs.Updater.{first_updater, updates};

use crate::groups::GroupsRead;
use crate::state::MultiState;
use outside::Files;
use rel_files::{ReadFault, Slru};

// A transaction of a multixact, and what it did to the row.
#[derive(Clone, Copy)]
pub struct Member {
    // 0 where it is passed over.
    pub xid: u32,
    // 0 to 3 are locks, 4 and 5 updates.
    pub status: u8,
}

impl Member {
    // Whether it names a transaction that updated or deleted the row.
    fn updates(self) -> bool
        ensures { result ≡ updates self }
    {
        self.xid != 0 && (self.status == 4 || self.status == 5)
    }
}

// What the members of `count` numbers from `begin` on say, round at 2 ^ 32.
pub fn first_updater<F: Files>(
    files: &mut F,
    members: &Slru,
    begin: u32,
    count: u32,
) -> Result<MultiState, ReadFault>
    ensures told { Tells F.seen files.old result (λ state names.
        state ≡ first_updater (map (member_of names (dir_of members.now)) (numbers_from begin count))) }
    ensures asked { AskedAtMost count F.seen files.old files.new result read_fault }
{
    let mut bytes = [0u8; 1280];
    let mut groups = GroupsRead::none();
    let mut number = begin;
    for done in 0..count {
        groups = groups.reach(files, members, number, count - done, &mut bytes)?;
        match groups.member(&bytes, number) {
            None => return Ok(MultiState::Missing),
            Some(member) if member.updates() => return Ok(MultiState::Updater(member.xid)),
            Some(_) => {}
        }
        number = number.wrapping_add(1);
    }
    Ok(MultiState::NoUpdater)
}
