//! The members of a multixact, some groups of a page at a time.
ghost use Rattle.std.specs.Prelude.{◌≡◌, ◌+◌, ◌*◌, ◌%◌, ◌≤◌, ◌<◌, ◌/◌};

use crate::members::Member;
use outside::Files;
use rel_files::{ReadFault, Slru};

const MEMBERS_PER_GROUP: u32 = 4;

const GROUPS_PER_PAGE: u32 = 409;

const GROUP_BYTES: u32 = 20;

const STATUS_BYTES: usize = 4;

const XID_BYTES: usize = 4;

// How many groups are read at once: with 20 bytes each they take 1280.
const GROUPS_AT_ONCE: u32 = 64;

// Which groups of one page were read last: `count` of them, from group `first` of all pages on. Their
// bytes stand beside it.
#[derive(Clone, Copy)]
pub struct GroupsRead {
    first: u32,
    count: u32,
    // How many bytes of them are held: the first ones.
    held: usize,
    ghost short: { held ≤ 1280 },
    ghost one_page: { first % 409 + count ≤ 409 },
}

impl GroupsRead {
    ghost use Rattle.std.specs.Prelude.{ℕ, List, IfOk, IsTrue, OnOk, min};
    ghost use Rattle.outside.specs.Outside.{AskedAtMost, IfTold, Names, Tells};
    ghost use Rattle.rel_files.specs.Faults.{read_fault};
    ghost use Rattle.rel_files.specs.Slru.{dir_of};
    ghost use Rattle.multi_members.specs.Members.{member_of};
    ghost use Rattle.multi_members.specs.Groups.{HasMember, HoldsGroups};

    // None yet.
    pub fn none() -> GroupsRead
        ensures { (names : Names) (folder bytes : List ℕ) → HoldsGroups names folder result bytes }
    {
        GroupsRead {
            first: 0,
            count: 0,
            held: 0,
        }
    }

    // Whether the group of a member is one of them.
    fn has(self, number: u32) -> bool
        ensures { IsTrue result → HasMember self number }
    {
        number / MEMBERS_PER_GROUP >= self.first
            && number / MEMBERS_PER_GROUP - self.first < self.count
    }

    // The member of a number, where its status and its transaction are held.
    pub fn member(self, bytes: &[u8; 1280], number: u32) -> Option<Member>
        requires { HasMember self number }
        ensures { (names : Names) (folder : List ℕ) → HoldsGroups names folder self bytes.now
            → result ≡ member_of names folder number }
    {
        let in_group = (number % MEMBERS_PER_GROUP) as usize;
        let group = ((number / MEMBERS_PER_GROUP - self.first) * GROUP_BYTES) as usize;
        let place = group + STATUS_BYTES + in_group * XID_BYTES;
        if self.held < place + XID_BYTES {
            return None;
        }
        let xid = [
            bytes[place],
            bytes[place + 1],
            bytes[place + 2],
            bytes[place + 3],
        ];
        Some(Member {
            xid: u32::from_le_bytes(xid),
            status: bytes[group + in_group],
        })
    }

    // Has the group of a member: where it isn't one of them, it is read into `bytes` with those after
    // it on its page, as far as `left` members from it on need them.
    pub fn reach<F: Files>(
        self,
        files: &mut F,
        members: &Slru,
        number: u32,
        left: u32,
        bytes: &mut [u8; 1280],
    ) -> Result<GroupsRead, ReadFault>
        requires few { 0 < left }
        requires told { IfTold F.seen files.old (λ names.
            HoldsGroups names (dir_of members.now) self bytes.old) }
        ensures has { IfOk result (λ groups. HasMember groups number) }
        ensures told { Tells F.seen files.old result (λ groups names.
            HoldsGroups names (dir_of members.now) groups bytes.new) }
        ensures asked { AskedAtMost 1 F.seen files.old files.new result read_fault }
    {
        if self.has(number) {
            return Ok(self);
        }
        let first = number / MEMBERS_PER_GROUP;
        let on_page = first % GROUPS_PER_PAGE;
        let wanted = left / MEMBERS_PER_GROUP + 2;
        let count = wanted.min(GROUPS_AT_ONCE).min(GROUPS_PER_PAGE - on_page);
        let place = (on_page * GROUP_BYTES) as u16;
        let length = (count * GROUP_BYTES) as usize;
        let held = members.bytes(files, first / GROUPS_PER_PAGE, place, &mut bytes[..length])?;
        Ok(GroupsRead { first, count, held })
    }
}
