//! Numbers in the files of pg_multixact.
ghost use Rattle.std.specs.Prelude.{◌≡◌, ◌+◌, ◌<◌};
ghost use Rattle.outside.specs.Outside.{AskedAtMost, Tells};
ghost use Rattle.rel_files.specs.Faults.{read_fault};
ghost use Rattle.rel_files.specs.Slru.{dir_of};
ghost use Rattle.multi_members.specs.Members.{u32_held};

use outside::Files;
use rel_files::{ReadFault, Slru};

// The number in the four bytes from a place of a page on, where all of them are held.
#[tactic(auto, unfolding(crate::specs::Members::u32_held))]
pub fn read_u32<F: Files>(
    files: &mut F,
    folder: &Slru,
    page: u32,
    place: u16,
) -> Result<Option<u32>, ReadFault>
    requires { place + 3 < 8192 }
    ensures told { Tells F.seen files.old result (λ number names.
        number ≡ u32_held names (dir_of folder.now) page place) }
    ensures asked { AskedAtMost 1 F.seen files.old files.new result read_fault }
{
    let mut bytes = [0u8; 4];
    if folder.bytes(files, page, place, &mut bytes)? < 4 {
        return Ok(None);
    }
    Ok(Some(u32::from_le_bytes(bytes)))
}
