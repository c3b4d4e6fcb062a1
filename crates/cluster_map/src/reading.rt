//! A map, read from a file.
ghost use Rattle.std.specs.Prelude.{◌≡◌};
ghost use Rattle.outside.specs.Outside.{AskedAtMost, Tells};
ghost use Rattle.outside.specs.declared.files.Part.TheVariants.{Segment};
ghost use Rattle.rel_files.specs.Faults.{read_fault};
ghost use Rattle.cluster_map.specs.Map.{as_list, map_held};

use crate::entry::FileMap;
use crate::fault::MapFault;
use crate::map::read_map;
use outside::{FileName, Files, Part};
use rel_files::ReadFault;

// How many bytes a map has up to version 15, and from 16 on.
const BYTES_TO_15: usize = 512;

const BYTES_FROM_16: usize = 524;

/// What the map under a path says, as `read_map` has it; before what is refused there comes a file that isn't there
/// (`NotThere`).
///
/// `ReadFault` comes only where the files' count of faults rose. It takes no memory, and reads at most once.
pub fn map_of_files<F: Files>(
    files: &mut F,
    path: &str,
) -> Result<Result<FileMap, MapFault>, ReadFault>
    ensures told { Tells F.seen files.old result
        (λ said names. as_list said ≡ map_held (names path.now (Segment 0))) }
    ensures asked { AskedAtMost 1 F.seen files.old files.new result read_fault }
{
    let name = FileName {
        base: path,
        part: Part::Segment(0),
    };
    let Some(length) = files.length(name)? else {
        return Ok(Err(MapFault::NotThere));
    };
    if length == BYTES_TO_15 as u64 {
        let mut bytes = [0u8; BYTES_TO_15];
        files.read_at(name, 0, &mut bytes)?;
        return Ok(read_map(&bytes));
    }
    if length == BYTES_FROM_16 as u64 {
        let mut bytes = [0u8; BYTES_FROM_16];
        files.read_at(name, 0, &mut bytes)?;
        return Ok(read_map(&bytes));
    }
    Ok(Err(MapFault::WrongLength))
}
