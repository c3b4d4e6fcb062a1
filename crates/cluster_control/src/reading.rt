//! The control file and PG_VERSION, read from files.
ghost use Rattle.std.specs.Prelude.{◌≡◌};
ghost use Rattle.outside.specs.Outside.{AskedAtMost, Tells};
ghost use Rattle.outside.specs.declared.files.Part.TheVariants.{Segment};
ghost use Rattle.rel_files.specs.Faults.{read_fault};
ghost use Rattle.cluster_control.specs.Control.{control_held};
ghost use Rattle.cluster_control.specs.Version.{version_held};

use crate::control::{CONTROL_BYTES, ControlFile, read_control};
use crate::fault::ControlFault;
use crate::version::{MajorVersion, VersionFault, read_version};
use outside::{FileName, Files, Part};
use rel_files::ReadFault;

// How many bytes PG_VERSION has.
const VERSION_BYTES: usize = 3;

/// What the control file under a path says of a cluster that was shut down, as `read_control` has it; before what
/// is refused there come a file that isn't there (`NotThere`) and one of fewer than 8192 bytes (`Short`). Of a longer
/// file the first 8192 bytes are taken.
///
/// `ReadFault` comes only where the files' count of faults rose. It takes no memory, and reads once.
pub fn control_of_files<F: Files>(
    files: &mut F,
    path: &str,
) -> Result<Result<ControlFile, ControlFault>, ReadFault>
    ensures told { Tells F.seen files.old result (λ said names. said ≡ control_held (names path.now (Segment 0))) }
    ensures asked { AskedAtMost 1 F.seen files.old files.new result read_fault }
{
    let name = FileName {
        base: path,
        part: Part::Segment(0),
    };
    let Some(length) = files.length(name)? else {
        return Ok(Err(ControlFault::NotThere));
    };
    if length < CONTROL_BYTES as u64 {
        return Ok(Err(ControlFault::Short));
    }
    let mut bytes = [0u8; CONTROL_BYTES];
    files.read_at(name, 0, &mut bytes)?;
    Ok(read_control(&bytes))
}

/// The version that a file PG_VERSION under a path says, as `read_version` has it. Refused are a file that isn't there
/// (`NotThere`), and one that is no decimal number of 13 to 17 and a line feed (`Unknown`).
///
/// `ReadFault` comes only where the files' count of faults rose. It takes no memory, and reads at most once.
pub fn version_of_files<F: Files>(
    files: &mut F,
    path: &str,
) -> Result<Result<MajorVersion, VersionFault>, ReadFault>
    ensures told { Tells F.seen files.old result (λ said names. said ≡ version_held (names path.now (Segment 0))) }
    ensures asked { AskedAtMost 1 F.seen files.old files.new result read_fault }
{
    let name = FileName {
        base: path,
        part: Part::Segment(0),
    };
    let Some(length) = files.length(name)? else {
        return Ok(Err(VersionFault::NotThere));
    };
    if length != VERSION_BYTES as u64 {
        return Ok(Err(VersionFault::Unknown));
    }
    let mut bytes = [0u8; VERSION_BYTES];
    files.read_at(name, 0, &mut bytes)?;
    match read_version(&bytes) {
        Some(version) => Ok(Ok(version)),
        None => Ok(Err(VersionFault::Unknown)),
    }
}
