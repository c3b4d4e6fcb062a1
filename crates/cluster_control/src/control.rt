//! The control file.
ghost use Rattle.std.specs.Prelude.{◌≡◌, ◌+◌, ◌≤◌, length, ℕ, List, Result};
ghost use Rattle.cluster_control.specs.Control.{SaysTrue, control_of, control_said, is_known_version, is_this_build};
ghost use Rattle.cluster_control.specs.Control.{numbers_of, u64_at};
ghost use Rattle.cluster_control.specs.declared.control.ControlFile.{ControlFile as ControlSaid};
ghost use Rattle.cluster_control.specs.declared.fault.ControlFault.{ControlFault as FaultSaid};

use crate::crc::has_crc_behind;
use crate::fault::ControlFault;
use crate::state::ClusterState;
use byteorder::{ByteOrder, LittleEndian};
use page_layout::u32_at;
use rel_files::Cluster;

/// How many bytes the control file has (`catalog/pg_control.h`, `PG_CONTROL_FILE_SIZE`).
pub const CONTROL_BYTES: usize = 8192;

// Where the CRC stands, behind all that it is made of.
const CRC_PLACE: usize = 288;

// The float 1234567.0, by its bits.
const FLOAT_MARK: u64 = 0x4132_D687_0000_0000;

/// What the control file says of a cluster (`catalog/pg_control.h`, `ControlFileData`).
#[derive(Clone, Copy, Debug, PartialEq, Eq)]
pub struct ControlFile {
    /// The number that the cluster was given when it was made.
    pub system_identifier: u64,
    /// The version of the file's own layout: 1300 or 1700.
    pub control_version: u32,
    /// The version of the catalogs, which names the folders of tablespaces.
    pub catalog_version: u32,
    pub state: ClusterState,
    /// The place of the last checkpoint in the log, in bytes.
    pub checkpoint: u64,
    /// The timeline of that place.
    pub timeline: u32,
    /// The next transaction, with its epoch in the upper half.
    pub next_xid: u64,
    /// The next multixact.
    pub next_multi: u32,
    /// The number of the next multixact member.
    pub next_member: u32,
    /// The oldest transaction that may stand unfrozen in a table.
    pub oldest_xid: u32,
    /// The oldest multixact that may stand in a table.
    pub oldest_multi: u32,
    /// How many blocks a full segment of a relation has.
    pub segment_blocks: u32,
    /// How many bytes a file of the log has.
    pub log_file_bytes: u32,
    /// Whether pages carry checksums.
    pub has_checksums: bool,
}

impl ControlFile {
    /// The numbers by which transactions are judged, as a case has them: the next transaction is without its epoch.
    pub fn numbers(&self) -> Cluster
        ensures { result ≡ numbers_of self.now }
    {
        Cluster {
            next_xid: (self.next_xid % (1 << 32)) as u32,
            oldest_xid: self.oldest_xid,
            next_multi: self.next_multi,
            oldest_multi: self.oldest_multi,
            next_member: self.next_member,
        }
    }
}

/// The number in the eight bytes at a place, the lowest byte first.
#[tactic(auto, unfolding(crate::specs::Control::u64_at))]
pub fn u64_at(bytes: &[u8], at: usize) -> u64
    requires { at + 8 ≤ length bytes.now }
    ensures { result ≡ u64_at bytes.now at }
{
    LittleEndian::read_u64(&bytes[at..])
}

// Whether the layout of this version is known.
fn is_known_version(version: u32) -> bool
    ensures { result ≡ is_known_version version }
{
    version == 1300 || version == 1700
}

// Whether the server that wrote these bytes is built as this program is.
#[tactic(auto, unfolding(crate::specs::Control::is_this_build))]
fn is_this_build(bytes: &[u8; CONTROL_BYTES]) -> bool
    ensures { result ≡ is_this_build bytes.now }
{
    u32_at(bytes, 204) == 8
        && u64_at(bytes, 208) == FLOAT_MARK
        && u32_at(bytes, 216) == 8192
        && u32_at(bytes, 232) == 64
}

// What the bytes say, place by place.
#[tactic(auto, unfolding(crate::specs::Control::control_of))]
fn control_of(bytes: &[u8; CONTROL_BYTES]) -> ControlFile
    ensures { result ≡ control_of bytes.now }
{
    ControlFile {
        system_identifier: u64_at(bytes, 0),
        control_version: u32_at(bytes, 8),
        catalog_version: u32_at(bytes, 12),
        state: ClusterState::from_number(u32_at(bytes, 16)),
        checkpoint: u64_at(bytes, 32),
        timeline: u32_at(bytes, 48),
        next_xid: u64_at(bytes, 64),
        next_multi: u32_at(bytes, 76),
        next_member: u32_at(bytes, 80),
        oldest_xid: u32_at(bytes, 84),
        oldest_multi: u32_at(bytes, 92),
        segment_blocks: u32_at(bytes, 220),
        log_file_bytes: u32_at(bytes, 228),
        has_checksums: u32_at(bytes, 252) != 0,
    }
}

/// What the bytes of a control file say of a cluster that was shut down, of which the first 292 are looked at.
///
/// Refused, in this order, are: a wrong CRC (`WrongCrc`); a version other than 1300 and 1700 (`UnknownVersion`);
/// another alignment than 8, another float than 1234567.0, other blocks than of 8192 bytes, or names of another
/// length than 64 (`OtherBuild`); and a state other than 'shut down' (`NotShutDown`).
#[tactic(auto, unfolding(crate::specs::Control::control_said))]
pub fn read_control(bytes: &[u8; CONTROL_BYTES]) -> Result<ControlFile, ControlFault>
    ensures { result ≡ control_said bytes.now }
{
    if !has_crc_behind(bytes, CRC_PLACE) {
        return Err(ControlFault::WrongCrc);
    }
    let version = u32_at(bytes, 8);
    if !is_known_version(version) {
        return Err(ControlFault::UnknownVersion(version));
    }
    if !is_this_build(bytes) {
        return Err(ControlFault::OtherBuild);
    }
    match ClusterState::from_number(u32_at(bytes, 16)) {
        ClusterState::ShutDown => Ok(control_of(bytes)),
        state => Err(ControlFault::NotShutDown(state)),
    }
}

/// What `read_control` tells of bytes is true by `SaysTrue`, in the words of each answer, and nothing else is.
pub fn control_is_told_exactly()
    ensures is { (bytes : List ℕ) → SaysTrue bytes (control_said bytes) }
    ensures alone { (bytes : List ℕ) (other : Result ControlSaid FaultSaid) → SaysTrue bytes other
        → other ≡ control_said bytes }
{}
