//! The version of a server, in a file PG_VERSION.
ghost use Rattle.std.specs.Prelude.{◌≡◌, ℕ, List, Some};
ghost use Rattle.cluster_control.specs.declared.version.MajorVersion.{MajorVersion as VersionSaid};
ghost use Rattle.cluster_control.specs.Version.{IsVersion, number_of, version_by, version_said};

use thiserror::Error;

/// Which server a cluster is of.
#[derive(Clone, Copy, Debug, PartialEq, Eq)]
pub enum MajorVersion {
    V13,
    V14,
    V15,
    V16,
    V17,
}

/// Why a file PG_VERSION is refused.
#[derive(Clone, Copy, Debug, PartialEq, Eq, Error)]
pub enum VersionFault {
    /// There is no such file.
    #[error("PG_VERSION isn't there")]
    NotThere,
    /// It isn't a decimal number of 13 to 17 and a line feed.
    #[error("PG_VERSION has no version of 13 to 17")]
    Unknown,
}

impl MajorVersion {
    /// Its number: 13 to 17.
    pub fn number(self) -> u32
        ensures { result ≡ number_of self }
    {
        match self {
            MajorVersion::V13 => 13,
            MajorVersion::V14 => 14,
            MajorVersion::V15 => 15,
            MajorVersion::V16 => 16,
            MajorVersion::V17 => 17,
        }
    }
}

// The version by its second digit.
fn version_by(digit: u8) -> Option<MajorVersion>
    ensures { result ≡ version_by digit }
{
    match digit {
        b'3' => Some(MajorVersion::V13),
        b'4' => Some(MajorVersion::V14),
        b'5' => Some(MajorVersion::V15),
        b'6' => Some(MajorVersion::V16),
        b'7' => Some(MajorVersion::V17),
        _ => None,
    }
}

/// The version that the bytes of a file PG_VERSION say: a decimal number of 13 to 17 and a line feed, and nothing else.
pub fn read_version(bytes: &[u8]) -> Option<MajorVersion>
    ensures { result ≡ version_said bytes.now }
{
    match bytes {
        [b'1', digit, b'\n'] => version_by(*digit),
        _ => None,
    }
}

/// What `read_version` tells of bytes is the version that they are, and it tells it of all that are one.
pub fn versions_are_told_exactly()
    ensures is { (bytes : List ℕ) (version : VersionSaid) → version_said bytes ≡ Some version
        → IsVersion bytes version }
    ensures alone { (bytes : List ℕ) (version : VersionSaid) → IsVersion bytes version
        → version_said bytes ≡ Some version }
{}
