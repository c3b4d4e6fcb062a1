//! The paths of folders and files.
ghost use Rattle.std.specs.Prelude.{◌≡◌, IfOk, string_bytes};
ghost use Rattle.cluster_map.specs.Paths.{below, folder_in, folder_of_space, relation_path, space_of, version_folder};

use cluster_control::MajorVersion;
use outside::NoMemory;
use std::alloc::{AllocError, Global};

// The tablespace of shared relations, and the default one (`catalog/pg_tablespace.dat`).
const GLOBAL_SPACE: u32 = 1664;

const DEFAULT_SPACE: u32 = 1663;

/// A database, by its number, and the tablespace that pg_database gives it.
#[derive(Clone, Copy, Debug, PartialEq, Eq)]
pub struct Database {
    pub oid: u32,
    pub tablespace: u32,
}

/// What names the folder of a server's version in a tablespace: the server's version, and that of its catalogs.
#[derive(Clone, Copy, Debug, PartialEq, Eq)]
pub struct SpaceVersion {
    pub major: MajorVersion,
    pub catalog: u32,
}

/// The tablespace of a relation: its own, or where that is 0 its database's.
pub fn space_of(database: Database, own: u32) -> u32
    ensures { result ≡ space_of database own }
{
    if own == 0 { database.tablespace } else { own }
}

// The name of the folder that a version has in a tablespace.
fn version_folder(alloc: Global, major: u32, catalog: u32) -> Result<String, AllocError>
    ensures { IfOk result (λ folder. string_bytes folder ≡ version_folder major catalog) }
{
    format!(in alloc; "PG_{major}_{catalog}")
}

// The folder in a tablespace that is neither the default one nor that of shared relations.
fn folder_of_space(
    alloc: Global,
    version: &str,
    space: u32,
    database: u32,
) -> Result<String, AllocError>
    ensures { IfOk result (λ folder. string_bytes folder ≡ folder_of_space version.now space database) }
{
    format!(in alloc; "pg_tblspc/{space}/{version}/{database}")
}

/// The folder of a database's relations in a tablespace, below the data directory: `global` in the one of shared
/// relations, `base/DATABASE` in the default one, and `pg_tblspc/SPACE/PG_MAJOR_CATALOG/DATABASE` in all others. That
/// of a database itself is the one in its own tablespace.
#[tactic(auto, unfolding(crate::specs::Paths::folder_in))]
pub fn folder_in(
    alloc: Global,
    version: SpaceVersion,
    database: Database,
    space: u32,
) -> Result<String, NoMemory>
    ensures { IfOk result (λ folder. string_bytes folder ≡ folder_in version database space) }
{
    if space == GLOBAL_SPACE {
        return Ok(String::from_str(alloc, "global")?);
    }
    let oid = database.oid;
    if space == DEFAULT_SPACE {
        return Ok(format!(in alloc; "base/{oid}")?);
    }
    let name = version_folder(alloc, version.major.number(), version.catalog)?;
    Ok(folder_of_space(alloc, name.as_str(), space, oid)?)
}

/// The path of a name below a folder.
pub fn path_below(alloc: Global, folder: &str, name: &str) -> Result<String, NoMemory>
    ensures { IfOk result (λ path. string_bytes path ≡ below folder.now name.now) }
{
    Ok(format!(in alloc; "{folder}/{name}")?)
}

/// The path of a relation's first file below the data directory, by its own tablespace and the number of its file.
pub fn relation_path(
    alloc: Global,
    version: SpaceVersion,
    database: Database,
    own: u32,
    file: u32,
) -> Result<String, NoMemory>
    ensures { IfOk result (λ path. string_bytes path ≡ relation_path version database own file) }
{
    let folder = folder_in(alloc, version, database, space_of(database, own))?;
    Ok(format!(in alloc; "{folder}/{file}")?)
}
