//! CRCs, versions and paths.
use crate::checks::{holds, same};
use crate::laid::{FILE, held};
use cluster_control::MajorVersion::{V13, V14, V15, V16, V17};
use cluster_control::{
    MajorVersion, VersionFault, crc32c, has_crc_behind, read_version, u64_at, version_of_files,
};
use cluster_map::{Database, SpaceVersion, folder_in, path_below, relation_path, space_of};
use memory_files::MemFiles;
use rel_files::ReadFault;
use std::alloc::Global;
use std::process::Abort;
use std::test::Fail;

// Of RFC 3720, B.4, and by another program, which divides polynomials.
const CRCS: [(&[u8], u32); 5] = [
    (b"", 0),
    (b"a", 0xC1D04330),
    (b"123456789", 0xE3069283),
    (&[0; 32], 0x8A9136AA),
    (&[0xff; 32], 0x62A8AB43),
];

#[test]
fn crcs_are_those_of_the_standard(rt: HostRuntime) {
    for (bytes, want) in CRCS {
        same(&rt, &crc32c(bytes), &want, 0);
    }
    holds(&rt, has_crc_behind(b"123456789\x83\x92\x06\xe3", 9), 1);
    holds(&rt, !has_crc_behind(b"123456789\x83\x92\x06\xe4", 9), 2);
    same(
        &rt,
        &u64_at(b"\xff\x01\0\0\0\0\0\0\x02", 1),
        &0x0200000000000001,
        3,
    );
}

// The bytes of PG_VERSION.
const VERSIONS: [(&[u8], Option<MajorVersion>, u32); 13] = [
    (b"13\n", Some(V13), 13),
    (b"14\n", Some(V14), 14),
    (b"15\n", Some(V15), 15),
    (b"16\n", Some(V16), 16),
    (b"17\n", Some(V17), 17),
    (b"", None, 0),
    (b"15", None, 0),
    (b"12\n", None, 0),
    (b"18\n", None, 0),
    (b"015\n", None, 0),
    (b"15\r\n", None, 0),
    (b"15\n\n", None, 0),
    (b"+5\n", None, 0),
];

fn expect_versions(rt: &impl Abort, alloc: Global) -> Result<(), Fail> {
    let mut row = 0u32;
    for (bytes, want, number) in VERSIONS {
        row = row.wrapping_add(1);
        same(rt, &read_version(bytes), &want, row);
        same(
            rt,
            &want.map_or(0, |version| version.number()),
            &number,
            row,
        );
        let told = version_of_files(&mut held(alloc, bytes)?, FILE)?;
        same(rt, &told, &want.ok_or(VersionFault::Unknown), row);
    }
    Ok(())
}

#[test]
fn versions_are_told_or_refused(rt: HostRuntime) -> Result<(), Fail> {
    expect_versions(&rt, rt.alloc())?;
    let mut files: MemFiles = held(rt.alloc(), b"15\n")?;
    let absent = version_of_files(&mut files, "none");
    same(&rt, &absent, &Ok(Err(VersionFault::NotThere)), 100);
    files.fail_length(1)?;
    files.fail_read(1)?;
    same(
        &rt,
        &version_of_files(&mut files, FILE),
        &Err(ReadFault),
        101,
    );
    same(
        &rt,
        &version_of_files(&mut files, FILE),
        &Err(ReadFault),
        102,
    );
    same(&rt, &version_of_files(&mut files, FILE), &Ok(Ok(V15)), 103);
    Ok(())
}

// A relation's own tablespace, that of its database, which of them it is in, and its folder.
const FOLDERS: [(u32, u32, u32, &str); 7] = [
    (0, 1663, 1663, "base/5"),
    (0, 16399, 16399, "pg_tblspc/16399/PG_15_202209061/5"),
    (1663, 16399, 1663, "base/5"),
    (1664, 1663, 1664, "global"),
    (1664, 16399, 1664, "global"),
    (16400, 1663, 16400, "pg_tblspc/16400/PG_15_202209061/5"),
    (16400, 16399, 16400, "pg_tblspc/16400/PG_15_202209061/5"),
];

const VERSION: SpaceVersion = SpaceVersion {
    major: V15,
    catalog: 202209061,
};

#[test]
fn folders_and_paths_are_the_servers(rt: HostRuntime) -> Result<(), Fail> {
    for (own, tablespace, space, want) in FOLDERS {
        let database = Database { oid: 5, tablespace };
        same(&rt, &space_of(database, own), &space, own);
        let folder = folder_in(rt.alloc(), VERSION, database, space)?;
        assert!(rt; folder.as_str() == want, "{own}");
        let path = relation_path(rt.alloc(), VERSION, database, own, 1259)?;
        let want = format!(in rt.alloc(); "{want}/1259")?;
        assert!(rt; path.as_str() == want.as_str(), "{own}");
    }
    let path = path_below(rt.alloc(), "/d", "global/pg_control")?;
    assert!(rt; path.as_str() == "/d/global/pg_control");
    Ok(())
}
