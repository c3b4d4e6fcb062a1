//! That sound parts of a case have a text, how it looks, and which parts have none.
use case_text::{
    CaseTextFault, ClusterPart, ColumnPart, IndexPart, KeyPart, TablePart, ToastPart, Unique,
    case_text,
};
use key_orders::ColType;
use rel_files::Cluster;
use std::alloc::{AllocError, Global};
use std::test::Fail;

const COUNTERS: Cluster = Cluster {
    next_xid: 800,
    oldest_xid: 700,
    next_multi: 0,
    oldest_multi: 1,
    next_member: 0,
};

fn cluster_part(alloc: Global, segment_blocks: u32) -> Result<ClusterPart, AllocError> {
    let xact = String::from_str(alloc, "pg_xact")?;
    let offsets = String::from_str(alloc, "o")?;
    let members = String::from_str(alloc, "m")?;
    Ok(ClusterPart {
        segment_blocks,
        counters: COUNTERS,
        xact,
        offsets,
        members,
    })
}

fn column_part(alloc: Global, name: &str, ctype: ColType) -> Result<ColumnPart, AllocError> {
    Ok(ColumnPart {
        name: String::from_str(alloc, name)?,
        ctype,
        missing: None,
    })
}

// The column `id`, an int4 with a missing value.
fn id_part(alloc: Global, missing: &[u8]) -> Result<ColumnPart, AllocError> {
    let bytes = Vec::from_slice(alloc, missing)?;
    Ok(ColumnPart {
        name: String::from_str(alloc, "id")?,
        ctype: ColType::Int4,
        missing: Some(bytes),
    })
}

fn add_columns(alloc: Global, out: &mut Vec<ColumnPart>, row: &Row) -> Result<(), AllocError> {
    out.push(id_part(alloc, row.missing)?)?;
    out.push(column_part(alloc, row.second, ColType::Text)?)?;
    let fixed = ColType::Fixed { len: 6, align: 2 };
    out.push(column_part(alloc, "f", fixed)?)?;
    let varlena = ColType::Varlena { align: 8 };
    out.push(column_part(alloc, "v", varlena)?)?;
    Ok(())
}

// An index on one column that includes another.
fn index_part(alloc: Global, row: &Row) -> Result<IndexPart, AllocError> {
    let key = KeyPart {
        column: row.key,
        desc: true,
        nulls_first: false,
    };
    let name = String::from_str(alloc, "i")?;
    let file = String::from_str(alloc, "17")?;
    let keys = Vec::from_slice(alloc, &[key])?;
    let more = Vec::from_slice(alloc, &[row.included])?;
    Ok(IndexPart {
        name,
        file,
        keys,
        more,
        unique: Unique::NullsEqual,
    })
}

fn toast_part(alloc: Global) -> Result<ToastPart, AllocError> {
    Ok(ToastPart {
        file: String::from_str(alloc, "19")?,
        oid: 19,
    })
}

fn table_part(alloc: Global, row: &Row) -> Result<TablePart, AllocError> {
    let mut out = TablePart {
        file: String::from_str(alloc, "16")?,
        toast: None,
        columns: Vec::new(alloc),
        indexes: Vec::new(alloc),
    };
    out.toast = Some(toast_part(alloc)?);
    add_columns(alloc, &mut out.columns, row)?;
    out.indexes.push(index_part(alloc, row)?)?;
    Ok(out)
}

// What differs from sound parts, and the text or the refusal that is wanted.
struct Row {
    blocks: u32,
    missing: &'static [u8],
    second: &'static str,
    key: u16,
    included: u16,
    want: &'static str,
}

const TEXT: &str = "segment_blocks = 131072

[cluster]
members = \"m\"
next_member = 0
next_multi = 0
next_xid = 800
offsets = \"o\"
oldest_multi = 1
oldest_xid = 700
xact = \"pg_xact\"

[[column]]
missing = \"01020304\"
name = \"id\"
type = \"int4\"

[[column]]
name = 'a\"b'
type = \"text\"

[[column]]
align = 2
len = 6
name = \"f\"
type = \"fixed\"

[[column]]
align = 8
name = \"v\"
type = \"varlena\"

[heap]
file = \"16\"
toast_file = \"19\"
toast_oid = 19

[[index]]
file = \"17\"
include = [\"v\"]
name = \"i\"
nulls_not_distinct = true
unique = true

[[index.key]]
column = 'a\"b'
desc = true
nulls_first = false
";

const SOUND: Row = Row {
    blocks: 131072,
    missing: b"\x01\x02\x03\x04",
    second: "a\"b",
    key: 1,
    included: 3,
    want: TEXT,
};

const ROWS: [Row; 9] = [
    SOUND,
    Row {
        blocks: 0,
        want: "C4 segment_blocks",
        ..SOUND
    },
    Row {
        missing: b"\x01\x02",
        want: "C4 column[0].missing",
        ..SOUND
    },
    Row {
        second: "",
        want: "C4 column[1].name",
        ..SOUND
    },
    Row {
        second: "v",
        want: "not found",
        ..SOUND
    },
    Row {
        second: "v",
        included: 1,
        want: "C5 column[3].name",
        ..SOUND
    },
    Row {
        key: 2,
        want: "not found",
        ..SOUND
    },
    Row {
        key: 4,
        want: "not found",
        ..SOUND
    },
    Row {
        included: 4,
        want: "not found",
        ..SOUND
    },
];

fn refusal(alloc: Global, code: &str, place: &[u8]) -> Result<String, Fail> {
    let place = std::str::from_utf8(place).ok().ok_or("no text")?;
    Ok(format!(in alloc; "{code} {place}")?)
}

// The text of the parts, or why they have none.
fn outcome(alloc: Global, row: &Row) -> Result<String, Fail> {
    let cluster = cluster_part(alloc, row.blocks)?;
    let table = table_part(alloc, row)?;
    match case_text(alloc, &cluster, &table) {
        Ok(text) => Ok(text),
        Err(CaseTextFault::NotFound) => Ok(String::from_str(alloc, "not found")?),
        Err(CaseTextFault::Refused { rule, place }) => {
            refusal(alloc, rule.code(), place.as_slice())
        }
        Err(CaseTextFault::NoMemory) => Ok(String::from_str(alloc, "no memory")?),
    }
}

#[test]
fn parts_have_their_texts(rt: HostRuntime) -> Result<(), Fail> {
    for row in &ROWS {
        let found = outcome(rt.alloc(), row)?;
        assert!(rt; found.as_str() == row.want, "{found}");
    }
    Ok(())
}
