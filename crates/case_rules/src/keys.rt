//! The key table: the tables of a case file, the keys of each, and what is asked of each value.
ghost use Rattle.std.specs.Prelude.{◌≡◌};
ghost use Rattle.case_rules.specs.Keys.{keys_of, late_keys_of, row_of};

/// A table of the document. Columns, indexes and keys of an index count from 0.
#[derive(Clone, Copy, Debug, PartialEq, Eq)]
pub enum Place {
    /// The document as a whole.
    Top,
    Cluster,
    Heap,
    Column(usize),
    Index(usize),
    /// A key column of an index: the index, and the key in it.
    IndexKey(usize, usize),
}

/// A key that the key table lists, named by the table that has it and what it tells.
#[derive(Clone, Copy, Debug, PartialEq, Eq)]
pub enum Key {
    SegmentBlocks,
    ClusterTable,
    NextXid,
    OldestXid,
    NextMulti,
    OldestMulti,
    NextMember,
    XactDir,
    OffsetsDir,
    MembersDir,
    HeapTable,
    HeapFile,
    ToastFile,
    ToastOid,
    Columns,
    ColumnName,
    ColumnType,
    ColumnLen,
    ColumnAlign,
    ColumnMissing,
    Indexes,
    IndexName,
    IndexFile,
    IndexKeys,
    IndexInclude,
    IndexUnique,
    IndexNullsNotDistinct,
    KeyColumn,
    KeyDesc,
    KeyNullsFirst,
}

/// The kind of a value.
#[derive(Clone, Copy, Debug, PartialEq, Eq)]
pub enum Kind {
    Text,
    Integer,
    Boolean,
    Array,
    Table,
    /// An array of which all members are tables.
    Tables,
}

/// When a key has to be there.
#[derive(Clone, Copy, Debug, PartialEq, Eq)]
pub enum Need {
    Always,
    Optional,
    /// With `toast_file`, which has to be there with this one.
    WithToastFile,
    /// With `toast_oid`, which has to be there with this one.
    WithToastOid,
    /// In a column of the type `fixed`, and in no other.
    OfFixed,
    /// In a column of the type `fixed` or `varlena`, and in no other.
    OfStored,
}

/// The values of its kind that a key may have.
#[derive(Clone, Copy, Debug, PartialEq, Eq)]
pub enum Range {
    Any,
    /// The least and the greatest number, length of a text in bytes or count of an array.
    Between(u64, u64),
    /// An alignment that the column's type takes.
    Alignment,
    /// Bytes in hexadecimal, as many as a value of the column's type has.
    StoredBytes,
}

/// A row of the key table.
#[derive(Clone, Copy)]
pub struct KeyRow {
    /// The key as it stands in the text.
    pub word: &'static str,
    pub kind: Kind,
    pub need: Need,
    pub range: Range,
}

// The last transaction id, multixact id, member number and oid.
const LAST_ID: u64 = 4294967295;

fn key_row(word: &'static str, kind: Kind, need: Need, range: Range) -> KeyRow
    ensures word { result.word.now ≡ word.now }
    ensures kind { result.kind ≡ kind }
    ensures need { result.need ≡ need }
    ensures range { result.range ≡ range }
{
    KeyRow {
        word,
        kind,
        need,
        range,
    }
}

/// The row of a key. Ids are from `FirstNormalTransactionId` and `FirstMultiXactId` on
/// (`access/transam.h`, `access/multixact.h`), names have fewer than `NAMEDATALEN` bytes, and a
/// segment has at most `RELSEG_SIZE` blocks (`pg_config.h`).
#[tactic(auto, unfolding(crate::specs::Keys::row_of))]
pub fn row(key: Key) -> KeyRow
    ensures word { result.word.now ≡ (row_of key).word }
    ensures kind { result.kind ≡ (row_of key).kind }
    ensures need { result.need ≡ (row_of key).need }
    ensures range { result.range ≡ (row_of key).range }
{
    use Kind::{Array, Boolean, Integer, Table, Tables, Text};
    use Need::{Always, OfFixed, OfStored, Optional, WithToastFile, WithToastOid};
    use Range::{Alignment, Any, Between, StoredBytes};
    match key {
        Key::SegmentBlocks => key_row("segment_blocks", Integer, Optional, Between(1, 131072)),
        Key::ClusterTable => key_row("cluster", Table, Always, Any),
        Key::NextXid => key_row("next_xid", Integer, Always, Between(3, LAST_ID)),
        Key::OldestXid => key_row("oldest_xid", Integer, Always, Between(3, LAST_ID)),
        Key::NextMulti => key_row("next_multi", Integer, Always, Between(0, LAST_ID)),
        Key::OldestMulti => key_row("oldest_multi", Integer, Always, Between(1, LAST_ID)),
        Key::NextMember => key_row("next_member", Integer, Always, Between(0, LAST_ID)),
        Key::XactDir => key_row("xact", Text, Always, Between(1, 200)),
        Key::OffsetsDir => key_row("offsets", Text, Always, Between(1, 200)),
        Key::MembersDir => key_row("members", Text, Always, Between(1, 200)),
        Key::HeapTable => key_row("heap", Table, Always, Any),
        Key::HeapFile => key_row("file", Text, Always, Between(1, 200)),
        Key::ToastFile => key_row("toast_file", Text, WithToastOid, Between(1, 200)),
        Key::ToastOid => key_row("toast_oid", Integer, WithToastFile, Between(1, LAST_ID)),
        Key::Columns => key_row("column", Tables, Always, Between(1, 64)),
        Key::ColumnName => key_row("name", Text, Always, Between(1, 63)),
        Key::ColumnType => key_row("type", Text, Always, Any),
        Key::ColumnLen => key_row("len", Integer, OfFixed, Between(1, 8000)),
        Key::ColumnAlign => key_row("align", Integer, OfStored, Alignment),
        Key::ColumnMissing => key_row("missing", Text, Optional, StoredBytes),
        Key::Indexes => key_row("index", Tables, Optional, Between(0, 32)),
        Key::IndexName => key_row("name", Text, Always, Between(1, 63)),
        Key::IndexFile => key_row("file", Text, Always, Between(1, 200)),
        Key::IndexKeys => key_row("key", Tables, Always, Between(1, 8)),
        Key::IndexInclude => key_row("include", Array, Optional, Between(0, 24)),
        Key::IndexUnique => key_row("unique", Boolean, Optional, Any),
        Key::IndexNullsNotDistinct => key_row("nulls_not_distinct", Boolean, Optional, Any),
        Key::KeyColumn => key_row("column", Text, Always, Any),
        Key::KeyDesc => key_row("desc", Boolean, Optional, Any),
        Key::KeyNullsFirst => key_row("nulls_first", Boolean, Optional, Any),
    }
}

/// The keys that a table may have; of an index those that are asked before its key columns.
#[tactic(auto, unfolding(crate::specs::Keys::keys_of))]
pub fn place_keys(place: Place) -> &'static [Key]
    ensures { result.now ≡ keys_of place }
{
    match place {
        Place::Top => &[
            Key::SegmentBlocks,
            Key::ClusterTable,
            Key::HeapTable,
            Key::Columns,
            Key::Indexes,
        ],
        Place::Cluster => &[
            Key::NextXid,
            Key::OldestXid,
            Key::NextMulti,
            Key::OldestMulti,
            Key::NextMember,
            Key::XactDir,
            Key::OffsetsDir,
            Key::MembersDir,
        ],
        Place::Heap => &[Key::HeapFile, Key::ToastFile, Key::ToastOid],
        Place::Column(_) => &[
            Key::ColumnName,
            Key::ColumnType,
            Key::ColumnLen,
            Key::ColumnAlign,
            Key::ColumnMissing,
        ],
        Place::Index(_) => &[Key::IndexName, Key::IndexFile, Key::IndexKeys],
        Place::IndexKey(_, _) => &[Key::KeyColumn, Key::KeyDesc, Key::KeyNullsFirst],
    }
}

/// And those that are asked behind them.
#[tactic(auto, unfolding(crate::specs::Keys::late_keys_of))]
pub fn late_keys(place: Place) -> &'static [Key]
    ensures { result.now ≡ late_keys_of place }
{
    match place {
        Place::Index(_) => &[
            Key::IndexInclude,
            Key::IndexUnique,
            Key::IndexNullsNotDistinct,
        ],
        _ => &[],
    }
}
