//! What a table's case tells, in parts as the catalogs have them.
use case_file::Unique;
use key_orders::ColType;
use rel_files::Cluster;

/// What the cases of all tables of a cluster tell alike.
#[derive(Drop)]
pub struct ClusterPart {
    /// The blocks of a full segment of a file, from 1 to 131072 in a text that is read (`RELSEG_SIZE`).
    pub segment_blocks: u32,
    /// The transaction numbers, as `pg_controldata` prints them. The next multixact 0 is taken as 1.
    pub counters: Cluster,
    /// The folder of the transactions' outcomes (`pg_xact`), from 1 to 200 bytes, as each path.
    pub xact: String,
    /// The folder that tells where the members of each multixact begin (`pg_multixact/offsets`).
    pub offsets: String,
    /// The folder of the members of the multixacts (`pg_multixact/members`).
    pub members: String,
}

/// A column, dropped ones too (a row of `pg_attribute`).
#[derive(Drop)]
pub struct ColumnPart {
    /// Its name, from 1 to 63 bytes; no two columns have one name.
    pub name: String,
    /// How its values are stored (`atttypid`, `attlen`, `attalign`).
    pub ctype: ColType,
    /// The bytes of its value in tuples that are older than the column, as a tuple stores them, of a
    /// varlena the content without a header (`attmissingval`); `None` where no value is kept.
    pub missing: Option<Vec<u8>>,
}

/// A key column of an index (`indkey` and `indoption` of `pg_index`).
#[derive(Clone, Copy)]
pub struct KeyPart {
    /// Which column of the table, counted from 0.
    pub column: u16,
    /// Values fall.
    pub desc: bool,
    /// Nulls stand before all values.
    pub nulls_first: bool,
}

/// A B-tree index (rows of `pg_class` and `pg_index`).
#[derive(Drop)]
pub struct IndexPart {
    /// Its name, from 1 to 63 bytes; no two indexes of the table have one name.
    pub name: String,
    /// The base name of its file.
    pub file: String,
    /// Its key columns in order, from 1 to 8.
    pub keys: Vec<KeyPart>,
    /// The columns that it includes beside them, counted from 0; at most 24.
    pub more: Vec<u16>,
    /// Whether it is unique, and how it takes nulls if it is.
    pub unique: Unique,
}

/// The TOAST table of a table.
#[derive(Drop)]
pub struct ToastPart {
    /// The base name of its file.
    pub file: String,
    /// Its oid (`pg_class.reltoastrelid`), not 0.
    pub oid: u32,
}

/// A table.
#[derive(Drop)]
pub struct TablePart {
    /// The base name of its main file.
    pub file: String,
    /// Its TOAST table, where it has one.
    pub toast: Option<ToastPart>,
    /// Its columns in the order of `attnum`, from 1 to 64.
    pub columns: Vec<ColumnPart>,
    /// Its indexes, at most 32.
    pub indexes: Vec<IndexPart>,
}
