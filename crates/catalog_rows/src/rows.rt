//! A row of each catalog, as far as it says what the tables of a database are. Beside each field stands the name of the
//! column in the manual, where the section of the catalog says what it means. A number of two bytes is below 0 where
//! the manual says so.
use key_orders::Octets;

/// A row of `pg_class`: a relation, which is a table, an index, a TOAST table, or another thing that has columns.
#[derive(Drop)]
pub struct ClassRow {
    /// `oid`
    pub oid: u32,
    /// `relname`
    pub name: Octets,
    /// `relnamespace`: the schema.
    pub namespace: u32,
    /// `relam`: the access method, 0 for a relation without one.
    pub access_method: u32,
    /// `relfilenode`: the number in the name of its file. 0 where it has no file, or where a map tells the number.
    pub file_number: u32,
    /// `reltablespace`: the tablespace, 0 for that of the database.
    pub tablespace: u32,
    /// `reltoastrelid`: its TOAST table, 0 where it has none.
    pub toast_table: u32,
    /// `relpersistence`: `p` permanent, `u` unlogged, `t` temporary.
    pub persistence: u8,
    /// `relkind`: `r` ordinary table, `i` index, `S` sequence, `t` TOAST table, `v` view, `m` materialized view,
    /// `c` composite type, `f` foreign table, `p` partitioned table, `I` partitioned index.
    pub kind: u8,
    /// `relisshared`: it is one for all databases of the cluster.
    pub is_shared: bool,
    /// `relnatts`: how many columns it has, dropped ones among them, without those of the system.
    pub column_count: i16,
}

/// The default that a column was added with, as its row keeps it: null, or an array of one element.
#[derive(Drop)]
pub enum StoredMissing {
    /// Null.
    Absent,
    /// The content of the array, without the header that tells its length.
    Plain(Octets),
    /// The array is compressed in the row.
    Compressed,
    /// The array stands in a TOAST table.
    Elsewhere,
}

/// A row of `pg_attribute`: a column of a relation.
#[derive(Drop)]
pub struct AttributeRow {
    /// `attrelid`: the relation.
    pub relation: u32,
    /// `attname`
    pub name: Octets,
    /// `atttypid`: the type, 0 of a dropped column.
    pub type_oid: u32,
    /// `attlen`: the bytes of a value, -1 for a varlena, -2 for a text that ends with a byte of 0.
    pub stored_length: i16,
    /// `attnum`: from 1 on, below 0 for columns of the system.
    pub number: i16,
    /// `attalign`: values stand at multiples of 1 (`c`), 2 (`s`), 4 (`i`) or 8 (`d`).
    pub alignment: u8,
    /// `attisdropped`
    pub is_dropped: bool,
    /// `atthasmissing`: rows that are older than the column have the missing value.
    pub has_missing: bool,
    /// `attmissingval`
    pub missing: StoredMissing,
}

/// A row of `pg_type`: a type.
#[derive(Drop)]
pub struct TypeRow {
    /// `oid`
    pub oid: u32,
    /// `typtype`: `b` base type, `c` composite, `d` domain, `e` enum, `p` pseudo-type, `r` range, `m` multirange.
    pub kind: u8,
    /// `typbasetype`: of a domain, the type that it is made of; else 0.
    pub base_type: u32,
    /// `typlen`: as `attlen`.
    pub stored_length: i16,
    /// `typalign`: as `attalign`.
    pub alignment: u8,
}

/// A row of `pg_index`: what an index has beside its row of `pg_class`. The four lists are contents of vectors, which
/// `int2_vector` and `oid_vector` read.
#[derive(Drop)]
pub struct IndexRow {
    /// `indexrelid`: the index.
    pub index: u32,
    /// `indrelid`: its table.
    pub table: u32,
    /// `indnatts`: how many columns it has, included ones among them.
    pub column_count: i16,
    /// `indnkeyatts`: how many of them are its key.
    pub key_column_count: i16,
    /// `indisunique`
    pub is_unique: bool,
    /// `indnullsnotdistinct`: nulls are equal to each other. Before version 15 there is no such column: false.
    pub nulls_not_distinct: bool,
    /// `indisvalid`
    pub is_valid: bool,
    /// `indisready`
    pub is_ready: bool,
    /// `indislive`
    pub is_live: bool,
    /// `indkey`, an int2vector: for each column its number in the table, 0 for an expression.
    pub columns: Octets,
    /// `indcollation`, an oidvector: for each column of the key its collation, 0 where its type has none.
    pub collations: Octets,
    /// `indclass`, an oidvector: for each column of the key its operator class.
    pub operator_classes: Octets,
    /// `indoption`, an int2vector: for each column of the key two flags.
    pub options: Octets,
    /// `indexprs` isn't null: some column is an expression.
    pub has_expressions: bool,
    /// `indpred` isn't null: the index has only the rows that a predicate takes.
    pub has_predicate: bool,
}

/// A row of `pg_namespace`: a schema.
#[derive(Drop)]
pub struct NamespaceRow {
    /// `oid`
    pub oid: u32,
    /// `nspname`
    pub name: Octets,
}

/// A row of `pg_opclass`: an operator class.
#[derive(Drop)]
pub struct OperatorClassRow {
    /// `oid`
    pub oid: u32,
    /// `opcname`
    pub name: Octets,
    /// `opcnamespace`: its schema.
    pub namespace: u32,
}

/// A row of `pg_am`: an access method.
#[derive(Drop)]
pub struct AccessMethodRow {
    /// `oid`
    pub oid: u32,
    /// `amname`
    pub name: Octets,
}

/// A row of `pg_collation`: a collation.
#[derive(Drop)]
pub struct CollationRow {
    /// `oid`
    pub oid: u32,
    /// `collprovider`: `d` the database's own, `b` builtin, `c` the operating system, `i` ICU.
    pub provider: u8,
    /// `collcollate`: the operating system's name for the order, null where another provider has it.
    pub collate: Option<Octets>,
}

/// A row of `pg_database`: a database of the cluster.
#[derive(Drop)]
pub struct DatabaseRow {
    /// `oid`
    pub oid: u32,
    /// `datname`
    pub name: Octets,
    /// `encoding`: the number of the encoding of its texts.
    pub encoding: i32,
    /// `datistemplate`
    pub is_template: bool,
    /// `datallowconn`: false where it lets nobody in.
    pub allows_connections: bool,
    /// `dattablespace`: the tablespace of its relations that name none.
    pub tablespace: u32,
    /// `datlocprovider`: `c` the operating system, `i` ICU, `b` builtin. Before version 15 there is no such column, and
    /// this is `c`.
    pub provider: u8,
    /// `datcollate`: the operating system's name for the order of its texts.
    pub collate: Octets,
}
