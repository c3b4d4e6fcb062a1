//! A case, and what it tells.
ghost use Rattle.std.specs.Prelude.{◌≡◌, ◌-◌, ◌<◌, ◌≤◌, length, map, option_map, string_bytes, position, Some, IfSome};
ghost use Rattle.std.specs.List.{slice_get};
ghost use Rattle.std.specs.Str.{bytes_eq};
ghost use Rattle.case_file.specs.Record.{index_named};
ghost use Rattle.case_file.specs.Sound.{IsSound};

use key_orders::{ColType, KeySpec, MoreSpec, Value};
use rel_files::Cluster;
use std::marker::Model;

/// A column of the table, as a row of `pg_attribute` tells it. A dropped column is one too: its
/// values still stand in old tuples.
#[derive(Drop)]
pub struct Column {
    /// How its values are stored (`atttypid`, `attlen`, `attalign`).
    pub ctype: ColType,
    /// Its value in tuples with fewer attributes, which are older than the column
    /// (`attmissingval`); `Null` where none is kept. A type that may be no key has the stored
    /// bytes, and a varlena its content without a header.
    pub missing: Value,
}

/// Whether an index is unique, and whether one that is takes nulls as equal (`UNIQUE` and `NULLS NOT
/// DISTINCT` in PostgreSQL's manual, `CREATE INDEX`; `indisunique` and `indnullsnotdistinct` of
/// `pg_index`).
#[derive(Clone, Copy, Debug, PartialEq, Eq)]
pub enum Unique {
    /// Rows of the table may have equal keys.
    No,
    /// No two rows may have equal keys. A null differs from every value and from other nulls, so a
    /// key with a null equals no key.
    NullsDistinct,
    /// No two rows may have equal keys, and a null equals a null.
    NullsEqual,
}

/// An index of the case.
#[derive(Drop)]
pub struct Index {
    name: String,
    file: String,
    keys: Vec<KeySpec>,
    more: Vec<MoreSpec>,
    unique: Unique,
}

impl Model for Index {
    ghost use Rattle.std.specs.Prelude.{string_bytes};
    ghost use Rattle.case_file.specs.Record.{IndexRecord};

    ghost Value = { IndexRecord };

    ghost view = { λ i. record {
      name = string_bytes i.name;
      file = string_bytes i.file;
      keys = i.keys.items;
      more = i.more.items;
      unique = i.unique;
    } };
}

/// The TOAST table of the case.
#[derive(Drop)]
pub struct Toast {
    file: String,
    oid: u32,
}

impl Model for Toast {
    ghost use Rattle.std.specs.Prelude.{ℕ, List, string_bytes};

    ghost Value = { List ℕ × ℕ };

    ghost view = { λ t. (string_bytes t.file, t.oid) };
}

/// One table of a stopped cluster: which files belong to it, the storage of its columns, its
/// indexes, and the numbers of the cluster.
///
/// File and folder names are base names, as a file object takes them: the first segment has the
/// base name itself, and further segments `.1`, `.2` and so on. The base name of the visibility map
/// is the heap's with `_vm` added.
#[derive(Drop)]
pub struct Case {
    pub(crate) segment_blocks: u32,
    pub(crate) cluster: Cluster,
    pub(crate) xact: String,
    pub(crate) offsets: String,
    pub(crate) members: String,
    pub(crate) heap_file: String,
    pub(crate) toast: Option<Toast>,
    pub(crate) columns: Vec<Column>,
    pub(crate) types: Vec<ColType>,
    pub(crate) indexes: Vec<Index>,
}

impl Model for Case {
    ghost use Rattle.std.specs.Prelude.{◌≡◌, map, string_bytes};
    ghost use Rattle.case_file.specs.Record.{CaseRecord};
    ghost use Rattle.case_file.specs.Sound.{IsSound};

    ghost Value = { CaseRecord };

    ghost view = { λ c. record {
      segment_blocks = c.segment_blocks;
      cluster = c.cluster;
      xact = string_bytes c.xact;
      offsets = string_bytes c.offsets;
      members = string_bytes c.members;
      heap_file = string_bytes c.heap_file;
      toast = c.toast;
      columns = c.columns.items;
      indexes = c.indexes.items;
    } };

    // Every case is sound, and the types are those of its columns.
    ghost invariant = { λ c. IsSound (record {
      segment_blocks = c.segment_blocks;
      cluster = c.cluster;
      xact = string_bytes c.xact;
      offsets = string_bytes c.offsets;
      members = string_bytes c.members;
      heap_file = string_bytes c.heap_file;
      toast = c.toast;
      columns = c.columns.items;
      indexes = c.indexes.items;
    })
        × (c.types.items ≡ map (λ column. column.ctype) c.columns.items) };
}

impl Index {
    pub fn new(
        name: String,
        file: String,
        keys: Vec<KeySpec>,
        more: Vec<MoreSpec>,
        unique: Unique,
    ) -> Index
        ensures { result ≡ record {
          name = string_bytes name;
          file = string_bytes file;
          keys = keys.items;
          more = more.items;
          unique = unique;
        } }
    {
        Index {
            name,
            file,
            keys,
            more,
            unique,
        }
    }

    fn is_named(&self, name: &str) -> bool
        ensures { result ≡ bytes_eq self.now.name name.now }
    {
        self.name.as_str() == name
    }

    fn file(&self) -> &str
        ensures { result.now ≡ self.now.file }
    {
        self.file.as_str()
    }

    fn keys(&self) -> &[KeySpec]
        ensures { result.now ≡ self.now.keys }
    {
        &self.keys
    }

    fn more(&self) -> &[MoreSpec]
        ensures { result.now ≡ self.now.more }
    {
        &self.more
    }

    fn unique(&self) -> Unique
        ensures { result ≡ self.now.unique }
    {
        self.unique
    }
}

impl Toast {
    pub fn new(file: String, oid: u32) -> Toast
        ensures { result ≡ (string_bytes file, oid) }
    {
        Toast { file, oid }
    }

    fn parts(&self) -> (&str, u32)
        ensures file { result.0.now ≡ self.now.0 }
        ensures oid { result.1 ≡ self.now.1 }
    {
        (self.file.as_str(), self.oid)
    }
}

impl Case {
    /// A law: every case is sound. Each number and length is in its range, each missing value is one
    /// that its column may have, of at most 8000 bytes, each column of a key is a column of the
    /// case, of a type that may be a key's, and each included column is a column of the case.
    pub fn sound(&self)
        ensures { IsSound self.now }
    {
        let _blocks = self.segment_blocks;
    }

    /// The blocks of a full segment of a file, from 1 to 131072 (`RELSEG_SIZE`).
    pub fn segment_blocks(&self) -> u32
        ensures { result ≡ self.now.segment_blocks }
    {
        self.segment_blocks
    }

    /// The transaction numbers of the cluster, as `pg_controldata` prints them.
    pub fn cluster(&self) -> Cluster
        ensures { result ≡ self.now.cluster }
    {
        self.cluster
    }

    /// The folder of the transactions' outcomes (`pg_xact`).
    pub fn xact_dir(&self) -> &str
        ensures { result.now ≡ self.now.xact }
    {
        self.xact.as_str()
    }

    /// The folder that tells where the members of each multixact begin (`pg_multixact/offsets`).
    pub fn offsets_dir(&self) -> &str
        ensures { result.now ≡ self.now.offsets }
    {
        self.offsets.as_str()
    }

    /// The folder of the members of the multixacts (`pg_multixact/members`).
    pub fn members_dir(&self) -> &str
        ensures { result.now ≡ self.now.members }
    {
        self.members.as_str()
    }

    /// The base name of the table's main file.
    pub fn heap_file(&self) -> &str
        ensures { result.now ≡ self.now.heap_file }
    {
        self.heap_file.as_str()
    }

    /// The base name of the TOAST table's file and the oid of that table, which pointers to its
    /// values name (`pg_class.reltoastrelid`); `None` exactly where the case has no TOAST table.
    pub fn toast(&self) -> Option<(&str, u32)>
        ensures { option_map (λ p. (p.0.now, p.1)) result ≡ self.now.toast }
    {
        match &self.toast {
            Some(toast) => Some(toast.parts()),
            None => None,
        }
    }

    /// The columns in the order of `attnum`, dropped ones among them; from 1 to 64.
    pub fn columns(&self) -> &[Column]
        ensures { result.now ≡ self.now.columns }
    {
        &self.columns
    }

    /// The types of the columns, in the same order.
    pub fn column_types(&self) -> &[ColType]
        ensures { result.now ≡ map (λ column. column.ctype) self.now.columns }
    {
        &self.types
    }

    /// The number of indexes, from 0 to 32.
    pub fn index_count(&self) -> u16
        ensures { result ≡ length self.now.indexes }
    {
        self.indexes.len() as u16
    }

    /// The base name of the file of index `n`, which counts from 1 in the order of the text.
    pub fn index_file(&self, n: u16) -> &str
        requires { (1 ≤ n) × (n ≤ length self.now.indexes) }
        ensures { option_map (λ i. i.file) (slice_get self.now.indexes (n - 1)) ≡ Some result.now }
    {
        self.indexes[n as usize - 1].file()
    }

    /// The key columns of index `n`, which counts from 1 in the order of the text; from 1 to 8.
    pub fn index_keys(&self, n: u16) -> &[KeySpec]
        requires { (1 ≤ n) × (n ≤ length self.now.indexes) }
        ensures { option_map (λ i. i.keys) (slice_get self.now.indexes (n - 1)) ≡ Some result.now }
    {
        self.indexes[n as usize - 1].keys()
    }

    /// The columns that index `n` includes beside its key, in the order of the text, where `n` counts
    /// from 1; at most 24. One column may be there more than once.
    pub fn index_more(&self, n: u16) -> &[MoreSpec]
        requires { (1 ≤ n) × (n ≤ length self.now.indexes) }
        ensures { option_map (λ i. i.more) (slice_get self.now.indexes (n - 1)) ≡ Some result.now }
    {
        self.indexes[n as usize - 1].more()
    }

    /// Whether index `n` is unique and how it takes nulls, where `n` counts from 1 in the order of the
    /// text.
    pub fn index_unique(&self, n: u16) -> Unique
        requires { (1 ≤ n) × (n ≤ length self.now.indexes) }
        ensures { option_map (λ i. i.unique) (slice_get self.now.indexes (n - 1)) ≡ Some result }
    {
        self.indexes[n as usize - 1].unique()
    }

    /// The number of the index of a name, from 1; `None` exactly where no index has it.
    pub fn find_index(&self, name: &str) -> Option<u16>
        ensures { result ≡ index_named self.now.indexes name.now }
    {
        match position_of(&self.indexes, name) {
            Some(k) => Some(k as u16 + 1),
            None => None,
        }
    }
}

fn position_of(indexes: &[Index], name: &str) -> Option<usize>
    ensures at { result ≡ position (λ i. bytes_eq i.name name.now) indexes.now }
    ensures below { IfSome result (λ k. k < length indexes.now) }
{
    indexes.iter().position(|index| index.is_named(name))
}
