//! The case of the files that the generator builds.
ghost use Rattle.std.specs.Prelude.{◌≡◌, IfOk};
ghost use Rattle.case_file.specs.Generated.{generated_case, generated_cluster, index_on, whole_column};

use crate::case::{Case, Column, Index, Unique};
use crate::columns::types_of;
use key_orders::{ColType, KeySpec, Value};
use outside::NoMemory;
use rel_files::Cluster;
use std::alloc::Global;

// The numbers of a cluster with one transaction, 3, that wrote something.
fn generated_cluster() -> Cluster
    ensures { result ≡ generated_cluster }
{
    Cluster {
        next_xid: 4,
        oldest_xid: 3,
        next_multi: 1,
        oldest_multi: 1,
        next_member: 0,
    }
}

// A column without a missing value.
fn whole_column(ctype: ColType) -> Column
    ensures { result ≡ whole_column ctype }
{
    Column {
        ctype,
        missing: Value::Null,
    }
}

// The two columns: `id` and `grp`, neither with a missing value.
fn generated_columns(alloc: Global) -> Result<Vec<Column>, NoMemory>
    ensures { IfOk result (λ v. v.items ≡ generated_case.columns) }
{
    let mut columns = Vec::new(alloc);
    columns.push(whole_column(ColType::Int8))?;
    columns.push(whole_column(ColType::Int4))?;
    Ok(columns)
}

// An index on one column, from its lowest value to its highest, nulls last, that isn't unique.
fn generated_index(
    alloc: Global,
    name: &str,
    file: &str,
    column: u16,
    ctype: ColType,
) -> Result<Index, NoMemory>
    ensures { IfOk result (λ i. i ≡ index_on name.now file.now column ctype) }
{
    let mut keys = Vec::new(alloc);
    keys.push(KeySpec {
        column,
        ctype,
        desc: false,
        nulls_first: false,
    })?;
    let name = String::from_str(alloc, name)?;
    let file = String::from_str(alloc, file)?;
    Ok(Index::new(name, file, keys, Vec::new(alloc), Unique::No))
}

// The two indexes, one on each column.
fn generated_indexes(alloc: Global) -> Result<Vec<Index>, NoMemory>
    ensures { IfOk result (λ v. v.items ≡ generated_case.indexes) }
{
    let mut indexes = Vec::new(alloc);
    indexes.push(generated_index(alloc, "t_id", "i1", 0, ColType::Int8)?)?;
    indexes.push(generated_index(alloc, "t_grp", "i2", 1, ColType::Int4)?)?;
    Ok(indexes)
}

impl Case {
    /// The case of the generated table: its columns are `id`, an int8, and `grp`, an int4, without missing
    /// values; its heap is the file `t`, with full segments of 131072 blocks, and it has no TOAST table. Its
    /// indexes are `t_id` in the file `i1`, on the first column, and `t_grp` in the file `i2`, on the second,
    /// both rising with nulls last; neither includes another column or is unique. Of its cluster transaction 3
    /// is the oldest and 4 the next, multixact 1 the oldest and the next, and 0 the next member; the folders are
    /// `xact`, `offsets` and `members`.
    pub fn generated(alloc: Global) -> Result<Case, NoMemory>
        ensures { IfOk result (λ c. c ≡ generated_case) }
    {
        let columns = generated_columns(alloc)?;
        let types = types_of(alloc, &columns)?;
        let indexes = generated_indexes(alloc)?;
        let xact = String::from_str(alloc, "xact")?;
        let offsets = String::from_str(alloc, "offsets")?;
        let members = String::from_str(alloc, "members")?;
        let heap_file = String::from_str(alloc, "t")?;
        Ok(Case {
            segment_blocks: 131072,
            cluster: generated_cluster(),
            xact,
            offsets,
            members,
            heap_file,
            toast: None,
            columns,
            types,
            indexes,
        })
    }
}
