//! The document that tells the parts of a case.
ghost use Rattle.std.specs.Prelude.{◌≡◌, map, codes, IfOk, OnOk};
ghost use Rattle.case_rules.specs.Rules.{word_of};
ghost use Rattle.toml.specs.View.{table_view, view};
ghost use Rattle.case_text.specs.Written.{cluster_pairs, column_data, column_pairs, document_told, heap_pairs};
ghost use Rattle.case_text.specs.Written.{index_data, index_pairs, is_unique, key_data, key_pairs, missing_digits};
ghost use Rattle.case_text.specs.Written.{more_data, takes_nulls_as_equal, text_pairs, toast_pairs, told_align};
ghost use Rattle.case_text.specs.Written.{told_len, top_pairs};
ghost use Rattle.case_text.specs.Written.{members_with, with_pairs};

use crate::found::name_at;
use crate::parts::{ClusterPart, ColumnPart, IndexPart, KeyPart, TablePart, ToastPart};
use crate::put::{put_flag, put_number, put_number_if, put_table, put_text, put_values};
use case_file::Unique;
use key_orders::ColType;
use outside::NoMemory;
use std::alloc::Global;
use toml::{Table, Value};

#[tactic(auto, unfolding(crate::specs::Written::cluster_pairs))]
fn put_cluster(alloc: Global, out: &mut Table, cluster: &ClusterPart) -> Result<(), NoMemory>
    ensures { OnOk result (table_view out.new ≡ with_pairs (cluster_pairs cluster.now) (table_view out.old)) }
{
    put_number(alloc, out, "next_xid", cluster.counters.next_xid)?;
    put_number(alloc, out, "oldest_xid", cluster.counters.oldest_xid)?;
    put_number(alloc, out, "next_multi", cluster.counters.next_multi)?;
    put_number(alloc, out, "oldest_multi", cluster.counters.oldest_multi)?;
    put_number(alloc, out, "next_member", cluster.counters.next_member)?;
    put_text(alloc, out, "xact", cluster.xact.as_str())?;
    put_text(alloc, out, "offsets", cluster.offsets.as_str())?;
    put_text(alloc, out, "members", cluster.members.as_str())
}

#[tactic(auto, unfolding(crate::specs::Written::toast_pairs))]
fn put_toast(alloc: Global, out: &mut Table, toast: &Option<ToastPart>) -> Result<(), NoMemory>
    ensures { OnOk result (table_view out.new ≡ with_pairs (toast_pairs toast.now) (table_view out.old)) }
{
    match toast {
        Some(toast) => {
            put_text(alloc, out, "toast_file", toast.file.as_str())?;
            put_number(alloc, out, "toast_oid", toast.oid)
        }
        None => Ok(()),
    }
}

#[tactic(auto, unfolding(crate::specs::Written::heap_pairs))]
fn put_heap(alloc: Global, out: &mut Table, table: &TablePart) -> Result<(), NoMemory>
    ensures { OnOk result (table_view out.new ≡ with_pairs (heap_pairs table.now) (table_view out.old)) }
{
    put_text(alloc, out, "file", table.file.as_str())?;
    put_toast(alloc, out, &table.toast)
}

// The word of a type.
fn word_of(ctype: ColType) -> &'static str
    ensures { result.now ≡ word_of ctype }
{
    match ctype {
        ColType::Bool => "bool",
        ColType::Int2 => "int2",
        ColType::Int4 => "int4",
        ColType::Int8 => "int8",
        ColType::Uuid => "uuid",
        ColType::Text => "text",
        ColType::Bytea => "bytea",
        ColType::Oid => "oid",
        ColType::Date => "date",
        ColType::Timestamp => "timestamp",
        ColType::Timestamptz => "timestamptz",
        ColType::Fixed { .. } => "fixed",
        ColType::Varlena { .. } => "varlena",
    }
}

fn told_len(ctype: ColType) -> Option<u32>
    ensures { result ≡ told_len ctype }
{
    match ctype {
        ColType::Fixed { len, .. } => Some(u32::from(len)),
        _ => None,
    }
}

fn told_align(ctype: ColType) -> Option<u32>
    ensures { result ≡ told_align ctype }
{
    match ctype {
        ColType::Fixed { align, .. } | ColType::Varlena { align } => Some(u32::from(align)),
        _ => None,
    }
}

fn put_missing(alloc: Global, out: &mut Table, missing: &Option<Vec<u8>>) -> Result<(), NoMemory>
    ensures { OnOk result (table_view out.new
        ≡ with_pairs (text_pairs (codes "missing") (missing_digits missing.now)) (table_view out.old)) }
{
    match missing {
        Some(bytes) => {
            let digits = hex::encode(alloc, bytes.as_slice())?;
            put_text(alloc, out, "missing", digits.as_str())
        }
        None => Ok(()),
    }
}

#[tactic(auto, unfolding(crate::specs::Written::column_pairs), using(crate::proofs::Pairs::pair_laws))]
fn put_column(alloc: Global, out: &mut Table, column: &ColumnPart) -> Result<(), NoMemory>
    ensures { OnOk result (table_view out.new ≡ with_pairs (column_pairs column.now) (table_view out.old)) }
{
    put_text(alloc, out, "name", column.name.as_str())?;
    put_text(alloc, out, "type", word_of(column.ctype))?;
    put_number_if(alloc, out, "len", told_len(column.ctype))?;
    put_number_if(alloc, out, "align", told_align(column.ctype))?;
    put_missing(alloc, out, &column.missing)
}

#[tactic(auto, unfolding(crate::specs::Written::column_data), using(crate::proofs::Puts::value_laws))]
fn column_value(alloc: Global, column: &ColumnPart) -> Result<Value, NoMemory>
    ensures { IfOk result (λ v. view v ≡ column_data column.now) }
{
    let mut out = Table::new(alloc);
    put_column(alloc, &mut out, column)?;
    Ok(Value::Table(out))
}

#[tactic(auto, using(crate::proofs::Pairs::push_laws))]
fn column_values(alloc: Global, columns: &[ColumnPart]) -> Result<Vec<Value>, NoMemory>
    ensures { IfOk result (λ v. map view v.items ≡ map column_data columns.now) }
{
    let mut out = Vec::new(alloc);
    for column in columns {
        out.push(column_value(alloc, column)?)?;
    }
    Ok(out)
}

#[tactic(auto, unfolding(crate::specs::Written::key_pairs))]
fn put_key(
    alloc: Global,
    out: &mut Table,
    columns: &[ColumnPart],
    key: &KeyPart,
) -> Result<(), NoMemory>
    ensures { OnOk result (table_view out.new ≡ with_pairs (key_pairs columns.now key.now) (table_view out.old)) }
{
    put_text(alloc, out, "column", name_at(columns, key.column))?;
    put_flag(alloc, out, "desc", key.desc)?;
    put_flag(alloc, out, "nulls_first", key.nulls_first)
}

#[tactic(auto, unfolding(crate::specs::Written::key_data), using(crate::proofs::Puts::value_laws))]
fn key_value(alloc: Global, columns: &[ColumnPart], key: &KeyPart) -> Result<Value, NoMemory>
    ensures { IfOk result (λ v. view v ≡ key_data columns.now key.now) }
{
    let mut out = Table::new(alloc);
    put_key(alloc, &mut out, columns, key)?;
    Ok(Value::Table(out))
}

#[tactic(auto, using(crate::proofs::Pairs::push_laws))]
fn key_values(
    alloc: Global,
    columns: &[ColumnPart],
    keys: &[KeyPart],
) -> Result<Vec<Value>, NoMemory>
    ensures { IfOk result (λ v. map view v.items ≡ map (key_data columns.now) keys.now) }
{
    let mut out = Vec::new(alloc);
    for key in keys {
        out.push(key_value(alloc, columns, key)?)?;
    }
    Ok(out)
}

#[tactic(auto, unfolding(crate::specs::Written::more_data))]
fn more_value(alloc: Global, columns: &[ColumnPart], k: u16) -> Result<Value, NoMemory>
    ensures { IfOk result (λ v. view v ≡ more_data columns.now k) }
{
    Ok(Value::string(alloc, name_at(columns, k))?)
}

#[tactic(auto, using(crate::proofs::Pairs::push_laws))]
fn more_values(alloc: Global, columns: &[ColumnPart], more: &[u16]) -> Result<Vec<Value>, NoMemory>
    ensures { IfOk result (λ v. map view v.items ≡ map (more_data columns.now) more.now) }
{
    let mut out = Vec::new(alloc);
    for k in more {
        out.push(more_value(alloc, columns, *k)?)?;
    }
    Ok(out)
}

fn is_unique(unique: Unique) -> bool
    ensures { result ≡ is_unique unique }
{
    match unique {
        Unique::No => false,
        Unique::NullsDistinct | Unique::NullsEqual => true,
    }
}

fn takes_nulls_as_equal(unique: Unique) -> bool
    ensures { result ≡ takes_nulls_as_equal unique }
{
    match unique {
        Unique::NullsEqual => true,
        Unique::No | Unique::NullsDistinct => false,
    }
}

#[tactic(auto, unfolding(crate::specs::Written::index_pairs))]
fn put_index(
    alloc: Global,
    out: &mut Table,
    columns: &[ColumnPart],
    index: &IndexPart,
) -> Result<(), NoMemory>
    ensures { OnOk result
        (table_view out.new ≡ with_pairs (index_pairs columns.now index.now) (table_view out.old)) }
{
    put_text(alloc, out, "name", index.name.as_str())?;
    put_text(alloc, out, "file", index.file.as_str())?;
    put_values(alloc, out, "key", key_values(alloc, columns, &index.keys)?)?;
    put_values(
        alloc,
        out,
        "include",
        more_values(alloc, columns, &index.more)?,
    )?;
    put_flag(alloc, out, "unique", is_unique(index.unique))?;
    put_flag(
        alloc,
        out,
        "nulls_not_distinct",
        takes_nulls_as_equal(index.unique),
    )
}

#[tactic(auto, unfolding(crate::specs::Written::index_data), using(crate::proofs::Puts::value_laws))]
fn index_value(alloc: Global, columns: &[ColumnPart], index: &IndexPart) -> Result<Value, NoMemory>
    ensures { IfOk result (λ v. view v ≡ index_data columns.now index.now) }
{
    let mut out = Table::new(alloc);
    put_index(alloc, &mut out, columns, index)?;
    Ok(Value::Table(out))
}

#[tactic(auto, using(crate::proofs::Pairs::push_laws))]
fn index_values(
    alloc: Global,
    columns: &[ColumnPart],
    indexes: &[IndexPart],
) -> Result<Vec<Value>, NoMemory>
    ensures { IfOk result (λ v. map view v.items ≡ map (index_data columns.now) indexes.now) }
{
    let mut out = Vec::new(alloc);
    for index in indexes {
        out.push(index_value(alloc, columns, index)?)?;
    }
    Ok(out)
}

fn cluster_table(alloc: Global, cluster: &ClusterPart) -> Result<Table, NoMemory>
    ensures { IfOk result (λ t. table_view t ≡ members_with (cluster_pairs cluster.now)) }
{
    let mut out = Table::new(alloc);
    put_cluster(alloc, &mut out, cluster)?;
    Ok(out)
}

fn heap_table(alloc: Global, table: &TablePart) -> Result<Table, NoMemory>
    ensures { IfOk result (λ t. table_view t ≡ members_with (heap_pairs table.now)) }
{
    let mut out = Table::new(alloc);
    put_heap(alloc, &mut out, table)?;
    Ok(out)
}

#[tactic(auto, unfolding(crate::specs::Written::top_pairs))]
fn put_top(
    alloc: Global,
    out: &mut Table,
    cluster: &ClusterPart,
    table: &TablePart,
) -> Result<(), NoMemory>
    ensures { OnOk result
        (table_view out.new ≡ with_pairs (top_pairs cluster.now table.now) (table_view out.old)) }
{
    put_number(alloc, out, "segment_blocks", cluster.segment_blocks)?;
    put_table(alloc, out, "cluster", cluster_table(alloc, cluster)?)?;
    put_table(alloc, out, "heap", heap_table(alloc, table)?)?;
    put_values(alloc, out, "column", column_values(alloc, &table.columns)?)?;
    let indexes = index_values(alloc, &table.columns, &table.indexes)?;
    put_values(alloc, out, "index", indexes)
}

/// The document that tells the parts of a case.
#[tactic(auto, unfolding(crate::specs::Written::document_told))]
pub fn document_of(
    alloc: Global,
    cluster: &ClusterPart,
    table: &TablePart,
) -> Result<Table, NoMemory>
    ensures { IfOk result (λ t. table_view t ≡ document_told cluster.now table.now) }
{
    let mut out = Table::new(alloc);
    put_top(alloc, &mut out, cluster, table)?;
    Ok(out)
}
