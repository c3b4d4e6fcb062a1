//! The case that a document means that breaks no rule.
ghost use Rattle.std.specs.Prelude.{◌≡◌, option_map, IfOk, None};
ghost use Rattle.toml.specs.View.{table_view};
ghost use Rattle.case_file.specs.Case.{cluster_of, first_broken, record_of, rules_in_order, segment_blocks_of};
ghost use Rattle.case_file.specs.Case.{toast_of};
ghost use Rattle.case_rules.specs.Spots.{spots};

use crate::case::{Case, Toast};
use crate::columns::{columns_of, types_of};
use crate::indexes::indexes_of;
use case_rules::{
    at_least_one, copied, has, number_at, number_in, string_in, table_at, tables_at, text_at,
};
use outside::NoMemory;
use rel_files::Cluster;
use std::alloc::Global;
use toml::Table;

fn segment_blocks_of(top: &Table) -> u32
    ensures { result ≡ segment_blocks_of (table_view top.now) }
{
    if has(top, "segment_blocks") {
        number_at(top, "segment_blocks")
    } else {
        131072
    }
}

#[tactic(auto, unfolding(crate::specs::Case::cluster_of))]
fn cluster_of(cluster: Option<&Table>) -> Cluster
    ensures { result ≡ cluster_of (option_map (λ t. table_view t.now) cluster.entry) }
{
    Cluster {
        next_xid: number_in(cluster, "next_xid"),
        oldest_xid: number_in(cluster, "oldest_xid"),
        next_multi: at_least_one(number_in(cluster, "next_multi")),
        oldest_multi: number_in(cluster, "oldest_multi"),
        next_member: number_in(cluster, "next_member"),
    }
}

#[tactic(auto, unfolding(crate::specs::Case::toast_of))]
fn toast_of(alloc: Global, heap: Option<&Table>) -> Result<Option<Toast>, NoMemory>
    ensures { IfOk result (λ t. t ≡ toast_of (option_map (λ t. table_view t.now) heap.entry)) }
{
    match heap {
        Some(table) => match text_at(table, "toast_file") {
            Some(file) => {
                let file = copied(alloc, file)?;
                Ok(Some(Toast::new(file, number_at(table, "toast_oid"))))
            }
            None => Ok(None),
        },
        None => Ok(None),
    }
}

/// The case that a document means.
#[tactic(auto, unfolding(crate::specs::Case::record_of))]
pub fn case_of_table(alloc: Global, top: &Table) -> Result<Case, NoMemory>
    requires { first_broken (table_view top.now) (spots (table_view top.now)) rules_in_order ≡ None }
    ensures { IfOk result (λ c. c ≡ record_of (table_view top.now)) }
{
    let cluster = table_at(top, "cluster");
    let heap = table_at(top, "heap");
    let column_tables = tables_at(top, "column");
    let columns = columns_of(alloc, column_tables)?;
    Ok(Case {
        segment_blocks: segment_blocks_of(top),
        cluster: cluster_of(cluster),
        xact: string_in(alloc, cluster, "xact")?,
        offsets: string_in(alloc, cluster, "offsets")?,
        members: string_in(alloc, cluster, "members")?,
        heap_file: string_in(alloc, heap, "file")?,
        toast: toast_of(alloc, heap)?,
        types: types_of(alloc, &columns)?,
        columns,
        indexes: indexes_of(alloc, column_tables, tables_at(top, "index"))?,
    })
}
