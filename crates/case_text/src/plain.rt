//! Laws: each number and each byte of the parts is in the range of its type.
ghost use Rattle.std.specs.Prelude.{◌<◌};
ghost use Rattle.hex.specs.Hex.{IsBytes};
ghost use Rattle.std.specs.List.{AllByRecursion};
ghost use Rattle.case_text.specs.Plain.{AreBytes, IsPlainCluster, IsPlainColumn, IsPlainTable, IsPlainToast};
ghost use Rattle.case_text.specs.Plain.{IsStorable};

use crate::parts::{ClusterPart, ColumnPart, TablePart, ToastPart};
use key_orders::ColType;

fn is_small(n: u32)
    ensures { n < 4294967296 }
{
    let _kept = n;
}

fn type_is_storable(ctype: ColType)
    ensures { IsStorable ctype }
{
    match ctype {
        ColType::Fixed { len, align } => {
            let _kept = (len, align);
        }
        ColType::Varlena { align } => {
            let _kept = align;
        }
        _ => {}
    }
}

fn are_bytes(bytes: &[u8])
    ensures { IsBytes bytes.now }
{
    let _count = bytes.len();
}

fn missing_is_plain(missing: &Option<Vec<u8>>)
    ensures { AreBytes missing.now }
{
    match missing {
        Some(bytes) => are_bytes(bytes.as_slice()),
        None => {}
    }
}

fn column_is_plain(column: &ColumnPart)
    ensures { IsPlainColumn column.now }
{
    type_is_storable(column.ctype);
    missing_is_plain(&column.missing);
}

fn columns_are_plain(columns: &[ColumnPart])
    ensures { AllByRecursion IsPlainColumn columns.now }
{
    for column in columns {
        column_is_plain(column);
    }
}

fn toast_is_plain(toast: &Option<ToastPart>)
    ensures { IsPlainToast toast.now }
{
    match toast {
        Some(toast) => is_small(toast.oid),
        None => {}
    }
}

/// A law on a table.
pub fn table_is_plain(table: &TablePart)
    ensures { IsPlainTable table.now }
{
    toast_is_plain(&table.toast);
    columns_are_plain(&table.columns);
}

/// A law on a cluster.
pub fn cluster_is_plain(cluster: &ClusterPart)
    ensures { IsPlainCluster cluster.now }
{
    is_small(cluster.segment_blocks);
    is_small(cluster.counters.next_xid);
    is_small(cluster.counters.oldest_xid);
    is_small(cluster.counters.next_multi);
    is_small(cluster.counters.oldest_multi);
    is_small(cluster.counters.next_member);
}
