//! What the rules of a heap need to know of its table.
ghost use Rattle.std.specs.Prelude.{◌≡◌};
ghost use Rattle.heap_page_check.specs.Table.{rel_of};

use liveness::Status3;
use reports::Rel;
use toast_chunks::ToastMap;
use varlena_attrs::ColumnLayout;

/// Whether a table is a heap of its own, or the TOAST table of one.
#[derive(Clone, Copy, Debug, PartialEq, Eq)]
pub enum TableKind {
    Heap,
    Toast,
}

impl TableKind {
    /// How reports call such a table.
    pub fn rel(self) -> Rel
        ensures { result ≡ rel_of self }
    {
        match self {
            TableKind::Heap => Rel::Heap,
            TableKind::Toast => Rel::Toast,
        }
    }
}

/// The TOAST table of a heap: its oid, and the chunks of its live rows.
#[derive(Clone, Copy)]
pub struct ToastTable<'a> {
    pub oid: u32,
    pub chunks: &'a ToastMap,
}

/// What a table is, what its columns are, what stands in its TOAST table, where it has one, and where the
/// logs of its transactions stand.
#[derive(Clone, Copy)]
pub struct TableRules<'a> {
    pub kind: TableKind,
    /// At most 64 columns.
    pub columns: &'a ColumnLayout<'a>,
    pub toast: Option<ToastTable<'a>>,
    pub logs: Status3<'a>,
}

impl TableRules<'_> {
    ghost use Rattle.heap_page_check.specs.Table.{toast_oid_seen};

    /// The oid of its TOAST table, if it has one.
    pub(crate) fn toast_oid(&self) -> Option<u32>
        ensures { result ≡ toast_oid_seen self.now.toast }
    {
        match self.toast {
            None => None,
            Some(table) => Some(table.oid),
        }
    }
}
