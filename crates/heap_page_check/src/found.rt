//! What is found of a table while its pages are judged.
ghost use Rattle.std.specs.Prelude.{◌≡◌, ◌++◌, ◌≤◌, Some, All, OnOk, length};
ghost use Rattle.reports.specs.Added.{finding_at, joined};
ghost use Rattle.heap_page_check.specs.Found.{bare_lists, both_found, chunk_by, late_by, late_in, late_of, left_by};
ghost use Rattle.heap_page_check.specs.Found.{nothing_found, only_listed, value_rule_late};
ghost use Rattle.heap_page_check.specs.Table.{chunks_seen, toast_oid_seen};
ghost use Rattle.toast_chunks.specs.Rows.{row_of};
ghost use Rattle.varlena_attrs.specs.Shown.{IsWithin, shown_at, shown_in};

use crate::table::{TableKind, TableRules};
use crate::verdict::TupleVerdict;
use key_orders::Tid;
use outside::NoMemory;
use page_layout::Rule;
use reports::{Place, Report};
use std::alloc::Global;
use std::marker::Model;
use toast_chunks::{ToastMap, chunk_row};
use varlena_attrs::{AttrPlace, ToastPointer, pointer_at};

/// What is found of a table. Contracts see it as one record, `FoundLists`.
#[derive(Drop)]
pub struct Found {
    /// What a report gets of it in any case.
    pub listed: Report,
    /// What a report gets besides where nothing else is found, and nothing stays unjudged: the values in
    /// the TOAST table that aren't whole (H21).
    pub late: Report,
    /// The chunks of a TOAST table's live rows.
    pub chunks: ToastMap,
}

impl Model for Found {
    ghost use Rattle.heap_page_check.specs.Found.{FoundLists};

    ghost Value = { FoundLists };

    ghost view = { λ f. record { listed = f.listed; late = f.late; chunks = f.chunks } };
}

// The rule that a value in the TOAST table breaks, if it isn't whole there.
fn value_rule_late(chunks: &ToastMap, pointer: ToastPointer) -> Option<Rule>
    ensures { result ≡ value_rule_late chunks.now pointer }
{
    if chunks.whole(pointer) {
        return None;
    }
    Some(Rule::H21)
}

// Adds what the value of a column, counted from 1, gives where it stands in the TOAST table.
fn add_late(
    late: &mut Report,
    table: &TableRules<'_>,
    place: Place,
    pointer: ToastPointer,
) -> Result<(), NoMemory>
    ensures { OnOk result (late.new ≡ joined late.old
        (late_by (toast_oid_seen table.now.toast) (chunks_seen table.now.toast) place pointer)) }
{
    match table.toast {
        None => Ok(()),
        Some(toast) => late.add_rule(place, value_rule_late(toast.chunks, pointer)),
    }
}

// The same by where the value stands.
fn add_late_column(
    late: &mut Report,
    table: &TableRules<'_>,
    place: Place,
    body: &[u8],
    attr: AttrPlace,
) -> Result<(), NoMemory>
    requires { IsWithin (length body.now) attr }
    ensures { OnOk result (late.new ≡ joined late.old
        (late_in (toast_oid_seen table.now.toast) (chunks_seen table.now.toast) place
        (Some (shown_at body.now attr)))) }
{
    match attr {
        AttrPlace::External { start } => add_late(late, table, place, pointer_at(body, start)),
        AttrPlace::Null | AttrPlace::Missing | AttrPlace::Plain { .. } | AttrPlace::Packed { .. } =>
            { Ok(()) }
    }
}

// Adds what the columns of a tuple give whose values stand in the TOAST table.
fn add_late_columns(
    late: &mut Report,
    table: &TableRules<'_>,
    tid: Tid,
    body: &[u8],
    places: &[AttrPlace],
) -> Result<(), NoMemory>
    requires few { length places.now ≤ 64 }
    requires within { All (IsWithin (length body.now)) places.now }
    ensures { OnOk result (late.new ≡ joined late.old
        (late_of (toast_oid_seen table.now.toast) (chunks_seen table.now.toast) tid.block tid.item
        (shown_in body.now places.now))) }
{
    for k in 0..places.len() as u16 {
        let place = Place::Column(tid.block, tid.item, k + 1);
        add_late_column(late, table, place, body, places[k as usize])?;
    }
    Ok(())
}

// Keeps the chunk that a tuple of a TOAST table is, unless it belongs to no value.
fn add_chunk(
    chunks: &mut ToastMap,
    tid: Tid,
    body: &[u8],
    places: &[AttrPlace],
) -> Result<(), NoMemory>
    requires within { All (IsWithin (length body.now)) places.now }
    requires page { length body.now ≤ 8192 }
    ensures { OnOk result (chunks.new ≡ chunks.old
        ++ chunk_by tid.block tid.item (row_of (shown_in body.now places.now))) }
{
    match chunk_row(body, places) {
        None => Ok(()),
        Some(row) => chunks.add(row.id, row.seq, tid, row.size),
    }
}

impl Found {
    /// Nothing is found yet.
    pub fn new(alloc: Global) -> Found
        ensures { result ≡ nothing_found }
    {
        Found {
            listed: Report::new(alloc),
            late: Report::new(alloc),
            chunks: ToastMap::new(alloc),
        }
    }

    /// How many findings a report gets in any case, and how many places that can't be judged.
    pub fn counts(&self) -> (u64, u64)
        ensures { result ≡ record { 0 = length self.now.listed.findings; 1 = length self.now.listed.unjudged } }
    {
        self.listed.counts()
    }

    /// Adds the finding of a rule at a place, if one is broken there.
    pub fn add_rule(&mut self, place: Place, rule: Option<Rule>) -> Result<(), NoMemory>
        ensures { OnOk result (self.new ≡ both_found self.old (only_listed (finding_at place rule))) }
    {
        self.listed.add_rule(place, rule)
    }

    /// Adds what the verdict on the item at a place says.
    pub(crate) fn add_verdict(
        &mut self,
        place: Place,
        verdict: TupleVerdict,
    ) -> Result<(), NoMemory>
        ensures { OnOk result (self.new ≡ both_found self.old (only_listed (bare_lists place verdict))) }
    {
        match verdict {
            TupleVerdict::Passes => Ok(()),
            TupleVerdict::Breaks(rule) => self.listed.add_rule(place, Some(rule)),
            TupleVerdict::InDoubt(reason) => self.listed.unjudged(reason, place),
        }
    }

    /// Adds what the live tuple at a place leaves, by its attributes, which lie in its body: a tuple of a
    /// heap its values that aren't whole in the TOAST table, a tuple of a TOAST table its chunk.
    pub(crate) fn add_left(
        &mut self,
        table: &TableRules<'_>,
        tid: Tid,
        body: &[u8],
        places: &[AttrPlace],
    ) -> Result<(), NoMemory>
        requires few { length places.now ≤ 64 }
        requires within { All (IsWithin (length body.now)) places.now }
        requires page { length body.now ≤ 8192 }
        ensures { OnOk result (self.new ≡ both_found self.old
            (left_by table.now.kind (toast_oid_seen table.now.toast) (chunks_seen table.now.toast)
            tid.block tid.item (shown_in body.now places.now))) }
    {
        match table.kind {
            TableKind::Heap => add_late_columns(&mut self.late, table, tid, body, places),
            TableKind::Toast => add_chunk(&mut self.chunks, tid, body, places),
        }
    }
}
