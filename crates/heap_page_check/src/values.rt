//! The values of a live tuple.
ghost use Rattle.std.specs.Prelude.{◌≡◌, ◌≤◌, All, length, IfOk};
ghost use Rattle.tuple_head.specs.Head.{tuple_head_of};
ghost use Rattle.varlena_attrs.specs.Shown.{IsWithin, shown_at, shown_in};
ghost use Rattle.heap_tuples.specs.Tuples.{attributes_in};
ghost use Rattle.heap_page_check.specs.Found.{both_found, kept_by_values, leaves_nothing, left_by};
ghost use Rattle.heap_page_check.specs.Table.{AreReadable, chunks_seen, toast_oid_seen};
ghost use Rattle.heap_page_check.specs.Values.{first_value_rule, has_externals, is_other_relation, is_stray_pointer};
ghost use Rattle.heap_page_check.specs.Values.{pointer_rule_of, value_rule, values_rule};

use crate::table::{TableKind, TableRules};
use crate::work::Work;
use heap_tuples::{are_inline, read_tuple};
use key_orders::Tid;
use outside::NoMemory;
use page_layout::{Rule, has_bit};
use toast_chunks::pointer_rule;
use tuple_head::HeapHead;
use varlena_attrs::{AttrFault, AttrPlace, ToastPointer, pointer_at};

// The bit of a header's infomask that tells of a value in a TOAST table (`HEAP_HASEXTERNAL`).
const HASEXTERNAL: u16 = 0x0004;

#[tactic(auto, unfolding(crate::specs::Values::has_externals))]
fn has_externals(head: &HeapHead) -> bool
    ensures { result ≡ has_externals head.now }
{
    has_bit(head.infomask, HASEXTERNAL)
}

// Whether a relation isn't the TOAST table of this oid.
fn is_other_relation(oid: Option<u32>, relation: u32) -> bool
    ensures { result ≡ is_other_relation oid relation }
{
    match oid {
        None => true,
        Some(own) => relation != own,
    }
}

fn is_stray_pointer(oid: Option<u32>, head: &HeapHead, pointer: ToastPointer) -> bool
    ensures { result ≡ is_stray_pointer oid head.now pointer }
{
    !has_externals(head) || is_other_relation(oid, pointer.relation)
}

// The first of H19 and H20 that a pointer breaks.
#[tactic(auto, unfolding(crate::specs::Values::pointer_rule_of))]
fn pointer_rule_of(oid: Option<u32>, head: &HeapHead, pointer: ToastPointer) -> Option<Rule>
    ensures { result ≡ pointer_rule_of oid head.now pointer }
{
    if is_stray_pointer(oid, head, pointer) {
        return Some(Rule::H19);
    }
    if !pointer_rule(pointer) {
        return Some(Rule::H20);
    }
    None
}

fn value_rule(oid: Option<u32>, head: &HeapHead, body: &[u8], place: AttrPlace) -> Option<Rule>
    requires { IsWithin (length body.now) place }
    ensures { result ≡ value_rule oid head.now (shown_at body.now place) }
{
    match place {
        AttrPlace::External { start } => pointer_rule_of(oid, head, pointer_at(body, start)),
        AttrPlace::Null | AttrPlace::Missing | AttrPlace::Plain { .. } | AttrPlace::Packed { .. } =>
            None,
    }
}

// The first rule that one of a tuple's values breaks, column by column.
fn first_value_rule(
    oid: Option<u32>,
    head: &HeapHead,
    body: &[u8],
    places: &[AttrPlace],
) -> Option<Rule>
    requires { All (IsWithin (length body.now)) places.now }
    ensures { result ≡ first_value_rule oid head.now (shown_in body.now places.now) }
{
    for place in places {
        match value_rule(oid, head, body, *place) {
            Some(rule) => return Some(rule),
            None => {}
        }
    }
    None
}

// Whether the values of a live tuple break no rule, and it leaves nothing, as most tuples do: it isn't a
// chunk, and its values are all stored in line.
fn leaves_nothing(table: &TableRules<'_>, tuple: &[u8], head: &HeapHead) -> bool
    requires header { head.now ≡ tuple_head_of tuple.now }
    requires begins { 23 ≤ head.now.hoff }
    requires within { head.now.hoff ≤ length tuple.now }
    ensures { result ≡ leaves_nothing table.now.kind (attributes_in table.now.columns.now tuple.now) }
{
    match table.kind {
        TableKind::Toast => false,
        TableKind::Heap => are_inline(table.columns, tuple, head),
    }
}

/// The first of the rules H17 to H20 that the live tuple in these bytes breaks: H17 and H18 where its
/// attributes can't be read, and else H19 and H20 of its values, column by column. Where it breaks
/// none, what it leaves is added.
#[tactic(auto, using(crate::proofs::Left::nothing_left))]
pub(crate) fn judge_values(
    table: &TableRules<'_>,
    tuple: &[u8],
    head: &HeapHead,
    tid: Tid,
    work: &mut Work,
) -> Result<Option<Rule>, NoMemory>
    requires columns { AreReadable table.now.columns.now }
    requires header { head.now ≡ tuple_head_of tuple.now }
    requires begins { 23 ≤ head.now.hoff }
    requires within { head.now.hoff ≤ length tuple.now }
    requires page { length tuple.now ≤ 8192 }
    ensures rule { IfOk result (λ rule.
        rule ≡ values_rule (toast_oid_seen table.now.toast) head.now
        (attributes_in table.now.columns.now tuple.now)) }
    ensures found { IfOk result (λ rule. work.new.found ≡ both_found work.old.found
        (left_by table.now.kind (toast_oid_seen table.now.toast) (chunks_seen table.now.toast) tid.block tid.item
        (kept_by_values rule (attributes_in table.now.columns.now tuple.now)))) }
    ensures cells { work.new.cells ≡ work.old.cells }
    ensures states { work.new.states.items ≡ work.old.states.items }
{
    if leaves_nothing(table, tuple, head) {
        return Ok(None);
    }
    let attrs = &mut work.attrs;
    match read_tuple(attrs, table.columns.as_slice(), tuple, head) {
        Ok(body) => {
            let rule = first_value_rule(table.toast_oid(), head, body, attrs.as_slice());
            if rule.is_none() {
                work.found.add_left(table, tid, body, attrs.as_slice())?;
            }
            Ok(rule)
        }
        Err(AttrFault::PastEnd { .. }) => Ok(Some(Rule::H17)),
        Err(AttrFault::BadHeader { .. }) | Err(AttrFault::BadTag { .. }) => Ok(Some(Rule::H18)),
        Err(AttrFault::NoMemory) => Err(NoMemory),
    }
}
