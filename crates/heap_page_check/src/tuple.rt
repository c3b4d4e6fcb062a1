//! Judges a tuple: its header, whether it is live, and the values of a live one.
ghost use Rattle.std.specs.Prelude.{◌≡◌, ◌++◌, ◌+◌, ◌≤◌, [], ◌∷◌, length, IfOk, OnOk};
ghost use Rattle.outside.specs.Outside.{Asked, IfTold, Tells};
ghost use Rattle.tuple_head.specs.Head.{tuple_head_of};
ghost use Rattle.heap_tuples.specs.Tuples.{attributes_in};
ghost use Rattle.liveness.specs.declared.states.ItemState.TheVariants.{Tuple};
ghost use Rattle.heap_page_check.specs.Found.{attributes_by, both_found, left_by, state_in};
ghost use Rattle.heap_page_check.specs.Table.{AreReadable, chunks_seen, table_seen, toast_oid_seen};
ghost use Rattle.heap_page_check.specs.Verdicts.{tuple_verdict, verdict_by_life, without_state};
ghost use Rattle.heap_page_check.specs.declared.verdict.TupleVerdict.TheVariants as bare;

use crate::table::TableRules;
use crate::values::judge_values;
use crate::verdict::{TupleVerdict, reason_of};
use crate::work::Work;
use key_orders::Tid;
use liveness::{ItemState, Judged, Life, Transactions, life_in};
use outside::NoMemory;
use rel_files::PageFault;
use reports::Reason;
use tuple_head::{HeapHead, heap_head, kept_rules_place_attributes};

/// The tuple in hand: where it stands, its bytes, and its header.
#[derive(Clone, Copy)]
struct TupleInHand<'p> {
    tid: Tid,
    bytes: &'p [u8],
    head: &'p HeapHead,
}

// Adds the state of a tuple that passes.
fn pass(
    states: &mut Vec<ItemState>,
    head: &HeapHead,
    judged: &Judged,
) -> Result<TupleVerdict, NoMemory>
    ensures verdict { IfOk result (λ verdict. verdict ≡ bare.Passes) }
    ensures states { OnOk result (states.new.items ≡ states.old.items ++ Tuple head.now judged.now ∷ []) }
    ensures more { length states.new.items ≤ length states.old.items + 1 }
{
    states.push(ItemState::Tuple {
        head: *head,
        judged: *judged,
    })?;
    Ok(TupleVerdict::Passes)
}

// What the life of a tuple says, whose header keeps its rules: the values of a live one are asked too.
#[tactic(auto, using(crate::proofs::Left::nothing_left))]
fn judge_life(
    table: &TableRules<'_>,
    tuple: TupleInHand<'_>,
    judged: &Judged,
    work: &mut Work,
) -> Result<TupleVerdict, NoMemory>
    requires columns { AreReadable table.now.columns.now }
    requires header { tuple.head.now ≡ tuple_head_of tuple.bytes.now }
    requires begins { 23 ≤ tuple.head.now.hoff }
    requires within { tuple.head.now.hoff ≤ length tuple.bytes.now }
    requires page { length tuple.bytes.now ≤ 8192 }
    ensures verdict { IfOk result (λ verdict. verdict ≡ without_state
        (verdict_by_life table.now tuple.entry.bytes.now tuple.entry.head.now judged.now)) }
    ensures found { OnOk result (work.new.found ≡ both_found work.old.found
        (left_by table.now.kind (toast_oid_seen table.now.toast) (chunks_seen table.now.toast)
        tuple.entry.tid.block tuple.entry.tid.item
        (attributes_by (attributes_in table.now.columns.now tuple.entry.bytes.now)
        (verdict_by_life table.now tuple.entry.bytes.now tuple.entry.head.now judged.now)))) }
    ensures states { OnOk result (work.new.states.items ≡ work.old.states.items
        ++ state_in (verdict_by_life table.now tuple.entry.bytes.now tuple.entry.head.now judged.now)) }
    ensures more { length work.new.states.items ≤ length work.old.states.items + 1 }
    ensures cells { work.new.cells ≡ work.old.cells }
{
    match judged.life {
        Life::Live => match judge_values(table, tuple.bytes, tuple.head, tuple.tid, work)? {
            Some(rule) => Ok(TupleVerdict::Breaks(rule)),
            None => pass(&mut work.states, tuple.head, judged),
        },
        Life::Dead => pass(&mut work.states, tuple.head, judged),
        Life::Unjudged(doubt) => Ok(TupleVerdict::InDoubt(reason_of(doubt))),
        Life::Broken(rule) => Ok(TupleVerdict::Breaks(rule)),
    }
}

/// Judges the tuple in these bytes: old headers are in doubt, then come the rules of headers (H4 to H8),
/// the tuple's life (H9 to H13), and the values of a live one (H17 to H20). What a live tuple that breaks
/// none of these leaves is added, and the state of a tuple that passes.
#[tactic(auto, using(crate::proofs::Left::nothing_left), unfolding(crate::specs::Verdicts::tuple_verdict))]
pub(crate) fn judge_tuple<F: Transactions>(
    files: &mut F,
    table: &TableRules<'_>,
    bytes: &[u8],
    tid: Tid,
    work: &mut Work,
) -> Result<TupleVerdict, PageFault>
    requires bytes { 24 ≤ length bytes.now }
    requires page { length bytes.now ≤ 8192 }
    requires columns { AreReadable table.now.columns.now }
    ensures told { Tells F.seen files.old result (λ verdict names. verdict
        ≡ without_state (tuple_verdict (table_seen names table.now) (length bytes.now) bytes.now)) }
    ensures found { OnOk result (IfTold F.seen files.old (λ names. work.new.found ≡ both_found work.old.found
        (left_by table.now.kind (toast_oid_seen table.now.toast) (chunks_seen table.now.toast) tid.block tid.item
        (attributes_by (attributes_in table.now.columns.now bytes.now)
        (tuple_verdict (table_seen names table.now) (length bytes.now) bytes.now))))) }
    ensures states { OnOk result (IfTold F.seen files.old (λ names. work.new.states.items ≡ work.old.states.items
        ++ state_in (tuple_verdict (table_seen names table.now) (length bytes.now) bytes.now))) }
    ensures more { length work.new.states.items ≤ length work.old.states.items + 1 }
    ensures cells { work.new.cells ≡ work.old.cells }
    ensures asked { Asked F.seen files.old files.new result PageFault.ReadFault }
{
    let head = heap_head(bytes);
    if head.old_form() {
        return Ok(TupleVerdict::InDoubt(Reason::U1));
    }
    let columns = table.columns.as_slice().len() as u16;
    if let Some(rule) = head.head_rule(columns, bytes.len() as u16) {
        return Ok(TupleVerdict::Breaks(rule));
    }
    kept_rules_place_attributes();
    let judged = life_in(files, &table.logs, &head)?;
    let tuple = TupleInHand {
        tid,
        bytes,
        head: &head,
    };
    Ok(judge_life(table, tuple, &judged, work)?)
}
