//! What is met says which entries there were.
ghost use Rattle.std.specs.Prelude.{List, All};
ghost use Rattle.key_orders.specs.declared.Tid.{Tid as Place};
ghost use Rattle.join_slots.specs.Met.{IsKept, Keyed, Keys, MetAfter, MetIfEntry, Mets, UnmetAreMissing};

/// After entries in whatever order, what is met is what was met and what some entry meets (`after`); a row that is kept
/// was met exactly if some entry has its TID and its key (`row`); and of any list of rows that are kept, those that
/// weren't met are those without such an entry, in the order of the list (`unmet`).
#[tactic(auto, using(crate::proofs::MetLaws::met_after_is, crate::proofs::MetLaws::met_if_entry, crate::proofs::MetLaws::unmet_are_missing))]
pub fn met_are_those_with_an_entry()
    ensures after { (keys : Keys) (es : List Keyed) (met : Mets) (tid : Place) → MetAfter keys es met tid }
    ensures row { (keys : Keys) (es : List Keyed) (row : Keyed) → IsKept keys row → MetIfEntry keys es row }
    ensures unmet { (keys : Keys) (es rows : List Keyed) → All (IsKept keys) rows → UnmetAreMissing keys es rows }
{}
