//! What is found of a line pointer and of its tuple.
ghost use Rattle.std.specs.Prelude.{◌≡◌};
ghost use Rattle.heap_page_check.specs.Verdicts.{reason_of};

use liveness::{Doubt, ItemState};
use page_layout::Rule;
use reports::Reason;

/// What is found of a line pointer of a heap page and of the tuple that it points to. Contracts speak of it;
/// the code hands on a `TupleVerdict`, and adds the state of what passes to those of the page.
#[derive(Clone, Copy, Debug, PartialEq, Eq)]
pub enum ItemVerdict {
    /// It breaks no rule that is asked of it alone.
    Passes(ItemState),
    /// The first rule that it breaks.
    Breaks(Rule),
    /// It can't be judged.
    InDoubt(Reason),
}

/// The same without the state of what passes, which is large.
#[derive(Clone, Copy)]
pub(crate) enum TupleVerdict {
    Passes,
    Breaks(Rule),
    InDoubt(Reason),
}

/// The reason for a doubt about a tuple's life.
pub(crate) fn reason_of(doubt: Doubt) -> Reason
    ensures { result ≡ reason_of doubt }
{
    match doubt {
        Doubt::U1 => Reason::U1,
        Doubt::U2 => Reason::U2,
        Doubt::U3 => Reason::U3,
    }
}
