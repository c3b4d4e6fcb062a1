//! Whether a tuple is live or dead, by its header and the logs of its transactions.
//!
//! Sources: PostgreSQL 16's `access/htup_details.h` and `access/heap/heapam_visibility.c`, and the
//! sections on transactions and on multixacts of its manual's chapters "Transaction Processing" and
//! "Routine Database Maintenance Tasks".
#![tactic(auto)]

ghost use Rattle.std.specs.Prelude.{◌≡◌, ◌⊎◌, false, true};
ghost use Rattle.page_layout.specs.declared.rules.Rule.{Rule};
ghost use Rattle.tuple_head.specs.declared.HeapHead.{HeapHead};
ghost use Rattle.tuple_head.specs.Head.{is_old_form};
ghost use Rattle.outside.specs.Outside.{Names};
ghost use Rattle.liveness.specs.LogFiles.{LogFiles, logs_of};
ghost use Rattle.liveness.specs.declared.states.Doubt.{Doubt};
ghost use Rattle.liveness.specs.declared.states.Doubt.TheVariants.{U1};
ghost use Rattle.liveness.specs.declared.states.Life.TheVariants.{Unjudged};
ghost use Rattle.liveness.specs.Life.{BreaksRule, IsInDoubt, SaysTrue, TellsRule, UpdateSaysTrue, judged_of, life_of};

mod judge;
mod memory;
mod remembering;
mod states;
mod transactions;

pub use judge::{life, life_in};
pub use memory::Memory;
pub use remembering::Remembering;
pub use states::{Doubt, ItemState, Judged, Life, Status3};
pub use transactions::Transactions;

/// The law of `life`, for all that logs may hold and all headers: where its table calls a tuple live, the
/// tuple is inserted and not deleted; where it calls it dead, it isn't; where it says a rule or a doubt, that
/// is so; and the update that it names is the transaction that deleted or updated the tuple.
///
/// And the other way: a tuple of an old form is left to U1. Of others, where a rule is broken the table says
/// a rule, though it may be another one that is asked earlier, and where there is a doubt it says that or a
/// rule. So what it calls live or dead breaks no rule and hangs on no doubt. It does nothing.
pub fn life_is_true()
    ensures life { (names : Names) (files : LogFiles) (head : HeapHead)
        → SaysTrue names files head (life_of (logs_of names files) head) }
    ensures update { (names : Names) (files : LogFiles) (head : HeapHead)
        → UpdateSaysTrue names files head (judged_of (logs_of names files) head).update }
    ensures old { (names : Names) (files : LogFiles) (head : HeapHead)
        → is_old_form head ≡ true → life_of (logs_of names files) head ≡ Unjudged U1 }
    ensures rule { (names : Names) (files : LogFiles) (head : HeapHead) → is_old_form head ≡ false
        → (rule : Rule) → BreaksRule names files head rule → TellsRule (life_of (logs_of names files) head) }
    ensures doubt { (names : Names) (files : LogFiles) (head : HeapHead) → is_old_form head ≡ false
        → (doubt : Doubt) → IsInDoubt names files head doubt
        → (life_of (logs_of names files) head ≡ Unjudged doubt) ⊎ TellsRule (life_of (logs_of names files) head) }
{}
