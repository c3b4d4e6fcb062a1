//! What the rows of a heap are.
ghost use Rattle.outside.specs.Outside.{Names};
ghost use Rattle.case_file.specs.Record.{CaseRecord};
ghost use Rattle.case_file.specs.Sound.{IsSound};
ghost use Rattle.heap_table_check.specs.Found.{IsQuiet};
ghost use Rattle.heap_rows.specs.RowLaws.{AreLiveTuples, RowsAreLive, TidsRise};
ghost use Rattle.heap_rows.specs.Rows.{rows_of};

/// Each row of a case's heap is a live tuple of it, a normal item that the logs call live, and the rows
/// come by rising TID, none twice. Where nothing is found of the case and nothing of it is in doubt, as
/// of each case, whose columns are sound, the rows are exactly the live tuples of the heap: no live
/// tuple is without a row, the root of each is the one root that reaches it on its page, and its cells
/// are, column by column, the values of its attributes. It does nothing.
pub fn rows_are_live_tuples()
    ensures live { (case : CaseRecord) (names : Names) → RowsAreLive case names }
    ensures rise { (case : CaseRecord) (names : Names) → TidsRise (rows_of case names) }
    ensures exact { (case : CaseRecord) (names : Names) → IsSound case → IsQuiet case names
        → AreLiveTuples case names (rows_of case names) }
{}
