//! What the lists of a report say of a case's files.
ghost use Rattle.outside.specs.Outside.{Names};
ghost use Rattle.case_file.specs.Record.{CaseRecord};
ghost use Rattle.heap_table_check.specs.Found.{IsQuiet};
ghost use Rattle.heap_table_check.specs.Judged.{IsJudged};
ghost use Rattle.heap_table_check.specs.Truth.{IsTrueHeap};

/// What `check_heap` adds to a report is what is broken and what is in doubt: each finding is a rule
/// that is broken at its place, each place that can't be judged is in doubt, and each place where a
/// rule is broken or something is in doubt is listed. The chunks that values are asked of are those of
/// the TOAST table. Of a case of which nothing is listed, what its pages and its visibility map say is
/// true, one root reaches each live tuple, and each value in the TOAST table is whole. It does nothing.
pub fn heaps_are_judged()
    ensures judged { (case : CaseRecord) (names : Names) → IsJudged case names }
    ensures quiet { (case : CaseRecord) (names : Names) → IsQuiet case names → IsTrueHeap case names }
{}
