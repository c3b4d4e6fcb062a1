//! The laws on which the worth of a report rests.
ghost use Rattle.std.specs.Prelude.{◌≡◌, ℕ, true};
ghost use Rattle.outside.specs.Outside.{Names};
ghost use Rattle.case_file.specs.Record.{CaseRecord};
ghost use Rattle.bt_levels.specs.Lists.{is_quiet};
ghost use Rattle.join_rules.specs.Unique.{AreUnique};
ghost use Rattle.laws_built_clean.specs.Remade.{IsRemade};
ghost use Rattle.cmd_run.specs.Index.{index_found};
ghost use Rattle.cmd_run.specs.Laws.{AreLaws};

use bt_levels::indexes_are_judged;
use bt_scan_lines::wanted_entries_are_those_that_match;
use heap_rows::rows_are_live_tuples;
use join_rules::heaps_and_indexes_are_judged;
use key_orders::{key_orders_are_total, keys_are_searchable};
use laws_built_clean::remade_indexes_are_clean;

/// The laws of the crates below that say what a report of an index is worth: see `AreLaws`. It does nothing.
pub fn reports_have_worth()
    ensures { AreLaws }
{
    indexes_are_judged();
    heaps_and_indexes_are_judged();
    rows_are_live_tuples();
    keys_are_searchable();
    key_orders_are_total();
    wanted_entries_are_those_that_match();
}

/// Where the files of an index of a case hold what `reindex` writes of the case's table (`IsRemade`), and no two live
/// rows have one key in a unique index, `index` finds nothing, and nothing is in doubt. It does nothing.
pub fn remade_indexes_are_called_clean()
    ensures { (case : CaseRecord) (names : Names) (n : ℕ) → IsRemade case names n → AreUnique case names n
        → is_quiet (index_found case names n) ≡ true }
{
    remade_indexes_are_clean();
}
