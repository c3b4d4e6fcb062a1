//! What a backward search of an index is, step by step.
ghost use Rattle.outside.specs.Outside.{Names as Held};
ghost use Rattle.key_orders.specs.Scans.{Bounds};
ghost use Rattle.bt_levels.specs.declared.sound.SoundTree.{SoundTree as Sound};
ghost use Rattle.bt_levels.specs.Sound.{HoldsTree};
ghost use Rattle.back_scan.specs.Steps.{GoesInSteps};

use bt_levels::sound_trees_are_searchable;
use bt_search::searches_go_in_steps;
use key_orders::keys_are_searchable;

/// A backward search of an index that the names hold finds the reverse of what the scan is to find, within twice as
/// many visits as the index has blocks; and what each visit, and each step along a leaf, does to what is left.
pub fn back_searches_go_in_steps()
    ensures { (names : Held) (sound : Sound) (bounds : Bounds) → HoldsTree names sound
        → GoesInSteps names sound bounds }
{
    sound_trees_are_searchable();
    keys_are_searchable();
    searches_go_in_steps();
}
