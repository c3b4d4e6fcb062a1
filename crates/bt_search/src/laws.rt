//! What a search of an index is, step by step.
ghost use Rattle.outside.specs.Outside.{Names as Held};
ghost use Rattle.key_orders.specs.Scans.{Bounds};
ghost use Rattle.bt_levels.specs.declared.sound.SoundTree.{SoundTree as Sound};
ghost use Rattle.bt_levels.specs.Sound.{HoldsTree};
ghost use Rattle.bt_search.specs.Steps.{GoesInSteps};

use bt_levels::sound_trees_are_searchable;
use key_orders::keys_are_searchable;

/// A search of an index that the names hold finds what it is to find, within as many visits as the index
/// has blocks; and what each visit, and each step along a leaf, does to what is left.
pub fn searches_go_in_steps()
    ensures { (names : Held) (sound : Sound) (bounds : Bounds) → HoldsTree names sound
        → GoesInSteps names sound bounds }
{
    sound_trees_are_searchable();
    keys_are_searchable();
}
