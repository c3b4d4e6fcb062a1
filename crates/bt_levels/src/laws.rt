//! What the lists of a report say of an index, and what holds of one in which nothing was found.
ghost use Rattle.std.specs.Prelude.{◌≢◌, ◌≤◌, ℕ, None};
ghost use Rattle.outside.specs.Outside.{Names};
ghost use Rattle.laws_search.specs.Searchable.{IsSearchable};
ghost use Rattle.laws_search.specs.Tiles.{Tile, live_rows};
ghost use Rattle.key_orders.specs.Scans.{order_of};
ghost use Rattle.case_file.specs.Record.{CaseRecord};
ghost use Rattle.bt_levels.specs.Broken.{IsJudged};
ghost use Rattle.bt_levels.specs.Sound.{HoldsTree, fastroot_of, image_of, specs_of};
ghost use Rattle.bt_levels.specs.declared.sound.SoundTree.{SoundTree as Sound};

use bt_image::kept_rules_make_a_sound_image;
use key_orders::{key_orders_are_total, keys_are_searchable};

/// What `check_tree` adds to a report of an index is what is broken and what is in doubt: see `IsJudged`.
pub fn indexes_are_judged()
    ensures { (case : CaseRecord) (names : Names) (n : ℕ) → IsJudged case names n }
{
    key_orders_are_total();
    keys_are_searchable();
    kept_rules_make_a_sound_image();
}

/// Where the names hold the index, its image has all that a search of it needs
/// (`laws_search::search_finds`).
pub fn sound_trees_are_searchable()
    ensures { (names : Names) (sound : Sound) → HoldsTree names sound
        → IsSearchable (order_of (specs_of sound)) (image_of names sound) }
{
    key_orders_are_total();
    kept_rules_make_a_sound_image();
}

/// Where the names hold the index, the live pages of each level tile the keys, unless it is empty. Levels are counted
/// from the root's down, which is 0.
///
/// From left to right, the lower bound of the first live page is minus infinity, and that of each later one is the high
/// key of the live page before it; that high key is above the page's own lower bound; and the last one has no high key.
pub fn levels_tile_the_keys()
    ensures { (names : Names) (sound : Sound) → HoldsTree names sound → fastroot_of sound ≢ 0
        → (n : ℕ) → n ≤ (image_of names sound).level
        → Tile (order_of (specs_of sound)) (image_of names sound) None (live_rows (image_of names sound) n) }
{
    sound_trees_are_searchable();
}
