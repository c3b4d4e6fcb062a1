//! What is so of an index whose leaves are apart.
ghost use Rattle.std.specs.Prelude.{◌≡◌, Contains};
ghost use Rattle.outside.specs.Outside.{Names};
ghost use Rattle.laws_search.specs.Keys.{Entry as Given};
ghost use Rattle.laws_search.specs.Search.{entries_of};
ghost use Rattle.key_orders.specs.declared.columns.Value.{Value};
ghost use Rattle.key_orders.specs.declared.Tid.{Tid as At};
ghost use Rattle.bt_levels.specs.declared.sound.SoundTree.{SoundTree as Sound};
ghost use Rattle.bt_levels.specs.Sound.{HoldsTree, image_of};
ghost use Rattle.join_distinct.specs.Apart.{AreApart};

use bt_levels::sound_trees_are_searchable;
use key_orders::key_orders_are_total;

/// Where the names hold an index whose leaves are apart, any two of its entries that have the same values are the same
/// entry, killed ones among them.
pub fn apart_leaves_have_no_equal_keys()
    ensures { (names : Names) (sound : Sound) → HoldsTree names sound → AreApart names sound
        → (d e : Given Value At) → Contains (entries_of (image_of names sound)) d
        → Contains (entries_of (image_of names sound)) e → d.values ≡ e.values → d ≡ e }
{
    key_orders_are_total();
    sound_trees_are_searchable();
}
