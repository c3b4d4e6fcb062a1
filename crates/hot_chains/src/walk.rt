//! The lowest root of each item: roots in rising order mark what they reach. A walk along the steps
//! ends at an item that has a mark, so all walks together are as long as the page has items.
ghost use Rattle.std.specs.Prelude.{◌≡◌, ◌+◌, ◌≤◌, true, length, replicate};
ghost use Rattle.hot_chains.specs.Marks.{IsGraph};
ghost use Rattle.hot_chains.specs.Table.{AreMarked, begins_in, next_in};

use crate::place::Place;

// Marks what root r reaches, up to an item that a lower root has marked.
#[inline]
fn mark_from(places: &[Place], roots: &mut [u16], r: u16)
    requires graph { IsGraph (next_in places.now) (begins_in places.now) (length places.now) }
    requires root { begins_in places.now r ≡ true }
    requires marked { AreMarked places.now roots.old r }
    ensures { AreMarked places.now roots.new (r + 1) }
{
    let mut here = r;
    while here != 0 && roots[here as usize] == 0 {
        roots[here as usize] = r;
        here = places[here as usize - 1].next;
    }
}

// Fills in, for each item, the lowest root that reaches it; 0 stays where there is none, and for
// number 0.
pub(crate) fn find_roots(places: &[Place], roots: &mut [u16])
    requires few { length places.now ≤ 2042 }
    requires graph { IsGraph (next_in places.now) (begins_in places.now) (length places.now) }
    requires blank { roots.old ≡ replicate (length places.now + 1) 0 }
    ensures { AreMarked places.now roots.new (length places.now + 1) }
{
    for k in 0..places.len() as u16 {
        if places[k as usize].is_root {
            mark_from(places, roots, k + 1);
        }
    }
}
