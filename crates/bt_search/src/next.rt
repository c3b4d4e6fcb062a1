//! The entries that a scan yields, one after another.
ghost use Rattle.std.specs.Prelude.{◌≡◌, ◌≢◌, ◌≤◌, ◌<◌, ◌+◌, ◌-◌, ◌^◌, None, Ok, IfOk, IfSome, OnOk};
ghost use Rattle.outside.specs.Outside.{AskedAtMost, IfTold, Tells};
ghost use Rattle.rel_files.specs.Faults.{read_fault};
ghost use Rattle.key_orders.specs.Scans.{FitsKey};
ghost use Rattle.bt_levels.specs.Sound.{HoldsTree, block_count, index_columns, specs_of};
ghost use Rattle.bt_search.specs.Entries.{IsEntryAt};
ghost use Rattle.bt_search.specs.Spots.{IsNext, StandsAt, left_at};

use crate::descent::{Search, arrive};
use crate::laws::searches_go_in_steps;
use crate::leaf::{OnLeaf, read_leaf};
use crate::spot::{Spot, Visits};
use bt_levels::SoundTree;
use bt_tuples::ItemKeys;
use key_orders::Scan;
use outside::Files;
use page_layout::PageView;
use rel_files::ReadFault;

/// Gives the place of the next entry that a scan yields, and moves the spot behind it; `page` has the
/// place's leaf, and the spot's. `None` comes exactly where no matching unkilled entry is left, and then
/// none is left afterwards. The spot stands at the scan, as `descend` and this call leave it, and `page` is
/// its leaf.
///
/// The entry is the first of what was left, and what is left afterwards are the others. The visits that
/// this call makes and those that are left then are those that were left before. A spot of block 0 stays
/// as it is, and nothing is read.
///
/// `ReadFault` comes only where the files couldn't be read, and then nothing is known of the spot. Where
/// the files don't hold the tree that was judged, the call still ends within as many visits as the tree
/// has blocks, and a place that it gives is that of an entry that `entry_at` can read.
pub fn next_entry<F: Files>(
    tree: &SoundTree,
    files: &mut F,
    scan: &Scan,
    spot: &mut Spot,
    page: &mut [u8; 8192],
    visits: &mut Visits,
) -> Result<Option<Spot>, ReadFault>
    requires holds { IfTold F.seen files.old (λ names. HoldsTree names tree.now) }
    requires fits { FitsKey (specs_of tree.now) scan.now }
    requires room { visits.old.count + block_count tree.now < 2 ^ 64 }
    requires stands { IfTold F.seen files.old (λ names. StandsAt names tree.now scan.now spot.old page.old) }
    ensures stands { OnOk result (IfTold F.seen files.old (λ names.
        StandsAt names tree.now scan.now spot.new page.new)) }
    ensures next { Tells F.seen files.old result (λ at names.
        IsNext names tree.now scan.now spot.old spot.new page.new at) }
    ensures visits { OnOk result (IfTold F.seen files.old (λ names.
        visits.new.count + left_at names tree.now scan.now spot.new
        ≡ visits.old.count + left_at names tree.now scan.now spot.old)) }
    ensures entry { IfOk result (λ at. IfSome at (IsEntryAt (index_columns tree.now) page.new)) }
    ensures nowhere { spot.old.block ≡ 0 → (result ≡ Ok None) × (spot.new ≡ spot.old) × (page.new ≡ page.old)
        × (visits.new ≡ visits.old) }
    ensures onward { visits.old.count ≤ visits.new.count }
    ensures limit { visits.new.count ≤ visits.old.count + block_count tree.now }
    ensures asked { AskedAtMost (visits.new.count - visits.old.count) F.seen files.old files.new result read_fault }
{
    searches_go_in_steps();
    let limit = visits.count + u64::from(tree.blocks());
    let search = Search { tree, scan, limit };
    while spot.block != 0 {
        match read_leaf(&search, PageView::new(page), spot, &mut ItemKeys::new()) {
            OnLeaf::Entry(at) => return Ok(Some(at)),
            OnLeaf::End => return Ok(None),
            OnLeaf::Right(next) => *spot = arrive(&search, files, next, page, visits)?,
        }
    }
    Ok(None)
}
