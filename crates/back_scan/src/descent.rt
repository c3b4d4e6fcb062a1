//! The way of a backward search from page to page.
ghost use Rattle.std.specs.Prelude.{◌≡◌, ◌≢◌, ◌<◌, ◌≤◌, ◌+◌, ◌-◌, ◌*◌, ◌^◌, ◌↔◌, [], List, reverse, IfOk, OnOk};
ghost use Rattle.outside.specs.Outside.{AskedAtMost, IfTold, Tells};
ghost use Rattle.rel_files.specs.Faults.{read_fault};
ghost use Rattle.laws_search.specs.Back.{Reads, Seeks, back_start};
ghost use Rattle.laws_search.specs.Keys.{Entry as Given};
ghost use Rattle.laws_back_search.specs.Answers.{AnswersBack};
ghost use Rattle.key_orders.specs.declared.columns.Value.{Value};
ghost use Rattle.key_orders.specs.declared.Tid.{Tid as Place};
ghost use Rattle.key_orders.specs.Scans.{FitsKey};
ghost use Rattle.bt_levels.specs.Sound.{HoldsTree, block_count, fastroot_of, image_of, specs_of};
ghost use Rattle.bt_steps.specs.Pages.{is_killed};
ghost use Rattle.bt_search.specs.Spots.{scan_on};
ghost use Rattle.bt_search.specs.Items.{back_on};
ghost use Rattle.back_scan.specs.Spots.{GoesOn, LeftTo, SeeksTo, StandsAt, left_at, left_from, rest_at};
ghost use Rattle.back_scan.specs.Spots.{state_at};
ghost use Rattle.back_scan.specs.Steps.{IsWantedOn};

use crate::laws::back_searches_go_in_steps;
use crate::spots::{NOWHERE, last_spot};
use crate::way::Reach;
use bt_levels::SoundTree;
use bt_search::{Search, Spot, Visits, look_at};
use bt_steps::{Step, step_on};
use key_orders::Scan;
use outside::Files;
use page_layout::PageView;
use rel_files::ReadFault;

// Goes from a block to the last leaf that the scan reaches: right, and down.
fn arrive<F: Files>(
    search: &Search<'_>,
    files: &mut F,
    first: u32,
    page: &mut [u8; 8192],
    visits: &mut Visits,
) -> Result<Spot, ReadFault>
    requires holds { IfTold F.seen files.old (λ names. HoldsTree names search.now.tree.now) }
    requires fits { FitsKey (specs_of search.now.tree.now) search.now.scan.now }
    requires comes { IfTold F.seen files.old (λ names.
        SeeksTo names search.now.tree.now search.now.scan.now first) }
    requires enough { IfTold F.seen files.old (λ names.
        visits.old.count + left_from names search.now.tree.now search.now.scan.now (Seeks first) ≤ search.now.limit) }
    requires within { visits.old.count ≤ search.now.limit }
    requires room { search.now.limit < 2 ^ 64 }
    ensures stands { Tells F.seen files.old result (λ spot names.
        StandsAt names search.now.tree.now search.now.scan.now spot page.new) }
    ensures there { Tells F.seen files.old result (λ spot names. spot.block ≢ 0) }
    ensures goes { Tells F.seen files.old result (λ spot names.
        GoesOn names search.now.tree.now search.now.scan.now (Seeks first)
        (state_at names search.now.tree.now search.now.scan.now spot) visits.old.count visits.new.count) }
    ensures onward { visits.old.count ≤ visits.new.count }
    ensures limit { visits.new.count ≤ search.now.limit }
    ensures asked { AskedAtMost (visits.new.count - visits.old.count) F.seen files.old files.new result read_fault }
{
    back_searches_go_in_steps();
    let columns = search.tree.columns();
    let way = Reach { scan: search.scan };
    let mut block = first;
    while visits.count < search.limit {
        if block == 0 || block >= search.tree.blocks() {
            return Ok(NOWHERE);
        }
        look_at(search.tree, files, block, page, visits)?;
        match step_on(PageView::new(page), &columns, &way) {
            Step::To(next) => block = next,
            Step::Read => return Ok(last_spot(block, PageView::new(page))),
            Step::Lost => return Ok(NOWHERE),
        }
    }
    Ok(NOWHERE)
}

/// Goes left to the leaf of a block, and gives the spot of its last entry. `ReadFault` comes only where the files
/// couldn't be read.
pub fn go_left<F: Files>(
    search: &Search<'_>,
    files: &mut F,
    block: u32,
    page: &mut [u8; 8192],
    visits: &mut Visits,
) -> Result<Spot, ReadFault>
    requires holds { IfTold F.seen files.old (λ names. HoldsTree names search.now.tree.now) }
    requires comes { IfTold F.seen files.old (λ names.
        LeftTo names search.now.tree.now search.now.scan.now block) }
    requires enough { IfTold F.seen files.old (λ names.
        visits.old.count + left_from names search.now.tree.now search.now.scan.now (Reads block [])
        ≤ search.now.limit) }
    requires within { visits.old.count ≤ search.now.limit }
    requires room { search.now.limit < 2 ^ 64 }
    ensures stands { Tells F.seen files.old result (λ spot names.
        StandsAt names search.now.tree.now search.now.scan.now spot page.new) }
    ensures goes { Tells F.seen files.old result (λ spot names.
        GoesOn names search.now.tree.now search.now.scan.now (Reads block [])
        (state_at names search.now.tree.now search.now.scan.now spot) visits.old.count visits.new.count) }
    ensures onward { visits.old.count ≤ visits.new.count }
    ensures limit { visits.new.count ≤ search.now.limit }
    ensures visited { IfOk result (λ spot. spot.block ≢ 0 → visits.old.count < visits.new.count) }
    ensures asked { AskedAtMost (visits.new.count - visits.old.count) F.seen files.old files.new result read_fault }
{
    back_searches_go_in_steps();
    if search.limit <= visits.count || block == 0 || block >= search.tree.blocks() {
        return Ok(NOWHERE);
    }
    look_at(search.tree, files, block, page, visits)?;
    Ok(last_spot(block, PageView::new(page)))
}

/// Goes from the fast root to the leaf where a backward scan begins, and gives the spot of the last entry of it, or
/// item 0 where it has none; `page` then has that leaf. In an empty tree the spot's block is 0, and no page is visited.
///
/// What is left from the spot down is what the scan wants of the whole index, each entry once, from the last to the
/// first. The visits that were made and those that are left are as many as the whole search takes, at most twice as
/// many as the index has blocks. `ReadFault` comes only where the files couldn't be read. Where the files don't hold
/// the tree that was judged, the search still ends within twice as many visits as it has blocks.
pub fn descend_last<F: Files>(
    tree: &SoundTree,
    files: &mut F,
    scan: &Scan,
    page: &mut [u8; 8192],
    visits: &mut Visits,
) -> Result<Spot, ReadFault>
    requires holds { IfTold F.seen files.old (λ names. HoldsTree names tree.now) }
    requires fits { FitsKey (specs_of tree.now) scan.now }
    requires room { visits.old.count + 2 * block_count tree.now < 2 ^ 64 }
    ensures stands { Tells F.seen files.old result (λ spot names. StandsAt names tree.now scan.now spot page.new) }
    ensures empty { Tells F.seen files.old result (λ spot names. (spot.block ≡ 0) ↔ (fastroot_of tree.now ≡ 0)) }
    ensures wanted { Tells F.seen files.old result (λ spot names. (es : List (Given Value Place))
        → IsWantedOn names tree.now scan.now es → rest_at names tree.now scan.now spot ≡ reverse es) }
    ensures answer { Tells F.seen files.old result (λ spot names.
        AnswersBack is_killed (image_of names tree.now) (scan_on tree.now scan.now) (back_on tree.now scan.now)
        (block_count tree.now + block_count tree.now) (rest_at names tree.now scan.now spot)) }
    ensures visits { Tells F.seen files.old result (λ spot names.
        visits.new.count + left_at names tree.now scan.now spot
        ≡ visits.old.count + left_from names tree.now scan.now (back_start (image_of names tree.now))) }
    ensures most { IfTold F.seen files.old (λ names.
        left_from names tree.now scan.now (back_start (image_of names tree.now)) ≤ 2 * block_count tree.now) }
    ensures onward { visits.old.count ≤ visits.new.count }
    ensures limit { visits.new.count ≤ visits.old.count + 2 * block_count tree.now }
    ensures asked { AskedAtMost (visits.new.count - visits.old.count) F.seen files.old files.new result read_fault }
{
    back_searches_go_in_steps();
    let first = tree.fastroot();
    if first == 0 {
        return Ok(NOWHERE);
    }
    let limit = visits.count + 2 * u64::from(tree.blocks());
    let search = Search { tree, scan, limit };
    arrive(&search, files, first, page, visits)
}
