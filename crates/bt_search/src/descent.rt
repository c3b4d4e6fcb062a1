//! The way of a search from page to page.
ghost use Rattle.std.specs.Prelude.{◌≡◌, ◌≢◌, ◌<◌, ◌≤◌, ◌+◌, ◌-◌, ◌^◌, ◌↔◌, [], IfOk, OnOk};
ghost use Rattle.outside.specs.Outside.{AskedAtMost, IfTold, Tells};
ghost use Rattle.page_layout.specs.View.{page_bytes};
ghost use Rattle.bt_image.specs.Image.{first_data};
ghost use Rattle.rel_files.specs.Faults.{read_fault};
ghost use Rattle.laws_search.specs.Search.{Answers, At, IsWanted, search_start};
ghost use Rattle.key_orders.specs.Scans.{FitsKey, order_of};
ghost use Rattle.bt_levels.specs.Sound.{HoldsTree, block_count, fastroot_of, held_block, image_of, specs_of};
ghost use Rattle.bt_search.specs.Descents.{ComesTo, GoesOn};
ghost use Rattle.bt_steps.specs.Pages.{is_killed};
ghost use Rattle.bt_search.specs.Spots.{StandsAt, left_at, left_from, rest_at, scan_on, state_at};

use crate::laws::searches_go_in_steps;
use crate::spot::{NOWHERE, Spot, Visits};
use bt_image::first_data;
use bt_levels::SoundTree;
use bt_steps::{Step, step_on};
use key_orders::Scan;
use outside::Files;
use page_layout::PageView;
use rel_files::ReadFault;

/// A search under way: of which tree, by which scan, and at how many visits it gives up.
#[derive(Drop)]
pub struct Search<'a> {
    pub tree: &'a SoundTree,
    pub scan: &'a Scan,
    pub limit: u64,
}

/// Reads the page of a block, which is a visit. `ReadFault` comes only where the files couldn't be read.
pub fn look_at<F: Files>(
    tree: &SoundTree,
    files: &mut F,
    b: u32,
    page: &mut [u8; 8192],
    visits: &mut Visits,
) -> Result<(), ReadFault>
    requires holds { IfTold F.seen files.old (λ names. HoldsTree names tree.now) }
    requires below { b < block_count tree.now }
    requires room { visits.old.count + 1 < 2 ^ 64 }
    ensures count { visits.new.count ≡ visits.old.count + 1 }
    ensures page { OnOk result (IfTold F.seen files.old (λ names. page.new ≡ held_block names tree.now b)) }
    ensures asked { AskedAtMost 1 F.seen files.old files.new result read_fault }
{
    visits.count += 1;
    tree.read_block(files, b, page)
}

// The spot before the first entry of a leaf.
fn first_spot(block: u32, page: PageView<'_>) -> Spot
    ensures block { result.block ≡ block }
    ensures item { result.item ≡ first_data (page_bytes page.entry) }
    ensures nth { result.nth ≡ 0 }
{
    Spot {
        block,
        item: first_data(page),
        nth: 0,
    }
}

/// Goes from a block to the leaf that the search reads, right and down, and gives the spot before its first entry.
/// `ReadFault` comes only where the files couldn't be read.
pub fn arrive<F: Files>(
    search: &Search<'_>,
    files: &mut F,
    first: u32,
    page: &mut [u8; 8192],
    visits: &mut Visits,
) -> Result<Spot, ReadFault>
    requires holds { IfTold F.seen files.old (λ names. HoldsTree names search.now.tree.now) }
    requires fits { FitsKey (specs_of search.now.tree.now) search.now.scan.now }
    requires comes { IfTold F.seen files.old (λ names.
        ComesTo names search.now.tree.now search.now.scan.now first) }
    requires enough { IfTold F.seen files.old (λ names.
        visits.old.count + left_from names search.now.tree.now search.now.scan.now (At first []) ≤ search.now.limit) }
    requires within { visits.old.count ≤ search.now.limit }
    requires room { search.now.limit < 2 ^ 64 }
    ensures stands { Tells F.seen files.old result (λ spot names.
        StandsAt names search.now.tree.now search.now.scan.now spot page.new) }
    ensures there { Tells F.seen files.old result (λ spot names. spot.block ≢ 0) }
    ensures goes { Tells F.seen files.old result (λ spot names.
        GoesOn names search.now.tree.now search.now.scan.now (At first [])
        (state_at names search.now.tree.now search.now.scan.now spot) visits.old.count visits.new.count) }
    ensures onward { visits.old.count ≤ visits.new.count }
    ensures limit { visits.new.count ≤ search.now.limit }
    ensures visited { IfOk result (λ spot. spot.block ≢ 0 → visits.old.count < visits.new.count) }
    ensures asked { AskedAtMost (visits.new.count - visits.old.count) F.seen files.old files.new result read_fault }
{
    searches_go_in_steps();
    let columns = search.tree.columns();
    let mut block = first;
    while visits.count < search.limit {
        if block == 0 || block >= search.tree.blocks() {
            return Ok(NOWHERE);
        }
        look_at(search.tree, files, block, page, visits)?;
        match step_on(PageView::new(page), &columns, search.scan) {
            Step::To(next) => block = next,
            Step::Read => return Ok(first_spot(block, PageView::new(page))),
            Step::Lost => return Ok(NOWHERE),
        }
    }
    Ok(NOWHERE)
}

/// Goes from the fast root to the leaf where a scan begins, and gives the spot before the first entry of
/// it; `page` then has that leaf. In an empty tree the spot's block is 0, and no page is visited.
///
/// What is left from the spot on is what the scan wants of the whole index, each entry once, in order.
/// The visits that were made and those that are left are as many as the whole search takes, at most as
/// many as the index has blocks. `ReadFault` comes only where the files couldn't be read. Where the files
/// don't hold the tree that was judged, the search still ends within as many visits as it has blocks.
pub fn descend<F: Files>(
    tree: &SoundTree,
    files: &mut F,
    scan: &Scan,
    page: &mut [u8; 8192],
    visits: &mut Visits,
) -> Result<Spot, ReadFault>
    requires holds { IfTold F.seen files.old (λ names. HoldsTree names tree.now) }
    requires fits { FitsKey (specs_of tree.now) scan.now }
    requires room { visits.old.count + block_count tree.now < 2 ^ 64 }
    ensures stands { Tells F.seen files.old result (λ spot names. StandsAt names tree.now scan.now spot page.new) }
    ensures empty { Tells F.seen files.old result (λ spot names. (spot.block ≡ 0) ↔ (fastroot_of tree.now ≡ 0)) }
    ensures wanted { Tells F.seen files.old result (λ spot names.
        IsWanted (order_of (specs_of tree.now)) is_killed (image_of names tree.now) (scan_on tree.now scan.now)
        (rest_at names tree.now scan.now spot)) }
    ensures answer { Tells F.seen files.old result (λ spot names.
        Answers is_killed (image_of names tree.now) (scan_on tree.now scan.now) (block_count tree.now)
        (rest_at names tree.now scan.now spot)) }
    ensures visits { Tells F.seen files.old result (λ spot names.
        visits.new.count + left_at names tree.now scan.now spot
        ≡ visits.old.count + left_from names tree.now scan.now (search_start (image_of names tree.now))) }
    ensures most { IfTold F.seen files.old (λ names.
        left_from names tree.now scan.now (search_start (image_of names tree.now)) ≤ block_count tree.now) }
    ensures onward { visits.old.count ≤ visits.new.count }
    ensures limit { visits.new.count ≤ visits.old.count + block_count tree.now }
    ensures asked { AskedAtMost (visits.new.count - visits.old.count) F.seen files.old files.new result read_fault }
{
    searches_go_in_steps();
    let first = tree.fastroot();
    if first == 0 {
        return Ok(NOWHERE);
    }
    let limit = visits.count + u64::from(tree.blocks());
    let search = Search { tree, scan, limit };
    arrive(&search, files, first, page, visits)
}
