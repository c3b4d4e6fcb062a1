//! A scan from the low bound up.
ghost use Rattle.std.specs.Prelude.{◌≢◌, IfOk, OnOk};
ghost use Rattle.outside.specs.Outside.{Asked, IfTold, Names as Held};
ghost use Rattle.key_orders.specs.Scans.{FitsKey};
ghost use Rattle.bt_levels.specs.Sound.{HoldsTree, specs_of};
ghost use Rattle.bt_search.specs.Spots.{StandsAt};
ghost use Rattle.bt_scan_lines.specs.Leaves.{AddsLeaf};
ghost use Rattle.bt_scan_lines.specs.Lines.{AddsLinesOf};
ghost use Rattle.bt_scan_lines.specs.Wanted.{wanted_on};

use crate::lines::LineWriter;
use bt_levels::SoundTree;
use bt_search::{OnLeaf, Search, Spot, Visits, arrive, descend, read_leaf, tid_on};
use bt_tuples::ItemKeys;
use key_orders::{Scan, keys_are_searchable};
use outside::{Files, NoMemory};
use page_layout::PageView;
use rel_files::PageFault;

// Adds the lines of the entries that a scan has left on a leaf, and gives the block to which it goes on, if it does.
fn add_leaf(
    search: &Search<'_>,
    page: &[u8; 8192],
    spot: &mut Spot,
    lines: &mut LineWriter,
) -> Result<Option<u32>, NoMemory>
    requires fits { FitsKey (specs_of search.now.tree.now) search.now.scan.now }
    ensures { IfOk result (λ next. (names : Held) → HoldsTree names search.now.tree.now → spot.old.block ≢ 0
        → StandsAt names search.now.tree.now search.now.scan.now spot.old page.now
        → AddsLeaf names search.now.tree.now search.now.scan.now spot.old next lines.old lines.new) }
{
    let view = PageView::new(page);
    let mut keys = ItemKeys::new();
    while lines.count < u64::MAX {
        match read_leaf(search, view, spot, &mut keys) {
            OnLeaf::Entry(at) => lines.push(&keys.first.kept, tid_on(view, at))?,
            OnLeaf::End => return Ok(None),
            OnLeaf::Right(next) => return Ok(Some(next)),
        }
    }
    // the text of so many lines would be longer than any memory
    Err(NoMemory)
}

/// Adds the lines of the entries that a scan wants, in the order of the index.
pub fn add_forward<F: Files>(
    files: &mut F,
    tree: &SoundTree,
    scan: &Scan,
    page: &mut [u8; 8192],
    lines: &mut LineWriter,
) -> Result<(), PageFault>
    requires holds { IfTold F.seen files.old (λ names. HoldsTree names tree.now) }
    requires fits { FitsKey (specs_of tree.now) scan.now }
    ensures lines { OnOk result (IfTold F.seen files.old (λ names.
        AddsLinesOf (wanted_on names tree.now scan.now) lines.old lines.new)) }
    ensures asked { Asked F.seen files.old files.new result PageFault.ReadFault }
{
    keys_are_searchable();
    let limit = u64::from(tree.blocks());
    let search = Search { tree, scan, limit };
    let mut visits = Visits { count: 0 };
    let mut spot = descend(tree, files, scan, page, &mut visits)?;
    while spot.block != 0 {
        match add_leaf(&search, page, &mut spot, lines)? {
            None => return Ok(()),
            Some(next) => spot = arrive(&search, files, next, page, &mut visits)?,
        }
    }
    Ok(())
}
