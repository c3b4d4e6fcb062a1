//! A look at a page beside the one that is judged.
ghost use Rattle.std.specs.Prelude.{◌≡◌, ◌<◌, drop, take, ℕ, List};
ghost use Rattle.outside.specs.Outside.{AskedAtMost, IfTold, Tells};
ghost use Rattle.bt_meta.specs.Pages.{opaque_of};
ghost use Rattle.rel_files.specs.Blocks.{block_of};
ghost use Rattle.rel_files.specs.Faults.{read_fault};
ghost use Rattle.rel_files.specs.Relation.{IsAttached, base_of, count_of, size_of};
ghost use Rattle.bt_pages.specs.Trees.{glance_of, is_idle_by};

use crate::glance::Glance;
use bt_meta::{Opaque, TREE_SPECIAL};
use outside::Files;
use page_layout::{PD_LOWER, PD_UPPER, SIZE_OF_PAGE_HEADER, u16_at, u32_at};
use rel_files::{ReadFault, Relation};

// The bytes of a page's header (storage/bufpage.h), and of its special space (access/nbtree.h, BTPageOpaqueData).
const HEADER_LEN: usize = 24;

const SPECIAL_LEN: usize = 16;

// The special space in its bytes.
#[tactic(auto, unfolding(bt_meta::specs::Pages::opaque_of))]
fn special_in(bytes: &[u8; 16]) -> Opaque
    ensures { (page : List ℕ) → bytes.now ≡ take 16 (drop 8176 page) → result ≡ opaque_of page }
{
    Opaque {
        prev: u32_at(bytes, 0),
        next: u32_at(bytes, 4),
        level: u32_at(bytes, 8),
        flags: u16_at(bytes, 12),
        cycle: u16_at(bytes, 14),
    }
}

// Whether a page is no part of the tree, by the places in its header and its special space.
fn is_idle_by(lower: u16, upper: u16, special: Opaque) -> bool
    ensures { result ≡ is_idle_by lower upper special }
{
    upper == 0
        || special.is_deleted()
        || special.flags == 0 && special.level == 0 && lower == SIZE_OF_PAGE_HEADER
}

/// Looks at a block of an index: at its header and its special space alone, 40 bytes by two reads.
/// `ReadFault` comes only where the files couldn't be read.
pub fn glance_at<F: Files>(
    files: &mut F,
    relation: &Relation,
    block: u32,
) -> Result<Glance, ReadFault>
    requires attached { IfTold F.seen files.old (λ names. IsAttached names relation.now) }
    requires inside { block < count_of relation.now }
    ensures told { Tells F.seen files.old result (λ glance names.
        glance ≡ glance_of (block_of names (base_of relation.now) (size_of relation.now) block)) }
    ensures asked { AskedAtMost 2 F.seen files.old files.new result read_fault }
{
    let mut header = [0u8; HEADER_LEN];
    relation.read_part(files, block, 0, &mut header)?;
    let mut special = [0u8; SPECIAL_LEN];
    relation.read_part(files, block, TREE_SPECIAL, &mut special)?;
    let special = special_in(&special);
    Ok(Glance {
        idle: is_idle_by(
            u16_at(&header, PD_LOWER),
            u16_at(&header, PD_UPPER),
            special,
        ),
        special,
    })
}
