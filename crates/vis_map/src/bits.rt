//! The bits of heap blocks, as map pages hold them.
ghost use Rattle.std.specs.Prelude.{◌≡◌, ℕ, ◌+◌, ◌*◌, ◌<◌, ◌≤◌, true, length, None};
ghost use Rattle.page_layout.specs.Page.{is_new, page_rule_of};
ghost use Rattle.page_layout.specs.View.{page_bytes};
ghost use Rattle.vis_map.specs.Bits.{bits_of, map_byte_of, map_page_of, map_pages_for, no_bits};

use page_layout::{PageKind, PageView};

/// Of how many heap blocks a map page has the bits (`HEAPBLOCKS_PER_PAGE`). Map page p has those of
/// the heap blocks from p times this number on.
pub const BLOCKS_PER_MAP_PAGE: u32 = 32672;

/// What the map says of one heap block.
#[derive(Clone, Copy, Debug, PartialEq, Eq)]
pub struct MapBits {
    /// All transactions see all its tuples (`VISIBILITYMAP_ALL_VISIBLE`).
    pub all_visible: bool,
    /// No tuple of it needs freezing (`VISIBILITYMAP_ALL_FROZEN`).
    pub all_frozen: bool,
}

impl MapBits {
    /// The bits of a heap block of which the map says nothing.
    pub const NONE: MapBits = MapBits {
        all_visible: false,
        all_frozen: false,
    };
}

/// The map page that has the bits of a heap block. Blocks of both files count from 0.
pub fn map_page_of(block: u32) -> u32
    ensures { result ≡ map_page_of block }
{
    block / BLOCKS_PER_MAP_PAGE
}

/// How many map pages have the bits of the first so many heap blocks: the least number of pages
/// with which no block is left out.
pub fn map_pages_for(blocks: u32) -> u32
    ensures value { result ≡ map_pages_for blocks }
    ensures enough { (block : ℕ) → block < blocks → map_page_of block < result }
    ensures least { (fewer : ℕ) → fewer < result → 32672 * fewer < blocks }
{
    blocks.div_ceil(BLOCKS_PER_MAP_PAGE)
}

// The byte that has the bits of a heap block.
fn map_byte_of(page: PageView<'_>, block: u32) -> u8
    ensures { result ≡ map_byte_of (page_bytes page.entry) block }
{
    let at = 24 + block % BLOCKS_PER_MAP_PAGE / 4;
    page.piece(at as u16, 1)[0]
}

/// The bits of a heap block, from the map page that has them. A new page gives none.
#[tactic(auto, unfolding(crate::specs::Bits::bits_of))]
pub fn bits_in(page: PageView<'_>, block: u32) -> MapBits
    requires { page_rule_of PageKind.Map (page_bytes page) ≡ None }
    ensures value { result ≡ bits_of (page_bytes page.entry) block }
    ensures new { is_new (page_bytes page.entry) ≡ true → result ≡ no_bits }
{
    let byte = map_byte_of(page, block);
    let shift = 2 * (block % 4);
    MapBits {
        all_visible: (byte >> shift) % 2 == 1,
        all_frozen: (byte >> (shift + 1)) % 2 == 1,
    }
}
