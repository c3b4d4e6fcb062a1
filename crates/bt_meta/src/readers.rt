//! What stands at fixed places of a tree's pages and tuples, read from their bytes.
ghost use Rattle.std.specs.Prelude.{◌≡◌, ◌≤◌, ◌↔◌, length, IsNone};
ghost use Rattle.page_layout.specs.View.{page_bytes};
ghost use Rattle.bt_meta.specs.Heads.{kind_of, tree_head_of};
ghost use Rattle.bt_meta.specs.Pages.{KeepsMetaRules, has_bad_root, is_foreign, is_idle, is_no_metapage, meta_of};
ghost use Rattle.bt_meta.specs.Pages.{meta_rule_of, opaque_of};

use crate::layout::{
    BT_IS_POSTING, BTM_FASTLEVEL, BTM_FASTROOT, BTM_LEVEL, BTM_MAGIC, BTM_ROOT, BTM_VERSION,
    BTPO_CYCLEID, BTPO_FLAGS, BTPO_LEVEL, BTPO_NEXT, BTPO_PREV, BTREE_MAGIC, BTREE_MIN_VERSION,
    BTREE_VERSION, INDEX_ALT_TID_MASK, T_INFO, TID_BLOCK, TID_ITEM,
};
use crate::records::{HeadKind, Meta, Opaque, TreeHead};
use page_layout::{PD_LOWER, PageView, Rule, SIZE_OF_PAGE_HEADER, block_at, has_bit, u16_at};

/// The special space of a tree page.
#[inline]
#[tactic(auto, unfolding(crate::specs::Pages::opaque_of))]
pub fn opaque(page: PageView<'_>) -> Opaque
    ensures { result ≡ opaque_of (page_bytes page.entry) }
{
    Opaque {
        prev: page.u32_at(BTPO_PREV),
        next: page.u32_at(BTPO_NEXT),
        level: page.u32_at(BTPO_LEVEL),
        flags: page.u16_at(BTPO_FLAGS),
        cycle: page.u16_at(BTPO_CYCLEID),
    }
}

/// The numbers of a tree in its block 0.
#[tactic(auto, unfolding(crate::specs::Pages::meta_of))]
pub fn meta(page: PageView<'_>) -> Meta
    ensures { result ≡ meta_of (page_bytes page.entry) }
{
    Meta {
        magic: page.u32_at(BTM_MAGIC),
        version: page.u32_at(BTM_VERSION),
        root: page.u32_at(BTM_ROOT),
        level: page.u32_at(BTM_LEVEL),
        fastroot: page.u32_at(BTM_FASTROOT),
        fastlevel: page.u32_at(BTM_FASTLEVEL),
    }
}

/// The head of the index tuple in these bytes.
#[inline]
#[tactic(auto, unfolding(crate::specs::Heads::tree_head_of))]
pub fn tree_head(bytes: &[u8]) -> TreeHead
    requires { 8 ≤ length bytes.now }
    ensures { result ≡ tree_head_of bytes.now }
{
    let item = u16_at(bytes, TID_ITEM);
    let info = u16_at(bytes, T_INFO);
    TreeHead {
        block: block_at(bytes, TID_BLOCK),
        item,
        info,
        kind: kind_by(item, info),
    }
}

// The form of a tuple, by the item number of its TID and its info word.
#[inline]
#[tactic(auto, unfolding(crate::specs::Heads::kind_of))]
fn kind_by(item: u16, info: u16) -> HeadKind
    ensures { result ≡ kind_of item info }
{
    if !has_bit(info, INDEX_ALT_TID_MASK) {
        HeadKind::Plain
    } else if has_bit(item, BT_IS_POSTING) {
        HeadKind::Posting
    } else {
        HeadKind::Pivot
    }
}

/// Whether a tree page is no part of the tree: it is new, it was deleted, or it was laid out and
/// never used (no flags, level 0 and no line pointers). Of such a page nothing but the page rules and
/// its flags is judged.
#[tactic(auto, unfolding(crate::specs::Pages::is_idle))]
pub fn is_idle(page: PageView<'_>) -> bool
    ensures { result ≡ is_idle (page_bytes page.entry) }
{
    let special = opaque(page);
    page.is_new()
        || special.is_deleted()
        || special.flags == 0 && special.level == 0 && page.u16_at(PD_LOWER) == SIZE_OF_PAGE_HEADER
}

/// The first of M1 and M2 that block 0 of an index of so many blocks breaks. M2 is asked in version
/// 4 alone, since no other is judged.
#[tactic(auto, unfolding(crate::specs::Pages::meta_rule_of))]
pub fn meta_rule(page: PageView<'_>, blocks: u32) -> Option<Rule>
    ensures value { result ≡ meta_rule_of (page_bytes page.entry) blocks }
    ensures none { IsNone result ↔ KeepsMetaRules blocks (page_bytes page.entry) }
{
    if is_no_metapage(page) {
        return Some(Rule::M1);
    }
    let numbers = meta(page);
    if numbers.version == BTREE_VERSION && numbers.has_bad_root(blocks) {
        return Some(Rule::M2);
    }
    None
}

// Whether block 0 is new, isn't marked as a metapage, or isn't one that PostgreSQL writes.
#[tactic(auto, unfolding(crate::specs::Pages::is_no_metapage))]
fn is_no_metapage(page: PageView<'_>) -> bool
    ensures { result ≡ is_no_metapage (page_bytes page.entry) }
{
    page.is_new() || !opaque(page).is_meta() || meta(page).is_foreign()
}

impl Meta {
    // Whether the magic number or the version is none of a B-tree's.
    fn is_foreign(self) -> bool
        ensures { result ≡ is_foreign self }
    {
        self.magic != BTREE_MAGIC
            || self.version < BTREE_MIN_VERSION
            || BTREE_VERSION < self.version
    }

    // Whether the root or the fast root isn't below the number of blocks, or is 0 alone.
    #[tactic(auto, unfolding(crate::specs::Pages::has_bad_root))]
    fn has_bad_root(self, blocks: u32) -> bool
        ensures { result ≡ has_bad_root blocks self }
    {
        self.root >= blocks
            || self.fastroot >= blocks
            || self.root == 0 && self.fastroot != 0
            || self.fastroot == 0 && self.root != 0
    }
}
