//! Which items of a heap page an index entry may name.
ghost use Rattle.std.specs.Prelude.{◌≡◌, ◌+◌, ◌*◌, ◌^◌, ◌<◌, ◌≤◌, ℕ, false, length, None};
ghost use Rattle.page_layout.specs.Bits.{is_set};
ghost use Rattle.page_layout.specs.declared.page.PageKind.TheVariants.{Heap};
ghost use Rattle.page_layout.specs.Page.{count_of, page_rule_of};
ghost use Rattle.page_layout.specs.View.{page_bytes};
ghost use Rattle.tuple_head.specs.Head.{is_heap_only, tuple_head_of};
ghost use Rattle.heap_targets.specs.Targets.{is_heap_only_item, is_target, is_unused};

use page_layout::{LineFlag, LinePtr, PageView, has_bit, set_bit, u16_at};
use tuple_head::HEAP_ONLY;

// Where the word `t_infomask2` stands in a tuple's header, in bytes from its start.
const INFOMASK2: usize = 18;

// Whether a line pointer is not in use.
#[inline]
fn is_unused(flag: LineFlag) -> bool
    ensures { result ≡ is_unused flag }
{
    matches!(flag, LineFlag::Unused)
}

// Whether a tuple is heap-only. One that ends before the word with the flag does isn't.
#[inline]
fn is_heap_only(tuple: &[u8]) -> bool
    ensures { result ≡ is_heap_only (tuple_head_of tuple.now) }
{
    INFOMASK2 + 2 <= tuple.len() && has_bit(u16_at(tuple, INFOMASK2), HEAP_ONLY)
}

// Whether a line pointer of a page is that of a heap-only tuple.
#[inline]
#[tactic(auto, unfolding(crate::specs::Targets::is_heap_only_item))]
fn is_heap_only_item(page: PageView<'_>, pointer: LinePtr) -> bool
    ensures { result ≡ is_heap_only_item (page_bytes page.entry) pointer }
{
    pointer.flag.is_normal()
        && u32::from(pointer.off) + u32::from(pointer.len) <= 8192
        && is_heap_only(page.piece(pointer.off, pointer.len))
}

// Whether an index entry may name item i of a page.
#[inline]
#[tactic(auto, unfolding(crate::specs::Targets::is_target))]
pub(crate) fn is_target(page: PageView<'_>, i: u16) -> bool
    requires page { page_rule_of Heap (page_bytes page) ≡ None }
    requires first { 1 ≤ i }
    requires last { i ≤ count_of (page_bytes page) }
    ensures { result ≡ is_target (page_bytes page.entry) i }
{
    let pointer = page.item(i);
    !is_unused(pointer.flag) && !is_heap_only_item(page, pointer)
}

// Sets from a place on, where no bit is set yet, one for each item of a page that an entry may name.
pub(crate) fn set_targets(bits: &mut [u8], start: usize, page: PageView<'_>)
    requires page { page_rule_of Heap (page_bytes page) ≡ None }
    requires few { start + count_of (page_bytes page) < 2 ^ 64 }
    requires room { start + count_of (page_bytes page) ≤ 8 * length bits.old }
    requires clear { (p : ℕ) → start ≤ p → is_set bits.old p ≡ false }
    ensures before { (p : ℕ) → p < start → is_set bits.new p ≡ is_set bits.old p }
    ensures items { (j : ℕ) → j < count_of (page_bytes page.entry)
        → is_set bits.new (start + j) ≡ is_target (page_bytes page.entry) (1 + j) }
    ensures behind { (p : ℕ) → start + count_of (page_bytes page.entry) ≤ p → is_set bits.new p ≡ false }
{
    for j in 0..page.item_count() {
        if is_target(page, j + 1) {
            set_bit(bits, start + j as usize);
        }
    }
}
