//! Where a page is put and found: among those that are kept, or in hand.
ghost use Rattle.std.specs.Prelude.{◌≡◌, ◌<◌, IfSome, IsFalse, IsSome, IsTrue, OnOk, length, nat_eq, slice_get};
ghost use Rattle.lru.specs.LruCache.{lru_cache, put_entries};
ghost use Rattle.outside.specs.Outside.{AskedAtMost, IfTold};
ghost use Rattle.rel_files.specs.Faults.{read_fault};
ghost use Rattle.rel_files.specs.Relation.{IsAttached};
ghost use Rattle.bt_levels.specs.Files.{relation_of};
ghost use Rattle.bt_levels.specs.Sound.{block_count, file_of, held_block};

use bt_levels::SoundTree;
use lru::LruCache;
use outside::Files;
use rel_files::ReadFault;
use std::alloc::Global;

// The pages that are kept, by their blocks' numbers.
pub type Kept = LruCache<u32, Box<[u8; 8192]>>;

// The page in hand, into which a block is read. It is always there between calls.
pub type Hand = Option<Box<[u8; 8192]>>;

// The page that was used last.
pub fn first_page(kept: &Kept) -> &[u8; 8192]
    requires { 0 < length kept.now.entries }
    ensures { IfSome (slice_get kept.now.entries 0) (λ e. result.now ≡ e.1.value) }
{
    let (_, page) = kept.peek_mru().unwrap();
    page.as_ref()
}

// The page in hand.
pub fn page_in_hand(hand: &Hand) -> &[u8; 8192]
    requires { IsSome hand.now }
    ensures { IfSome hand.now (λ page. result.now ≡ page.value) }
{
    let page = hand.as_ref().unwrap();
    page.as_ref()
}

// Reads a block into the page in hand. After a ReadFault that page may hold anything.
pub fn read<F: Files>(
    hand: &mut Hand,
    tree: &SoundTree,
    files: &mut F,
    block: u32,
) -> Result<(), ReadFault>
    requires there { IsSome hand.old }
    requires attached { IfTold F.seen files.old (λ names. IsAttached names (relation_of (file_of tree.now))) }
    requires below { block < block_count tree.now }
    ensures there { IsSome hand.new }
    ensures bytes { OnOk result (IfTold F.seen files.old (λ names. IfSome hand.new (λ page.
        page.value ≡ held_block names tree.now block))) }
    ensures asked { AskedAtMost 1 F.seen files.old files.new result read_fault }
{
    let mut page = hand.take().unwrap();
    let done = tree.read_block(files, block, page.as_mut());
    *hand = Some(page);
    done
}

// Keeps the page in hand in the place of the one that was unused for longest, whose memory is in
// hand then.
fn put_for_last(kept: &mut Kept, hand: &mut Hand, block: u32) -> bool
    requires there { IsSome hand.old }
    requires full { length kept.old.entries ≡ kept.old.cap }
    requires some { 0 < kept.old.cap }
    ensures there { IsSome hand.new }
    ensures put { IsTrue result → IfSome hand.old (λ page.
        kept.new ≡ lru_cache (put_entries nat_eq kept.old block page) kept.old.cap) }
    ensures refused { IsFalse result → (kept.new ≡ kept.old) × (hand.new ≡ hand.old) }
{
    let page = hand.take().unwrap();
    match kept.push(block, page) {
        Ok(out) => {
            let (_, other) = out.unwrap();
            *hand = Some(other);
            true
        }
        Err(failed) => {
            *hand = Some(failed.value.1);
            false
        }
    }
}

// Keeps the page in hand, and has a new one in hand then.
fn put_more(alloc: Global, kept: &mut Kept, hand: &mut Hand, block: u32) -> bool
    requires there { IsSome hand.old }
    ensures there { IsSome hand.new }
    ensures put { IsTrue result → IfSome hand.old (λ page.
        kept.new ≡ lru_cache (put_entries nat_eq kept.old block page) kept.old.cap) }
    ensures refused { IsFalse result → (kept.new ≡ kept.old) × (hand.new ≡ hand.old) }
{
    let Ok(other) = Box::new(alloc, [0; 8192]) else {
        return false;
    };
    let page = hand.replace(other).unwrap();
    match kept.push(block, page) {
        Ok(_) => true,
        Err(failed) => {
            *hand = Some(failed.value.1);
            false
        }
    }
}

// Keeps the page in hand under its block's number, as the one that was used last. Where there are
// as many pages as may be kept, the one that was unused for longest goes, and its memory is used
// again. False where memory was refused: all is then as it was.
pub fn put(alloc: Global, kept: &mut Kept, hand: &mut Hand, block: u32) -> bool
    requires there { IsSome hand.old }
    ensures there { IsSome hand.new }
    ensures put { IsTrue result → IfSome hand.old (λ page.
        kept.new ≡ lru_cache (put_entries nat_eq kept.old block page) kept.old.cap) }
    ensures refused { IsFalse result → (kept.new ≡ kept.old) × (hand.new ≡ hand.old) }
{
    if kept.len() == kept.cap().get() {
        put_for_last(kept, hand, block)
    } else {
        put_more(alloc, kept, hand, block)
    }
}
