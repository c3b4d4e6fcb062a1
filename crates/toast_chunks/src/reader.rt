//! Reads chunks from the pages of a relation.
ghost use Rattle.std.specs.Prelude.{◌≡◌, ◌<◌, OnOk, Some};
ghost use Rattle.outside.specs.Outside.{AskedAtMost, IfTold};
ghost use Rattle.rel_files.specs.Relation.{IsAttached, count_of};
ghost use Rattle.toast_chunks.specs.InHand.{Grows, IsInHand, PushesChunk};

use crate::fault::ToastFault;
use crate::stored::content_at;
use key_orders::Tid;
use outside::Files;
use rel_files::Relation;
use varlena_attrs::AttrBuffer;

// Takes a block of a relation in hand: reads it into `page`, unless it is there already.
fn take_page<F: Files>(
    files: &mut F,
    toast: &Relation,
    b: u32,
    page: &mut [u8; 8192],
    in_hand: &mut Option<u32>,
) -> Result<(), ToastFault>
    requires attached { IfTold F.seen files.old (λ names. IsAttached names toast.now) }
    requires below { b < count_of toast.now }
    requires hand { IfTold F.seen files.old (λ names. IsInHand names toast.now in_hand.old page.old) }
    ensures hand { IfTold F.seen files.old (λ names. IsInHand names toast.now in_hand.new page.new) }
    ensures ok { OnOk result (in_hand.new ≡ Some b) }
    ensures asked { AskedAtMost 1 F.seen files.old files.new result ToastFault.ReadFault }
{
    if *in_hand == Some(b) {
        return Ok(());
    }
    *in_hand = None;
    toast.read_block(files, b, page)?;
    *in_hand = Some(b);
    Ok(())
}

// Adds the bytes of the chunk at a place of a relation, where there is such a row.
pub(crate) fn push_chunk<F: Files>(
    files: &mut F,
    toast: &Relation,
    tid: Tid,
    page: &mut [u8; 8192],
    in_hand: &mut Option<u32>,
    buffer: &mut AttrBuffer,
    bytes: &mut Vec<u8>,
) -> Result<(), ToastFault>
    requires attached { IfTold F.seen files.old (λ names. IsAttached names toast.now) }
    requires hand { IfTold F.seen files.old (λ names. IsInHand names toast.now in_hand.old page.old) }
    ensures hand { IfTold F.seen files.old (λ names. IsInHand names toast.now in_hand.new page.new) }
    ensures bytes { OnOk result (IfTold F.seen files.old (λ names.
        PushesChunk names toast.now tid bytes.old.items bytes.new.items)) }
    ensures grows { Grows bytes.old.items bytes.new.items }
    ensures asked { AskedAtMost 1 F.seen files.old files.new result ToastFault.ReadFault }
{
    if toast.blocks() <= tid.block {
        return Ok(());
    }
    take_page(files, toast, tid.block, page, in_hand)?;
    match content_at(page, tid.item, buffer)? {
        Some(content) => match bytes.extend_from_slice(content) {
            Ok(()) => Ok(()),
            Err(_) => Err(ToastFault::NoMemory),
        },
        None => Ok(()),
    }
}
