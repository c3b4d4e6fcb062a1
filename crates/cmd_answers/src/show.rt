//! The command `show`: prints one page of one file.
ghost use Rattle.std.specs.Prelude.{◌≡◌, ◌+◌, ◌*◌, ◌≤◌, Some, length, IfOk};
ghost use Rattle.outside.specs.declared.files.Part.TheVariants.{Segment};
ghost use Rattle.outside.specs.Outside.{Asked, IfHeld, IsHeldAnd, Tells};
ghost use Rattle.page_layout.specs.View.{page_bytes};
ghost use Rattle.rel_files.specs.Blocks.{block_in};
ghost use Rattle.cmd_answers.specs.Seen.{outcome_seen};
ghost use Rattle.cmd_answers.specs.Show.{page_shown, show_outcome, shown_text};

use crate::blocks::{Opening, open_file, read_block};
use crate::fault::RunFault;
use crate::output::{Output, no_block_output};
use crate::status::Answer;
use cmd_line::Shown;
use key_orders::Octets;
use outside::{Files, NoMemory};
use page_layout::PageView;
use reports::{show_heap, show_tree};
use std::alloc::Global;

// The text of a page.
fn page_text(alloc: Global, of: Shown, page: PageView<'_>, block: u32) -> Result<Octets, NoMemory>
    ensures { IfOk result (λ text. text ≡ shown_text of block (page_bytes page.entry)) }
{
    match of {
        Shown::Heap => show_heap(alloc, page),
        Shown::Tree => show_tree(alloc, page, block),
    }
}

// The text of one block of a file, and no other block is read.
fn block_output<F: Files>(
    alloc: Global,
    files: &mut F,
    of: Shown,
    file: &str,
    block: u32,
) -> Result<Output, RunFault>
    requires { IsHeldAnd F.seen files.old file.now (Segment 0) (λ bytes. 8192 * block + 8192 ≤ length bytes) }
    ensures output { IfOk result (λ o. IfHeld F.seen files.old file.now (Segment 0)
        (λ bytes. outcome_seen o ≡ page_shown of block (block_in (Some bytes) block))) }
    ensures asked { Asked F.seen files.old files.new result RunFault.ReadFault }
{
    let mut page = [0u8; 8192];
    read_block(files, file, block, &mut page)?;
    let text = page_text(alloc, of, PageView::new(&page), block)?;
    Ok(Output {
        text,
        answer: Answer::Clean,
    })
}

/// The output of `show`: the text of one page of a file, or why there is none.
#[tactic(auto, unfolding(crate::specs::Show::show_outcome))]
pub fn show_output<F: Files>(
    alloc: Global,
    files: &mut F,
    of: Shown,
    file: &str,
    block: u32,
) -> Result<Output, RunFault>
    ensures output { Tells F.seen files.old result (λ o names.
        outcome_seen o ≡ show_outcome of file.now block (names file.now (Segment 0))) }
    ensures asked { Asked F.seen files.old files.new result RunFault.ReadFault }
{
    match open_file(alloc, files, file)? {
        Opening::Refused(output) => Ok(output),
        Opening::Blocks(blocks) if block < blocks => block_output(alloc, files, of, file, block),
        Opening::Blocks(blocks) => Ok(no_block_output(alloc, block, blocks)?),
    }
}
