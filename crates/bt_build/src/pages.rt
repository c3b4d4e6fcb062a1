//! The items of a level in pages.
ghost use Rattle.std.specs.Prelude.{◌≡◌, IfOk};
ghost use Rattle.bt_build.specs.Pages.{first_size, page_counts};

use outside::NoMemory;
use std::alloc::Global;

// What the items of a page may take together, with 4 bytes for each line pointer. It leaves room for the header, the
// special space and a high key of 2712 bytes.
const BUDGET: u32 = 5436;

// What an item takes as the first of a page.
fn first_size(first: Option<u16>, size: u16) -> u16
    ensures { result ≡ first_size first size }
{
    match first {
        Some(first) => first,
        None => size,
    }
}

// How many items each page has. Of an item the list has what it takes; where `first` is there, the first item of each
// page takes that.
pub(crate) fn count_pages(
    alloc: Global,
    sizes: &[u16],
    first: Option<u16>,
) -> Result<Vec<usize>, NoMemory>
    ensures { IfOk result (λ counts. counts.items ≡ page_counts first 5436 sizes.now) }
{
    let mut counts = Vec::new(alloc);
    let Some((head, tail)) = sizes.split_first() else {
        return Ok(counts);
    };
    let mut used = u32::from(first_size(first, *head));
    let mut count = 1;
    for i in 0..tail.len() {
        let size = tail[i];
        if used + u32::from(size) <= BUDGET {
            used += u32::from(size);
            count += 1;
        } else {
            counts.push(count)?;
            used = u32::from(first_size(first, size));
            count = 1;
        }
    }
    counts.push(count)?;
    Ok(counts)
}
