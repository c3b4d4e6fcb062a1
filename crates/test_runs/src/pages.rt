//! Pages of a heap that are laid from tables of plain numbers, and the files of a case around a page.
use crate::expected::expect_heap;
use memory_files::MemFiles;
use std::alloc::Global;
use std::process::Abort;
use std::test::Fail;
use test_run_fixtures::{
    CLUSTER, DEAD, INT_COLUMN, Item, LIVE, Tuple, UNUSED, case_files, normal, page_of, redirect,
};

/// What stands at an item of a page.
#[derive(Clone, Copy)]
pub(crate) enum At {
    /// A line pointer that isn't used, and one of a tuple that is gone.
    Unused,
    Dead,
    /// One that leads to an item.
    To(u16),
    /// A normal one: where its storage begins, and how long that is.
    Storage(u16, u16),
    /// The live tuple of one number.
    Live,
    /// The same with other fields: xmin, xmax, the item of its ctid, infomask2 and infomask.
    Tuple(u32, u32, u16, u16, u16),
}

fn item_of(at: At) -> Item<'static> {
    match at {
        At::Unused => UNUSED,
        At::Dead => DEAD,
        At::To(item) => redirect(item),
        At::Storage(off, len) => normal(off, len),
        At::Live => Item::Tuple(LIVE),
        At::Tuple(xmin, xmax, item, infomask2, infomask) => Item::Tuple(Tuple {
            xmin,
            xmax,
            item,
            infomask2,
            infomask,
            ..LIVE
        }),
    }
}

/// The page with these flags and items.
pub(crate) fn page_with(alloc: Global, flags: u16, items: &[At]) -> Result<[u8; 8192], Fail> {
    let mut laid = Vec::new(alloc);
    for item in items {
        laid.push(item_of(*item))?;
    }
    Ok(page_of(flags, &laid))
}

/// The files of a case with these columns and this heap.
pub(crate) fn files_of(alloc: Global, columns: &str, heap: &[u8]) -> Result<MemFiles, Fail> {
    let text = format!(in alloc; "{CLUSTER}{columns}")?;
    case_files(alloc, text.as_str(), heap)
}

/// Runs `heap` on a table with these columns and this heap, and compares its report.
pub(crate) fn expect_page(
    rt: &impl Abort,
    alloc: Global,
    columns: &str,
    heap: &[u8],
    told: &str,
) -> Result<(), Fail> {
    let mut files = files_of(alloc, columns, heap)?;
    expect_heap(rt, alloc, &mut files, told)
}

/// The same on a table of one number for each of these pages: its items, and its report.
pub(crate) fn expect_items(
    rt: &impl Abort,
    alloc: Global,
    rows: &[(&'static [At], &'static str)],
) -> Result<(), Fail> {
    for (items, told) in rows {
        let heap = page_with(alloc, 0, *items)?;
        expect_page(rt, alloc, INT_COLUMN, &heap, told)?;
    }
    Ok(())
}
