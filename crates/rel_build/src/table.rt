//! The file of the generated table.
ghost use Rattle.std.specs.Prelude.{◌≡◌, ◌≤◌, length, map, IfOk, OnOk};
ghost use Rattle.page_write.specs.Pages.{heap_page};
ghost use Rattle.rel_build.specs.Rows.{row_body, row_head, row_tuple, table_file};

use crate::rows::{ROWS_ON_PAGE, Row, pages_for, part_of};
use outside::NoMemory;
use page_write::{PageWriter, push_bytes, put_heap_tuple};
use std::alloc::Global;
use tuple_head::HeapHead;

// The header of a row's tuple: transaction 3 inserted it, and HEAP_XMAX_INVALID says that nothing deleted it.
#[tactic(auto, unfolding(crate::specs::Rows::row_head))]
fn row_head(row: Row) -> HeapHead
    ensures { result ≡ row_head row }
{
    HeapHead {
        xmin: 3,
        xmax: 0,
        field3: 0,
        ctid: row.tid(),
        infomask2: 2,
        infomask: 0x0800,
        hoff: 24,
    }
}

// The attributes of a row.
#[tactic(auto, unfolding(crate::specs::Rows::row_body))]
fn row_body(row: Row) -> [u8; 12]
    ensures { result ≡ row_body row }
{
    let mut body = [0u8; 12];
    body[..8].copy_from_slice(&u64::from(row.id).to_le_bytes());
    body[8..].copy_from_slice(&row.group.to_le_bytes());
    body
}

// Puts the tuple of a row in the place of what the buffer held.
#[tactic(auto, unfolding(crate::specs::Rows::row_tuple))]
fn put_row(out: &mut Vec<u8>, row: Row) -> Result<(), NoMemory>
    ensures { OnOk result (out.new.items ≡ row_tuple row) }
{
    put_heap_tuple(out, row_head(row), &[], &row_body(row))
}

// The page with these rows.
fn table_page(item: &mut Vec<u8>, rows: &[Row]) -> Result<[u8; 8192], NoMemory>
    requires { length rows.now ≤ 185 }
    ensures { IfOk result (λ page. page ≡ heap_page (map row_tuple rows.now)) }
{
    let mut page = PageWriter::heap();
    for row in rows {
        put_row(item, *row)?;
        page.add(item);
    }
    Ok(page.heap_page())
}

// The table's file.
pub(crate) fn table_file(alloc: Global, rows: &[Row]) -> Result<Vec<u8>, NoMemory>
    requires { length rows.now ≤ 20000 }
    ensures { IfOk result (λ file. file.items ≡ table_file rows.now) }
{
    let each = ROWS_ON_PAGE as usize;
    let mut file = Vec::new(alloc);
    let mut item = Vec::new(alloc);
    for k in 0..pages_for(each, rows.len()) {
        let page = table_page(&mut item, part_of(rows, each, k))?;
        push_bytes(&mut file, &page)?;
    }
    Ok(file)
}
