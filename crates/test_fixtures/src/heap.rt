//! The pages of a heap.
use crate::page::Page;

/// The fields of a heap tuple's header.
#[derive(Clone, Copy)]
pub struct HeapHead {
    pub xmin: u16,
    pub xmax: u16,
    pub block: u16,
    pub item: u16,
    pub infomask2: u16,
    pub infomask: u16,
}

impl HeapHead {
    /// Adds a tuple with this header and a body of so many bytes to a page, and says where the body begins.
    pub fn add_to(self, page: &mut Page, len: u16) -> u16 {
        let at = page.add(len.saturating_add(24), false);
        let xids = [self.xmin, 0, self.xmax, 0];
        page.put_halves(at, &xids);
        let place = [self.block, self.item, self.infomask2, self.infomask, 24];
        page.put_halves(at.saturating_add(14), &place);
        at.saturating_add(24)
    }
}

/// A page with one tuple.
pub fn heap_page(head: HeapHead, body: &[u8]) -> [u8; 8192] {
    let mut page = Page::new(8192);
    let at = head.add_to(&mut page, body.len().min(8000) as u16);
    page.put(at, body);
    page.finish()
}
