//! Tables of many rows, each with an index on its one column.
use crate::cases::indexed_case;
use crate::files::UntoldFiles;
use crate::heap::HeapHead;
use crate::page::Page;
use crate::trees::metapage;
use case_file::Case;
use outside::{NoMemory, Part};
use std::alloc::Global;

/// What the column of a table has. A text has its number in four letters.
#[derive(Clone, Copy, PartialEq, Eq)]
pub enum Kind {
    Int4,
    Uuid,
    Text,
}

impl Kind {
    // How many bytes a value has.
    fn len(self) -> u16 {
        match self {
            Kind::Int4 => 4,
            Kind::Uuid => 16,
            Kind::Text => 5,
        }
    }

    // Writes a value.
    fn put(self, page: &mut Page, at: u16, value: u16) {
        let value = u32::from(value);
        match self {
            Kind::Int4 => page.put(at, &value.to_le_bytes()),
            Kind::Uuid => page.put(at, &value.to_be_bytes()),
            Kind::Text => {
                page.put(at, &[11]);
                page.put(at.saturating_add(1), &value.to_be_bytes());
            }
        }
    }

    // Adds an index tuple with a TID or a downlink and a value.
    fn add_key(self, page: &mut Page, (block, item): (u16, u16), flags: u16, value: u16) {
        let len = self.len().saturating_add(15) / 8 * 8;
        let varying = if self == Kind::Text { 0x4000 } else { 0 };
        let at = page.add(len, false);
        page.put_halves(at, &[0, block, item, len | flags | varying]);
        self.put(page, at.saturating_add(8), value);
    }
}

/// What is wrong with a table or its index.
#[derive(Clone, Copy, PartialEq, Eq)]
pub enum Wrong {
    Nothing,
    /// The entry of this row is left out.
    NoEntry(u16),
    /// After the entry of row 0 there is another with its value and the TID of this item of block 0.
    Stray(u16),
    /// The value of this row is compressed, and it has no entry.
    Packed(u16),
}

/// A table of `across` times `down` rows. Row r, from 0, has the value `r % across * down + r / across`, so that
/// rows in turn are on leaves that are apart. Row 0 was updated once on its page, if `updated`.
#[derive(Clone, Copy)]
pub struct Table {
    pub kind: Kind,
    pub across: u16,
    pub down: u16,
    pub on_block: u16,
    pub on_leaf: u16,
    pub updated: bool,
    pub wrong: Wrong,
}

// The number of a pair: as many times the second as the first.
fn times(a: u16, b: u16) -> u16 {
    a.wrapping_mul(b)
}

// How often a number goes into another, and what is left.
fn parts(number: u16, of: u16) -> (u16, u16) {
    let whole = number.checked_div(of).unwrap_or(0);
    let rest = number.checked_rem(of).unwrap_or(0);
    (whole, rest)
}

impl Table {
    /// How many rows there are.
    pub fn rows(self) -> u16 {
        times(self.across, self.down)
    }

    // The value of a row.
    fn value_of(self, row: u16) -> u16 {
        let (line, column) = parts(row, self.across);
        times(column, self.down).wrapping_add(line)
    }

    // The row that has a value.
    fn row_of(self, value: u16) -> u16 {
        let (column, line) = parts(value, self.down);
        times(line, self.across).wrapping_add(column)
    }

    // The block and the item of a row.
    fn place_of(self, row: u16) -> (u16, u16) {
        let (block, item) = parts(row, self.on_block);
        (block, item.wrapping_add(1))
    }

    // How many leaves the index has.
    fn leaves(self) -> u16 {
        parts(self.rows(), self.on_leaf).0
    }

    // Adds a row to a page of the heap, with this header.
    fn add_row(self, page: &mut Page, row: u16, head: HeapHead) {
        let varying = if self.kind == Kind::Text { 2 } else { 0 };
        let infomask = head.infomask | varying;
        let head = HeapHead { infomask, ..head };
        if self.wrong == Wrong::Packed(row) {
            // A compressed text of 2000 bytes, which can't be unpacked.
            let at = head.add_to(page, 12);
            page.put(at, &[50, 0, 0, 0, 0xd0, 7]);
        } else {
            let at = head.add_to(page, self.kind.len());
            self.kind.put(page, at, self.value_of(row));
        }
    }

    // The header of a row that was inserted and never updated.
    fn head_of(self, row: u16) -> HeapHead {
        let (block, item) = self.place_of(row);
        HeapHead {
            xmin: 700,
            xmax: 0,
            block,
            item,
            infomask2: 1,
            infomask: 0x0900,
        }
    }

    // A block of the heap. Where row 0 was updated, its new version is the last item of its page.
    fn heap_block(self, block: u16) -> [u8; 8192] {
        let mut page = Page::new(8192);
        let first = times(block, self.on_block);
        if self.updated && block == 0 {
            return self.first_block();
        }
        for k in 0..self.on_block {
            let row = first.wrapping_add(k);
            self.add_row(&mut page, row, self.head_of(row));
        }
        page.finish()
    }

    // The block with row 0, which transaction 701 updated. The new version is behind the other rows.
    fn first_block(self) -> [u8; 8192] {
        let mut page = Page::new(8192);
        let item = self.on_block.wrapping_add(1);
        let old = HeapHead {
            xmax: 701,
            item,
            infomask2: 0x4001,
            infomask: 0x0500,
            ..self.head_of(0)
        };
        let new = HeapHead {
            xmin: 701,
            item,
            infomask2: 0x8001,
            infomask: 0x2900,
            ..self.head_of(0)
        };
        self.add_row(&mut page, 0, old);
        for row in 1..self.on_block {
            self.add_row(&mut page, row, self.head_of(row));
        }
        self.add_row(&mut page, 0, new);
        page.finish()
    }

    // Adds the entry of a value, with the TID of its row's root, unless it is left out, and after row 0's another.
    fn add_entry(self, page: &mut Page, value: u16) {
        let row = self.row_of(value);
        if self.wrong == Wrong::NoEntry(row) || self.wrong == Wrong::Packed(row) {
            return;
        }
        self.kind.add_key(page, self.place_of(row), 0, value);
        match self.wrong {
            Wrong::Stray(item) if row == 0 => self.kind.add_key(page, (0, item), 0, value),
            _ => {}
        }
    }

    // A leaf, counted from 0. All but the last have a high key, the first value of the next.
    fn leaf(self, leaf: u16) -> [u8; 8192] {
        let mut page = Page::new(8176);
        let first = times(leaf, self.on_leaf);
        let next = first.wrapping_add(self.on_leaf);
        let is_last = leaf.wrapping_add(1) == self.leaves();
        if !is_last {
            self.kind.add_key(&mut page, (0, 1), 0x2000, next);
        }
        for k in 0..self.on_leaf {
            self.add_entry(&mut page, first.wrapping_add(k));
        }
        let right = if is_last { 0 } else { leaf.wrapping_add(2) };
        page.put_halves(8176, &[leaf, 0, right, 0, 0, 0, 1]);
        page.finish()
    }

    // The root, above all leaves.
    fn root(self) -> [u8; 8192] {
        let mut page = Page::new(8176);
        page.add_halves(&[0, 1, 0, 0x2008], false);
        for leaf in 1..self.leaves() {
            let value = times(leaf, self.on_leaf);
            self.kind
                .add_key(&mut page, (leaf.wrapping_add(1), 1), 0x2000, value);
        }
        page.put_halves(8184, &[1, 0, 2]);
        page.finish()
    }

    // The file of the heap.
    fn heap_file(self, alloc: Global) -> Result<Vec<u8>, NoMemory> {
        let mut bytes = Vec::new(alloc);
        for block in 0..parts(self.rows(), self.on_block).0 {
            bytes.extend_from_slice(&self.heap_block(block))?;
        }
        Ok(bytes)
    }

    // The file of the index: its metapage, its leaves and its root.
    fn index_file(self, alloc: Global) -> Result<Vec<u8>, NoMemory> {
        let leaves = self.leaves();
        let mut bytes = Vec::from_slice(alloc, &metapage(leaves.wrapping_add(1), 1))?;
        for leaf in 0..leaves {
            bytes.extend_from_slice(&self.leaf(leaf))?;
        }
        bytes.extend_from_slice(&self.root())?;
        Ok(bytes)
    }

    /// The files of the heap, `t`, and of the index, `i`.
    pub fn files(self, alloc: Global) -> Result<UntoldFiles, NoMemory> {
        let mut files = UntoldFiles::new(alloc);
        files.add("t", Part::Segment(0), self.heap_file(alloc)?)?;
        files.add("i", Part::Segment(0), self.index_file(alloc)?)?;
        Ok(files)
    }

    /// Their case.
    pub fn case(self, alloc: Global) -> Option<Case> {
        match self.kind {
            Kind::Int4 => indexed_case(alloc, "int4"),
            Kind::Uuid => indexed_case(alloc, "uuid"),
            Kind::Text => indexed_case(alloc, "text"),
        }
    }
}
