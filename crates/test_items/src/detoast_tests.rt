//! Values that are put together from the pages of a TOAST table.
ghost use Rattle.std.specs.Prelude.{[], None, false};

use crate::checks::{holds, same};
use crate::pages::put;
use crate::toast_map_tests::{ID, pointer};
use key_orders::Tid;
use outside::{Failed, FileName, Files, NoMemory};
use rel_files::Relation;
use std::alloc::Global;
use std::test::Fail;
use toast_chunks::{ToastFault, ToastMap, ToastState, value};

// A file of one segment, which tells no clause what it holds, so that nothing is to be proved of what stands in it. One
// of its reads may fail.
#[derive(Drop)]
struct OneFile {
    bytes: Vec<u8>,
    reads: u64,
    failing: u64,
    faults: u64,
}

fn one_file(bytes: Vec<u8>) -> OneFile {
    OneFile {
        bytes,
        reads: 0,
        failing: 0,
        faults: 0,
    }
}

impl Files for OneFile {
    ghost seen = { λ f. record { held = None; faults = f.faults; refused = false; reads = f.reads; lenders = [] } };

    fn length(&mut self, _: FileName<'_>) -> Result<Option<u64>, Failed> {
        Ok(Some(self.bytes.len() as u64))
    }

    fn read_at(&mut self, _: FileName<'_>, at: u64, out: &mut [u8]) -> Result<(), Failed> {
        self.reads = self.reads.saturating_add(1);
        let at = at as usize;
        let len = self.bytes.len();
        if self.reads == self.failing || len < out.len() || len - out.len() < at {
            self.faults = self.faults.saturating_add(1);
            return Err(Failed);
        }
        out.copy_from_slice(&self.bytes[at..at + out.len()]);
        Ok(())
    }

    fn refused_memory(&self) -> bool {
        false
    }
}

// The header of a row of three columns, frozen by no one, whose attributes begin at byte 24.
const HEAD: [u8; 24] = *b"\xbc\x02\0\0\0\0\0\0\0\0\0\0\0\0\0\0\0\0\x03\0\x02\x09\x18\0";

// The row of a chunk on a page: its item, its place, and what it holds: `fill` `len` times.
#[derive(Clone, Copy)]
struct Row {
    item: u8,
    off: u16,
    seq: u8,
    len: u16,
    fill: u8,
}

// Writes the row of a chunk.
fn put_row(page: &mut [u8], row: Row) {
    let len = u32::from(row.len.min(1996));
    let pointer = u32::from(row.off) + 32768 + 131072 * (36 + len);
    let off = row.off as usize;
    let fill = [row.fill; 1996];
    let head = [
        (20 + 4 * row.item as usize, pointer.to_le_bytes()),
        (off + 24, ID.to_le_bytes()),
        (off + 28, u32::from(row.seq).to_le_bytes()),
        (off + 32, (4 * (len + 4)).to_le_bytes()),
    ];
    put(page, &[(off, &HEAD), (off + 36, &fill[..len as usize])]);
    for (at, number) in &head {
        put(page, &[(*at, number)]);
    }
}

// Writes a page of two items, the lower at 4096.
fn put_page(page: &mut [u8], rows: &[Row]) {
    put(page, &[(12, b"\x20\0\0\x10\0\x20\x04\x20")]);
    for row in rows {
        put_row(page, *row);
    }
}

const FIRST_PAGE: [Row; 2] = [
    Row {
        item: 1,
        off: 8144,
        seq: 2,
        len: 8,
        fill: b'c',
    },
    Row {
        item: 2,
        off: 6112,
        seq: 0,
        len: 1996,
        fill: b'a',
    },
];

const SECOND_PAGE: [Row; 1] = [Row {
    item: 1,
    off: 6160,
    seq: 1,
    len: 1996,
    fill: b'b',
}];

// A table of two pages with a value of 4000 bytes: on the first page chunk 2, of 8 bytes, and chunk 0, on the second
// chunk 1.
fn table(alloc: Global) -> Result<OneFile, NoMemory> {
    let mut bytes = vec![in alloc; 0u8; 16384]?;
    let (first, second) = bytes.as_mut_slice().split_at_mut(8192);
    put_page(first, &FIRST_PAGE);
    put_page(second, &SECOND_PAGE);
    Ok(one_file(bytes))
}

// Its chunks: their numbers, their items, and how many bytes they have.
const CHUNKS: [(i32, u32, u16, u32); 3] = [(2, 0, 1, 8), (0, 0, 2, 1996), (1, 1, 1, 1996)];

// The map of that table.
fn table_map(alloc: Global) -> Result<ToastMap, NoMemory> {
    let mut map = ToastMap::new(alloc);
    for (seq, block, item, len) in CHUNKS {
        map.add(ID, seq, Tid { block, item }, Some(len))?;
    }
    Ok(map)
}

// What is made of a pointer of these sizes.
fn made_of(
    alloc: Global,
    files: &mut OneFile,
    map: &ToastMap,
    sizes: (i32, u32),
) -> Result<Result<ToastState, ToastFault>, Fail> {
    let toast = Relation::attach(alloc, files, "tt", 131072, 16384)?;
    Ok(value(alloc, files, &toast, map, pointer(sizes.0, sizes.1)))
}

// The same over that table, of whose reads that of a number fails.
fn made_of_table(
    alloc: Global,
    failing: u64,
    sizes: (i32, u32),
) -> Result<Result<ToastState, ToastFault>, Fail> {
    let map = table_map(alloc)?;
    let mut files = table(alloc)?;
    files.failing = failing;
    made_of(alloc, &mut files, &map, sizes)
}

// Whether each byte is this one.
fn is_all(bytes: &[u8], want: u8) -> bool {
    let mut is_all = true;
    for byte in bytes {
        is_all = is_all && *byte == want;
    }
    is_all
}

// The value of 4000 bytes, from its chunks' letters.
fn is_the_value(state: &ToastState) -> bool {
    let ToastState::Whole(bytes) = state else {
        return false;
    };
    let bytes = bytes.as_slice();
    let (a, rest) = bytes.split_at(bytes.len().min(1996));
    let (b, c) = rest.split_at(rest.len().min(1996));
    bytes.len() == 4000 && is_all(a, b'a') && is_all(b, b'b') && is_all(c, b'c')
}

// A word for what was made.
fn word_for(state: &ToastState) -> &'static str {
    match state {
        ToastState::Whole(_) if is_the_value(state) => "the value",
        ToastState::Whole(_) => "another value",
        ToastState::Packed => "packed",
        ToastState::Broken => "broken",
    }
}

const VALUES: [(i32, u32, &str); 3] = [
    (4004, 4000, "the value"),
    (4005, 4000, "packed"),
    (4005, 4001, "broken"),
];

#[test]
fn values(rt: HostRuntime) -> Result<(), Fail> {
    for (raw_size, ext_info, want) in VALUES {
        let state = made_of_table(rt.alloc(), 0, (raw_size, ext_info))??;
        assert!(rt; word_for(&state) == want, "{want}");
    }
    Ok(())
}

const ZEROS: [Row; 1] = [Row {
    item: 1,
    off: 6160,
    seq: 0,
    len: 1996,
    fill: 0,
}];

// What is made of a value of one chunk: 1996 bytes 0.
fn made_of_zeros(alloc: Global) -> Result<Result<ToastState, ToastFault>, Fail> {
    let mut bytes = vec![in alloc; 0u8; 8192]?;
    put_page(&mut bytes, &ZEROS);
    let mut map = ToastMap::new(alloc);
    map.add(ID, 0, Tid { block: 0, item: 1 }, Some(1996))?;
    made_of(alloc, &mut one_file(bytes), &map, (2000, 1996))
}

#[test]
fn one_chunk(rt: HostRuntime) -> Result<(), Fail> {
    let is_zeros = match made_of_zeros(rt.alloc())?? {
        ToastState::Whole(bytes) => bytes.as_slice() == [0u8; 1996].as_slice(),
        ToastState::Packed | ToastState::Broken => false,
    };
    holds(&rt, is_zeros, 0);
    Ok(())
}

// The page of chunk 1 can't be read.
#[test]
fn a_read_that_fails(rt: HostRuntime) -> Result<(), Fail> {
    let made = made_of_table(rt.alloc(), 2, (4004, 4000))?;
    same(&rt, &made.err(), &Some(ToastFault::ReadFault), 0);
    Ok(())
}
