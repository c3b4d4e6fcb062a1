//! Heap pages that are laid item by item, the logs and case texts beside them, and runs of these with the reports
//! that they should write.
use cmd_run::run;
use memory_files::{MemFiles, MemSink};
use outside::{Files, Part};
use std::alloc::Global;
use std::test::Fail;
use test_fixtures::put;

/// What a clean report is.
pub const CLEAN: &str = "findings 0 unjudged 0\nverdict clean\n";

/// The case text up to the heap's file.
pub const CLUSTER: &str =
    "[cluster]\nnext_xid = 1000\noldest_xid = 3\nnext_multi = 10\noldest_multi = 1\n\
next_member = 100\nxact = \"xact\"\noffsets = \"offsets\"\nmembers = \"members\"\n[heap]\nfile = \"t\"\n";

/// One column, a number.
pub const INT_COLUMN: &str = "[[column]]\nname = \"a\"\ntype = \"int4\"\n";

/// A flag and a text.
pub const BOOL_AND_TEXT: &str =
    "[[column]]\nname = \"b\"\ntype = \"bool\"\n[[column]]\nname = \"s\"\ntype = \"text\"\n";

/// One column, a text, and a TOAST table.
pub const TEXT_IN_TOAST: &str =
    "toast_file = \"tt\"\ntoast_oid = 16400\n[[column]]\nname = \"a\"\ntype = \"text\"\n";

/// A pointer to value 16500 of table 16400: 2000 bytes before compression, and 1996 stored.
pub const POINTER: &[u8] = b"\x01\x12\xd0\x07\0\0\xcc\x07\0\0\x74\x40\0\0\x10\x40\0\0";

/// A tuple of a heap page: the fields of its header and its body. The block of its ctid is below 65536.
#[derive(Clone, Copy)]
pub struct Tuple<'a> {
    pub xmin: u32,
    pub xmax: u32,
    pub block: u16,
    pub item: u16,
    pub infomask2: u16,
    pub infomask: u16,
    pub hoff: u8,
    pub body: &'a [u8],
}

/// A live tuple of one number that transaction 700 inserted, at item 1.
pub const LIVE: Tuple<'static> = Tuple {
    xmin: 700,
    xmax: 0,
    block: 0,
    item: 1,
    infomask2: 1,
    infomask: 0x0900,
    hoff: 24,
    body: &[7, 0, 0, 0],
};

/// The rows 5, 7 and 9.
pub const THREE_ROWS: [Item<'static>; 3] = [
    Item::Tuple(Tuple {
        body: &[5, 0, 0, 0],
        ..LIVE
    }),
    Item::Tuple(Tuple { item: 2, ..LIVE }),
    Item::Tuple(Tuple {
        item: 3,
        body: &[9, 0, 0, 0],
        ..LIVE
    }),
];

/// One that transaction 701 updated, to item 2.
pub const UPDATED: Tuple<'static> = Tuple {
    xmax: 701,
    item: 2,
    infomask2: 0x4001,
    infomask: 0x0500,
    ..LIVE
};

/// Its successor at item 2, which no index names.
pub const SUCCESSOR: Tuple<'static> = Tuple {
    xmin: 701,
    item: 2,
    infomask2: 0x8001,
    infomask: 0x2900,
    ..LIVE
};

/// A tuple whose value stands in the TOAST table.
pub const EXTERNAL: Tuple<'static> = Tuple {
    infomask: 0x0906,
    body: POINTER,
    ..LIVE
};

/// What stands at an item.
#[derive(Clone, Copy)]
pub enum Item<'a> {
    /// A normal item: this tuple.
    Tuple(Tuple<'a>),
    /// A line pointer by its number, without storage of its own.
    Pointer(u32),
}

/// A line pointer that isn't used, and one of a tuple that is gone.
pub const UNUSED: Item<'static> = Item::Pointer(0);

pub const DEAD: Item<'static> = Item::Pointer(3 * 0x8000);

/// A line pointer that leads to an item.
pub fn redirect(item: u16) -> Item<'static> {
    Item::Pointer(item as u32 % 0x8000 + 2 * 0x8000)
}

/// A normal line pointer to storage of a length.
pub fn normal(off: u16, len: u16) -> Item<'static> {
    Item::Pointer(off as u32 % 0x8000 + 0x8000 + len as u32 % 0x8000 * 0x20000)
}

// Writes a tuple at a place of a page.
fn put_tuple(page: &mut [u8; 8192], at: u16, tuple: Tuple<'_>) {
    let words = [tuple.xmin, tuple.xmax];
    for (k, word) in words.iter().enumerate() {
        put(page, at.saturating_add(4 * k as u16), &word.to_le_bytes());
    }
    let halves = [
        0,
        tuple.block,
        tuple.item,
        tuple.infomask2,
        tuple.infomask,
        u16::from(tuple.hoff),
    ];
    for (k, half) in halves.iter().enumerate() {
        put(
            page,
            at.saturating_add(12 + 2 * k as u16),
            &half.to_le_bytes(),
        );
    }
    put(page, at.saturating_add(24), tuple.body);
}

/// A heap page with these flags and items. Storage is laid from the page's end downward in the order of the
/// items, each tuple from a multiple of 8 on.
pub fn page_of(flags: u16, items: &[Item<'_>]) -> [u8; 8192] {
    let mut page = [0u8; 8192];
    let mut lower = 24u16;
    let mut upper = 8192u16;
    for item in items {
        let pointer = match item {
            Item::Pointer(pointer) => *pointer,
            Item::Tuple(tuple) => {
                let len = 24 + tuple.body.len().min(8000) as u16;
                upper = upper.saturating_sub(len) / 8 * 8;
                put_tuple(&mut page, upper, *tuple);
                u32::from(upper) + 0x8000 + u32::from(len) * 0x20000
            }
        };
        put(&mut page, lower, &pointer.to_le_bytes());
        lower = lower.saturating_add(4);
    }
    for (at, half) in [
        (10, flags),
        (12, lower),
        (14, upper),
        (16, 8192),
        (18, 0x2004),
    ] {
        put(&mut page, at, &half.to_le_bytes());
    }
    page
}

/// A page of a TOAST table with one chunk of value 16500: its number and so many bytes, at most 1996.
pub fn chunk_page(number: u8, len: u16) -> [u8; 8192] {
    let mut body = [0u8; 2008];
    let content = len.min(1996);
    body[0..4].copy_from_slice(&16500u32.to_le_bytes());
    body[4] = number;
    body[8..12].copy_from_slice(&(4 * (u32::from(content) + 4)).to_le_bytes());
    let chunk = Tuple {
        infomask2: 3,
        infomask: 0x0902,
        body: &body[..12 + content as usize],
        ..LIVE
    };
    page_of(0, &[Item::Tuple(chunk)])
}

/// Files with a case text and its heap, and logs in which each transaction is committed.
///
/// Multixact 5 has three members, the last of which, 712, is the updater; 7 isn't written; 8 has more members
/// than are looked at.
pub fn case_files(alloc: Global, text: &str, heap: &[u8]) -> Result<MemFiles, Fail> {
    let mut files = MemFiles::new(alloc);
    files.add("case.toml", Part::Segment(0), text.as_bytes())?;
    files.add("t", Part::Segment(0), heap)?;
    let mut offsets = [0u8; 8192];
    put(&mut offsets, 20, &[1, 0, 0, 0, 4]);
    put(&mut offsets, 32, &[1, 0, 0, 0, 2, 0, 1]);
    let mut members = [0u8; 8192];
    put(&mut members, 3, &[4]);
    put(&mut members, 8, &[0xc6, 2, 0, 0, 0xc7, 2, 0, 0, 0xc8, 2]);
    files.add("xact", Part::Slru(0), &[0x55u8; 8192])?;
    files.add("offsets", Part::Slru(0), &offsets)?;
    files.add("members", Part::Slru(0), &members)?;
    Ok(files)
}

// The status and the verdict of a report with so many findings and doubts.
fn verdict_of(findings: u32, doubts: u32) -> (u8, &'static str) {
    if findings != 0 {
        (1, "findings")
    } else if doubts != 0 {
        (2, "unjudged")
    } else {
        (0, "clean")
    }
}

/// The status and the text of a report with these findings and doubts, with `; ` between them. Doubts begin with U.
pub fn report_of(alloc: Global, told: &str) -> Result<(u8, String), Fail> {
    let mut text = String::new(alloc);
    let mut findings = 0u32;
    let mut doubts = 0u32;
    for line in told.split("; ") {
        if line.is_empty() {
            continue;
        }
        let mut kind = "finding";
        if line.starts_with("U") {
            kind = "unjudged";
            doubts = doubts.wrapping_add(1);
        } else {
            findings = findings.wrapping_add(1);
        }
        text = format!(in alloc; "{text}{kind} {line}\n")?;
    }
    let (code, verdict) = verdict_of(findings, doubts);
    text = format!(in alloc; "{text}findings {findings} unjudged {doubts}\nverdict {verdict}\n")?;
    Ok((code, text))
}

/// How a run of these words over these files ends, with what it writes into the sink.
pub fn run_words<F: Files>(
    alloc: Global,
    words: &[&str],
    files: &mut F,
    sink: &mut MemSink,
) -> Result<u8, Fail> {
    let mut owned = Vec::new(alloc);
    for word in words {
        owned.push(String::from_str(alloc, word)?)?;
    }
    Ok(run(alloc, &owned, files, sink).code)
}
