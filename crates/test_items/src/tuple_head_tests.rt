//! Headers as they lie in files, and a table of masks for each test of their bits.
use crate::checks::{code_of, holds, same};
use key_orders::Tid;
use page_layout::Rule;
use std::process::Abort;
use tuple_head::{HeapHead, heap_head};

/// A header with these two words and these transactions, and the rest as in a plain tuple.
pub fn head(infomask: u16, infomask2: u16, xmin: u32, xmax: u32) -> HeapHead {
    HeapHead {
        xmin,
        xmax,
        field3: 0,
        ctid: Tid { block: 0, item: 1 },
        infomask2,
        infomask,
        hoff: 24,
    }
}

// A row of one integer, inserted by transaction 700.
const FIRST: [u8; 24] = *b"\xbc\x02\0\0\0\0\0\0\0\0\0\0\0\0\0\0\x01\0\x01\0\0\x09\x18\0";

// Each byte is another.
const COUNTED: [u8; 24] =
    *b"\x01\x02\x03\x04\x05\x06\x07\x08\x09\x0a\x0b\x0c\x0d\x0e\x0f\x10\x11\x12\x13\x14\x15\x16\x17\x18";

const COUNTED_HEAD: HeapHead = HeapHead {
    xmin: 0x0403_0201,
    xmax: 0x0807_0605,
    field3: 0x0c0b_0a09,
    ctid: Tid {
        block: 0x0e0d_100f,
        item: 0x1211,
    },
    infomask2: 0x1413,
    infomask: 0x1615,
    hoff: 0x17,
};

// Headers as they lie in files.
#[test]
fn fields(rt: HostRuntime) {
    same(&rt, &heap_head(&FIRST), &head(0x0900, 0x0001, 700, 0), 0);
    same(&rt, &heap_head(&COUNTED), &COUNTED_HEAD, 1);
}

// What infomask says of the inserter, which is 700: frozen, hinted invalid, as it is seen.
const INSERTERS: [(u16, bool, bool, u32); 4] = [
    (0x0000, false, false, 700),
    (0x0100, false, false, 700),
    (0x0200, false, true, 700),
    (0x0300, true, false, 2),
];

#[test]
fn inserters(rt: HostRuntime) {
    for (infomask, frozen, invalid, seen) in INSERTERS {
        let head = head(infomask, 0x0001, 700, 0);
        let found = (head.frozen(), head.xmin_hinted_invalid(), head.xmin_seen());
        same(&rt, &found, &(frozen, invalid, seen), infomask.into());
    }
}

// Whether the lock bits are those of a mere lock.
const LOCKS: [(u16, bool); 8] = [
    (0x0000, false),
    (0x0010, false),
    (0x0040, true),
    (0x0050, false),
    (0x0080, true),
    (0x1000, false),
    (0x1040, false),
    (0x1080, true),
];

#[test]
fn locks(rt: HostRuntime) {
    for (infomask, only) in LOCKS {
        let head = head(infomask, 0x0001, 700, 701);
        holds(&rt, head.locked_only() == only, infomask.into());
    }
}

// Hot-updated and heap-only, by both words.
const CHAINS: [(u16, u16, bool, bool); 6] = [
    (0x0100, 0x0001, false, false),
    (0x0100, 0x4001, true, false),
    (0x0100, 0x8001, false, true),
    (0x0900, 0x4001, false, false),
    (0x0200, 0xc001, false, true),
    (0x0300, 0xc001, true, true),
];

#[test]
fn chains(rt: HostRuntime) {
    let mut row = 0u32;
    for (infomask, infomask2, updated, only) in CHAINS {
        row = row.wrapping_add(1);
        let head = head(infomask, infomask2, 700, 701);
        same(
            &rt,
            &(head.is_hot_updated(), head.heap_only()),
            &(updated, only),
            row,
        );
    }
}

// Whether a freeze would change the tuple.
const FREEZING: [(u16, u32, u32, bool); 10] = [
    (0x0900, 700, 0, true),
    (0x0900, 3, 0, true),
    (0x0900, 2, 0, false),
    (0x0b00, 700, 0, false),
    (0x0b00, 700, 2, false),
    (0x0b00, 700, 3, true),
    (0x1b00, 700, 0, false),
    (0x1b00, 700, 1, true),
    (0x4b00, 700, 0, true),
    (0x8b00, 700, 0, true),
];

#[test]
fn freezing(rt: HostRuntime) {
    let mut row = 0u32;
    for (infomask, xmin, xmax, needs) in FREEZING {
        row = row.wrapping_add(1);
        let head = head(infomask, 0x0001, xmin, xmax);
        holds(&rt, head.needs_freezing() == needs, row);
    }
}

// The tests of single bits: nulls, multixact, xmin committed, xmax committed, xmax invalid, an old form.
fn tests_of(head: HeapHead) -> [bool; 6] {
    [
        head.has_nulls(),
        head.is_multi(),
        head.is_xmin_committed(),
        head.is_xmax_committed(),
        head.is_xmax_invalid(),
        head.old_form(),
    ]
}

// The bits that stand for themselves, and which tests they pass.
const BITS: [(u16, [bool; 6]); 9] = [
    (0x0000, [false, false, false, false, false, false]),
    (0x0001, [true, false, false, false, false, false]),
    (0x1000, [false, true, false, false, false, false]),
    (0x0100, [false, false, true, false, false, false]),
    (0x0400, [false, false, false, true, false, false]),
    (0x0800, [false, false, false, false, true, false]),
    (0x0008, [false, false, false, false, false, true]),
    (0x4900, [false, false, true, false, true, true]),
    (0x8900, [false, false, true, false, true, true]),
];

#[test]
fn bits(rt: HostRuntime) {
    for (infomask, want) in BITS {
        let found = tests_of(head(infomask, 0, 700, 0));
        same(&rt, &found, &want, infomask.into());
    }
    same(&rt, &head(0x0000, 0x0000, 700, 0).natts(), &0, 0);
    same(&rt, &head(0xffff, 0xffff, 700, 0).natts(), &2047, 1);
}

// A header's two words, the table's columns, the header's and the tuple's length, xmax, and the first rule that is
// broken.
type Row = (u16, u16, u16, u8, u16, u32, &'static str);

const RULES: [Row; 12] = [
    (0x0900, 0x0001, 1, 24, 28, 0, ""),
    (0x0900, 0x0001, 1, 24, 24, 0, ""),
    (0x0901, 0x0001, 1, 24, 28, 0, ""),
    (0x0900, 0x0002, 1, 24, 28, 0, "H4"),
    (0x0900, 0x0001, 1, 24, 23, 0, "H5"),
    (0x1500, 0x0001, 1, 24, 28, 5, "H6"),
    (0x0100, 0x4001, 1, 24, 28, 0, "H7"),
    (0x1100, 0x4001, 1, 24, 28, 0, ""),
    (0x0900, 0x8001, 1, 24, 28, 0, "H8"),
    (0x2900, 0x8001, 1, 24, 28, 0, ""),
    // Nine attributes with null bits need two bytes of them, and so 32 bytes of header.
    (0x0901, 0x0009, 9, 24, 40, 0, "H5"),
    (0x0901, 0x0009, 9, 32, 40, 0, ""),
];

fn rule_of(rt: &impl Abort, head: HeapHead, columns: u16, len: u16) -> Option<Rule> {
    assert!(rt; !head.old_form());
    head.head_rule(columns, len)
}

#[test]
fn rules(rt: HostRuntime) {
    let mut row = 0u32;
    for (infomask, infomask2, columns, hoff, len, xmax, want) in RULES {
        row = row.wrapping_add(1);
        let head = HeapHead {
            hoff,
            ..head(infomask, infomask2, 700, xmax)
        };
        holds(&rt, code_of(rule_of(&rt, head, columns, len)) == want, row);
    }
}
