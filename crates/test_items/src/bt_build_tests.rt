//! Indexes of a few numbers, against bytes that were laid by hand.
use crate::checks::holds;
use crate::pages::{Piece, page_of};
use bt_build::{EntryList, build_index};
use key_orders::{ColType, KeySpec, Tid, ValueRef};
use key_storage::RowValues;
use outside::NoMemory;
use std::alloc::Global;
use std::test::Fail;

// An int4, rising.
const KEY: [KeySpec; 1] = [KeySpec {
    column: 0,
    ctype: ColType::Int4,
    desc: false,
    nulls_first: false,
}];

// The metapage of an index of one leaf.
const ONE_LEAF: [Piece<'static>; 3] = [
    (12, b"\x48\0\xf0\x1f\xf0\x1f\x04\x20"),
    (
        24,
        b"\x62\x31\x05\0\x04\0\0\0\x01\0\0\0\0\0\0\0\x01\0\0\0\0\0\0\0",
    ),
    (8188, b"\x08\0"),
];

// The leaf of the numbers 5, 7 and 9.
const LEAF: [Piece<'static>; 6] = [
    (12, b"\x24\0\xc0\x1f\xf0\x1f\x04\x20"),
    (24, b"\xe0\x9f\x20\0\xd0\x9f\x20\0\xc0\x9f\x20\0"),
    (8160, b"\0\0\0\0\x01\0\x10\0\x05\0\0\0"),
    (8144, b"\0\0\0\0\x02\0\x10\0\x07\0\0\0"),
    (8128, b"\0\0\0\0\x03\0\x10\0\x09\0\0\0"),
    (8188, b"\x03\0"),
];

const TID_1: Tid = Tid { block: 0, item: 1 };

const TID_2: Tid = Tid { block: 0, item: 2 };

const TID_3: Tid = Tid { block: 0, item: 3 };

fn three_numbers(alloc: Global) -> Result<EntryList, NoMemory> {
    let mut list = EntryList::new(alloc, &KEY, &[])?;
    let nine = RowValues {
        key: &[ValueRef::Int(9)],
        more: &[],
    };
    list.add(nine, TID_3)?;
    let five = RowValues {
        key: &[ValueRef::Int(5)],
        more: &[],
    };
    list.add(five, TID_1)?;
    let seven = RowValues {
        key: &[ValueRef::Int(7)],
        more: &[],
    };
    list.add(seven, TID_2)?;
    Ok(list)
}

#[test]
fn an_index_of_one_leaf(rt: HostRuntime) -> Result<(), Fail> {
    let list = three_numbers(rt.alloc())?;
    let Ok(tree) = build_index(rt.alloc(), &list) else {
        return Ok(holds(&rt, false, 0));
    };
    let bytes = tree.bytes();
    holds(&rt, tree.blocks() == 2 && bytes.len() == 16384, 1);
    holds(&rt, bytes.starts_with(&page_of(&ONE_LEAF)), 2);
    holds(&rt, bytes.ends_with(&page_of(&LEAF)), 3);
    Ok(())
}
