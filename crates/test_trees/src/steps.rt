//! Small pages of an index of one column of int4: where an entry that is sought stands on a leaf, and where
//! a search for it goes from other pages.
ghost use Rattle.std.specs.Prelude.{IfSome};
ghost use Rattle.key_orders.specs.Keys.{IsKey};

use crate::trees::{LISTED, leaf_bytes, page_bytes};
use bt_steps::{Place, Sought, Step, find_on, step_on};
use key_attrs::IndexColumns;
use key_orders::{ColType, KeyRefs, KeySpec, Tid, ValueRef, fits_columns};
use page_layout::{PageKind, PageView};
use std::alloc::Global;
use std::test::Fail;

/// A key column of int4.
pub const INT4: KeySpec = KeySpec {
    column: 0,
    ctype: ColType::Int4,
    desc: false,
    nulls_first: false,
};

/// The key with this value in an index with these columns, if that is one.
pub fn key_for(specs: &[KeySpec], value: i64) -> Option<KeyRefs<'static>>
    ensures { IfSome result (IsKey specs.now) }
{
    let mut key = KeyRefs::new();
    key.push(ValueRef::Int(value));
    if fits_columns(specs, &key) && key.as_slice().len() == specs.len() {
        return Some(key);
    }
    None
}

// Where an entry with this value and this item of block 0 stands on a leaf.
fn found(bytes: &[u8; 8192], value: i64, item: u16) -> Option<Place> {
    let page = PageView::new(bytes);
    let specs = [INT4];
    let key = key_for(&specs, value)?;
    let tid = Tid { block: 0, item };
    if page.page_rule(PageKind::Tree).is_some() {
        return None;
    }
    find_on(
        page,
        &IndexColumns::new(&specs, &[]),
        Sought { key: &key, tid },
    )
}

// Where a search for such an entry goes from a page.
fn step(bytes: &[u8; 8192], value: i64, item: u16) -> Option<Step> {
    let specs = [INT4];
    let key = key_for(&specs, value)?;
    let tid = Tid { block: 0, item };
    let columns = IndexColumns::new(&specs, &[]);
    Some(step_on(PageView::new(bytes), &columns, &Sought { key: &key, tid }))
}

// A value, an item, and where the entry stands: the item and which of its TIDs, or 0 where it doesn't.
const ENTRIES: [(i64, u16, u16, u16); 10] = [
    (7, 2, 2, 0),
    (7, 3, 2, 1),
    (9, 4, 3, 0),
    // killed
    (5, 1, 0, 0),
    // of another TID
    (7, 1, 0, 0),
    (7, 4, 0, 0),
    (9, 3, 0, 0),
    // of another key
    (4, 1, 0, 0),
    (8, 2, 0, 0),
    (10, 4, 0, 0),
];

// Whether an entry stands at an item of a leaf, or, where that is 0, doesn't.
fn is_at(bytes: &[u8; 8192], (value, item): (i64, u16), (at, nth): (u16, u16)) -> bool {
    match found(bytes, value, item) {
        Some(place) => place.item == at && place.nth == nth && at != 0,
        None => at == 0,
    }
}

// A leaf with 5, whose right sibling is block 2 and whose high key is 7, and the same half-dead.
const LEFT: &str = "0 2 0 1: above 0 7, entry 5 2";

const DEAD_LEFT: &str = "0 2 0 17: above 0 7, entry 5 2";

#[test]
fn entries_of_a_leaf(rt: HostRuntime) -> Result<(), Fail> {
    let bytes = leaf_bytes(rt.alloc(), LISTED)?;
    for (value, item, at, nth) in ENTRIES {
        assert!(rt;
            is_at(&bytes, (value, item), (at, nth)),
            "({value}, {item})"
        );
    }
    let left = page_bytes(rt.alloc(), LEFT)?;
    assert!(rt; found(&left, 5, 2).is_some() && found(&left, 7, 1).is_none());
    Ok(())
}

// An internal page: block 1 below 20, block 2 from 20 on, block 3 from 30 on.
const ROOT: &str = "0 0 1 2: first 1, above 2 20, above 3 30";

// A page, a value and an item that are sought there, and the block to go to, or 0 where the page is to be read.
const STEPS: [(&str, i64, u16, u32); 10] = [
    (ROOT, 10, 1, 1),
    (ROOT, 19, 1, 1),
    (ROOT, 20, 1, 2),
    (ROOT, 29, 1, 2),
    (ROOT, 30, 1, 3),
    (ROOT, 31, 1, 3),
    (LEFT, 5, 9, 0),
    // The high key keeps no TID, and so it is below each entry of its value.
    (LEFT, 7, 1, 2),
    (LEFT, 9, 1, 2),
    (DEAD_LEFT, 5, 9, 2),
];

// Whether a search goes from the page of a line to a block, or, where that is 0, reads the page.
fn leads(alloc: Global, line: &str, (value, item): (i64, u16), block: u32) -> Result<bool, Fail> {
    let bytes = page_bytes(alloc, line)?;
    let want = if block == 0 {
        Step::Read
    } else {
        Step::To(block)
    };
    Ok(step(&bytes, value, item) == Some(want))
}

#[test]
fn steps_of_a_search(rt: HostRuntime) -> Result<(), Fail> {
    for (line, value, item, block) in STEPS {
        assert!(rt;
            leads(rt.alloc(), line, (value, item), block)?,
            "{line}: {value}"
        );
    }
    assert!(rt; step(&[1; 8192], 5, 9) == Some(Step::Lost));
    Ok(())
}
