//! Items as a server writes them, and items that break one rule each.
ghost use Rattle.key_orders.specs.Types.{HasAlignment};

use crate::steps::INT4;
use crate::trees::{THREE, leaf_bytes};
use bt_tuples::{ItemFault, Spot3, TidList, TreeItem, plain_entry_prefix, tree_item};
use key_attrs::IndexColumns;
use key_orders::{ColType, KeySpec, MoreSpec, Tid, ValueRef};
use page_layout::{PageKind, PageView, Rule};
use std::process::Abort;
use std::test::Fail;
use test_fixtures::Page;

// The line pointers of the one item of a page: at byte 8128, normal, of 16, 24 and 32 bytes; dead, of
// 16 and 32; at byte 8132; of 4 bytes; redirected; unused.
const NORMAL16: &[u8; 4] = b"\xc0\x9f\x20\0";

const NORMAL24: &[u8; 4] = b"\xc0\x9f\x30\0";

const NORMAL32: &[u8; 4] = b"\xc0\x9f\x40\0";

const DEAD16: &[u8; 4] = b"\xc0\x9f\x21\0";

const DEAD32: &[u8; 4] = b"\xc0\x9f\x41\0";

const UNALIGNED: &[u8; 4] = b"\xc4\x9f\x20\0";

const SHORT: &[u8; 4] = b"\xc0\x9f\x08\0";

const REDIRECT: &[u8; 4] = b"\xc0\x1f\x21\0";

const UNUSED: &[u8; 4] = b"\0\0\0\0";

// A page of one item with this line pointer, and a tuple at byte 8128.
fn page_of(pointer: &[u8; 4], tuple: &[u8]) -> [u8; 8192] {
    let mut page = Page::new(8176);
    page.add(48, false);
    page.put(24, pointer);
    page.put(8128, tuple);
    page.finish()
}

fn type_of(is_text: bool) -> ColType
    ensures { HasAlignment result }
{
    if is_text {
        ColType::Text
    } else {
        ColType::Int4
    }
}

// Whether the key column of an index is a text, and not a number, and whether the column that it includes is, if it
// includes one.
type Columns = (bool, Option<bool>);

// Reads an item of a page that breaks no page rule.
fn read<'p>(
    rt: &impl Abort,
    bytes: &'p [u8; 8192],
    i: u16,
    (is_text, included): Columns,
    spot: Spot3,
) -> Result<TreeItem<'p>, ItemFault> {
    let page = PageView::new(bytes);
    assert!(rt; page.page_rule(PageKind::Tree).is_none());
    assert!(rt; 1 <= i && i <= page.item_count());
    let specs = [KeySpec {
        ctype: type_of(is_text),
        ..INT4
    }];
    let Some(included) = included else {
        return tree_item(page, i, &IndexColumns::new(&specs, &[]), spot);
    };
    let more = [MoreSpec {
        column: 1,
        ctype: type_of(included),
    }];
    tree_item(page, i, &IndexColumns::new(&specs, &more), spot)
}

// What stands for a value or a TID that isn't there, and for a null.
const NONE: i64 = -1;

const NULL: i64 = -2;

// The only value of a list, and where it is no number or not the only one, the least number.
fn value_of(values: &[ValueRef<'_>]) -> i64 {
    match values {
        [] => NONE,
        [ValueRef::Null] => NULL,
        [ValueRef::Int(n)] => *n,
        _ => i64::MIN,
    }
}

// The block and the item of a TID.
fn place_of(tid: Option<Tid>) -> (i64, i64) {
    match tid {
        Some(tid) => (i64::from(tid.block), i64::from(tid.item)),
        None => (NONE, NONE),
    }
}

// An item: the value of its key and that of the included column; the blocks and items of its TIDs, up to two; and the
// downlink of a separator, or 1 for an entry that is killed.
type Shown = [i64; 7];

fn shown(key: i64, more: i64, [first, second]: [Option<Tid>; 2], last: u32) -> Shown {
    let (first, second) = (place_of(first), place_of(second));
    [
        key,
        more,
        first.0,
        first.1,
        second.0,
        second.1,
        i64::from(last),
    ]
}

// The two TIDs of a list, if it has just two.
fn two_of(tids: TidList<'_>) -> [Option<Tid>; 2] {
    if tids.len() != 2 {
        return [None, None];
    }
    [Some(tids.get(0)), Some(tids.get(1))]
}

fn show(item: TreeItem<'_>) -> Shown {
    match item {
        TreeItem::Pivot { sep, down } => {
            shown(value_of(sep.kept.as_slice()), NONE, [sep.tid, None], down)
        }
        TreeItem::Plain {
            key,
            more,
            tid,
            killed,
        } => {
            let (key, more) = (value_of(key.as_slice()), value_of(more.as_slice()));
            shown(key, more, [Some(tid), None], killed as u32)
        }
        TreeItem::Posting { key, tids, killed } => {
            shown(value_of(key.as_slice()), NONE, two_of(tids), killed as u32)
        }
    }
}

#[test]
fn a_leaf_as_a_server_writes_it(rt: HostRuntime) -> Result<(), Fail> {
    let bytes = leaf_bytes(rt.alloc(), THREE)?;
    let item = read(&rt, &bytes, 2, (false, None), Spot3::LeafItem).map(show);
    assert_eq!(rt; item, Ok([7, NONE, 0, 2, NONE, NONE, 0]));
    Ok(())
}

// The number of an entry of a leaf.
fn prefix(rt: &impl Abort, bytes: &[u8; 8192], i: u16, columns: &IndexColumns<'_>) -> Option<u64> {
    let page = PageView::new(bytes);
    assert!(rt; page.page_rule(PageKind::Tree).is_none());
    assert!(rt; 1 <= i && i <= page.item_count());
    plain_entry_prefix(page, i, columns)
}

#[test]
fn numbers_of_entries(rt: HostRuntime) -> Result<(), Fail> {
    let bytes = leaf_bytes(rt.alloc(), THREE)?;
    let specs = [INT4];
    let columns = IndexColumns::new(&specs, &[]);
    for (item, number) in [(1, 0x8000_0000_0000_0005), (3, 0x8000_0000_0000_0009)] {
        assert_eq!(rt; prefix(&rt, &bytes, item, &columns), Some(number));
    }
    Ok(())
}

// An entry of 7 that includes hi.
const SEVEN_AND_HI: &[u8] = b"\0\0\0\0\x01\0\x10\x40\x07\0\0\0\x07hi\0";

#[test]
fn number_of_an_entry_with_an_included_value(rt: HostRuntime) {
    let bytes = page_of(NORMAL16, SEVEN_AND_HI);
    let specs = [INT4];
    let more = [MoreSpec {
        column: 1,
        ctype: ColType::Text,
    }];
    let number = prefix(&rt, &bytes, 1, &IndexColumns::new(&specs, &more));
    assert_eq!(rt; number, Some(0x8000_0000_0000_0007));
}

// Reads the item of a page with this line pointer and these bytes.
fn item_of(
    rt: &impl Abort,
    pointer: &[u8; 4],
    tuple: &[u8],
    columns: Columns,
    spot: Spot3,
) -> Result<Shown, ItemFault> {
    let bytes = page_of(pointer, tuple);
    read(rt, &bytes, 1, columns, spot).map(show)
}

const ENTRY: &[u8] = b"\0\0\0\0\x01\0\x10\0\x07\0\0\0\0\0\0\0";

const PIVOT: &[u8] = b"\0\0\x05\0\x01\x10\x18\x20\x07\0\0\0\0\0\0\0\0\0\0\0\x03\0\x04\0";

const POSTING: &[u8] =
    b"\0\0\x10\0\x02\x20\x20\x20\x07\0\0\0\0\0\0\0\0\0\0\0\x01\0\0\0\0\0\x02\0\0\0\0\0";

const NULL_AND_NINE: &[u8] = b"\0\0\0\0\x01\0\x18\x80\x02\0\0\0\0\0\0\0\x09\0\0\0\0\0\0\0";

// A number alone, with a number and with a text, and a text alone.
const NUMBER: Columns = (false, None);

const WITH_NUMBER: Columns = (false, Some(false));

const WITH_TEXT: Columns = (false, Some(true));

const TEXT: Columns = (true, None);

// Line pointers, items, their columns, where they stand, and what they are.
const FORMS: [(&[u8; 4], &[u8], Columns, Spot3, Shown); 4] = [
    (
        DEAD16,
        ENTRY,
        NUMBER,
        Spot3::LeafItem,
        [7, NONE, 0, 1, NONE, NONE, 1],
    ),
    (
        DEAD32,
        POSTING,
        NUMBER,
        Spot3::LeafItem,
        [7, NONE, 0, 1, 0, 2, 1],
    ),
    (
        NORMAL24,
        PIVOT,
        NUMBER,
        Spot3::Inner,
        [7, NONE, 3, 4, NONE, NONE, 5],
    ),
    (
        NORMAL24,
        NULL_AND_NINE,
        WITH_NUMBER,
        Spot3::LeafItem,
        [NULL, 9, 0, 1, NONE, NONE, 0],
    ),
];

#[test]
fn items_of_each_form(rt: HostRuntime) {
    for (pointer, tuple, columns, spot, want) in FORMS {
        assert_eq!(rt; item_of(&rt, pointer, tuple, columns, spot), Ok(want));
    }
}

// 24 bytes in the info word, 16 in the line pointer.
const LONGER: &[u8] = b"\0\0\0\0\x01\0\x18\0\x07\0\0\0\0\0\0\0";

// A high key that keeps 7 and hi, in an index on a number that includes a text.
const KEEPS_MORE: &[u8] = b"\0\0\0\0\x02\0\x10\x60\x07\0\0\0\x07hi\0";

// A value that stands elsewhere.
const ELSEWHERE: &[u8] =
    b"\0\0\0\0\x01\0\x20\x40\x01\x12\0\0\0\0\0\0\0\0\0\0\0\0\0\0\0\0\0\0\0\0\0\0";

// Null bits, which pass the end of a tuple of 8 bytes with a TID.
const NULL_BITS: &[u8] = b"\0\0\0\0\x01\x10\x10\xa0\x02\0\0\0\0\0\0\0";

// Compressed values, the second with item number 0.
const PACKED: &[u8] = b"\0\0\0\0\x01\0\x18\x40\x32\0\0\0\0\0\0\0\0\0\0\0\0\0\0\0";

const NO_ITEM: &[u8] = b"\0\0\0\0\0\0\x18\x40\x32\0\0\0\0\0\0\0\0\0\0\0\0\0\0\0";

// A list that falls, and one without TIDs.
const FALLING: &[u8] =
    b"\0\0\x10\0\x02\x20\x20\x20\x07\0\0\0\0\0\0\0\0\0\0\0\x02\0\0\0\0\0\x02\0\0\0\0\0";

const NO_TIDS: &[u8] = b"\0\0\x10\0\0\x20\x10\x20\x07\0\0\0\0\0\0\0";

// Line pointers, items, their columns, where they stand, and the rule that is broken.
const BROKEN: [(&[u8; 4], &[u8], Columns, Spot3, Rule); 15] = [
    (UNALIGNED, ENTRY, NUMBER, Spot3::LeafItem, Rule::B5),
    (SHORT, ENTRY, NUMBER, Spot3::LeafItem, Rule::B5),
    (REDIRECT, ENTRY, NUMBER, Spot3::LeafItem, Rule::B5),
    (UNUSED, ENTRY, NUMBER, Spot3::LeafItem, Rule::B5),
    (NORMAL16, LONGER, NUMBER, Spot3::LeafItem, Rule::B6),
    (NORMAL16, ENTRY, NUMBER, Spot3::Inner, Rule::B7),
    (NORMAL16, ENTRY, NUMBER, Spot3::HighKey, Rule::B7),
    (NORMAL24, PIVOT, NUMBER, Spot3::FirstInner, Rule::B7),
    (NORMAL24, PIVOT, NUMBER, Spot3::LeafItem, Rule::B7),
    (NORMAL16, KEEPS_MORE, WITH_TEXT, Spot3::HighKey, Rule::B7),
    (NORMAL32, ELSEWHERE, TEXT, Spot3::LeafItem, Rule::B8),
    (NORMAL16, NULL_BITS, NUMBER, Spot3::Inner, Rule::B8),
    (NORMAL24, NO_ITEM, TEXT, Spot3::LeafItem, Rule::B9),
    (NORMAL32, FALLING, NUMBER, Spot3::LeafItem, Rule::B9),
    (NORMAL16, NO_TIDS, NUMBER, Spot3::LeafItem, Rule::B9),
];

#[test]
fn items_without_meaning(rt: HostRuntime) {
    for (pointer, tuple, columns, spot, rule) in BROKEN {
        let found = item_of(&rt, pointer, tuple, columns, spot);
        assert_eq!(rt; found, Err(ItemFault::Broken(rule)));
    }
    let packed = item_of(&rt, NORMAL24, PACKED, TEXT, Spot3::LeafItem);
    assert_eq!(rt; packed, Err(ItemFault::Packed));
}
