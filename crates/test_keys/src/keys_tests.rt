//! Keys, separators and scans of two columns.
ghost use Rattle.std.specs.Prelude.{◌≡◌, true, IfOk};
ghost use Rattle.key_orders.specs.Keys.{IsKey, IsKeySeparator};
ghost use Rattle.key_orders.specs.Scans.{FitsKey};
ghost use Rattle.key_orders.specs.Separators.{separator_of};

use crate::checks::same;
use crate::values_tests::{A, AB, NULL, YES};
use key_orders::ValueRef::Int;
use key_orders::{
    ColType, KeyRefs, KeySpec, MAX_KEY_COLUMNS, Scan, ScanFault, SepRef, Separator, Tid, Value,
    ValueRef, cmp_entry, cmp_sep, cmp_two_seps, cmp_values, fits_columns, goes_right, matches,
    past_high,
};
use outside::NoMemory;
use std::alloc::Global;
use std::cmp::Ordering::{self, Equal, Greater, Less};
use std::test::Fail;

type Values = &'static [ValueRef<'static>];

const NUMBER: KeySpec = KeySpec {
    column: 0,
    ctype: ColType::Int4,
    desc: false,
    nulls_first: false,
};

const FALLING_TEXT: KeySpec = KeySpec {
    column: 0,
    ctype: ColType::Text,
    desc: true,
    nulls_first: true,
};

const TEXT: KeySpec = KeySpec {
    column: 0,
    ctype: ColType::Text,
    desc: false,
    nulls_first: false,
};

const FLAG: KeySpec = KeySpec {
    column: 0,
    ctype: ColType::Bool,
    desc: false,
    nulls_first: false,
};

const NUMBERS: [KeySpec; 2] = [NUMBER, NUMBER];

fn key<'p>(values: &[ValueRef<'p>]) -> KeyRefs<'p> {
    let mut key = KeyRefs::new();
    for v in values {
        if key.as_slice().len() < MAX_KEY_COLUMNS {
            key.push(*v);
        }
    }
    key
}

const fn tid(block: u32, item: u16) -> Tid {
    Tid { block, item }
}

fn is_key(specs: &[KeySpec], vals: &KeyRefs<'_>) -> bool
    ensures { result ≡ true → IsKey specs.now vals.now }
{
    vals.as_slice().len() == specs.len() && fits_columns(specs, vals)
}

fn is_separator(specs: &[KeySpec], sep: &SepRef<'_>) -> bool
    ensures { result ≡ true → IsKeySeparator specs.now (separator_of sep.now) }
{
    if sep.tid.is_some() {
        is_key(specs, &sep.kept)
    } else {
        fits_columns(specs, &sep.kept)
    }
}

// The order of the values, and of the entries with these TIDs.
fn entry_orders(
    specs: &[KeySpec],
    a: &KeyRefs<'_>,
    a_tid: Tid,
    b: &KeyRefs<'_>,
    b_tid: Tid,
) -> Option<(Ordering, Ordering)> {
    if is_key(specs, a) && is_key(specs, b) {
        Some((
            cmp_values(specs, a, b),
            cmp_entry(specs, a, a_tid, b, b_tid),
        ))
    } else {
        None
    }
}

fn sep_order(
    specs: &[KeySpec],
    vals: &KeyRefs<'_>,
    tid: Tid,
    sep: &SepRef<'_>,
) -> Option<Ordering> {
    if is_key(specs, vals) && is_separator(specs, sep) {
        Some(cmp_sep(specs, vals, tid, sep))
    } else {
        None
    }
}

fn two_seps_order(specs: &[KeySpec], a: &SepRef<'_>, b: &SepRef<'_>) -> Option<Ordering> {
    if is_separator(specs, a) && is_separator(specs, b) {
        Some(cmp_two_seps(specs, a, b))
    } else {
        None
    }
}

// Two entries by their values and the block and the item of their TIDs, and the orders of the values and of both.
type Entries = (Values, (u32, u16), Values, (u32, u16), Ordering, Ordering);

const ENTRIES: [Entries; 8] = [
    (&[Int(1), A], (0, 1), &[Int(2), A], (0, 2), Less, Less),
    (
        &[Int(1), A],
        (0, 1),
        &[Int(1), AB],
        (0, 2),
        Greater,
        Greater,
    ),
    (&[Int(1), NULL], (0, 1), &[Int(1), A], (0, 2), Less, Less),
    (&[NULL, A], (0, 1), &[Int(1), A], (0, 2), Greater, Greater),
    (&[NULL, NULL], (0, 1), &[NULL, NULL], (0, 1), Equal, Equal),
    (&[Int(2), A], (0, 1), &[Int(1), A], (0, 2), Greater, Greater),
    (&[Int(1), A], (0, 5), &[Int(1), A], (1, 1), Equal, Less),
    (&[Int(1), A], (1, 2), &[Int(1), A], (1, 1), Equal, Greater),
];

#[test]
fn entries_compare(rt: HostRuntime) {
    let specs = [NUMBER, FALLING_TEXT];
    let mut row = 0u32;
    for (a, (a_block, a_item), b, (b_block, b_item), values, entries) in ENTRIES {
        row = row.wrapping_add(1);
        let (a_tid, b_tid) = (tid(a_block, a_item), tid(b_block, b_item));
        let orders = entry_orders(&specs, &key(a), a_tid, &key(b), b_tid);
        same(&rt, &orders, &Some((values, entries)), row);
    }
}

// What a separator keeps.
type Kept = (Values, Option<Tid>);

fn separator(kept: Kept) -> SepRef<'static> {
    SepRef {
        kept: key(kept.0),
        tid: kept.1,
    }
}

const FIVE: Values = &[Int(5)];

const FIVE_ONE: Values = &[Int(5), Int(1)];

// How the entry (5, 1) with TID (0, 3) compares with separators.
const BELOW: [(Kept, Ordering); 8] = [
    ((&[], None), Greater),
    ((FIVE, None), Greater),
    ((&[Int(6)], None), Less),
    ((FIVE_ONE, None), Greater),
    ((FIVE_ONE, Some(Tid { block: 0, item: 2 })), Greater),
    ((FIVE_ONE, Some(Tid { block: 0, item: 3 })), Equal),
    ((FIVE_ONE, Some(Tid { block: 0, item: 4 })), Less),
    ((&[Int(5), Int(2)], None), Less),
];

// How two separators compare.
const PAIRS: [(Kept, Kept, Ordering); 6] = [
    ((&[], None), (FIVE, None), Less),
    ((FIVE, None), (FIVE, None), Equal),
    ((FIVE_ONE, None), (FIVE, None), Greater),
    (
        (FIVE_ONE, None),
        (FIVE_ONE, Some(Tid { block: 0, item: 1 })),
        Less,
    ),
    (
        (FIVE_ONE, Some(Tid { block: 2, item: 1 })),
        (FIVE_ONE, Some(Tid { block: 0, item: 9 })),
        Greater,
    ),
    (
        (&[Int(6)], None),
        (FIVE_ONE, Some(Tid { block: 0, item: 1 })),
        Greater,
    ),
];

#[test]
fn what_a_separator_lacks_is_below_everything(rt: HostRuntime) {
    let mut row = 0u32;
    for (kept, want) in BELOW {
        row = row.wrapping_add(1);
        let order = sep_order(&NUMBERS, &key(FIVE_ONE), tid(0, 3), &separator(kept));
        same(&rt, &order, &Some(want), row);
    }
    let mut row = 7u32;
    for (a, b, want) in PAIRS {
        row = row.wrapping_add(1);
        let order = two_seps_order(&NUMBERS, &separator(a), &separator(b));
        same(&rt, &order, &Some(want), row);
    }
}

const WHOLE: Kept = (&[AB, YES], Some(Tid { block: 7, item: 2 }));

#[test]
fn separators_are_copied(rt: HostRuntime) -> Result<(), Fail> {
    let whole = separator(WHOLE);
    let copied = Separator::from_ref(rt.alloc(), &whole)?;
    let order = two_seps_order(&[TEXT, FLAG], &copied.view(), &whole);
    same(&rt, &order, &Some(Equal), 0);
    Ok(())
}

// Scans of keys of integers: the low and the high bound, and whether each is inclusive.
#[derive(Clone, Copy)]
struct Bounds {
    low: &'static [i64],
    low_inclusive: bool,
    high: &'static [i64],
    high_inclusive: bool,
}

fn values_of(alloc: Global, numbers: &[i64]) -> Result<Vec<Value>, NoMemory> {
    let mut values = Vec::new(alloc);
    for n in numbers {
        values.push(Int(*n).to_value(alloc)?)?;
    }
    Ok(values)
}

fn scan(alloc: Global, specs: &[KeySpec], bounds: Bounds) -> Result<Scan, ScanFault>
    ensures { IfOk result (λ s. FitsKey specs.now s) }
{
    let low = values_of(alloc, bounds.low)?;
    let high = values_of(alloc, bounds.high)?;
    Scan::new(
        alloc,
        specs,
        &low,
        bounds.low_inclusive,
        &high,
        bounds.high_inclusive,
    )
}

const fn between(
    low: &'static [i64],
    low_inclusive: bool,
    high: &'static [i64],
    high_inclusive: bool,
) -> Bounds {
    Bounds {
        low,
        low_inclusive,
        high,
        high_inclusive,
    }
}

#[test]
fn bounds_of_a_scan(rt: HostRuntime) {
    let long = scan(rt.alloc(), &[NUMBER], between(&[1], true, &[1, 2], true));
    same(&rt, &long.err(), &Some(ScanFault::TooLong), 0);
    let wide = scan(
        rt.alloc(),
        &[NUMBER],
        between(&[2147483648], true, &[1], true),
    );
    same(&rt, &wide.err(), &Some(ScanFault::WrongKind), 1);
}

#[test]
fn other_bounds_of_a_scan(rt: HostRuntime) -> Result<(), Fail> {
    let (alloc, text) = (rt.alloc(), [A.to_value(rt.alloc())?]);
    let kind = Scan::new(alloc, &[NUMBER], &[], true, &text, true);
    same(&rt, &kind.err(), &Some(ScanFault::WrongKind), 0);
    let two = [Value::Null, Value::Null];
    let both = Scan::new(alloc, &[NUMBER], &text, true, &two, true);
    same(&rt, &both.err(), &Some(ScanFault::TooLong), 1);
    let null = Scan::new(alloc, &[NUMBER], &[Value::Null], false, &[], false);
    same(&rt, &null.err(), &None, 2);
    Ok(())
}

// Whether a scan goes right of a separator.
fn is_right(alloc: Global, bounds: Bounds, sep: &SepRef<'_>) -> Result<Option<bool>, ScanFault> {
    let scan = scan(alloc, &NUMBERS, bounds)?;
    if is_separator(&NUMBERS, sep) {
        Ok(Some(goes_right(&NUMBERS, &scan, sep)))
    } else {
        Ok(None)
    }
}

// A low bound, and whether it is inclusive: none, (5) and (5, 1).
const LOWS: [(&[i64], bool); 5] = [
    (&[], true),
    (&[5], true),
    (&[5], false),
    (&[5, 1], true),
    (&[5, 1], false),
];

// Whether the scans from these go right of a separator.
const RIGHTS: [(Kept, [bool; 5]); 6] = [
    ((&[], None), [false, true, true, true, true]),
    ((&[Int(4)], None), [false, true, true, true, true]),
    ((&[Int(5)], None), [false, true, true, true, true]),
    ((&[Int(6)], None), [false, false, false, false, false]),
    ((FIVE_ONE, None), [false, false, true, true, true]),
    (
        (FIVE_ONE, Some(Tid { block: 0, item: 1 })),
        [false, false, true, false, true],
    ),
];

#[test]
fn where_a_scan_goes_right(rt: HostRuntime) {
    let mut row = 0u32;
    for (kept, rights) in RIGHTS {
        row = row.wrapping_add(1);
        let sep = separator(kept);
        for ((low, inclusive), right) in LOWS.into_iter().zip(rights) {
            let found = is_right(rt.alloc(), between(low, inclusive, &[], true), &sep);
            same(&rt, &found, &Ok(Some(right)), row);
        }
    }
}

// Whether a scan has a key among its entries, and whether the key lies past it.
fn wanted(
    alloc: Global,
    bounds: Bounds,
    vals: &KeyRefs<'_>,
) -> Result<Option<(bool, bool)>, ScanFault> {
    let scan = scan(alloc, &NUMBERS, bounds)?;
    if is_key(&NUMBERS, vals) {
        let is_past = past_high(&NUMBERS, &scan, vals);
        Ok(Some((matches(&NUMBERS, &scan, vals), is_past)))
    } else {
        Ok(None)
    }
}

// Scans of all, of the fives, past the fives to before 6, and from (4, 2) on.
const SCANS: [Bounds; 4] = [
    Bounds {
        low: &[],
        low_inclusive: false,
        high: &[],
        high_inclusive: false,
    },
    Bounds {
        low: &[5],
        low_inclusive: true,
        high: &[5],
        high_inclusive: true,
    },
    Bounds {
        low: &[5],
        low_inclusive: false,
        high: &[6],
        high_inclusive: false,
    },
    Bounds {
        low: &[4, 2],
        low_inclusive: true,
        high: &[],
        high_inclusive: true,
    },
];

const OUT: (bool, bool) = (false, false);

const IN: (bool, bool) = (true, false);

const PAST: (bool, bool) = (false, true);

// What these scans want of a key.
const WANTED: [(i64, i64, [(bool, bool); 4]); 5] = [
    (4, 1, [IN, OUT, OUT, OUT]),
    (4, 2, [IN, OUT, OUT, IN]),
    (5, 1, [IN, IN, OUT, IN]),
    (5, 3, [IN, IN, OUT, IN]),
    (6, 0, [IN, PAST, PAST, IN]),
];

#[test]
fn what_a_scan_wants(rt: HostRuntime) {
    let mut row = 0u32;
    for (first, second, wants) in WANTED {
        row = row.wrapping_add(1);
        let vals = key(&[Int(first), Int(second)]);
        for (bounds, want) in SCANS.into_iter().zip(wants) {
            same(
                &rt,
                &wanted(rt.alloc(), bounds, &vals),
                &Ok(Some(want)),
                row,
            );
        }
    }
}
