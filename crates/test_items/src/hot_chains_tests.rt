//! The chains of pages by hand: the root of each item, and the rule that it breaks.
use crate::checks::{holds, same};
use hot_chains::{Chains, chains, has_no_chains};
use key_orders::Tid;
use liveness::{ItemState, Judged, Life};
use outside::NoMemory;
use page_layout::Rule;
use std::alloc::{AllocError, Global};
use std::process::Abort;
use std::test::Fail;
use tuple_head::HeapHead;

// A tuple with these words infomask and infomask2, these transactions and an item of block 0 as its ctid, and what is
// judged of it: whether it is live, and its update.
fn tuple(
    (infomask, infomask2): (u16, u16),
    (xmin, xmax): (u32, u32),
    item: u16,
    (is_live, update): (bool, u32),
) -> ItemState {
    ItemState::Tuple {
        head: HeapHead {
            xmin,
            xmax,
            field3: 0,
            ctid: Tid { block: 0, item },
            infomask2,
            infomask,
            hoff: 24,
        },
        judged: Judged {
            life: if is_live { Life::Live } else { Life::Dead },
            update,
        },
    }
}

// A dead tuple that a transaction updated to an item: first of its chain.
fn first(update: u32, next: u16) -> ItemState {
    tuple((0x0500, 0x4001), (700, update), next, (false, update))
}

// The same, heap-only, and inserted by the first of two transactions.
fn middle(xmin: u32, update: u32, next: u16) -> ItemState {
    tuple((0x2500, 0xc001), (xmin, update), next, (false, update))
}

// A live heap-only tuple, inserted by a transaction.
fn last(xmin: u32) -> ItemState {
    tuple((0x2900, 0x8001), (xmin, 0), 1, (true, 0))
}

// The numbers of the first four words of a text, and 0 for each that is none.
fn numbers_of(text: &str) -> [u16; 4] {
    let mut numbers = [0u16; 4];
    let mut k = 0usize;
    for word in text.split_whitespace() {
        if k < 4 {
            numbers[k] = word.parse::<u16>().unwrap_or(0);
            k += 1;
        }
    }
    numbers
}

// An item of a page, by the first letter of a word and numbers behind it.
fn item_of(text: &str) -> ItemState {
    let [_, a, b, c] = numbers_of(text);
    let letter = text.as_bytes().first().copied().unwrap_or(0);
    match letter {
        b'-' => ItemState::Unused,
        b'd' => ItemState::Dead,
        b'r' => ItemState::Redirect(a),
        b'f' => first(u32::from(a), b),
        b'm' => middle(u32::from(a), u32::from(b), c),
        b'l' => last(u32::from(a)),
        _ => other_item(letter),
    }
}

// Other tuples: one that 712 updated inside multixact 5 (`updated`), the same where that failed (`kept`), what it made
// in either case (`new`, `aborted`), one that isn't heap-only (`plain`), one that was deleted (`gone`), and one that
// was never updated (`single`).
fn other_item(letter: u8) -> ItemState {
    match letter {
        b'u' => tuple((0x1100, 0x4001), (700, 5), 2, (false, 712)),
        b'k' => tuple((0x1100, 0x4001), (700, 5), 2, (true, 712)),
        b'n' => tuple((0x2800, 0x8001), (712, 0), 2, (true, 0)),
        b'a' => tuple((0x2800, 0x8001), (712, 0), 2, (false, 0)),
        b'p' => tuple((0x2900, 0x0001), (701, 0), 2, (true, 0)),
        b'g' => tuple((0x0500, 0x0001), (700, 701), 2, (false, 701)),
        _ => tuple((0x0900, 0x0001), (700, 0), 1, (true, 0)),
    }
}

// The items of a page.
fn items_of(alloc: Global, text: &str) -> Result<Vec<ItemState>, NoMemory> {
    let mut items = Vec::new(alloc);
    for item in text.split(", ") {
        if !item.is_empty() {
            items.push(item_of(item))?;
        }
    }
    Ok(items)
}

// The root of an item, and the rule that it breaks.
type Found = (Option<u16>, Option<Rule>);

fn found(rt: &impl Abort, table: &Chains, item: u16) -> Found {
    assert!(rt; 1 <= item && item as usize <= table.len());
    (table.root_of(item), table.rule_of(item))
}

// Writes a space and the root of an item, or `-`, and behind it the rule that it breaks, if it does.
fn write_found(out: &mut String, (root, rule): Found) -> Result<(), AllocError> {
    match root {
        Some(root) => write!(out, " {root}")?,
        None => out.push_str(" -")?,
    }
    match rule {
        Some(rule) => write!(out, ":{}", rule.code()),
        None => Ok(()),
    }
}

// What is found of each item of a page of block 0.
fn all_found(
    rt: &impl Abort,
    alloc: Global,
    table: &mut Chains,
    items: &[ItemState],
) -> Result<String, Fail> {
    assert!(rt; items.len() <= 2042);
    table.fill(0, items)?;
    same(rt, &table.len(), &items.len(), 0);
    let mut out = String::new(alloc);
    for item in 1..=items.len() as u16 {
        write_found(&mut out, found(rt, table, item))?;
    }
    Ok(out)
}

// Ends the test unless that is found.
fn expect(
    rt: &impl Abort,
    alloc: Global,
    table: &mut Chains,
    items: &[ItemState],
    want: &str,
) -> Result<(), Fail> {
    let found = all_found(rt, alloc, table, items)?;
    assert!(rt; found.as_str() == want, "{found} for {want}");
    Ok(())
}

// The items of pages, and what is found of each.
const PAGES: [(&str, &str); 14] = [
    // Whole: a redirect to the fourth item.
    ("redirect 4, -, -, last 701", " 1 - - 1"),
    // An updater inside a multixact.
    ("updated, new", " 1 1"),
    // The same where the updater failed: nothing steps, and what it made is dead.
    ("kept, aborted", " 1 -"),
    ("", ""),
    ("single, dead, single", " 1 - 3"),
    // Broken: a redirect to an unused item.
    ("redirect 2, -", " 1:H3 -"),
    // Redirects to one another, to a tuple that isn't heap-only, and past the page's end.
    (
        "redirect 2, redirect 1, redirect 4, single, redirect 6",
        " 1:H3 2:H3 3:H3 4 5:H3",
    ),
    // A tuple steps to one that isn't heap-only.
    ("first 701 2, plain", " 1:H14 1"),
    // Two tuples step to one: two roots, of which the lower counts.
    ("first 701 3, first 701 3, last 701", " 1 2:H15 1"),
    // A tuple between them steps elsewhere, so the one that shares isn't the last one before.
    (
        "first 701 4, first 702 5, first 701 4, last 701, last 702",
        " 1 2 3:H15 1 2",
    ),
    // No root reaches it.
    ("last 700", " -:H16"),
    // Its updater isn't the one that made the next version.
    ("first 701 2, last 702", " 1 -:H16"),
    // Circles: items 2 and 3 step to one another, and item 1 to 3 as well.
    (
        "first 702 3, middle 701 702 3, middle 702 701 2",
        " 1 1:H15 1",
    ),
    // A circle that no root enters.
    ("middle 702 701 2, middle 701 702 1, last 709", " - - -:H16"),
];

// Pages one after another in one table.
#[test]
fn chains_of_pages(rt: HostRuntime) -> Result<(), Fail> {
    let mut table = Chains::new(rt.alloc());
    holds(&rt, table.is_empty(), 0);
    for (text, want) in PAGES {
        let items = items_of(rt.alloc(), text)?;
        expect(&rt, rt.alloc(), &mut table, &items, want)?;
    }
    Ok(())
}

// The longest chain, in the order of its items.
fn rising(alloc: Global) -> Result<Vec<ItemState>, NoMemory> {
    let mut items = Vec::new(alloc);
    items.push(first(1001, 2))?;
    for k in 2..291u16 {
        let xid = 1000 + u32::from(k);
        items.push(middle(xid - 1, xid, k + 1))?;
    }
    items.push(last(1290))?;
    Ok(items)
}

// The same against it.
fn falling(alloc: Global) -> Result<Vec<ItemState>, NoMemory> {
    let mut items = Vec::new(alloc);
    items.push(last(1290))?;
    for k in 2..291u16 {
        let xid = 1291 - u32::from(k);
        items.push(middle(xid, xid + 1, k - 1))?;
    }
    items.push(first(1001, 290))?;
    Ok(items)
}

// Ends the test unless this root is found of each of 291 items.
fn expect_root(
    rt: &impl Abort,
    alloc: Global,
    table: &mut Chains,
    items: &[ItemState],
    root: &str,
) -> Result<(), Fail> {
    let want = root.repeat(alloc, 291)?;
    expect(rt, alloc, table, items, want.as_str())
}

#[test]
fn longest_chains(rt: HostRuntime) -> Result<(), Fail> {
    let mut table = Chains::new(rt.alloc());
    expect_root(&rt, rt.alloc(), &mut table, &rising(rt.alloc())?, " 1")?;
    expect_root(&rt, rt.alloc(), &mut table, &falling(rt.alloc())?, " 291")
}

// What is found of the second of two items on a page of a block.
fn second_of(rt: &impl Abort, alloc: Global, block: u32) -> Result<Found, Fail> {
    let items = items_of(alloc, "first 701 2, last 701")?;
    assert!(rt; items.len() <= 2042);
    let chains = chains(alloc, block, &items)?;
    same(rt, &chains.len(), &2, block);
    Ok(found(rt, &chains, 2))
}

// On the page of another block the ctid of the first version leads elsewhere.
#[test]
fn chains_of_one_page(rt: HostRuntime) -> Result<(), Fail> {
    same(&rt, &second_of(&rt, rt.alloc(), 0)?, &(Some(1), None), 0);
    same(
        &rt,
        &second_of(&rt, rt.alloc(), 2)?,
        &(None, Some(Rule::H16)),
        2,
    );
    Ok(())
}

// Pages, and whether they have no chains.
const WITH_AND_WITHOUT: [(&str, bool); 6] = [
    ("", true),
    ("single, -, dead", true),
    ("gone", true),
    ("single, redirect 1", false),
    ("last 701", false),
    ("first 701 2", false),
];

#[test]
fn pages_with_and_without(rt: HostRuntime) -> Result<(), Fail> {
    for (text, none) in WITH_AND_WITHOUT {
        let items = items_of(rt.alloc(), text)?;
        assert!(rt; has_no_chains(&items) == none, "{text}");
    }
    Ok(())
}
