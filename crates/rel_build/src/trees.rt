//! The files of the generated table's indexes.
ghost use Rattle.std.specs.Prelude.{◌≡◌, ◌++◌, ◌+◌, ◌*◌, ◌≤◌, ◌<◌, ℕ, List, length, map, vec_len, All, IfOk, OnOk};
ghost use Rattle.rel_build.specs.Trees.{in_order, is_last, key_of, leaf_item, leaf_page, leaf_special, leaves_for};
ghost use Rattle.rel_build.specs.Trees.{root_item, root_items, root_pages, separator_before, separator_item};
ghost use Rattle.rel_build.specs.Trees.{tid_between, tree_blocks, tree_meta, tree_with, high_keys};
ghost use Rattle.rel_build.specs.Trees.{leaf_pages, root_block, root_special};
ghost use Rattle.page_write.specs.Pages.{tree_page};
ghost use Rattle.page_write.specs.Writing.{HoldsItems, free_bytes};

use crate::rows::{Row, pages_for, part_of};
use bt_meta::{BTP_LEAF, BTP_ROOT, Meta, Opaque};
use key_orders::Tid;
use outside::NoMemory;
use page_write::{
    BodyFlags, Kept, PageWriter, meta_page, push_bytes, put_pivot_tuple, put_plain_tuple,
};
use std::alloc::Global;

// How many entries stand on a leaf.
const ENTRIES_ON_LEAF: usize = 300;

// Keys have no nulls, and no values of variable width.
const FIXED_WIDTH: BodyFlags = BodyFlags {
    nulls: false,
    varwidth: false,
};

// The column that an index is on.
#[derive(Clone, Copy, Debug, PartialEq, Eq)]
pub(crate) enum Key {
    // `id`, an int8.
    Id,
    // `grp`, an int4.
    Group,
}

// Puts the rows in the order of the entries of the index on `grp`.
pub(crate) fn sort_by_group(rows: &mut Vec<Row>) -> Result<(), NoMemory>
    requires { All (λ row. row.group < 100) rows.old.items }
    ensures order { OnOk result (rows.new.items ≡ in_order Key.Group rows.old.items) }
    ensures count { vec_len rows.new ≡ vec_len rows.old }
{
    rows.sort_by_key(|row| row.group)?;
    Ok(())
}

// Entries

// The key of a row.
fn key_of(key: Key, row: Row) -> u32
    ensures { result ≡ key_of key row }
{
    match key {
        Key::Id => row.id,
        Key::Group => row.group,
    }
}

// Puts the entry of a row in the place of what the buffer held.
#[tactic(auto, unfolding(crate::specs::Trees::leaf_item, crate::specs::Trees::key_bytes))]
fn put_entry(out: &mut Vec<u8>, key: Key, row: Row) -> Result<(), NoMemory>
    ensures { OnOk result (out.new.items ≡ leaf_item key row) }
{
    match key {
        Key::Id => {
            let bytes = u64::from(row.id).to_le_bytes();
            put_plain_tuple(out, row.tid(), FIXED_WIDTH, &bytes)
        }
        Key::Group => {
            let bytes = row.group.to_le_bytes();
            put_plain_tuple(out, row.tid(), FIXED_WIDTH, &bytes)
        }
    }
}

// The TID that a separator between two rows keeps.
fn tid_between(key: Key, left: Row, right: Row) -> Option<Tid>
    ensures { result ≡ tid_between key left right }
{
    if key_of(key, left) == key_of(key, right) {
        Some(left.tid())
    } else {
        None
    }
}

// Puts the separator between two rows in the place of what the buffer held.
#[tactic(auto, unfolding(crate::specs::Trees::separator_item, crate::specs::Trees::key_bytes))]
fn put_separator(
    out: &mut Vec<u8>,
    key: Key,
    down: u32,
    left: Row,
    right: Row,
) -> Result<(), NoMemory>
    ensures { OnOk result (out.new.items ≡ separator_item key down left right) }
{
    let kept = Kept {
        count: 1,
        tid: tid_between(key, left, right),
    };
    match key {
        Key::Id => {
            let bytes = u64::from(right.id).to_le_bytes();
            put_pivot_tuple(out, down, kept, FIXED_WIDTH, &bytes)
        }
        Key::Group => {
            let bytes = right.group.to_le_bytes();
            put_pivot_tuple(out, down, kept, FIXED_WIDTH, &bytes)
        }
    }
}

// Puts the separator before leaf k in the place of what the buffer held.
fn put_separator_before(
    out: &mut Vec<u8>,
    key: Key,
    rows: &[Row],
    down: u32,
    k: usize,
) -> Result<(), NoMemory>
    requires first { 1 ≤ k }
    requires within { 300 * k < length rows.now }
    ensures { OnOk result (out.new.items ≡ separator_before key rows.now down k) }
{
    let at = ENTRIES_ON_LEAF * k;
    put_separator(out, key, down, rows[at - 1], rows[at])
}

// Leaves

// How many leaves there are.
fn leaves_for(rows: &[Row]) -> usize
    requires { length rows.now ≤ 20000 }
    ensures count { result ≡ leaves_for rows.now }
    ensures most { result ≤ 67 }
{
    pages_for(ENTRIES_ON_LEAF, rows.len())
}

// Whether leaf k is the last one.
fn is_last(rows: &[Row], k: usize) -> bool
    requires few { length rows.now ≤ 20000 }
    requires k { k ≤ 67 }
    ensures { result ≡ is_last rows.now k }
{
    leaves_for(rows) == k + 1
}

// The special space of leaf k.
#[tactic(auto, unfolding(crate::specs::Trees::leaf_special))]
fn leaf_special(rows: &[Row], k: usize) -> Opaque
    requires few { length rows.now ≤ 20000 }
    requires k { k ≤ 67 }
    ensures { result ≡ leaf_special rows.now k }
{
    let next = if is_last(rows, k) { 0 } else { k as u32 + 2 };
    let flags = if leaves_for(rows) == 1 {
        BTP_LEAF + BTP_ROOT
    } else {
        BTP_LEAF
    };
    Opaque {
        prev: k as u32,
        next,
        level: 0,
        flags,
        cycle: 0,
    }
}

// A page with the high key of leaf k, if it has one.
fn page_with_high_key(
    item: &mut Vec<u8>,
    key: Key,
    rows: &[Row],
    k: usize,
) -> Result<PageWriter, NoMemory>
    requires few { length rows.now ≤ 20000 }
    requires k { k < leaves_for rows.now }
    ensures items { IfOk result (λ page. HoldsItems page 8176 (high_keys key rows.now k)) }
    ensures room { IfOk result (λ page. 8000 ≤ free_bytes page) }
{
    let mut page = PageWriter::tree();
    if is_last(rows, k) {
        return Ok(page);
    }
    put_separator_before(item, key, rows, 0, k + 1)?;
    page.add(item);
    Ok(page)
}

// Adds the entries of these rows.
fn add_entries(
    page: &mut PageWriter,
    item: &mut Vec<u8>,
    key: Key,
    rows: &[Row],
) -> Result<(), NoMemory>
    requires { 20 * length rows.now ≤ free_bytes page.old }
    ensures { OnOk result ((items : List (List ℕ)) → HoldsItems page.old 8176 items
        → HoldsItems page.new 8176 (items ++ map (leaf_item key) rows.now)) }
{
    for row in rows {
        put_entry(item, key, *row)?;
        page.add(item);
    }
    Ok(())
}

// Leaf k.
fn leaf_page(item: &mut Vec<u8>, key: Key, rows: &[Row], k: usize) -> Result<[u8; 8192], NoMemory>
    requires few { length rows.now ≤ 20000 }
    requires k { k < leaves_for rows.now }
    ensures { IfOk result (λ page. page ≡ leaf_page key rows.now k) }
{
    let mut page = page_with_high_key(item, key, rows, k)?;
    add_entries(&mut page, item, key, part_of(rows, ENTRIES_ON_LEAF, k))?;
    Ok(page.tree_page(leaf_special(rows, k)))
}

// Adds the leaves.
fn push_leaves(
    file: &mut Vec<u8>,
    item: &mut Vec<u8>,
    key: Key,
    rows: &[Row],
) -> Result<(), NoMemory>
    requires { length rows.now ≤ 20000 }
    ensures { OnOk result (file.new.items ≡ file.old.items ++ leaf_pages key rows.now) }
{
    for k in 0..leaves_for(rows) {
        let page = leaf_page(item, key, rows, k)?;
        push_bytes(file, &page)?;
    }
    Ok(())
}

// The root

// Puts the item of leaf k in the place of what the buffer held: that of the first leaf keeps nothing.
fn put_root_item(out: &mut Vec<u8>, key: Key, rows: &[Row], k: usize) -> Result<(), NoMemory>
    requires few { length rows.now ≤ 20000 }
    requires k { k < leaves_for rows.now }
    ensures { OnOk result (out.new.items ≡ root_item key rows.now k) }
{
    if k == 0 {
        let kept = Kept {
            count: 0,
            tid: None,
        };
        return put_pivot_tuple(out, 1, kept, FIXED_WIDTH, &[]);
    }
    put_separator_before(out, key, rows, k as u32 + 1, k)
}

// The page above the leaves.
fn root_page(item: &mut Vec<u8>, key: Key, rows: &[Row]) -> Result<[u8; 8192], NoMemory>
    requires { length rows.now ≤ 20000 }
    ensures { IfOk result (λ page. page ≡ tree_page (root_items key rows.now) root_special) }
{
    let mut page = PageWriter::tree();
    for k in 0..leaves_for(rows) {
        put_root_item(item, key, rows, k)?;
        page.add(item);
    }
    Ok(page.tree_page(Opaque {
        prev: 0,
        next: 0,
        level: 1,
        flags: BTP_ROOT,
        cycle: 0,
    }))
}

// Adds the page above the leaves, if there is one.
#[tactic(auto, unfolding(crate::specs::Trees::root_pages))]
fn push_root(file: &mut Vec<u8>, item: &mut Vec<u8>, key: Key, rows: &[Row]) -> Result<(), NoMemory>
    requires { length rows.now ≤ 20000 }
    ensures { OnOk result (file.new.items ≡ file.old.items ++ root_pages key rows.now) }
{
    if leaves_for(rows) < 2 {
        return Ok(());
    }
    let page = root_page(item, key, rows)?;
    push_bytes(file, &page)
}

// The file

// The block of the root, 0 where there is none.
fn root_block(rows: &[Row]) -> u32
    requires { length rows.now ≤ 20000 }
    ensures block { result ≡ root_block rows.now }
    ensures most { result ≤ 68 }
{
    let leaves = leaves_for(rows) as u32;
    if leaves < 2 { leaves } else { leaves + 1 }
}

// How many blocks an index of these rows has.
pub(crate) fn tree_blocks(rows: &[Row]) -> u32
    requires { length rows.now ≤ 20000 }
    ensures blocks { result ≡ tree_blocks rows.now }
    ensures most { result ≤ 69 }
{
    root_block(rows) + 1
}

// The numbers of the tree.
#[tactic(auto, unfolding(crate::specs::Trees::tree_meta))]
fn tree_meta(rows: &[Row]) -> Meta
    requires { length rows.now ≤ 20000 }
    ensures { result ≡ tree_meta rows.now }
{
    let root = root_block(rows);
    let level = if leaves_for(rows) < 2 { 0 } else { 1 };
    Meta {
        magic: 0x00053162,
        version: 4,
        root,
        level,
        fastroot: root,
        fastlevel: level,
    }
}

// The file of an index whose entries are those of these rows, in this order.
#[tactic(auto, unfolding(crate::specs::Trees::tree_with))]
pub(crate) fn tree_file(alloc: Global, key: Key, rows: &[Row]) -> Result<Vec<u8>, NoMemory>
    requires { length rows.now ≤ 20000 }
    ensures { IfOk result (λ file. file.items ≡ tree_with key rows.now) }
{
    let mut file = Vec::new(alloc);
    let mut item = Vec::new(alloc);
    push_bytes(&mut file, &meta_page(tree_meta(rows)))?;
    push_leaves(&mut file, &mut item, key, rows)?;
    push_root(&mut file, &mut item, key, rows)?;
    Ok(file)
}
