//! Heaps and indexes that are laid from texts.
//!
//! A text has pages with `; ` between them, and a page has words with a blank between them. A word has numbers with
//! signs between them, and may have bytes behind `#`. All of them are hexadecimal, and a number that isn't written is
//! 0. An item's number is its place in its page.
//!
//! | Word of a heap | What it is |
//! |---|---|
//! | `7` | a live row of the number 7, which transaction 700 inserted |
//! | `?` | such a row of a null |
//! | `2~4` | a line pointer without storage: its flags and its offset |
//! | `2bc.0.0.1.1.902#076869` | a tuple: xmin, xmax, block and item of its ctid, infomask2, infomask, and its body |
//! | `:8` | the flags of the page, as its last word |
//!
//! | Word of an index | What it is |
//! |---|---|
//! | `3:1:2:0` | the whole of the metapage, which is the first page: the root, its level, the fast root, its level |
//! | `1:4:0:1` | the fields of a page: the one before it, the one behind it, its level, its flags |
//! | `5@1` | the entry of 5 for item 1 of block 0 |
//! | `5!1` | the same, killed |
//! | `?@1` | the entry of a null |
//! | `4,2@1` | the entry of two numbers |
//! | `7[1,2]3` | the entries of 7 for items 1 and 2 as a list, which says that it has three |
//! | `->1` | a downlink to block 1 that keeps no value |
//! | `7>2` | a downlink to block 2 with the separator 7; to block 0, `7>`, a high key |
//! | `7+1>2` | the same where the separator has the TID of item 1 |
//! | `0.1.4010#076869` | a tuple: block, item, info and its body |
use memory_files::MemFiles;
use outside::Part;
use std::alloc::Global;
use std::test::Fail;
use test_fixtures::{HeapHead, Page};
use test_run_fixtures::{CLUSTER, case_files};

/// An index with one leaf of 5, 7 and 9.
pub(crate) const THREE: &str = "1:0:1:0; :3 5@1 7@2 9@3";

/// A tree of two levels: a leaf with 5 and 7, one with 9, and their root, block 3.
pub(crate) const TWO_LEVELS: &str = "3:1:3:1; :2:0:1 9> 5@1 7@2; 1:0:0:1 9@3; :1:2 ->1 9>2";

// The number of a hexadecimal digit.
fn digit_of(byte: u8) -> Option<u8> {
    match byte {
        b'0'..=b'9' => Some(byte.wrapping_sub(b'0')),
        b'a'..=b'f' => Some(byte.wrapping_sub(b'a').wrapping_add(10)),
        _ => None,
    }
}

// The first sign of a word, 0 where it has none, and its last six numbers.
fn numbers_of(word: &str) -> (u8, [u16; 6]) {
    let mut sign = 0u8;
    let mut numbers = [0u16; 6];
    for byte in word.as_bytes() {
        let [_, a, b, c, d, last] = numbers;
        match digit_of(*byte) {
            Some(digit) => numbers[5] = last.wrapping_mul(16).wrapping_add(u16::from(digit)),
            None => {
                numbers = [a, b, c, d, last, 0];
                if sign == 0 {
                    sign = *byte;
                }
            }
        }
    }
    (sign, numbers)
}

// Writes bytes, of two digits each, from a place of a page on.
fn put_digits(page: &mut Page, at: u16, digits: &str) {
    let mut byte = 0u8;
    let mut count = 0u16;
    for digit in digits.as_bytes() {
        byte = byte
            .wrapping_mul(16)
            .wrapping_add(digit_of(*digit).unwrap_or(0));
        page.put(at.wrapping_add(count / 2), &[byte]);
        count = count.wrapping_add(1);
    }
}

// How many bytes there are in digits.
fn count_of(digits: &str) -> u16 {
    (digits.len().min(64) / 2) as u16
}

// The header of a live row at an item.
fn live(item: u16, infomask: u16) -> HeapHead {
    HeapHead {
        xmin: 700,
        xmax: 0,
        block: 0,
        item,
        infomask2: 1,
        infomask,
    }
}

// Adds a live row of a number to a page.
fn add_number(page: &mut Page, item: u16, number: u16) {
    let at = live(item, 0x0900).add_to(page, 4);
    page.put_halves(at, &[number]);
}

// Adds a line pointer without storage.
fn add_pointer(page: &mut Page, item: u16, flags: u16, offset: u16) {
    let _ = page.add(0, false);
    let pointer = u32::from(flags)
        .wrapping_mul(0x8000)
        .wrapping_add(u32::from(offset));
    let at = item.wrapping_mul(4).wrapping_add(20);
    page.put(at, &pointer.to_le_bytes());
}

// Adds a tuple with these fields of its header and this body.
fn add_tuple(page: &mut Page, fields: [u16; 6], digits: &str) {
    let [xmin, xmax, block, item, infomask2, infomask] = fields;
    let head = HeapHead {
        xmin,
        xmax,
        block,
        item,
        infomask2,
        infomask,
    };
    let at = head.add_to(page, count_of(digits));
    put_digits(page, at, digits);
}

// Adds what a word of a heap says to a page, as the item of this number.
fn add_to_heap(page: &mut Page, item: u16, word: &str) {
    let (word, digits) = word.split_once("#").unwrap_or((word, ""));
    let (sign, numbers) = numbers_of(word);
    match sign {
        b':' => page.put_halves(10, &[numbers[5]]),
        b'~' => add_pointer(page, item, numbers[4], numbers[5]),
        b'.' => add_tuple(page, numbers, digits),
        b'?' => {
            let _ = live(item, 0x0901).add_to(page, 0);
        }
        _ => add_number(page, item, numbers[5]),
    }
}

// A page of a heap.
fn heap_page(words: &str) -> [u8; 8192] {
    let mut page = Page::new(8192);
    let mut item = 0u16;
    for word in words.split(" ") {
        item = item.wrapping_add(1);
        add_to_heap(&mut page, item, word);
    }
    page.finish()
}

/// The file of a heap: the pages of the text, none where it is empty, and pages without items up to so many blocks.
pub(crate) fn heap_file(alloc: Global, heap: &str, blocks: u16) -> Result<Vec<u8>, Fail> {
    let mut bytes = Vec::new(alloc);
    let mut laid = 0u16;
    if heap.is_empty() {
        return Ok(bytes);
    }
    for words in heap.split("; ") {
        bytes.extend_from_slice(&heap_page(words))?;
        laid = laid.wrapping_add(1);
    }
    for _ in laid..blocks {
        bytes.extend_from_slice(&Page::new(8192).finish())?;
    }
    Ok(bytes)
}

// Adds an index tuple with these fields and this body.
fn add_index_tuple(page: &mut Page, fields: [u16; 3], digits: &str) {
    let [block, item, info] = fields;
    let at = page.add(count_of(digits).saturating_add(15) / 8 * 8, false);
    page.put_halves(at, &[0, block, item, info]);
    put_digits(page, at.saturating_add(8), digits);
}

// Adds what a word of an index says to a page.
fn add_to_tree(page: &mut Page, word: &str) {
    let (word, digits) = word.split_once("#").unwrap_or((word, ""));
    let (sign, numbers) = numbers_of(word);
    let [_, _, a, b, c, d] = numbers;
    match sign {
        b':' => page.put_halves(8176, &[a, 0, b, 0, c, 0, d]),
        b'@' => page.add_halves(&[0, 0, d, 0x10, c, 0, 0, 0], false),
        b'!' => page.add_halves(&[0, 0, d, 0x10, c, 0, 0, 0], true),
        b'?' => page.add_halves(&[0, 0, d, 0x8010, 0, 0, 0, 0], false),
        b',' => page.add_halves(&[0, 0, d, 0x10, b, 0, c, 0], false),
        b'[' => {
            let count = d | 0x2000;
            let list = [0, 16, count, 0x2020, a, 0, 0, 0, 0, 0, b, 0, 0, c, 0, 0];
            page.add_halves(&list, false);
        }
        b'-' => page.add_halves(&[0, d, 0, 0x2008], false),
        b'>' => page.add_halves(&[0, d, 1, 0x2010, c, 0, 0, 0], false),
        b'+' => page.add_halves(&[0, d, 0x1001, 0x2018, b, 0, 0, 0, 0, 0, 0, c], false),
        _ => add_index_tuple(page, [b, c, d], digits),
    }
}

// A page of an index.
fn tree_page(words: &str) -> [u8; 8192] {
    let mut page = Page::new(8176);
    for word in words.split(" ") {
        add_to_tree(&mut page, word);
    }
    page.finish()
}

// The metapage of an index.
fn metapage(word: &str) -> [u8; 8192] {
    let (_, numbers) = numbers_of(word);
    let [_, _, root, level, fastroot, fastlevel] = numbers;
    let roots = [root, 0, level, 0, fastroot, 0, fastlevel, 0];
    let mut page = Page::new(8176);
    page.put_halves(24, &[0x3162, 5, 4, 0]);
    page.put_halves(32, &roots);
    page.put_halves(8188, &[8]);
    page.finish_at(72)
}

/// The file of an index.
pub(crate) fn tree_file(alloc: Global, tree: &str) -> Result<Vec<u8>, Fail> {
    let mut pages = tree.split("; ");
    let mut bytes = Vec::from_slice(alloc, &metapage(pages.next().unwrap_or("")))?;
    for words in pages {
        bytes.extend_from_slice(&tree_page(words))?;
    }
    Ok(bytes)
}

/// The file of a case, with this text behind the heap's file, and no other.
pub(crate) fn case_alone(alloc: Global, text: &str) -> Result<MemFiles, Fail> {
    let text = format!(in alloc; "{CLUSTER}{text}")?;
    let mut files = MemFiles::new(alloc);
    files.add("case.toml", Part::Segment(0), text.as_bytes())?;
    Ok(files)
}

/// The files of a case without those of its indexes: what its text has behind the heap's file, and the heap.
pub(crate) fn heap_files(alloc: Global, text: &str, heap: &[u8]) -> Result<MemFiles, Fail> {
    let text = format!(in alloc; "{CLUSTER}{text}")?;
    case_files(alloc, text.as_str(), heap)
}

/// Adds the file of an index, of this name.
pub(crate) fn add_tree(
    alloc: Global,
    files: &mut MemFiles,
    base: &str,
    tree: &str,
) -> Result<(), Fail> {
    let bytes = tree_file(alloc, tree)?;
    files.add(base, Part::Segment(0), bytes.as_slice())?;
    Ok(())
}

/// The files of a case with a heap of one page or none and an index: the text, the heap and the tree.
pub(crate) fn files_of(alloc: Global, laid: [&str; 3]) -> Result<MemFiles, Fail> {
    let [text, heap, tree] = laid;
    let heap = heap_file(alloc, heap, 1)?;
    let mut files = heap_files(alloc, text, &heap)?;
    add_tree(alloc, &mut files, "i", tree)?;
    Ok(files)
}
