//! Trees of small indexes, each written as a text, and the answers of the checks that find nothing of them.
//!
//! The first line of a text has the block of the root and its level. Each further line is a page, from block 1 on: its
//! siblings, its level and its flags, and behind a colon its tuples.
use bt_levels::{SoundTree, TreeFile, check_tree};
use case_file::Case;
use outside::{NoMemory, Part};
use reports::Report;
use std::alloc::Global;
use std::test::Fail;
use test_fixtures::IndexTuple::{Above, AboveItem, Entry, First, Killed, Listed, Pair};
use test_fixtures::{
    IndexTuple, TreePage, UntoldFiles, case_with, index_file, indexed_case, tree_page,
};

/// No root.
pub const EMPTY: &str = "0 0";

/// A leaf alone: 5, 7 and 9.
pub const THREE: &str = "1 0
0 0 0 3: entry 5 1, entry 7 2, entry 9 3";

/// A leaf alone: 5, which is killed, 7 with two TIDs, and 9.
pub const LISTED: &str = "1 0
0 0 0 3: killed 5 1, listed 7 2 3, entry 9 4";

/// Two leaves of two columns, below block 3.
pub const PAIRS: &str = "3 1
0 2 0 1: above 0 5, pair 4 1 1, pair 4 2 2
1 0 0 1: pair 5 1 3, pair 5 3 4
0 0 1 2: first 1, above 2 5";

/// Equal keys on two leaves, below block 3.
pub const SEVENS: &str = "3 1
0 2 0 1: behind 0 7 2, entry 7 1, entry 7 2
1 0 0 1: entry 7 3
0 0 1 2: first 1, behind 2 7 2";

/// A half-dead leaf before two leaves, below block 3.
pub const DEAD_FIRST: &str = "3 1
0 2 0 17: first 0
1 4 0 1: above 0 7, entry 5 1
0 0 1 2: first 2, above 4 7
2 0 0 1: entry 7 2, entry 9 3";

/// A half-dead leaf between two leaves, below block 3.
pub const DEAD_BETWEEN: &str = "3 1
2 4 0 17: first 0
0 1 0 1: above 0 7, entry 5 1
0 0 1 2: first 2, above 4 7
1 0 0 1: entry 7 2, entry 9 3";

/// Six leaves of one entry, below block 4.
pub const SIX: &str = "4 1
0 2 0 1: above 0 20, entry 10 1
1 3 0 1: above 0 30, entry 20 2
2 5 0 1: above 0 40, entry 30 3
0 0 1 2: first 1, above 2 20, above 3 30, above 5 40, above 6 50, above 7 60
3 6 0 1: above 0 50, entry 40 4
5 7 0 1: above 0 60, entry 50 5
6 0 0 1: entry 60 6";

// The case of a table of two columns, with an index on both.
const PAIR_TABLE: &str = "[[column]]
name = \"a\"
type = \"int4\"
[[column]]
name = \"b\"
type = \"int4\"
[[index]]
name = \"t_ab\"
file = \"i\"
[[index.key]]
column = \"a\"
[[index.key]]
column = \"b\"
";

/// The numbers of the first four words of a text, and 0 for each that is none.
pub fn numbers_of(text: &str) -> [u16; 4] {
    let mut numbers = [0u16; 4];
    let mut k = 0usize;
    for word in text.split_whitespace() {
        if k < 4 {
            numbers[k] = word.parse::<u16>().unwrap_or(0);
            k += 1;
        }
    }
    numbers
}

// The tuple that a text names by the first letter of a word, and numbers: `entry`, `killed`, `pair`, `listed`, `first`,
// `above`, and `behind` for a separator with the TID of an item.
fn tuple_of(text: &str) -> Option<IndexTuple> {
    let [_, a, b, c] = numbers_of(text);
    match *text.as_bytes().first()? {
        b'e' => Some(Entry(a, b)),
        b'k' => Some(Killed(a, b)),
        b'p' => Some(Pair(a, b, c)),
        b'l' => Some(Listed(a, b, c)),
        b'f' => Some(First(a)),
        b'a' => Some(Above(a, b)),
        b'b' => Some(AboveItem(a, b, c)),
        _ => None,
    }
}

// The tuples of a text.
fn tuples_of(alloc: Global, text: &str) -> Result<Vec<IndexTuple>, Fail> {
    let mut tuples = Vec::new(alloc);
    for tuple in text.split(", ") {
        tuples.push(tuple_of(tuple).ok_or("no tuple")?)?;
    }
    Ok(tuples)
}

/// The bytes of the page of a line.
pub fn page_bytes(alloc: Global, line: &str) -> Result<[u8; 8192], Fail> {
    let (head, list) = line.split_once(": ").ok_or("no tuples")?;
    let [prev, next, level, flags] = numbers_of(head);
    let tuples = tuples_of(alloc, list)?;
    Ok(tree_page(&TreePage {
        prev,
        next,
        level,
        flags,
        tuples: &tuples,
    }))
}

/// The bytes of the first page of an index behind its metapage.
pub fn leaf_bytes(alloc: Global, index: &str) -> Result<[u8; 8192], Fail> {
    page_bytes(alloc, index.lines().nth(1).unwrap_or(""))
}

/// The file of an index.
pub fn bytes_of(alloc: Global, index: &str) -> Result<Vec<u8>, Fail> {
    let mut lines = index.lines();
    let [root, level, _, _] = numbers_of(lines.next().unwrap_or(""));
    let mut bytes = index_file(alloc, (root, level), &[])?;
    for line in lines {
        bytes.extend_from_slice(&page_bytes(alloc, line)?)?;
    }
    Ok(bytes)
}

// The case of its table, which has two columns where it has pairs.
fn case_of(alloc: Global, index: &str) -> Option<Case> {
    if index.contains("pair") {
        case_with(alloc, PAIR_TABLE)
    } else {
        indexed_case(alloc, "int4")
    }
}

/// Its files, and its tree, which is answered as sound.
pub fn open(alloc: Global, index: &str) -> Result<(UntoldFiles, SoundTree), Fail> {
    let case = case_of(alloc, index).ok_or("refused")?;
    open_file(alloc, &case, bytes_of(alloc, index)?)
}

/// The files of an index with these bytes, and its tree, which is answered as sound.
pub fn open_file(
    alloc: Global,
    case: &Case,
    bytes: Vec<u8>,
) -> Result<(UntoldFiles, SoundTree), Fail> {
    let mut files = files_with(alloc, bytes)?;
    let tree = judged(alloc, &mut files, case)?.0.ok_or("not sound")?;
    Ok((files, tree))
}

/// The files of an index with these bytes.
pub fn files_with(alloc: Global, bytes: Vec<u8>) -> Result<UntoldFiles, NoMemory> {
    let mut files = UntoldFiles::new(alloc);
    files.add("i", Part::Segment(0), bytes)?;
    Ok(files)
}

/// The answer of the check of the one index of a case, with its report.
pub fn judged(
    alloc: Global,
    files: &mut UntoldFiles,
    case: &Case,
) -> Result<(Option<SoundTree>, Report), Fail> {
    if case.index_count() != 1 {
        return Err("no index".into());
    }
    let at = TreeFile::attach(alloc, files, case, 1)?;
    let mut report = Report::new(alloc);
    let sound = check_tree(alloc, files, case, at, &mut report)?;
    Ok((sound, report))
}
