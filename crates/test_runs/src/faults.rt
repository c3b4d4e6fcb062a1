//! Runs in which one call on the files or on the sink fails, each call in turn.
use crate::expected::{expect_first_put, expect_in};
use memory_files::{MemFiles, MemSink};
use outside::Part;
use std::alloc::Global;
use std::process::Abort;
use std::test::Fail;
use test_run_fixtures::{
    CLEAN, CLUSTER, EXTERNAL, INDEX, INT_COLUMN, IndexTuple, Item, LONE_LEAF, NINE, SUCCESSOR,
    TEXT_IN_TOAST, THREE, THREE_ROWS, TWO_LEVELS, TreePage, Tuple, UPDATED, case_files, chunk_page,
    index_file, indexed_files, page_of, run_words,
};

// Which files and words.
#[derive(Clone, Copy)]
enum Scene {
    // Three live tuples, judged as pages alone.
    Pages,
    // The same as a case.
    Heap,
    // An updated tuple whose updater stands in a multixact, and its successor.
    Multixact,
    // The same with an index on it, whose one entry names the successor by its root.
    IndexedMultixact,
    // A tuple whose value of 1996 bytes stands in the TOAST table.
    Toast,
    // Three live tuples, and an index of two levels.
    Index,
    // The same, and all indexes.
    All,
}

const SCENES: [Scene; 7] = [
    Scene::Pages,
    Scene::Heap,
    Scene::Multixact,
    Scene::IndexedMultixact,
    Scene::Toast,
    Scene::Index,
    Scene::All,
];

fn words_of(scene: Scene) -> &'static [&'static str] {
    match scene {
        Scene::Pages => &["pages", "t"],
        Scene::Heap | Scene::Multixact | Scene::Toast => &["heap", "case.toml"],
        Scene::Index | Scene::IndexedMultixact => &["index", "case.toml", "t_a"],
        Scene::All => &["all", "case.toml"],
    }
}

// The rows of a scene with a multixact.
const BY_MULTIXACT: [Item<'static>; 2] = [
    Item::Tuple(Tuple {
        xmax: 5,
        infomask: 0x1100,
        ..UPDATED
    }),
    Item::Tuple(Tuple {
        xmin: 712,
        infomask: 0x2800,
        body: &[9, 0, 0, 0],
        ..SUCCESSOR
    }),
];

// The heap of a scene.
fn heap_of(scene: Scene) -> [u8; 8192] {
    match scene {
        Scene::Pages | Scene::Heap | Scene::Index | Scene::All => page_of(0, &THREE_ROWS),
        Scene::Multixact | Scene::IndexedMultixact => page_of(0, &BY_MULTIXACT),
        Scene::Toast => page_of(0, &[Item::Tuple(EXTERNAL)]),
    }
}

// Its case.
fn case_of(alloc: Global, scene: Scene) -> Result<String, Fail> {
    let rest = match scene {
        Scene::Toast => TEXT_IN_TOAST,
        _ => INT_COLUMN,
    };
    let index = match scene {
        Scene::Index | Scene::IndexedMultixact | Scene::All => INDEX,
        _ => "",
    };
    let text = format!(in alloc; "{CLUSTER}{rest}{index}")?;
    Ok(text)
}

// A leaf with the entry of 9 alone, which names the root of its row.
const NINE_ALONE: TreePage<'static> = TreePage {
    tuples: &[IndexTuple { item: 1, ..NINE }],
    ..LONE_LEAF
};

// The file of its index.
fn tree_of(alloc: Global, scene: Scene) -> Result<Vec<u8>, Fail> {
    let pages: &[TreePage<'_>] = match scene {
        Scene::IndexedMultixact => &[NINE_ALONE],
        _ => &TWO_LEVELS,
    };
    index_file(alloc, pages)
}

fn files_of(alloc: Global, scene: Scene) -> Result<MemFiles, Fail> {
    let text = case_of(alloc, scene)?;
    let tree = tree_of(alloc, scene)?;
    let mut files = case_files(alloc, text.as_str(), &heap_of(scene))?;
    files.add("tt", Part::Segment(0), &chunk_page(0, 1996))?;
    files.add("i", Part::Segment(0), tree.as_slice())?;
    Ok(files)
}

// The same, with one failing call: a read with a number, or a question for a length.
fn failing_files(alloc: Global, scene: Scene, in_reads: bool, n: u64) -> Result<MemFiles, Fail> {
    let mut files = files_of(alloc, scene)?;
    if in_reads {
        files.fail_read(n)?;
    } else {
        files.fail_length(n)?;
    }
    Ok(files)
}

// The status of a run over these files, which is clean or writes nothing.
fn status_of(
    rt: &impl Abort,
    alloc: Global,
    scene: Scene,
    files: &mut MemFiles,
) -> Result<u8, Fail> {
    let mut sink = MemSink::new(alloc, 16)?;
    let code = run_words(alloc, words_of(scene), files, &mut sink)?;
    let text = if code == 0 { CLEAN } else { "" };
    assert_eq!(rt; sink.bytes(), text.as_bytes());
    Ok(code)
}

// How many runs with one failing call, the first, the second and so on, end with 7 and nothing written
// before one ends clean.
fn faults_of(rt: &impl Abort, alloc: Global, scene: Scene, in_reads: bool) -> Result<u64, Fail> {
    for n in 1..100u64 {
        let mut files = failing_files(alloc, scene, in_reads, n)?;
        let code = status_of(rt, alloc, scene, &mut files)?;
        if code == 0 {
            return Ok(n - 1);
        }
        assert_eq!(rt; code, 7);
    }
    Err(Fail::from("a hundred calls"))
}

#[test]
fn each_call_on_the_files_may_fail(rt: HostRuntime) -> Result<(), Fail> {
    for scene in SCENES {
        assert!(rt; faults_of(&rt, rt.alloc(), scene, true)? > 0);
        assert!(rt; faults_of(&rt, rt.alloc(), scene, false)? > 0);
    }
    Ok(())
}

// A sink that takes a byte at a time, and fails after so many.
fn failing_sink(alloc: Global, count: usize) -> Result<MemSink, Fail> {
    let mut sink = MemSink::new(alloc, 1)?;
    sink.fail_put((count as u64).saturating_add(1))?;
    Ok(sink)
}

// A run into this sink: so many bytes are written, and if these are all of the report nothing fails.
fn expect_first(rt: &impl Abort, alloc: Global, scene: Scene, count: usize) -> Result<(), Fail> {
    let text = CLEAN.as_bytes();
    let code = if count < text.len() { 8 } else { 0 };
    let first = &text[..count.min(text.len())];
    let mut sink = failing_sink(alloc, count)?;
    let mut files = files_of(alloc, scene)?;
    let words = words_of(scene);
    expect_in(rt, alloc, words, &mut files, &mut sink, code, first)
}

#[test]
fn each_put_may_fail(rt: HostRuntime) -> Result<(), Fail> {
    for scene in SCENES {
        for count in 0..=CLEAN.len() {
            expect_first(&rt, rt.alloc(), scene, count)?;
        }
    }
    Ok(())
}

// A sink that takes 16 bytes at a time, and fails at the second.
#[test]
fn the_second_put_fails(rt: HostRuntime) -> Result<(), Fail> {
    let alloc = rt.alloc();
    let tree = index_file(alloc, &[THREE])?;
    let heap = page_of(0, &THREE_ROWS);
    let mut files = indexed_files(alloc, INT_COLUMN, "", &heap, tree.as_slice())?;
    expect_first_put(&rt, alloc, words_of(Scene::Index), &mut files)
}
