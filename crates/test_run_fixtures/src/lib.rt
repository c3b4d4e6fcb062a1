//! Files in memory for tests of `run`, laid byte by byte, and runs over them.
#![tactic(auto)]

mod tables;
mod trees;

pub use tables::{
    BOOL_AND_TEXT, CLEAN, CLUSTER, DEAD, EXTERNAL, INT_COLUMN, Item, LIVE, POINTER, SUCCESSOR,
    TEXT_IN_TOAST, THREE_ROWS, Tuple, UNUSED, UPDATED, case_files, chunk_page, normal, page_of,
    redirect, report_of, run_words,
};
pub use trees::{
    INDEX, IndexTuple, LONE_LEAF, NINE, THREE, TWO_LEVELS, TreePage, index_file, indexed_files,
    put_over,
};
