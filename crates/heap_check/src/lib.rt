//! The check of a table's heap and its rows, by the names under which a caller of the library finds them: the files of
//! a case and what is found of them (`heap_table_check`), a page by itself (`heap_page_check`), the live rows of a heap
//! in which nothing was found (`heap_rows`), and why files can't be judged (`rel_files`).
#![tactic(auto)]

pub use heap_page_check::{judge_page, lone_pages_are_judged};
pub use heap_rows::{
    Cell, CellRef, Cells, LiveRow, LiveRows, RowCursor, RowPlace, rows_are_live_tuples,
};
pub use heap_table_check::{HeapFiles, SoundHeap, check_heap};
pub use rel_files::{CheckFault, PageFault, Which};
