//! The tests of the crates that read and write pages, tuples and items: `page_layout`, `tuple_head`, `heap_tuples`,
//! `hot_chains`, `vis_map`, `toast_chunks`, `heap_targets`, `page_write` and `bt_build`.
#![tactic(auto)]

#[cfg(test)]
mod bt_build_tests;
#[cfg(test)]
mod checks;
#[cfg(test)]
mod detoast_tests;
#[cfg(test)]
mod heap_tuples_tests;
#[cfg(test)]
mod hot_chains_tests;
#[cfg(test)]
mod page_layout_tests;
#[cfg(test)]
mod page_write_tests;
#[cfg(test)]
mod pages;
#[cfg(test)]
mod root_set_tests;
#[cfg(test)]
mod toast_map_tests;
#[cfg(test)]
mod tuple_head_tests;
#[cfg(test)]
mod vis_map_tests;
