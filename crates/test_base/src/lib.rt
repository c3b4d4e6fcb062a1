//! The tests of the crates that reach files and say what was found: `outside`, `case_file`, `case_text`,
//! `reports` and `rel_files`.
#![tactic(auto)]

#[cfg(test)]
mod attach_files_tests;
#[cfg(test)]
mod case_file_tests;
#[cfg(test)]
mod case_text_tests;
#[cfg(test)]
mod case_texts;
#[cfg(test)]
mod checks;
#[cfg(test)]
mod disk_files_tests;
#[cfg(test)]
mod outside_tests;
#[cfg(test)]
mod pages;
#[cfg(test)]
mod reports_tests;
#[cfg(test)]
mod show_tests;
