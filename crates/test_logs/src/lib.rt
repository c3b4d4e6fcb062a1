//! The tests of the crates that read a relation's segments and the commit logs, and of what these say of a tuple:
//! `rel_files`, `xact_status`, `multi_members` and `liveness`.
#![tactic(auto)]

#[cfg(test)]
mod checks;
#[cfg(test)]
mod liveness_tests;
#[cfg(test)]
mod logs;
#[cfg(test)]
mod lookup_tests;
#[cfg(test)]
mod multi_members_tests;
#[cfg(test)]
mod quiet_files;
#[cfg(test)]
mod rel_files_tests;
#[cfg(test)]
mod xact_status_tests;
