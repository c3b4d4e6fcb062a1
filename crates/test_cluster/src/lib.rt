//! The tests of the crates that read what a data directory says of itself: `cluster_control` and `cluster_map`.
#![tactic(auto)]

#[cfg(test)]
mod checks;
#[cfg(test)]
mod control_tests;
#[cfg(test)]
mod laid;
#[cfg(test)]
mod map_tests;
#[cfg(test)]
mod small_tests;
