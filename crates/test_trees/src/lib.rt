//! Tests of the crates that read an index: its pages, its items, the rules on its levels, searches and look-ups.
#![tactic(auto)]

#[cfg(test)]
mod block_sets;
#[cfg(test)]
mod caches;
#[cfg(test)]
mod images;
#[cfg(test)]
mod items;
#[cfg(test)]
mod laws;
#[cfg(test)]
mod levels;
#[cfg(test)]
mod lines;
#[cfg(test)]
mod look_ups;
#[cfg(test)]
mod metapages;
#[cfg(test)]
mod scans;
#[cfg(test)]
mod sorted_scans;
#[cfg(test)]
mod steps;
#[cfg(test)]
mod targets;
#[cfg(test)]
mod trees;
#[cfg(test)]
mod verdicts;
