//! Tests of `run` over the files of a table and its indexes: the rules of an index's pages and levels, of a heap and
//! its indexes together, and scans.
#![tactic(auto)]

#[cfg(test)]
mod expected;
#[cfg(test)]
mod included;
#[cfg(test)]
mod index;
#[cfg(test)]
mod indexed;
#[cfg(test)]
mod laid;
#[cfg(test)]
mod levels;
#[cfg(test)]
mod scans;
#[cfg(test)]
mod unique;
