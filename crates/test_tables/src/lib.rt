//! Tests of the crates that read a table: its rows, their entries in its indexes, and tables built from a seed.
#![tactic(auto)]

#[cfg(test)]
mod builds;
#[cfg(test)]
mod joins;
#[cfg(test)]
mod rows;
#[cfg(test)]
mod sound;
#[cfg(test)]
mod table_reads;
