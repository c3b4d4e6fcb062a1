//! Tests of what is made of rows: runs of `copy` and of `reindex`, rows by themselves, and texts that are read back.
#![tactic(auto)]

#[cfg(test)]
mod expected;
#[cfg(test)]
mod indexes;
#[cfg(test)]
mod random;
#[cfg(test)]
mod rows;
#[cfg(test)]
mod runs;
#[cfg(test)]
mod texts;
