//! Tests of `run` over files in memory: what it answers and writes, rule by rule of a heap and refusal by refusal, and
//! what it leaves where a file or the sink fails.
#![tactic(auto)]

#[cfg(test)]
mod expected;
#[cfg(test)]
mod faults;
#[cfg(test)]
mod generated;
#[cfg(test)]
mod heap;
#[cfg(test)]
mod pages;
#[cfg(test)]
mod usage;
