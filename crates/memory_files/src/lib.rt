//! Files and a sink in memory, for samples and tests.
#![tactic(auto)]

mod held;
mod memory;
mod planned;
mod sink;
mod sure;

pub use memory::MemFiles;
pub use sink::MemSink;
pub use sure::SureFiles;
