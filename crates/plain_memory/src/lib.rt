//! The memory in which each buffer has its own place for good, as code: after the commands of a journal, and how many reads of
//! the journal show other bytes.
#![tactic(auto)]

mod along;
mod buffer_bytes;
mod counts;
mod memory;

pub use along::mismatches;
pub use counts::{answers, command_count};
pub use memory::PlainMemory;
