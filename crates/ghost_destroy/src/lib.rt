//! Freed buffers: they are held until their jobs are done, and then reaped. Each call makes the one entry that its actor makes next, or returns what
//! it needs first.
#![tactic(auto)]

mod free;
mod reaper;

pub use free::{hold, is_free_due};
pub use reaper::reap_first;
