//! The program with threads, from its command line and input to a report and an exit status.
#![tactic(auto)]

mod actors;
mod counts;
mod crowd;
mod drawn;
mod launch;
mod top;

pub use actors::actors_of;
pub use counts::Counts;
pub use crowd::run_threads;
pub use launch::{Launch, read_launch};
pub use program_edges::Status;
pub use top::{ToldCounts, tell_counts, tell_run, ttm_top};
