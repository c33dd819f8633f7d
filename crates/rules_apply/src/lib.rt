//! A plain memory manager over lists: the first state, and the state after an entry.
#![tactic(auto)]

mod commands;
mod entries;
mod jobs;
mod moves;
mod pages;
mod ready;
mod searches;
mod start;
mod tickets;
mod victims;

pub use entries::apply;
pub use ready::is_ready;
pub use start::first_state;
