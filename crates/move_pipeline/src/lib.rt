//! Searches and moves: the buffer of a search gets its pages, and goes to its target. Each call makes the one entry that the thread makes next, or
//! returns what it needs first.
#![tactic(auto)]

mod carries;
mod search;

pub use carries::{bind, carry, move_to_target, release_target, unbind, untake};
pub use search::{take_pages, take_target};
