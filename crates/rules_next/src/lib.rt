//! The next entry of an actor, by plain lists: the rules for a command at work, engines and the reaper. Each function is named after
//! its definition and gives what the definition says.
#![tactic(auto)]

mod actors;
mod ready;
mod tasks;
pub mod turns;

pub use actors::{next, next_with};
