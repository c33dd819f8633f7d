//! A large script that is drawn from a number.
#![tactic(auto)]

mod buffers;
mod choices;
mod commands;
mod draws;
mod load;

pub use load::generated;
