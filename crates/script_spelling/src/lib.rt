//! The one spelling of a script.
#![tactic(auto)]

mod commands;
mod marks;
mod places;
pub mod script;

pub use script::write_script;
