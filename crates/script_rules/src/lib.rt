//! The rules that a line of a script may break, from the fifth on: the least of them, by what the lines before have declared.
#![tactic(auto)]

mod addresses;
mod rules;
pub mod script_mappings;

pub use addresses::{addressed_lens_within, vops_of};
pub use rules::{broken, lens_within};
