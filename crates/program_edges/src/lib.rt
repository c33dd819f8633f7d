//! What a call of the program does to its source and its sink, and the status with which it ends.
#![tactic(auto)]

mod status;
mod text;

pub use status::{Status, status_after};
pub use text::{write_bad_script, write_text};
