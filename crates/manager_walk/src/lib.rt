//! Walks over what a manager holds and what is free there, in order of address.
#![tactic(auto)]

mod blocks;
mod listing;
mod ranges;

pub use blocks::{free_blocks, next_block};
pub use listing::holes;
pub use ranges::{is_open, next_held, next_hole};
