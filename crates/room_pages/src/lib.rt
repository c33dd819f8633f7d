//! What entries that take frames from a buffer do to the parts of the device: the frames go back to the pool, and a page that is swapped
//! out goes to a slot. No call takes memory.
#![tactic(auto)]

pub mod binding;
mod frames;
pub mod ghosts;
mod pages;

pub use frames::give_frames;
pub use pages::{depopulate, swap_out};
