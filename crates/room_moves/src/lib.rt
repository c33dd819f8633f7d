//! Moves of buffers by jobs of the move engine: a buffer stands in its new place at once, and what it leaves is free after the move fence, or a
//! ghost's until the job is done (ttm_bo_move_accel_cleanup).
#![tactic(auto)]

mod ghosts;
mod managers;
mod mappings;
mod moves;
mod packets;
mod starts;

pub use moves::move_buffer;
