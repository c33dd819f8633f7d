//! Frames and swap slots on the rooms: pages get frames, go to slots, and frames are given back (ttm_tt_populate, ttm_tt_swapin,
//! ttm_tt_swapout, ttm_tt_unpopulate). Each call makes the one entry that the thread makes next, or says what it needs first.
#![tactic(auto)]

mod buffers;
mod filling;
mod giving;
mod swapping;

pub use buffers::has_frame_in_vram;
pub use filling::{fill, fill_buffer};
pub use giving::{depopulate, give_back_frames, is_depopulate_due};
pub use swapping::{can_swap, is_swap_out_due, is_victim_due, swap_out, swap_out_page};
