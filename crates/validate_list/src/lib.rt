//! The commands of a thread on the rooms, from the ticket to the answer (ttm_eu_reserve_buffers, ttm_bo_validate, ttm_eu_fence_buffer_objects).
//! Each call makes the one entry that the thread makes next, or says what it needs first.
#![tactic(auto)]

mod acts;
mod buffers;
mod enact;
mod locks;
mod refusals;
mod starts;

pub use acts::{act, answer, perform};
pub use locks::{lock, lock_buffer};
pub use refusals::{refuse, refuse_for};
pub use starts::start;
