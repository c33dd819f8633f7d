//! What is held in a state and what is free, the packets of operations, and the jobs that a use of a buffer waits for. Each function
//! is named after its definition and gives what the definition says.
#![tactic(auto)]

mod free;
mod free_sets;
mod holds;
mod least;
mod packets;
mod waits;

pub use free::{count_free_frames, count_free_slots, free_frame, free_slot};
pub use free_sets::{FreeNumbers, FreeSets};
pub use holds::{ghost_spans, has_page, held_spans, is_free_beside, spans_in};
pub use packets::packets_of;
pub use state_words::{is_written, use_of};
pub use waits::{
    is_idle, is_unfinished, jobs_before_use, unfinished_before_write, waited_before_read,
    waited_before_write, waited_for,
};
