//! What the device and its turns ask of the parts of a memory manager. Each call answers in the terms of the definitions, where the parts tell the
//! state and the bytes that a legal journal leads to (`AreHeld`), and leaves them so.
#![tactic(auto)]

mod bytes;
mod choices;
mod counters;
mod ends;
mod engines;
mod waits;

pub use bytes::{probe, shown};
pub use choices::choice;
pub use counters::{free_frame, free_slot, next_ghost, next_job, next_stamp};
pub use ends::is_over;
pub use engines::{head, head_packet};
pub use waits::{first_ghost, ghost_need, head_need, need};
