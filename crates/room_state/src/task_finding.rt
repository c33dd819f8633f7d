//! What a thread has to do next, read from the parts of a device. Each public call answers in the terms of the definitions, where the parts tell the
//! state that a legal journal leads to (`AreHeld`). None of them takes memory.
mod mentions;
mod queries;
mod ready;
mod standing;
mod tasks;

pub use mentions::first_missing;
pub use queries::{first_unready, forbidden, gives_back, task_of};
pub use tasks::stage_of;
