//! A memory manager on its parts, with the journal of what it did: each turn of an actor makes the entry that is legal next, if there is one.
#![tactic(auto)]

mod device;
mod follow;
mod stepper;

pub use device::Device;
