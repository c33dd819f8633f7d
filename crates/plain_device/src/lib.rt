//! A memory manager with the journal of what it did: each turn of an actor makes the entry that is legal next, if there is one.
#![tactic(auto)]

mod device;
pub mod enact;

pub use device::Device;
