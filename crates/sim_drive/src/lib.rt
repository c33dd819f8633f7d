//! The turns of the simulator: the script's schedule first, and then its own order of actors, until the journal is complete.
#![tactic(auto)]

mod limit;
mod turns;

pub use device_core::Device;
pub use limit::turn_limit;
pub use turns::drive;
