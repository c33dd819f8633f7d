//! A turn of any actor of a device on its rooms: of the calls that make entries, the one that serves what the actor has to do.
#![tactic(auto)]

mod engines;
mod idle;
mod threads;
mod turns;

pub use idle::is_idle;
pub use turns::turn;
