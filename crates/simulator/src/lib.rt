//! The simulator, from its command line and input to a report and an exit status.
#![tactic(auto)]

mod input;
mod law;
mod outcome;
mod tell;
mod top;

pub use input::{Input, read_input};
pub use law::lawful_parts;
pub use outcome::Outcome;
pub use sim_drive::Device;
pub use tell::write_outcome;
pub use top::{Told, sim_top, tell_outcome};
