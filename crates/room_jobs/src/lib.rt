//! What entries on jobs do to the parts of the device: one function for each kind, after which the parts tell the state and the bytes that the
//! journal leads to. Each takes all its memory before it changes what can be seen.
#![tactic(auto)]

mod answers;
mod jobs;
mod listings;
mod packets;
mod pins;
mod uses;
mod work;
mod writes;

pub use answers::answer;
pub use jobs::arm;
