//! What each kind of entry does to the parts of the device: one function for each kind, after which the parts tell the state and the bytes that the
//! journal leads to. Each takes all its memory before it changes what can be seen.
#![tactic(auto)]

mod buffers;
mod jobs;
mod lists;
mod pages;
mod targets;
mod tickets;
mod victims;

pub use buffers::make;
pub use jobs::{done, packet};
pub use lists::bulk;
pub use pages::{populate, swap_in};
pub use targets::{take, untake};
pub use tickets::{back_off, refuse, reserve, ticket};
pub use victims::{catch, dry, loose, no_pages, skip};
