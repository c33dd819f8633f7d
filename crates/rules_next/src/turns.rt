//! Whose turn it is in the simulator's own order, and whether a state is over.
mod schedule;

pub use schedule::{is_over, next_actor};
