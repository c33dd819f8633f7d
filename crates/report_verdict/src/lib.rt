//! What comes of a report: it is accepted, or rejected at an entry by a rule.
#![tactic(auto)]

mod ending;

pub use ending::{Ending, judge};
