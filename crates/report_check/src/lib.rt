//! Whether a report is right: whether its journal is a legal, complete one of the script, and what follows it the rest of its report.
#![tactic(auto)]

mod given;
mod judge;
mod kept;
mod parts;
mod same;
mod tail;

pub use judge::{Verdict, check};
pub use same::{same_kind, same_step};
pub use tail::tail_is;
