//! The word `check`: a script and the report that follows it are read, and the verdict is written.
#![tactic(auto)]

mod exact;
mod finding;
mod split;
mod tell;

pub use exact::{reports_are_valid, verdicts_are_exact};
pub use finding::{Finding, finding_in, read_finding};
pub use tell::write_finding;
