//! Reads the text of entries: the line of an entry, and the lines of a report up to the first that isn't one.
#![tactic(auto)]

pub mod entry;
mod kinds;
mod numbers;
mod parts;
pub mod report;
mod rule;

pub use entry::{names_of_script, read_entry};
pub use report::{Entries, Parsed, ReportBad, read_report};
pub use rule::Rule;
