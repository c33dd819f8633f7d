//! The report of a journal: its entries, the results, the accounts, and what mappings come to. It is written here, and its entries
//! are read by `entry_reader`, whose calls this crate passes on.
#![tactic(auto)]

mod entry;
pub mod report;

pub use entry_reader::{Entries, Parsed, ReportBad, Rule, read_report};
pub use report::{WriteFault, write_report};
