//! A table that has a number for each of many places, with memory only for those pieces in which a number was set.
#![tactic(auto)]

mod piece;
mod table;

pub use table::SparseTable;
