//! Accounts of the pages, frames and slots of a state: how many are held by whom.
#![tactic(auto)]

pub mod accounts;
mod counts;

pub use accounts::{Account, Accounts};
