//! A manager of the pages of a memory type by ranges (drm_mm).
#![tactic(auto)]

mod choice;
mod gaps;
mod manager;

pub use manager::RangeManager;

/// The reason why no range was taken.
#[derive(Clone, Copy, Debug, PartialEq, Eq)]
pub enum InsertFault {
    /// No hole has the pages, or room for them.
    NoHole,
    NoMemory,
}
