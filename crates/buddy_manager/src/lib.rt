//! A buddy allocator of pages (drm_buddy): which blocks are held, and which blocks a request takes.
#![tactic(auto)]

mod choice;
mod ends;
mod find;
mod manager;
mod unmarked;

pub use manager::BuddyManager;

/// How blocks are taken: from the top, and as one block.
#[derive(Clone, Copy, PartialEq, Eq)]
pub struct BuddyFlags {
    pub topdown: bool,
    pub contig: bool,
}

/// The reason why a request got no blocks.
#[derive(Clone, Copy, Debug, PartialEq, Eq)]
pub enum AllocFault {
    /// The choice finds no blocks among the free pages.
    NoBlocks,
    NoMemory,
}
