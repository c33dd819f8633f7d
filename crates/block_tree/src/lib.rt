//! The free pages of a buddy allocator (drm_buddy), as a set of the largest free blocks.
#![tactic(auto)]

mod block;
mod free_blocks;
mod request;

pub use block::block_len;
pub use free_blocks::FreeBlocks;
