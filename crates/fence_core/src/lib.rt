//! Fences by usage: how far the jobs of each context are (dma_fence), and the jobs that use a buffer (dma_resv).
#![tactic(auto)]

mod fence_set;
mod timeline;

pub use fence_set::{FenceSet, Latest};
pub use timeline::{Progress, Timeline};
