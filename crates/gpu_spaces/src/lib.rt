//! The address space of a GPU thread: each of its pages may be mapped to a page of a buffer (drm_gpuvm).
#![tactic(auto)]

mod apart;
pub mod buffer_set;
mod change;
mod job;
mod mappings;
mod pieces;
mod runs;
mod space;
mod spot;
mod steps;

pub use pieces::{Piece, Pieces};
pub use space::Space;
