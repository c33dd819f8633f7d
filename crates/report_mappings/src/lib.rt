//! The report's parts on mappings: the faults of mappings by the CPU, and the steps of address spaces.
#![tactic(auto)]

pub mod faults;
mod seen;
pub mod spaces;
pub mod spans;

pub use faults::{has_map, put_maps};
pub use spaces::{has_vmap, put_spaces};
