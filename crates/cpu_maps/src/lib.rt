//! Mappings of buffers by the CPU: for each page the place that an access found (vm_area_struct, ttm_bo_vm_fault).
#![tactic(auto)]

mod area;
mod entries;
mod maps;

pub use area::Area;
pub use entries::Entries;
pub use maps::CpuMaps;
