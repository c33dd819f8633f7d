//! Tests of mappings of buffers by the CPU.

mod entries;
pub mod scripts;
