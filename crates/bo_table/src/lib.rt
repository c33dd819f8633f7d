//! Buffers by their declared number: where each one stands, how it is held, and the jobs that use it (ttm_buffer_object).
#![tactic(auto)]

mod bo;
mod page_table;
mod table;

pub use bo::Bo;
pub use page_table::PageTable;
pub use table::BoTable;
