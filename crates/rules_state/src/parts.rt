//! The parts of a plain state that entries change: buffers, the reservations on them, the courses of threads, and the lists of buffers
//! in eviction order, by memory type and priority (ttm_resource_manager's lru, ttm_lru_bulk_move).
pub mod actors;
pub mod buffers;
pub mod lists;
pub mod reservations;

pub use state_words::courses;
