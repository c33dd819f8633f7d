//! The range manager and the buddy manager for C, after handles.
#![tactic(auto)]

mod block_calls;
mod block_handle;
mod blocks;
mod page_span;
mod parts;
mod range_calls;
mod range_handle;
mod ranges;
mod span_calls;
mod status;
mod values;
mod version_call;
