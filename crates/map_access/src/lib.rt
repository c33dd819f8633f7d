//! Peeks and pokes: which entries are their results, the pages that they meet, and the mappings through which they go.
#![tactic(auto)]

mod access;
mod search;
mod standing;

pub use access::{Access, access_in, has_mapping, is_by_thread, mapped_from};
pub use search::MarkSearch;
pub use standing::Standing;
