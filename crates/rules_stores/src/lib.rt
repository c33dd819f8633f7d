//! The bytes of VRAM, of frames and of swap slots, as plain lists: what an entry does to them, and what it shows of them.
#![tactic(auto)]

mod entries;
mod page_store;
mod pages;
mod parts;
mod shown;
mod stores;

pub use entries::{can_store, put_write};
pub use pages::StorePage;
pub use stores::PlainStores;
