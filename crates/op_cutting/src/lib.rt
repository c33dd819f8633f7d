//! Cuts operations into packets at the page borders of their buffers, however packets name pages.
#![tactic(auto)]

mod lists;
mod packets;
mod pieces;

pub use lists::PacketList;
pub use packets::{PageNames, cut};
pub use pieces::packet_count;
