//! The owners of the pages of a memory type (ttm_resource_manager): live buffers, targets of moves that aren't done, and
//! ghosts.
#![tactic(auto)]

mod buddy;
mod holding;
mod holdings;
mod manager;
mod range;
mod room;
mod vram;

pub use buddy::BuddyRoom;
pub use holding::{Holding, OwnerKind};
pub use manager::{Lengths, Manager, TakeFault};
pub use range::RangeRoom;
pub use room::{Room, SpanManager};
pub use vram::{PagesKind, VramRoom};
