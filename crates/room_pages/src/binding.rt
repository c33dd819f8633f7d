//! What the entries that carry a buffer between SYSTEM and TT do to the parts of the device, and how pages of TT are mapped, cleared and given back; and
//! what entries that move or free a buffer share with them.
mod apertures;
mod binds;
mod frames;
mod owners;

pub use apertures::{clear_pages, give_mapped, map_pages, map_target};
pub use binds::{bind, relist, unbind};
pub use frames::frames_in;
pub use owners::{give_back, pass_on};
