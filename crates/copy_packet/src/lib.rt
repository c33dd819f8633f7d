//! Packets: operations are cut into packets at page borders, and each packet is run on the stores of VRAM and of frames.
#![tactic(auto)]

mod cutting;
mod places;
mod probe;
mod running;
mod stores;

pub use cutting::cut;
pub use places::{PagePlaces, PlaceMap, PlaceRow};
pub use probe::ProbeBytes;
pub use running::{run, show};
pub use stores::Stores;
