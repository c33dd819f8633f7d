//! What mappings of buffers by the CPU know, entry by entry of a journal.
#![tactic(auto)]

mod follow;
mod found;

ghost use Rattle.map_follow.specs.Laws.{EntriesAreFollowed, NewAreasFollow};

pub use follow::{end_mappings, fault_in, leave};
pub use found::{Found, answerer, found_by};

/// States that areas that follow a legal journal follow it by one more entry.
pub fn entries_are_followed()
    ensures { EntriesAreFollowed }
{}

/// States that the areas of a script follow a journal without an entry.
pub fn new_areas_follow()
    ensures { NewAreasFollow }
{}
