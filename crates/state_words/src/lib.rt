//! What a script says of buffers, commands and places, what a thread has to do next for one buffer, and how the state of a thread
//! changes, as code: the functions that the plain rules and the rooms have in common. Each function is named after its definition and
//! returns what the definition says.
#![tactic(auto)]

mod buffers;
mod commands;
pub mod courses;
mod placement;
mod places;
mod ready;
mod standing;
mod steps;
pub mod tasks;
mod uses;
mod victims;

pub use buffers::{first_courses, new_course, set_target, target_of};
pub use commands::{
    as_fallback, commands_of, declared_align, declared_group, declared_pages, declared_places,
    declared_prio, named, named_in, ops_of, unflagged, whole, writes,
};
pub use courses::is_caught;
pub use journal_model::{has_buffer, same_buffer};
pub use place_list::places::compatible;
pub use place_list::spans::{intersects, length_of, same_mem};
pub use placement::{reach_of, size_of};
pub use places::{
    copy_of_page, drop_frames, frame_of, is_frame, name_in_spans, page_at, page_of_spans, slot_of,
};
pub use ready::{has_some_target, is_filled, is_in_place};
pub use standing::Standing;
pub use steps::{filled_by, target_to_untake, unless_waiting};
pub use uses::{is_written, use_of};
pub use victims::{cause_of, is_long_enough, is_loose, why_of};
