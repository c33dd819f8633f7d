//! The words on the state of a memory manager, as code: what a buffer, a command and a place are to each other in a state.
//! Each function is named after its definition and gives what the definition says.
#![tactic(auto)]

mod buffers;
mod commands;
mod lists;
pub mod parts;
mod place_searches;
mod places;

pub use buffers::{
    buffer_in, course_of, dead_buffer, is_live, live_in, new_buffer, no_reservation,
    reservation_in, target_spans, without_buffer,
};
pub use commands::{asked_places, command_at_work};
pub use lists::{in_order, is_mate, is_member, list_number, same_group};
pub use place_list::places::{compatible, forced_at, forced_count, is_first};
pub use place_list::spans::{intersects, length_of, same_mem};
pub use place_searches::{PlaceSearch, place_search_at_work, place_search_for};
pub use places::{frames_of, loc_of, packet_place};
pub use state_words::{
    Standing, as_fallback, cause_of, commands_of, declared_align, declared_group, declared_pages,
    declared_places, declared_prio, filled_by, frame_of, has_buffer, has_some_target, is_caught,
    is_frame, is_long_enough, is_loose, name_in_spans, named, new_course, ops_of, page_at,
    page_of_spans, reach_of, same_buffer, size_of, slot_of, target_of, target_to_untake, unflagged,
    unless_waiting, whole, why_of, writes,
};
