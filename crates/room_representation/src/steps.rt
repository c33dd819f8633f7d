//! What the kinds of entries share: how one changes a thread's course, the reservations of buffers, and the order of their use; and, in proofs/,
//! what stays represented where an entry changes only one part.
mod courses;
mod lists;
mod reservations;

pub use courses::{
    add_victim, begin_anew, command_of, end_search, fail_search, forget_victim, give_ticket,
    go_dry, go_on, has_made, held_by, hold, skip_victim, stamp_of,
};
pub use lists::touch;
pub use reservations::{hold_for, release_all};
