//! The search for pages, by plain lists: the first choice among places, victims, dry places, and the steps by which a buffer gets and
//! gives back its pages. Each function is named after its definition and gives what the definition says.
#![tactic(auto)]

mod dry;
mod pages;
mod room;
mod search;

use journal_model::Kind;
pub use pages::{
    Swap, next_ghost, next_job, once_idle, step_of_empty, step_of_fill, step_of_give_back,
    step_of_move, swap_out,
};
pub use room::has_room;
pub use search::step_of_place_search;
use ttm_base::Need;

/// The next entry, or what its actor needs first.
pub type Step = Result<Kind, Need>;
