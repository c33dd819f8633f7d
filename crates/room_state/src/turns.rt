//! The turn of an actor on the rooms: its next entry, or what it needs first.
mod buffer_searches;
mod walk;

ghost use Rattle.std.specs.Prelude.{◌≡◌, Ok, IfOk, OnOk, OnErr};
ghost use Rattle.room_state.specs.turns.Turns.{entry_by, entry_of, step_by, step_of, after_step};

pub use crate::Rooms;
pub use buffer_searches::{
    BufferSearch, SearchPlaces, buffer_search_at_work, buffer_search_for, place_at, place_at_work,
    place_count,
};
use journal_model::{Entry, Kind};
use ttm_base::{Actor, Need, NoMemory};
pub use walk::{BufferTest, first_passing};

/// The answer to an actor's turn.
#[derive(Clone, Copy)]
pub enum Step {
    /// The actor's next entry was made.
    Made,
    /// What the actor needs first, where it has no entry yet; nothing is changed.
    Need(Need),
}

/// Makes the entry of `kind`, which is the next one of the actor `who`.
///
/// # Errors
///
/// Lack of memory; nothing is changed.
pub fn make(rooms: &mut Rooms, who: Actor, kind: Kind) -> Result<Step, NoMemory>
    requires { entry_of rooms.old who ≡ Ok (record { who = who; kind = kind }) }
    ensures step { IfOk result (λ step. step ≡ step_of (entry_of rooms.old who)) }
    ensures made { OnOk result (rooms.new ≡ after_step rooms.old (entry_of rooms.old who)) }
    ensures err { OnErr result (rooms.new ≡ rooms.old) }
{
    rooms.append(Entry { who, kind })?;
    Ok(Step::Made)
}

/// Makes the entry of the kind that `next` has, which is the next one of the actor `who`. Where `next` is a need, returns it, and changes nothing.
///
/// # Errors
///
/// Lack of memory; nothing is changed.
pub fn turn(rooms: &mut Rooms, who: Actor, next: Result<Kind, Need>) -> Result<Step, NoMemory>
    requires { entry_of rooms.old who ≡ entry_by who next }
    ensures step { IfOk result (λ step. step ≡ step_of (entry_of rooms.old who)) }
    ensures told { IfOk result (λ step. step ≡ step_by next) }
    ensures made { OnOk result (rooms.new ≡ after_step rooms.old (entry_of rooms.old who)) }
    ensures err { OnErr result (rooms.new ≡ rooms.old) }
{
    match next {
        Ok(kind) => make(rooms, who, kind),
        Err(need) => Ok(Step::Need(need)),
    }
}
