//! The order in which the simulator asks actors for an entry, where no schedule line says whose turn it is: one actor after the other, without
//! a list of them and without memory.
#![tactic(auto)]

ghost use Rattle.std.specs.Prelude.{◌≡◌, ◌∷◌, ◌<◌, ◌^◌, [], IfNone, IfSome, length};
ghost use Rattle.journal_model.specs.declared.script.Script.{Script};
ghost use Rattle.journal_model.specs.declared.state.State.{State};
ghost use Rattle.journal_model.specs.statements.Scheduled.{own_order};
ghost use Rattle.turn_order.specs.Left.{left};

mod asked;
mod tickets;

use crate::asked::{Asked, asked_after};
use journal_model::{Courses, Script};
use ttm_base::Actor;

/// A walk over the actors: the reaper, the engines by number, the threads with a ticket from the oldest ticket on, and then the other
/// threads by number. It knows who was asked last; the courses of the threads are to stay the same meanwhile.
#[derive(Clone, Copy)]
pub struct TurnOrder {
    /// The actor that was asked last, if any was.
    last: Option<Asked>,
}

impl TurnOrder {
    /// Returns a walk in which nobody was asked yet.
    pub fn new() -> TurnOrder
        ensures { (script : Script) (s : State) → left script s.courses result ≡ own_order script s }
    {
        TurnOrder { last: None }
    }

    /// Returns the actor that is asked next, by the engines and threads of `script` and the tickets in `courses`, or `None` if all were
    /// asked. Takes as many steps as there are threads.
    pub fn next(&mut self, script: &Script, courses: &Courses) -> Option<Actor>
        requires { length script.now.threads < 2 ^ 32 }
        ensures some { IfSome result (λ who. left script.now courses.now self.old ≡ who ∷ left script.now courses.now self.new) }
        ensures none { IfNone result (left script.now courses.now self.old ≡ []) }
        ensures end { IfNone result (self.new ≡ self.old) }
    {
        let next = asked_after(script, courses, self.last)?;
        self.last = Some(next);
        Some(next.actor())
    }
}
