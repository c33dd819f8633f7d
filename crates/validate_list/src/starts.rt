ghost use Rattle.std.specs.Prelude.{◌≡◌, Ok, IfOk, OnOk, OnErr};
ghost use Rattle.ttm_base.specs.declared.Actor.TheVariants as actor;
ghost use Rattle.journal_model.specs.declared.state.Stage.TheVariants as stage;
ghost use Rattle.journal_model.specs.rules.Next as words;
ghost use Rattle.journal_model.specs.rules.Tasks.{task_of, stage_of};
ghost use Rattle.room_state.specs.turns.Turns.{state_behind};
ghost use Rattle.room_state.specs.declared.turns.Step.TheVariants as answer;
ghost use Rattle.room_state.specs.turns.Turns.{after_step, entry_of, step_of};

use crate::buffers::is_live;
use journal_model::{Command, Kind};
use room_state::turns::{Rooms, Step, make};
use ttm_base::{Actor, Deny, NoMemory};

/// Returns the first step of `command`.
fn kind_of_start(rooms: &Rooms, command: &Command) -> Kind
    ensures { words.step_of_start (state_behind rooms.now) command.now ≡ Ok result }
{
    match command {
        Command::New { b } if is_live(rooms, *b) => Kind::Refused { deny: Deny::Exists },
        Command::New { b } => Kind::New { b: *b },
        Command::Touch { group } => Kind::Bulk { group: *group },
        _ => Kind::Ticket {
            s: rooms.next_stamp(),
        },
    }
}

/// Begins a command, in the stage Start: with a ticket, or `new` and `touch` with all that they do. A `new` of a live buffer is refused.
///
/// # Errors
///
/// Lack of memory; nothing is changed.
pub fn start(rooms: &mut Rooms, thread: u32) -> Result<Step, NoMemory>
    requires { stage_of (task_of rooms.old.script (state_behind rooms.old) thread) ≡ stage.Start }
    ensures step { IfOk result (λ step. step ≡ step_of (entry_of rooms.old (actor.Thread thread))) }
    ensures always { IfOk result (λ step. step ≡ answer.Made) }
    ensures made { OnOk result (rooms.new ≡ after_step rooms.old (entry_of rooms.old (actor.Thread thread))) }
    ensures err { OnErr result (rooms.new ≡ rooms.old) }
{
    let Some(command) = rooms.command(thread) else {
        unreachable!()
    };
    let kind = kind_of_start(rooms, command);
    make(rooms, Actor::Thread(thread), kind)
}
