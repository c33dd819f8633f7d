ghost use Rattle.std.specs.Prelude.{◌≡◌, IfOk, option_copied};
ghost use Rattle.journal_model.specs.rules.Commands as words;

use crate::buffers::course_of;
use journal_model::{Command, Script, State};
use state_words::{commands_of, declared_places, unflagged, whole};
use std::alloc::Global;
use ttm_base::{BufId, FlaggedPlaces, Mem, NoMemory};

/// Returns the command of `script` that the thread numbered `thread` is at in `state`, or `None` if it is at none.
pub fn command_at_work<'a>(script: &'a Script, state: &State, thread: u32) -> Option<&'a Command>
    ensures { option_copied result ≡ words.command_at_work script.now state.now thread }
{
    match course_of(state, thread) {
        Some(course) => commands_of(script, thread).get(course.answered as usize),
        None => None,
    }
}

/// Returns the places where `command` wants its buffer `b`.
pub fn asked_places(
    alloc: Global,
    script: &Script,
    command: &Command,
    b: BufId,
) -> Result<FlaggedPlaces, NoMemory>
    ensures { IfOk result (λ places. places ≡ words.asked_places script.now command.now b) }
{
    match command {
        Command::Move { mem, .. } => { FlaggedPlaces::from_slice(alloc, &[unflagged(whole(*mem))]) }
        Command::SwapOut { .. } => {
            FlaggedPlaces::from_slice(alloc, &[unflagged(whole(Mem::System))])
        }
        _ => FlaggedPlaces::from_slice(alloc, declared_places(script, b)),
    }
}
