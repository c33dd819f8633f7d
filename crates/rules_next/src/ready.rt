ghost use Rattle.std.specs.Prelude.{◌≡◌};
ghost use Rattle.journal_model.specs.rules.State.{new_buffer};
ghost use Rattle.journal_model.specs.rules.Ready as words;

use journal_model::{Buffer, Command, Script, State};
use rules_state::{buffer_in, named};
use state_words::{is_filled, is_in_place};
use ttm_base::BufId;

/// Returns whether buffer `b` is in place and filled. `dead`, the buffer without pages, stands for one that isn't live.
fn is_ready(script: &Script, state: &State, command: &Command, b: BufId, dead: &Buffer) -> bool
    requires { dead.now ≡ new_buffer 0 }
    ensures { result ≡ words.is_ready script.now state.now command.now b }
{
    let buffer = buffer_in(&state.core, b, dead);
    is_in_place(script, command, b, buffer) && is_filled(command, buffer)
}

/// Returns the named buffer at work: the first that isn't ready, or `None` if each is. `dead`, the buffer without pages, stands for one
/// that isn't live.
pub fn first_unready(
    script: &Script,
    state: &State,
    command: &Command,
    dead: &Buffer,
) -> Option<BufId>
    requires { dead.now ≡ new_buffer 0 }
    ensures { result ≡ words.first_unready script.now state.now command.now }
{
    named(command)
        .iter()
        .copied()
        .find(|b| !is_ready(script, state, command, *b, dead))
}
