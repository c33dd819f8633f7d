ghost use Rattle.std.specs.Prelude.{◌≡◌, find, not};
ghost use Rattle.journal_model.specs.rules.Commands.{named};
ghost use Rattle.journal_model.specs.rules.State as state;
ghost use Rattle.journal_model.specs.rules.Tasks as words;

use journal_model::{Command, Course};
use state_words::{has_buffer, named};
use ttm_base::BufId;

/// Returns the first buffer named by `command` that isn't in `held`. Takes time by the named and the held buffers.
fn first_unheld(held: &[BufId], command: &Command) -> Option<BufId>
    ensures { result ≡ find (λ b. not (state.has_buffer held.now b)) (named command.now) }
{
    named(command)
        .iter()
        .copied()
        .find(|b| !has_buffer(held, *b))
}

/// Returns the next buffer to reserve: that of the last backoff first, then the named ones. None means that the thread holds them all.
pub fn first_missing(course: &Course, command: &Command) -> Option<BufId>
    ensures { result ≡ words.first_missing course.now command.now }
{
    let held = course.held.items();
    match course.first {
        Some(b) if !has_buffer(held, b) => Some(b),
        _ => first_unheld(held, command),
    }
}
