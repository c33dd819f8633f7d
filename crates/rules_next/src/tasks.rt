ghost use Rattle.std.specs.Prelude.{◌≡◌, find, not};
ghost use Rattle.journal_model.specs.rules.State.{new_buffer, has_buffer};
ghost use Rattle.journal_model.specs.rules.Tasks as words;

use crate::ready::first_unready;
use journal_model::{Buffer, Command, Course, Script, State, Task};
use rules_state::{buffer_in, dead_buffer, has_buffer, named, reservation_in};
use state_words::is_in_place;
use state_words::tasks::{gives_back, last_caught, starts, task_of_misplaced, task_of_victim};
use std::alloc::Global;
use ttm_base::limits::MAX_PINS;
use ttm_base::{BufId, Deny};

/// Returns the first buffer of `bs` that isn't among `held`.
fn first_unheld(held: &[BufId], bs: &[BufId]) -> Option<BufId>
    ensures { result ≡ find (λ b. not (has_buffer held.now b)) bs.now }
{
    bs.iter().copied().find(|b| !has_buffer(held, *b))
}

/// Returns the next buffer to reserve: that of the last backoff first, then the named ones. `None` if all are held.
pub fn first_missing(course: &Course, command: &Command) -> Option<BufId>
    ensures { result ≡ words.first_missing course.now command.now }
{
    let held = course.held.items();
    match course.first {
        Some(b) if !has_buffer(held, b) => Some(b),
        _ => first_unheld(held, named(command)),
    }
}

/// Returns why `command` is denied for the pins of its buffer, or `None` if it isn't.
pub fn forbidden(state: &State, command: &Command) -> Option<Deny>
    ensures { result ≡ words.forbidden state.now command.now }
{
    let reservations = state.reservations.items();
    match command {
        Command::Pin { b } if reservation_in(reservations, *b).pins == MAX_PINS => Some(
            Deny::PinMax,
        ),
        Command::Unpin { b } if reservation_in(reservations, *b).pins == 0 => Some(Deny::NotPinned),
        Command::Free { b } if reservation_in(reservations, *b).pins > 0 => Some(Deny::Pinned),
        Command::SwapOut { b } if reservation_in(reservations, *b).pins > 0 => Some(Deny::Pinned),
        _ => None,
    }
}

/// Returns the task after a search failed: the buffer at work gives back what it took, and the command is refused with `deny`.
fn task_of_failed(
    alloc: Global,
    script: &Script,
    state: &State,
    command: &Command,
    deny: Deny,
) -> Task
    ensures { result ≡ words.task_of_failed script.now state.now command.now deny }
{
    let dead = dead_buffer(alloc);
    match first_unready(script, state, command, &dead) {
        Some(b) if gives_back(buffer_in(&state.core, b, &dead)) => Task::GiveBack(b),
        _ => Task::GiveUp(deny),
    }
}

/// Returns the task for the named buffer at work. `dead`, the buffer without pages, stands for one that isn't live.
fn task_of_unready(
    script: &Script,
    state: &State,
    command: &Command,
    b: BufId,
    dead: &Buffer,
) -> Task
    requires { dead.now ≡ new_buffer 0 }
    ensures { result ≡ words.task_of_unready script.now state.now command.now b }
{
    let buffer = buffer_in(&state.core, b, dead);
    if is_in_place(script, command, b, buffer) {
        Task::Fill(b)
    } else {
        task_of_misplaced(b, reservation_in(state.reservations.items(), b), buffer)
    }
}

/// Returns what is left to do once each buffer is held and no victim is caught.
fn task_of_held(
    alloc: Global,
    script: &Script,
    state: &State,
    course: &Course,
    command: &Command,
) -> Task
    ensures { result ≡ words.task_of_held script.now state.now course.now command.now }
{
    if let Some(deny) = forbidden(state, command) {
        return Task::Refuse(deny);
    }
    if let Some(deny) = course.fail {
        return task_of_failed(alloc, script, state, command, deny);
    }
    let dead = dead_buffer(alloc);
    match first_unready(script, state, command, &dead) {
        Some(b) => task_of_unready(script, state, command, b, &dead),
        None => Task::Act,
    }
}

/// Returns the task of `command`: the rules in their order.
pub fn task_of_command(
    alloc: Global,
    script: &Script,
    state: &State,
    course: &Course,
    command: &Command,
) -> Task
    ensures { result ≡ words.task_of_command script.now state.now course.now command.now }
{
    if course.made {
        return Task::Answer;
    }
    if starts(course, command) {
        return Task::Start;
    }
    if let Some(b) = first_missing(course, command) {
        return Task::Lock(b);
    }
    let dead = dead_buffer(alloc);
    match last_caught(course.caught.items()) {
        Some(v) => task_of_victim(v, buffer_in(&state.core, v.b, &dead)),
        None => task_of_held(alloc, script, state, course, command),
    }
}
