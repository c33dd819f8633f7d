ghost use Rattle.std.specs.Prelude.{◌≡◌, slice_get};
ghost use Rattle.std.specs.Option.{option_copied};
ghost use Rattle.journal_model.specs.rules.Commands as commands;
ghost use Rattle.journal_model.specs.rules.Legal.{state_of};
ghost use Rattle.journal_model.specs.rules.Ready as ready;
ghost use Rattle.journal_model.specs.rules.State.{buffer};
ghost use Rattle.journal_model.specs.rules.Tasks as words;
ghost use Rattle.room_representation.specs.Held.{AreHeld};
ghost use Rattle.room_representation.specs.steps.Courses.{course_at};

use crate::task_finding::ready::unready;
use crate::task_finding::standing::live;
use crate::task_finding::tasks::{refusal, task_of_command};
use journal_model::{Command, Course, Courses, Entry, Script, Task};
use room_representation::Parts;
use state_words::{commands_of, tasks};
use ttm_base::{BufId, Deny};

/// Returns the course of `thread`, or None where there is no such thread. Threads are numbered from 1.
fn course_of(courses: &Courses, thread: u32) -> Option<&Course>
    ensures { option_copied result ≡ course_at courses.now thread }
{
    if thread == 0 {
        None
    } else {
        courses.items().get(thread as usize - 1)
    }
}

/// Returns the command that `thread` is at, or None where none is left.
fn command_of<'a>(script: &'a Script, course: &Course, thread: u32) -> Option<&'a Command>
    ensures { option_copied result ≡ slice_get (commands.commands_of script.now thread) course.now.answered }
{
    commands_of(script, thread).get(course.answered as usize)
}

/// Returns the first buffer named by `command` that isn't ready: the one at work. Takes time by the spans and places of each buffer that it
/// names.
pub fn first_unready(
    parts: &Parts,
    script: &Script,
    before: &[Entry],
    command: &Command,
) -> Option<BufId>
    requires { AreHeld script.now before.now parts.now }
    ensures { result ≡ ready.first_unready script.now (state_of script.now before.now) command.now }
{
    unready(script, &parts.bos, command)
}

/// Returns why `command` must be refused for the pins of its buffer, if it must. Takes constant time.
pub fn forbidden(
    parts: &Parts,
    script: &Script,
    before: &[Entry],
    command: &Command,
) -> Option<Deny>
    requires { AreHeld script.now before.now parts.now }
    ensures { result ≡ words.forbidden (state_of script.now before.now) command.now }
{
    refusal(&parts.bos, command)
}

/// Returns whether something that a search took for buffer `b` can be given back. Takes constant time.
pub fn gives_back(parts: &Parts, script: &Script, before: &[Entry], b: BufId) -> bool
    requires { AreHeld script.now before.now parts.now }
    ensures { result ≡ words.gives_back (buffer (state_of script.now before.now) b) }
{
    tasks::gives_back(&live(&parts.bos, b))
}

/// Returns what `thread` has to do next, which is nothing where there is no such thread. Takes time by the buffers that it
/// holds, and by the spans and places of each buffer that its command names.
pub fn task_of(parts: &Parts, script: &Script, before: &[Entry], thread: u32) -> Task
    requires { AreHeld script.now before.now parts.now }
    ensures { result ≡ words.task_of script.now (state_of script.now before.now) thread }
{
    let Some(course) = course_of(&parts.courses, thread) else {
        return Task::Idle;
    };
    match command_of(script, course, thread) {
        Some(command) => task_of_command(script, &parts.bos, course, command),
        None => Task::Idle,
    }
}
