ghost use Rattle.std.specs.Prelude.{◌≡◌};
ghost use Rattle.journal_model.specs.rules.Tasks as words;
ghost use Rattle.room_state.specs.task_finding.Seen.{seen, HasReservations};

use crate::task_finding::mentions::first_missing;
use crate::task_finding::ready::unready;
use crate::task_finding::standing::{live, reservation};
use bo_table::BoTable;
use journal_model::{Command, Course, Script, Stage, Task};
use state_words::is_in_place;
use state_words::tasks::{gives_back, last_caught, starts, task_of_misplaced, task_of_victim};
use ttm_base::{BufId, Deny};

/// Returns why `command` must be refused for the pins of its buffer, if it must.
pub(crate) fn refusal(bos: &BoTable, command: &Command) -> Option<Deny>
    requires { HasReservations bos.now }
    ensures { result ≡ words.forbidden (seen bos.now) command.now }
{
    match command {
        Command::Pin { b } if reservation(bos, *b).pins == 255 => Some(Deny::PinMax),
        Command::Unpin { b } if reservation(bos, *b).pins == 0 => Some(Deny::NotPinned),
        Command::Free { b } if reservation(bos, *b).pins > 0 => Some(Deny::Pinned),
        Command::SwapOut { b } if reservation(bos, *b).pins > 0 => Some(Deny::Pinned),
        _ => None,
    }
}

/// Returns what to do after a search failed: the buffer at work gives back what it took, and the command is refused.
fn task_of_failed(script: &Script, bos: &BoTable, command: &Command, deny: Deny) -> Task
    requires { HasReservations bos.now }
    ensures { result ≡ words.task_of_failed script.now (seen bos.now) command.now deny }
{
    match unready(script, bos, command) {
        Some(b) if gives_back(&live(bos, b)) => Task::GiveBack(b),
        _ => Task::GiveUp(deny),
    }
}

/// Returns what to do with the named buffer `b`, which isn't ready.
fn task_of_unready(script: &Script, bos: &BoTable, command: &Command, b: BufId) -> Task
    requires { HasReservations bos.now }
    ensures { result ≡ words.task_of_unready script.now (seen bos.now) command.now b }
{
    let bo = live(bos, b);
    if is_in_place(script, command, b, &bo) {
        Task::Fill(b)
    } else {
        task_of_misplaced(b, reservation(bos, b), &bo)
    }
}

/// Returns what is left to do once each buffer is held and no victim is caught.
fn task_of_held(script: &Script, bos: &BoTable, course: &Course, command: &Command) -> Task
    requires { HasReservations bos.now }
    ensures { result ≡ words.task_of_held script.now (seen bos.now) course.now command.now }
{
    if let Some(deny) = refusal(bos, command) {
        return Task::Refuse(deny);
    }
    if let Some(deny) = course.fail {
        return task_of_failed(script, bos, command, deny);
    }
    match unready(script, bos, command) {
        Some(b) => task_of_unready(script, bos, command, b),
        None => Task::Act,
    }
}

/// Returns what the thread has to do next for `command`, by the rules in their order.
pub(crate) fn task_of_command(
    script: &Script,
    bos: &BoTable,
    course: &Course,
    command: &Command,
) -> Task
    requires { HasReservations bos.now }
    ensures { result ≡ words.task_of_command script.now (seen bos.now) course.now command.now }
{
    if course.made {
        return Task::Answer;
    }
    if starts(course, command) {
        return Task::Start;
    }
    if let Some(b) = first_missing(course, command) {
        return Task::Lock(b);
    }
    match last_caught(course.caught.items()) {
        Some(victim) => task_of_victim(victim, &live(bos, victim.b)),
        None => task_of_held(script, bos, course, command),
    }
}

/// Returns the group of rules to which `task` belongs.
pub fn stage_of(task: Task) -> Stage
    ensures { result ≡ words.stage_of task }
{
    match task {
        Task::Idle => Stage::Idle,
        Task::Start => Stage::Start,
        Task::Lock(_) => Stage::Lock,
        Task::Search { .. } => Stage::Search,
        Task::Bind(_) | Task::Unbind(_) | Task::Move { .. } => Stage::Carry,
        Task::Fill(_) => Stage::Fill,
        Task::Empty(_) => Stage::Empty,
        Task::GiveBack(_) | Task::Skip(_) | Task::GiveUp(_) => Stage::Fail,
        Task::Answer | Task::Refuse(_) | Task::Act => Stage::Act,
    }
}
