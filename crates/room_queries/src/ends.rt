ghost use Rattle.std.specs.Prelude.{◌≡◌, ◌+◌, ◌&&◌};
ghost use Rattle.std.specs.List.{list_all};
ghost use Rattle.journal_model.specs.statements.Complete.{is_complete, thread_numbers};
ghost use Rattle.room_representation.specs.Held.{AreHeld};
ghost use Rattle.room_queries.specs.Ends.{answered_in, is_empty};

use copy_engine::Rings;
use journal_model::{Courses, Entry, Script};
use room_representation::Parts;

/// Returns whether the thread at place `at` among the threads has answered all its commands.
fn has_answered(courses: &Courses, script: &Script, at: usize) -> bool
    ensures { result ≡ answered_in script.now courses.now (at + 1) }
{
    let answered = match courses.items().get(at) {
        Some(course) => course.answered,
        None => 0,
    };
    let commands = match script.threads.items().get(at) {
        Some(commands) => commands.len(),
        None => 0,
    };
    answered as usize == commands
}

/// Returns whether each thread has answered all its commands.
fn have_answered(courses: &Courses, script: &Script) -> bool
    ensures { result ≡ list_all (answered_in script.now courses.now) (thread_numbers script.now) }
{
    for i in 0..script.threads.len() {
        if !has_answered(courses, script, i) {
            return false;
        }
    }
    true
}

/// Returns whether no ring has a job.
fn are_idle(rings: &Rings) -> bool
    ensures { result ≡ list_all is_empty rings.now }
{
    for ctx in 0..rings.contexts() {
        if rings.head(ctx).is_some() {
            return false;
        }
    }
    true
}

/// Returns whether all three hold.
fn are_all(a: bool, b: bool, c: bool) -> bool
    ensures { result ≡ (a && b && c) }
{
    a && b && c
}

/// Returns whether every command is answered, every job is done and there is no ghost. Takes time by threads and contexts.
pub fn is_over(parts: &Parts, script: &Script, before: &[Entry]) -> bool
    requires { AreHeld script.now before.now parts.now }
    ensures { result ≡ is_complete script.now before.now }
{
    let answered = have_answered(&parts.courses, script);
    let idle = are_idle(&parts.rings);
    let gone = parts.ghosts.len() == 0;
    are_all(answered, idle, gone)
}
