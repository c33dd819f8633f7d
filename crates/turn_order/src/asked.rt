ghost use Rattle.std.specs.Prelude.{◌≡◌, ◌+◌, ◌<◌, ◌^◌, length, option_map};
ghost use Rattle.turn_order.specs.Tickets.{ticketed_of};
ghost use Rattle.turn_order.specs.Left.{Begins, actor_of, left_after, left_to_ask, others_from, threads_after};

use crate::tickets::{Ticket, has_no_ticket, ticket_after};
use journal_model::{Courses, Script};
use ttm_base::Actor;

/// An actor that was asked.
#[derive(Clone, Copy)]
pub(crate) enum Asked {
    Reaper,
    /// An engine, by its number.
    Engine(u32),
    /// A thread with its ticket.
    Ticketed(Ticket),
    /// A thread without a ticket, by its number.
    Unticketed(u32),
}

impl Asked {
    /// Returns the actor.
    pub(crate) fn actor(self) -> Actor
        ensures { result ≡ actor_of self }
    {
        match self {
            Asked::Reaper => Actor::Reaper,
            Asked::Engine(e) => Actor::Engine(e),
            Asked::Ticketed(ticket) => Actor::Thread(ticket.thread),
            Asked::Unticketed(thread) => Actor::Thread(thread),
        }
    }
}

/// Returns the first thread without a ticket above the thread numbered `last`, or `None` if there is none.
fn other_after(script: &Script, courses: &Courses, last: u32) -> Option<Asked>
    requires { length script.now.threads < 2 ^ 32 }
    ensures { Begins script.now courses.now (others_from script.now courses.now (last + 1)) result }
{
    for i in last as usize..script.threads.len() {
        let thread = i as u32 + 1;
        if has_no_ticket(courses, thread) {
            return Some(Asked::Unticketed(thread));
        }
    }
    None
}

/// Returns the thread of the oldest ticket that comes after `last`, or else the first thread without a ticket. `None` if neither is left.
fn thread_after(script: &Script, courses: &Courses, last: Option<Ticket>) -> Option<Asked>
    requires { length script.now.threads < 2 ^ 32 }
    ensures { Begins script.now courses.now (threads_after script.now courses.now (option_map ticketed_of last)) result }
{
    match ticket_after(script, courses, last) {
        Some(ticket) => Some(Asked::Ticketed(ticket)),
        None => other_after(script, courses, 0),
    }
}

impl Asked {
    /// Returns who is asked after this actor, or `None` if it is the last.
    fn next(self, script: &Script, courses: &Courses) -> Option<Asked>
        requires { length script.now.threads < 2 ^ 32 }
        ensures { Begins script.now courses.now (left_after script.now courses.now self) result }
    {
        let last = match self {
            Asked::Reaper => return Some(Asked::Engine(0)),
            Asked::Engine(e) if e < script.sizes.engines => return Some(Asked::Engine(e + 1)),
            Asked::Engine(_) => None,
            Asked::Ticketed(ticket) => Some(ticket),
            Asked::Unticketed(thread) => return other_after(script, courses, thread),
        };
        thread_after(script, courses, last)
    }
}

/// Returns who is asked after `last`, or who is asked first if nobody was.
pub(crate) fn asked_after(script: &Script, courses: &Courses, last: Option<Asked>) -> Option<Asked>
    requires { length script.now.threads < 2 ^ 32 }
    ensures { Begins script.now courses.now (left_to_ask script.now courses.now last) result }
{
    match last {
        Some(last) => last.next(script, courses),
        None => Some(Asked::Reaper),
    }
}
