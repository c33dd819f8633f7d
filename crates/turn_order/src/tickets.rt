ghost use Rattle.std.specs.Prelude.{◌≡◌, ◌<◌, ◌^◌, is_none, length, option_map};
ghost use Rattle.ttm_base.specs.ListWords.{least_by};
ghost use Rattle.turn_order.specs.Tickets.{comes_after, least_with, older, stamp_in, ticketed_in, ticketed_of, tickets_after};

use journal_model::{Courses, Script};
use ttm_base::Stamp;

/// A thread with its ticket.
#[derive(Clone, Copy)]
pub(crate) struct Ticket {
    /// The number of the thread.
    pub thread: u32,
    /// The stamp of its ticket.
    pub stamp: Stamp,
}

/// Returns the stamp of the ticket of the thread numbered `thread`, if it has one.
fn stamp_of(courses: &Courses, thread: u32) -> Option<Stamp>
    ensures { result ≡ stamp_in courses.now thread }
{
    if thread == 0 {
        return None;
    }
    match courses.items().get(thread as usize - 1) {
        Some(course) => course.stamp,
        None => None,
    }
}

/// Returns whether the thread numbered `thread` has no ticket.
pub(crate) fn has_no_ticket(courses: &Courses, thread: u32) -> bool
    ensures { result ≡ is_none (stamp_in courses.now thread) }
{
    stamp_of(courses, thread).is_none()
}

/// Returns the thread numbered `thread` with its ticket, if it has one.
fn ticket_of(courses: &Courses, thread: u32) -> Option<Ticket>
    ensures { option_map ticketed_of result ≡ ticketed_in courses.now thread }
{
    match stamp_of(courses, thread) {
        Some(stamp) => Some(Ticket { thread, stamp }),
        None => None,
    }
}

impl Ticket {
    /// Returns whether the ticket comes after `last`: it is younger, or as old and of a higher thread. Each comes after none.
    fn comes_after(self, last: Option<Ticket>) -> bool
        ensures { result ≡ comes_after (option_map ticketed_of last) (ticketed_of self) }
    {
        match last {
            Some(last) => {
                last.stamp.0 < self.stamp.0
                    || last.stamp.0 == self.stamp.0 && last.thread < self.thread
            }
            None => true,
        }
    }

    /// Returns the older of the ticket and `least`, if there is one: `least` if both are as old.
    fn older(self, least: Option<Ticket>) -> Ticket
        ensures { ticketed_of result ≡ older (option_map ticketed_of least) (ticketed_of self) }
    {
        match least {
            Some(least) => {
                if self.stamp.0 < least.stamp.0 {
                    self
                } else {
                    least
                }
            }
            None => self,
        }
    }
}

/// Returns the older of `least` and `ticket`, if there is one and it comes after `last`; else `least`.
fn least_of(least: Option<Ticket>, ticket: Option<Ticket>, last: Option<Ticket>) -> Option<Ticket>
    ensures { option_map ticketed_of result ≡ least_with (option_map ticketed_of last) (option_map ticketed_of least) (option_map ticketed_of ticket) }
{
    match ticket {
        Some(ticket) => {
            if ticket.comes_after(last) {
                Some(ticket.older(least))
            } else {
                least
            }
        }
        None => least,
    }
}

/// Returns the oldest ticket that comes after `last`, of two as old that of the lower thread, or `None` if none comes after it.
pub(crate) fn ticket_after(
    script: &Script,
    courses: &Courses,
    last: Option<Ticket>,
) -> Option<Ticket>
    requires { length script.now.threads < 2 ^ 32 }
    ensures { option_map ticketed_of result ≡ least_by (λ t. t.stamp) (tickets_after script.now courses.now (option_map ticketed_of last)) }
{
    let with_course = script.threads.len().min(courses.len());
    let mut least = None;
    for i in 0..with_course {
        let ticket = ticket_of(courses, i as u32 + 1);
        least = least_of(least, ticket, last);
    }
    least
}
