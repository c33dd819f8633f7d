//! What a thread has to do next for a victim, and for a buffer that isn't in place, by where the buffer stands.
ghost use Rattle.std.specs.Prelude.{◌≡◌};
ghost use Rattle.ttm_base.specs.ListWords.{last_of};
ghost use Rattle.journal_model.specs.rules.Tasks as words;

use crate::ready::has_some_target;
use crate::standing::Standing;
use journal_model::{Command, Course, Reservation, SearchAim, Task, Victim, Why};
use place_list::spans::same_mem;
use ttm_base::{BufId, Deny, Mem};

/// Returns whether `command` is at its first step. New and touch take no ticket; each other command begins with one.
pub fn starts(course: &Course, command: &Command) -> bool
    ensures { result ≡ words.starts course.now command.now }
{
    match command {
        Command::New { .. } | Command::Touch { .. } => true,
        _ => course.stamp.is_none(),
    }
}

/// Returns the last of the victims `caught`.
#[tactic(auto, using(crate::proofs::LastLaws::last_of_at))]
pub fn last_caught(caught: &[Victim]) -> Option<Victim>
    ensures { result ≡ last_of caught.now }
{
    caught.last().copied()
}

/// Returns the task `next`, or that of filling buffer `b` first, which is `standing`, where a page has no frame.
fn filled_then<S: Standing>(next: Task, b: BufId, standing: &S) -> Task
    ensures { result ≡ words.filled_then next b (S.body standing.now) }
{
    if standing.has_all_frames() {
        next
    } else {
        Task::Fill(b)
    }
}

/// Returns whether something that a search took for the buffer `standing` can be given back.
pub fn gives_back<S: Standing>(standing: &S) -> bool
    ensures { result ≡ words.gives_back (S.body standing.now) }
{
    (same_mem(standing.mem(), Mem::Vram) && standing.has_frame()) || has_some_target(standing)
}

/// Returns the task for a victim that is to leave VRAM: it goes through TT, or, where its search has failed, gives back what the search took and
/// is skipped.
fn task_in_vram<S: Standing>(victim: Victim, standing: &S) -> Task
    ensures { result ≡ words.task_in_vram victim (S.body standing.now) }
{
    let b = victim.b;
    if victim.fail.is_some() {
        if gives_back(standing) {
            Task::GiveBack(b)
        } else {
            Task::Skip(b)
        }
    } else if standing.has_target(Mem::Tt) {
        filled_then(Task::Move { b, mem: Mem::Tt }, b, standing)
    } else {
        Task::Search {
            b,
            aim: SearchAim::Hop,
        }
    }
}

/// Returns the task for the last victim that was caught, which is `standing`.
pub fn task_of_victim<S: Standing>(victim: Victim, standing: &S) -> Task
    ensures { result ≡ words.task_of_victim victim (S.body standing.now) }
{
    if standing.has_target(Mem::System) {
        return Task::Unbind(victim.b);
    }
    match victim.why {
        Why::Tt | Why::Swap => Task::Empty(victim.b),
        Why::Vram => {
            if same_mem(standing.mem(), Mem::Vram) {
                task_in_vram(victim, standing)
            } else {
                Task::Empty(victim.b)
            }
        }
    }
}

/// Returns how buffer `b`, which is `standing` and has targets, goes on, by where it stands.
fn carried<S: Standing>(b: BufId, standing: &S) -> Task
    ensures { result ≡ words.carried (S.body standing.now).mem b (S.body standing.now) }
{
    match standing.mem() {
        Mem::System => {
            if standing.has_target(Mem::Tt) {
                filled_then(Task::Bind(b), b, standing)
            } else {
                Task::Search {
                    b,
                    aim: SearchAim::Hop,
                }
            }
        }
        Mem::Tt => {
            if standing.has_target(Mem::System) || standing.has_target(Mem::Tt) {
                Task::Unbind(b)
            } else {
                Task::Move { b, mem: Mem::Vram }
            }
        }
        Mem::Vram => {
            if standing.has_target(Mem::Vram) {
                Task::Move { b, mem: Mem::Vram }
            } else if standing.has_target(Mem::Tt) {
                filled_then(Task::Move { b, mem: Mem::Tt }, b, standing)
            } else {
                Task::Search {
                    b,
                    aim: SearchAim::Hop,
                }
            }
        }
    }
}

/// Returns the task for buffer `b`, which is `standing`, has this `reservation`, and isn't in place.
pub fn task_of_misplaced<S: Standing>(b: BufId, reservation: Reservation, standing: &S) -> Task
    ensures { result ≡ words.task_of_misplaced b reservation (S.body standing.now) }
{
    if reservation.pins > 0 {
        Task::Refuse(Deny::Pinned)
    } else if has_some_target(standing) {
        carried(b, standing)
    } else {
        Task::Search {
            b,
            aim: SearchAim::Asked,
        }
    }
}
