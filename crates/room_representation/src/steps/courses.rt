ghost use Rattle.std.specs.Prelude.{◌≡◌, ◌+◌, ◌^◌, ◌<◌, IsSome, Some, OnOk, OnErr};
ghost use Rattle.journal_model.specs.rules.ApplyCommands as rows;
ghost use Rattle.journal_model.specs.rules.ApplyPages.{search_over};
ghost use Rattle.journal_model.specs.rules.ApplyVictims.{with_victim, with_skip, no_longer_caught, with_fail, gone_dry};
ghost use Rattle.room_representation.specs.steps.Courses.{command_in, course_at, course_in, with_course_by, stamped, with_held, begun_anew};

use journal_model::{Command, Courses, Script, Why};
use state_words::{commands_of, courses, new_course};
use std::alloc::Global;
use ttm_base::{BufId, Deny, NoMemory, Stamp};

/// Returns the ticket of `thread`, or None where it has none.
pub fn stamp_of(courses: &Courses, thread: u32) -> Option<Stamp>
    requires { IsSome (course_at courses.now thread) }
    ensures { result ≡ (course_in courses.now thread).stamp }
{
    courses.get(thread as usize - 1).stamp
}

/// Returns the command that `thread` is at.
pub fn command_of<'a>(script: &'a Script, courses: &Courses, thread: u32) -> &'a Command
    requires there { IsSome (course_at courses.now thread) }
    requires left { IsSome (command_in script.now courses.now thread) }
    ensures { command_in script.now courses.now thread ≡ Some result.now }
{
    let course = courses.get(thread as usize - 1);
    &commands_of(script, thread)[course.answered as usize]
}

/// Returns the named buffers that `thread` holds.
pub fn held_by(courses: &Courses, thread: u32) -> &[BufId]
    requires { IsSome (course_at courses.now thread) }
    ensures { result.now ≡ (course_in courses.now thread).held }
{
    courses.get(thread as usize - 1).held.items()
}

/// Gives `thread` the ticket `stamp`.
pub fn give_ticket(courses: &mut Courses, thread: u32, stamp: Stamp)
    requires { IsSome (course_at courses.old thread) }
    ensures { courses.new ≡ with_course_by (stamped stamp) courses.old thread }
{
    let course = courses.get_mut(thread as usize - 1);
    course.stamp = Some(stamp);
}

/// Adds buffer `b` to those that `thread` holds.
#[tactic(auto, using(ttm_base::proofs::ListLaws::set_same))]
pub fn hold(courses: &mut Courses, thread: u32, b: BufId) -> Result<(), NoMemory>
    requires { IsSome (course_at courses.old thread) }
    ensures ok { OnOk result (courses.new ≡ with_course_by (with_held b) courses.old thread) }
    ensures err { OnErr result (courses.new ≡ courses.old) }
{
    let course = courses.get_mut(thread as usize - 1);
    course.held.push(b)?;
    Ok(())
}

/// Empties the list of buffers that `thread` holds, and lets it begin again with buffer `b`.
pub fn begin_anew(courses: &mut Courses, thread: u32, b: BufId)
    requires { IsSome (course_at courses.old thread) }
    ensures { courses.new ≡ with_course_by (begun_anew b) courses.old thread }
{
    let course = courses.get_mut(thread as usize - 1);
    course.held.clear();
    course.first = Some(b);
}

/// Notes that `thread` has done what its command is for.
pub fn has_made(courses: &mut Courses, thread: u32)
    requires { IsSome (course_at courses.old thread) }
    ensures { courses.new ≡ with_course_by rows.has_made courses.old thread }
{
    let course = courses.get_mut(thread as usize - 1);
    course.made = true;
}

/// Adds buffer `b` to the victims that `thread` has caught, for the reason `why`.
#[tactic(auto, using(ttm_base::proofs::ListLaws::set_same))]
pub fn add_victim(courses: &mut Courses, thread: u32, b: BufId, why: Why) -> Result<(), NoMemory>
    requires { IsSome (course_at courses.old thread) }
    ensures ok { OnOk result (courses.new ≡ with_course_by (with_victim b why) courses.old thread) }
    ensures err { OnErr result (courses.new ≡ courses.old) }
{
    let course = courses.get_mut(thread as usize - 1);
    courses::add_victim(course, b, why)
}

/// Takes buffer `b` from the victims of `thread`, which has let it go.
pub fn forget_victim(courses: &mut Courses, thread: u32, b: BufId)
    requires { IsSome (course_at courses.old thread) }
    ensures { courses.new ≡ with_course_by (no_longer_caught b) courses.old thread }
{
    let course = courses.get_mut(thread as usize - 1);
    courses::forget_victim(course, b);
}

/// Takes buffer `b` from the victims of `thread`, and adds it to those that the thread passes over.
#[tactic(auto, using(ttm_base::proofs::ListLaws::set_same))]
pub fn skip_victim(courses: &mut Courses, thread: u32, b: BufId) -> Result<(), NoMemory>
    requires { IsSome (course_at courses.old thread) }
    ensures ok { OnOk result (courses.new ≡ with_course_by (λ c. with_skip b (no_longer_caught b c)) courses.old thread) }
    ensures err { OnErr result (courses.new ≡ courses.old) }
{
    let course = courses.get_mut(thread as usize - 1);
    courses::skip_victim(course, b)
}

/// Notes that the search of `thread` for buffer `b` has failed with `deny`.
pub fn fail_search(courses: &mut Courses, thread: u32, b: BufId, deny: Deny)
    requires { IsSome (course_at courses.old thread) }
    ensures { courses.new ≡ with_course_by (with_fail b deny) courses.old thread }
{
    let course = courses.get_mut(thread as usize - 1);
    courses::fail_search(course, b, deny);
}

/// Lets the search of `thread` for the named buffer `b` begin again.
pub fn end_search(courses: &mut Courses, thread: u32, b: BufId)
    requires { IsSome (course_at courses.old thread) }
    ensures { courses.new ≡ with_course_by (search_over b) courses.old thread }
{
    let course = courses.get_mut(thread as usize - 1);
    courses::end_search(course, b);
}

/// Notes that place `k` of the `places` of the search of `thread` for a named buffer is dry.
pub fn go_dry(courses: &mut Courses, thread: u32, k: u32, places: usize)
    requires there { IsSome (course_at courses.old thread) }
    requires room { k + 1 < 2 ^ 32 }
    ensures { courses.new ≡ with_course_by (gone_dry k places) courses.old thread }
{
    let course = courses.get_mut(thread as usize - 1);
    courses::go_dry(course, k, places);
}

/// Moves `thread` on to its next command.
pub fn go_on(courses: &mut Courses, alloc: Global, thread: u32)
    requires there { IsSome (course_at courses.old thread) }
    requires room { (course_in courses.old thread).answered + 1 < 2 ^ 32 }
    ensures { courses.new ≡ with_course_by rows.on_to_next courses.old thread }
{
    let course = courses.get_mut(thread as usize - 1);
    *course = new_course(alloc, course.answered + 1);
}
