ghost use Rattle.std.specs.Prelude.{◌≡◌, ◌+◌, ◌^◌, ◌<◌, filter, find, map, not, OnOk, OnErr};
ghost use Rattle.journal_model.specs.rules.Search as searches;
ghost use Rattle.journal_model.specs.rules.State as state;
ghost use Rattle.journal_model.specs.rules.PageSteps as steps;
ghost use Rattle.journal_model.specs.rules.ApplyPages.{search_over};
ghost use Rattle.journal_model.specs.rules.ApplyVictims.{failed_if, with_fail, no_longer_caught, with_victim, with_skip, forces, gone_dry};

use journal_model::{Course, Victim, Victims, Why, same_buffer};
use ttm_base::{BufId, Deny, NoMemory};

/// Returns whether the buffer `b` is a victim of this thread.
pub fn is_caught(course: &Course, b: BufId) -> bool
    ensures { result ≡ searches.is_caught course.now b }
{
    course
        .caught
        .items()
        .iter()
        .map(|v| v.b)
        .any(|c| same_buffer(b, c))
}

/// Returns the victim among `caught` that is buffer `b`, or None if it isn't caught.
fn victim_of(caught: &[Victim], b: BufId) -> Option<Victim>
    ensures { result ≡ find (λ v. state.same_buffer b v.b) caught.now }
{
    caught.iter().copied().find(|v| same_buffer(b, v.b))
}

/// Returns for what buffer `b` was caught, or None if it wasn't.
pub fn why_caught(course: &Course, b: BufId) -> Option<Why>
    ensures { result ≡ steps.why_caught course.now b }
{
    match victim_of(course.caught.items(), b) {
        Some(victim) => Some(victim.why),
        None => None,
    }
}

/// Ends the search for a place for the buffer `b`, which the command names. Where `b` is a victim nothing changes.
pub fn end_search(course: &mut Course, b: BufId)
    ensures { course.new ≡ search_over b course.old }
{
    if !is_caught(course, b) {
        course.forced = false;
        course.dry = 0;
    }
}

/// Returns the victim, with its search failed by `deny` if it is the buffer `b`.
fn failed(victim: Victim, b: BufId, deny: Deny) -> Victim
    ensures { result ≡ failed_if deny b victim }
{
    if same_buffer(b, victim.b) {
        Victim {
            fail: Some(deny),
            ..victim
        }
    } else {
        victim
    }
}

/// Marks the search for the victim `b` as failed by `deny`.
fn fail_victim(caught: &mut Victims, b: BufId, deny: Deny)
    ensures { caught.new ≡ map (failed_if deny b) caught.old }
{
    for i in 0..caught.len() {
        caught.set(i, failed(caught.at(i), b, deny));
    }
}

/// Marks the search for the buffer `b` as failed by `deny`: that of the victim if `b` is one, else that of the command.
pub fn fail_search(course: &mut Course, b: BufId, deny: Deny)
    ensures { course.new ≡ with_fail b deny course.old }
{
    if is_caught(course, b) {
        fail_victim(&mut course.caught, b, deny);
    } else {
        course.fail = Some(deny);
    }
}

/// Removes the buffer `b` from the victims.
fn remove_victim(caught: &mut Victims, b: BufId)
    ensures { caught.new ≡ filter (λ v. not (state.same_buffer b v.b)) caught.old }
{
    let mut i = 0;
    while i < caught.len() {
        if same_buffer(b, caught.at(i).b) {
            let _ = caught.remove(i);
        } else {
            i += 1;
        }
    }
}

/// Removes the buffer `b` from the victims of a thread.
pub fn forget_victim(course: &mut Course, b: BufId)
    ensures { course.new ≡ no_longer_caught b course.old }
{
    remove_victim(&mut course.caught, b);
}

/// Returns whether the next victim turns the search to its forced places, those that are tried under pressure: the first
/// victim of a search in VRAM or TT does.
fn turns_to_forced(why: Why, caught: &Victims) -> bool
    ensures { result ≡ forces why caught.now }
{
    match why {
        Why::Swap => false,
        Why::Tt | Why::Vram => caught.len() == 0,
    }
}

/// Adds the buffer `b` to the victims. Where memory is refused nothing changes.
pub fn add_victim(course: &mut Course, b: BufId, why: Why) -> Result<(), NoMemory>
    ensures ok { OnOk result (course.new ≡ with_victim b why course.old) }
    ensures err { OnErr result (course.new ≡ course.old) }
{
    let first = turns_to_forced(why, &course.caught);
    course.caught.push(Victim { b, why, fail: None })?;
    course.forced = course.forced || first;
    Ok(())
}

/// Skips the victim `b`, so that the command doesn't catch it again. Where memory is refused nothing changes.
pub fn skip_victim(course: &mut Course, b: BufId) -> Result<(), NoMemory>
    ensures ok { OnOk result (course.new ≡ with_skip b (no_longer_caught b course.old)) }
    ensures err { OnErr result (course.new ≡ course.old) }
{
    course.skips.push(b)?;
    forget_victim(course, b);
    Ok(())
}

/// Counts one more forced place as dry. After the last one the search has failed.
pub fn go_dry(course: &mut Course, k: u32, places: usize)
    requires { k + 1 < 2 ^ 32 }
    ensures { course.new ≡ gone_dry k places course.old }
{
    course.forced = true;
    course.dry = k + 1;
    if k as usize + 1 == places {
        course.fail = Some(Deny::NoSpace);
    }
}
