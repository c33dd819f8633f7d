ghost use Rattle.std.specs.Prelude.{◌≡◌, ◌+◌, ◌<◌, ◌^◌, ◌∷◌, ◌++◌, [], IsSome, OnOk, OnErr, length};
ghost use Rattle.ttm_base.specs.Placement.{forced_places};
ghost use Rattle.ttm_base.specs.declared.Actor.TheVariants as actor;
ghost use Rattle.journal_model.specs.declared.entry.Kind.TheVariants as kind;
ghost use Rattle.journal_model.specs.rules.Commands.{decl};
ghost use Rattle.journal_model.specs.rules.Legal.{IsLegalNext, world_of};
ghost use Rattle.room_representation.specs.Held.{AreHeld};
ghost use Rattle.room_representation.specs.Nexts.{Next};
ghost use Rattle.room_representation.specs.steps.Courses.{course_at, with_course_by};
ghost use Rattle.room_parts.specs.Dries.{dried, searched_places};

use journal_model::{Command, Courses, DryWhy, Script, Targets, Why};
use place_list::forced_count;
use room_representation::Parts;
use room_representation::steps::{
    add_victim, command_of, fail_search, forget_victim, go_dry, hold_for, skip_victim, stamp_of,
    touch,
};
use state_words::is_caught;
use std::alloc::Global;
use ttm_base::{BufId, Deny, NoMemory};

/// Reserves buffer `b` as a victim of `thread`. A victim in TT gets an empty target in SYSTEM.
pub fn catch(
    parts: &mut Parts,
    alloc: Global,
    thread: u32,
    b: BufId,
    why: Why,
) -> Result<(), NoMemory>
    ghost w: { Next }
    requires held { AreHeld w.script w.before parts.old }
    requires is { w.entry ≡ record { who = actor.Thread thread; kind = kind.Catch b why } }
    requires next { IsLegalNext w.script (world_of w.script w.before) w.entry }
    ensures ok { OnOk result (AreHeld w.script (w.before ++ w.entry ∷ []) parts.new) }
    ensures err { OnErr result (AreHeld w.script w.before parts.new) }
{
    let stamp = stamp_of(&parts.courses, thread);
    add_victim(&mut parts.courses, thread, b, why)?;
    parts.bos.leave_tt(alloc, b);
    hold_for(&mut parts.bos, b, stamp);
    Ok(())
}

/// Releases the victim `b` of `thread`, which counts as just used.
pub fn loose(parts: &mut Parts, thread: u32, b: BufId)
    ghost w: { Next }
    requires held { AreHeld w.script w.before parts.old }
    requires is { w.entry ≡ record { who = actor.Thread thread; kind = kind.Loose b } }
    requires next { IsLegalNext w.script (world_of w.script w.before) w.entry }
    ensures { AreHeld w.script (w.before ++ w.entry ∷ []) parts.new }
{
    parts.lru.members_stand_once();
    forget_victim(&mut parts.courses, thread, b);
    parts.bos.release(b);
    touch(&mut parts.lru, b);
}

/// Releases the victim `b` of `thread`, for which there was no room; the thread passes over it from now on.
pub fn skip(parts: &mut Parts, thread: u32, b: BufId) -> Result<(), NoMemory>
    ghost w: { Next }
    requires held { AreHeld w.script w.before parts.old }
    requires is { w.entry ≡ record { who = actor.Thread thread; kind = kind.Skip b } }
    requires next { IsLegalNext w.script (world_of w.script w.before) w.entry }
    ensures ok { OnOk result (AreHeld w.script (w.before ++ w.entry ∷ []) parts.new) }
    ensures err { OnErr result (AreHeld w.script w.before parts.new) }
{
    skip_victim(&mut parts.courses, thread, b)?;
    parts.bos.release(b);
    Ok(())
}

/// Notes that `thread` finds no frame for buffer `b`: its search has failed.
pub fn no_pages(parts: &mut Parts, thread: u32, b: BufId)
    ghost w: { Next }
    requires held { AreHeld w.script w.before parts.old }
    requires is { w.entry ≡ record { who = actor.Thread thread; kind = kind.NoPages b } }
    requires next { IsLegalNext w.script (world_of w.script w.before) w.entry }
    ensures { AreHeld w.script (w.before ++ w.entry ∷ []) parts.new }
{
    fail_search(&mut parts.courses, thread, b, Deny::NoPages);
}

/// Returns how many places the search for the named buffer `b` tries under pressure: TT alone where the buffer has a target.
fn place_count(script: &Script, command: &Command, b: BufId, targets: &Targets) -> usize
    requires declared { b.0 < length script.now.buffers }
    requires short { length (decl script.now b).placement.list < 2 ^ 32 }
    ensures { result ≡ length (forced_places (searched_places script.now command.now b targets.now)) }
{
    if targets.system.is_some() || targets.tt.is_some() || targets.vram.is_some() {
        return 1;
    }
    match command {
        Command::Move { .. } | Command::SwapOut { .. } => 1,
        _ => forced_count(&script.buffers.get(b.0 as usize).placement) as usize,
    }
}

/// Notes that a place is dry: the search for a victim has failed; that for a named buffer goes on after place `k` of `places`, or has failed with
/// the last.
fn note_dry(courses: &mut Courses, thread: u32, b: BufId, k: u32, places: usize)
    requires there { IsSome (course_at courses.old thread) }
    requires room { k + 1 < 2 ^ 32 }
    ensures { courses.new ≡ with_course_by (dried b k places) courses.old thread }
{
    let caught = is_caught(courses.get(thread as usize - 1), b);
    if caught {
        fail_search(courses, thread, b, Deny::NoSpace);
    } else {
        go_dry(courses, thread, k, places);
    }
}

/// Notes that place `k` of a search under pressure is dry: nothing in it is free, and nothing can be evicted.
pub fn dry(parts: &mut Parts, script: &Script, thread: u32, b: BufId, k: u32, why: &DryWhy)
    ghost w: { Next }
    requires held { AreHeld script.now w.before parts.old }
    requires is { w.entry ≡ record { who = actor.Thread thread; kind = kind.Dry b k why.now } }
    requires next { IsLegalNext script.now (world_of script.now w.before) w.entry }
    ensures { AreHeld script.now (w.before ++ w.entry ∷ []) parts.new }
{
    let command = command_of(script, &parts.courses, thread);
    let places = place_count(script, command, b, &parts.bos.get(b).targets);
    note_dry(&mut parts.courses, thread, b, k, places);
}
