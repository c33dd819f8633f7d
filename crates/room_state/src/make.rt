ghost use Rattle.std.specs.Prelude.{◌≡◌, ◌∷◌, ◌++◌, [], OnOk, OnErr};
ghost use Rattle.ttm_base.specs.declared.Actor.TheVariants as actor;
ghost use Rattle.journal_model.specs.rules.Legal.{IsLegalNext, world_of};
ghost use Rattle.room_representation.specs.Held.{AreHeld};
ghost use Rattle.room_representation.specs.Nexts.{Next};

use crate::threads::make_of_thread;
use journal_model::{Entry, Kind, Script};
use room_pages::ghosts::reap;
use room_parts::{done, packet};
use room_representation::Parts;
use std::alloc::Global;
use ttm_base::{Actor, NoMemory};

/// Applies the `entry` of the engine of context `ctx` to the parts: they then tell the state after it.
fn make_of_engine(parts: &mut Parts, alloc: Global, entry: &Entry, ctx: u32) -> Result<(), NoMemory>
    ghost w: { Next }
    requires entry { w.entry ≡ entry.now }
    requires held { AreHeld w.script w.before parts.old }
    requires who { entry.now.who ≡ actor.Engine ctx }
    requires next { IsLegalNext w.script (world_of w.script w.before) w.entry }
    ensures ok { OnOk result (AreHeld w.script (w.before ++ w.entry ∷ []) parts.new) }
    ensures err { OnErr result (AreHeld w.script w.before parts.new) }
{
    match &entry.kind {
        Kind::Packet { num, k, piece } => {
            let piece = piece.items();
            packet(parts, alloc, ctx, *num, *k, piece)
        }
        Kind::Done { num } => {
            done(parts, ctx, *num);
            Ok(())
        }
        _ => unreachable!(),
    }
}

/// Applies the `entry` of the reaper to the parts: they then tell the state after it.
fn make_of_reaper(parts: &mut Parts, entry: &Entry)
    ghost w: { Next }
    requires entry { w.entry ≡ entry.now }
    requires held { AreHeld w.script w.before parts.old }
    requires who { entry.now.who ≡ actor.Reaper }
    requires next { IsLegalNext w.script (world_of w.script w.before) w.entry }
    ensures { AreHeld w.script (w.before ++ w.entry ∷ []) parts.new }
{
    match &entry.kind {
        Kind::Reap { g } => reap(parts, *g),
        _ => unreachable!(),
    }
}

/// Applies `entry`, which is legal after the entries `before`, to the parts: they then tell the state after it.
///
/// # Errors
///
/// Lack of memory; the parts tell what they told before.
pub(crate) fn make_parts(
    parts: &mut Parts,
    alloc: Global,
    script: &Script,
    before: &[Entry],
    entry: &Entry,
) -> Result<(), NoMemory>
    ghost w: { Next }
    requires same { w ≡ record { script = script.now; before = before.now; entry = entry.now } }
    requires held { AreHeld w.script w.before parts.old }
    requires next { IsLegalNext w.script (world_of w.script w.before) w.entry }
    ensures ok { OnOk result (AreHeld w.script (w.before ++ w.entry ∷ []) parts.new) }
    ensures err { OnErr result (AreHeld w.script w.before parts.new) }
{
    match entry.who {
        Actor::Thread(thread) => make_of_thread(parts, alloc, script, entry, thread),
        Actor::Engine(ctx) => make_of_engine(parts, alloc, entry, ctx),
        Actor::Reaper => {
            make_of_reaper(parts, entry);
            Ok(())
        }
    }
}
