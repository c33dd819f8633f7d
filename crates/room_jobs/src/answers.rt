ghost use Rattle.std.specs.Prelude.{◌≡◌, ◌∷◌, ◌++◌, [], OnOk, OnErr};
ghost use Rattle.ttm_base.specs.declared.Actor.TheVariants as actor;
ghost use Rattle.journal_model.specs.declared.entry.Kind.TheVariants as kind;
ghost use Rattle.journal_model.specs.rules.Legal.{IsLegalNext, world_of};
ghost use Rattle.room_representation.specs.Held.{AreHeld};
ghost use Rattle.room_representation.specs.Nexts.{Next};

use crate::listings::relist;
use crate::pins::change_pins;
use crate::writes::write;
use journal_model::{Script, Shown};
use room_representation::Parts;
use room_representation::steps::{command_of, go_on, held_by, release_all};
use state_words::named;
use std::alloc::Global;
use ttm_base::NoMemory;

/// Answers the command of `thread`. What a read or a find shows is in the entry already.
pub fn answer(
    parts: &mut Parts,
    alloc: Global,
    script: &Script,
    thread: u32,
    shown: &Shown,
) -> Result<(), NoMemory>
    ghost w: { Next }
    requires held { AreHeld script.now w.before parts.old }
    requires is { w.entry ≡ record { who = actor.Thread thread; kind = kind.Result shown.now } }
    requires next { IsLegalNext script.now (world_of script.now w.before) w.entry }
    ensures ok { OnOk result (AreHeld script.now (w.before ++ w.entry ∷ []) parts.new) }
    ensures err { OnErr result (AreHeld script.now w.before parts.new) }
{
    parts.lru.members_stand_once();
    let command = command_of(script, &parts.courses, thread);
    let bs = named(command);
    let held = held_by(&parts.courses, thread);
    relist(&mut parts.lru, &parts.bos, script, command, held, bs)?;
    write(&mut parts.stores, &parts.bos, command);
    release_all(&mut parts.bos, held);
    change_pins(&mut parts.bos, command);
    go_on(&mut parts.courses, alloc, thread);
    Ok(())
}
