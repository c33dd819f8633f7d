ghost use Rattle.std.specs.Prelude.{◌≡◌, ◌∷◌, ◌++◌, [], OnOk, OnErr};
ghost use Rattle.ttm_base.specs.declared.Actor.TheVariants as actor;
ghost use Rattle.journal_model.specs.declared.entry.Kind.TheVariants as kind;
ghost use Rattle.journal_model.specs.rules.Legal.{IsLegalNext, world_of};
ghost use Rattle.room_representation.specs.Held.{AreHeld};
ghost use Rattle.room_representation.specs.Nexts.{Next};

use journal_model::Script;
use room_representation::Parts;
use room_representation::steps::has_made;
use ttm_base::{BufId, Mem, NoMemory};

/// Makes buffer `b`, in SYSTEM and without a frame, and puts it on its list.
pub fn make(parts: &mut Parts, script: &Script, thread: u32, b: BufId) -> Result<(), NoMemory>
    ghost w: { Next }
    requires held { AreHeld script.now w.before parts.old }
    requires is { w.entry ≡ record { who = actor.Thread thread; kind = kind.New b } }
    requires next { IsLegalNext script.now (world_of script.now w.before) w.entry }
    ensures ok { OnOk result (AreHeld script.now (w.before ++ w.entry ∷ []) parts.new) }
    ensures err { OnErr result (AreHeld script.now w.before parts.new) }
{
    parts.lru.members_stand_once();
    let decl = script.buffers.get(b.0 as usize);
    parts.lru.add(b, Mem::System, decl.prio, decl.group)?;
    parts.bos.make(b);
    has_made(&mut parts.courses, thread);
    Ok(())
}
