//! Laws on the next entry of an actor: what it tells of the state before it.
ghost use Rattle.std.specs.Prelude.{◌≡◌, Ok, true};
ghost use Rattle.ttm_base.specs.declared.Actor.{Actor};
ghost use Rattle.journal_model.specs.declared.script.Script.{Script};
ghost use Rattle.journal_model.specs.declared.state.State.{State};
ghost use Rattle.journal_model.specs.declared.entry.Kind.{Kind};
ghost use Rattle.journal_model.specs.rules.Next.{next};
ghost use Rattle.laws.specs.law_step.Due.{is_due};

/// What an actor makes next tells of the state before it: a buffer is dead before it is made; it is where it has to be before it is
/// bound, emptied at once or moved; and the jobs to wait for are done before it is unbound, swapped out or freed without a ghost, and
/// before a ghost goes.
pub fn next_entries_are_due()
    ensures { (script : Script) (s : State) (who : Actor) (k : Kind) → next script s who ≡ Ok k → is_due s k ≡ true }
{}
