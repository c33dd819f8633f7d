//! Laws on how legal journals go on: until a journal is complete, some actor has an entry; and the measure of the work that is left.
ghost use Rattle.std.specs.Prelude.{◌≡◌, ◌↔◌, IsTrue, List, true, false};
ghost use Rattle.ttm_base.specs.declared.Actor.{Actor};
ghost use Rattle.journal_model.specs.declared.script.Script.{Script};
ghost use Rattle.journal_model.specs.declared.entry.Entry.{Entry};
ghost use Rattle.journal_model.specs.scripts.ScriptRules.{is_script};
ghost use Rattle.journal_model.specs.rules.Legal.{IsLegal, state_of};
ghost use Rattle.journal_model.specs.statements.Complete.{is_complete, is_over};
ghost use Rattle.journal_model.specs.statements.DeadEnd.{can_step};
ghost use Rattle.journal_model.specs.statements.Laws.{LegalNeverEndsDead};
ghost use Rattle.laws.specs.law_sound.Orders.{FindsOne};
ghost use Rattle.laws.specs.law_sound.Sound.{Sound, SomeGoesOn};
ghost use Rattle.journal_model.specs.declared.state.State.{State};

/// Jobs wait for earlier jobs alone, and the holder of a buffer tells which thread holds it.
pub fn states_are_sound()
    ensures { (script : Script) (journal : List Entry) → IsTrue (is_script script) → IsLegal script journal → Sound script (state_of script journal) }
{}

/// Until a legal journal is complete, some actor has an entry.
pub fn some_actor_goes_on()
    ensures { (script : Script) (journal : List Entry) → IsTrue (is_script script) → IsLegal script journal
        → is_complete script journal ≡ false → SomeGoesOn script (state_of script journal) }
{}

/// Some actor has an entry exactly until the journal is complete.
pub fn entries_come_until_the_end()
    ensures { (script : Script) (journal : List Entry) → IsTrue (is_script script) → IsLegal script journal
        → (is_complete script journal ≡ false) ↔ SomeGoesOn script (state_of script journal) }
{}

/// No legal journal is a dead end.
pub fn no_journal_is_a_dead_end()
    ensures { LegalNeverEndsDead }
{}

/// Where a legal journal has come to its end, no actor has an entry.
pub fn nobody_goes_on_behind_the_end()
    ensures { (script : Script) (journal : List Entry) → IsTrue (is_script script) → IsLegal script journal
        → is_over script (state_of script journal) ≡ true → (who : Actor) → can_step script (state_of script journal) who ≡ false }
{}

/// Until a legal journal is over, the simulator's own order finds an actor that has an entry.
pub fn own_order_finds_who_goes_on()
    ensures { (script : Script) (journal : List Entry) → IsTrue (is_script script) → IsLegal script journal
        → is_over script (state_of script journal) ≡ false → FindsOne script (state_of script journal) }
{}

/// In a sound state that isn't over some actor has an entry.
pub fn sound_states_go_on()
    ensures { (script : Script) (s : State) → Sound script s → is_over script s ≡ false → SomeGoesOn script s }
{}
