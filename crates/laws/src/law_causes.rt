//! Why searches and fills give up, and what a refused command leaves.
ghost use Rattle.std.specs.Prelude.{◌≡◌, IsTrue, List, Ok, ℕ};
ghost use Rattle.ttm_base.specs.declared.Actor.TheVariants as actor;
ghost use Rattle.ttm_base.specs.declared.BufId.{BufId};
ghost use Rattle.ttm_base.specs.declared.Deny.{Deny};
ghost use Rattle.journal_model.specs.declared.script.Script.{Script};
ghost use Rattle.journal_model.specs.declared.state.State.{State};
ghost use Rattle.journal_model.specs.declared.entry.DryWhy.{DryWhy};
ghost use Rattle.journal_model.specs.declared.entry.Entry.{Entry};
ghost use Rattle.journal_model.specs.declared.entry.Kind.TheVariants as kind;
ghost use Rattle.journal_model.specs.scripts.ScriptRules.{is_script};
ghost use Rattle.journal_model.specs.rules.Next.{next};
ghost use Rattle.journal_model.specs.rules.Legal.{IsLegal, made_of, state_of};
ghost use Rattle.journal_model.specs.statements.Laws.{LegalHasCauses};
ghost use Rattle.laws.specs.law_causes.Explains.{Explains};
ghost use Rattle.laws.specs.law_causes.Refused.{LeavesNothing};

/// Dry places, refusals for lack of room or frames, and backoffs have their causes.
pub fn entries_that_give_up_have_causes()
    ensures { LegalHasCauses }
{}

/// A dry entry says that its place is too short, or names each live buffer in the place's manager with the first cause that
/// holds.
pub fn dry_entries_name_their_causes()
    ensures { (script : Script) (s : State) (t : ℕ) (b : BufId) (k : ℕ) (w : DryWhy) → next script s (actor.Thread t) ≡ Ok (kind.Dry b k w)
        → Explains script s t b k w }
{}

/// A refused command changes no byte of the plain memory and ends with nothing held.
pub fn refused_commands_leave_nothing()
    ensures { (script : Script) (journal : List Entry) (t : ℕ) (d : Deny) → IsTrue (is_script script) → IsLegal script journal
        → next script (state_of script journal) (actor.Thread t) ≡ Ok (kind.Refused d) → LeavesNothing script (made_of script journal) (state_of script journal) t d }
{}
