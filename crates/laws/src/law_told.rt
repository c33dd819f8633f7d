//! The law that each thread's next entry tells of the state before it what bytes depend on.
ghost use Rattle.std.specs.Prelude.{◌≡◌, ℕ, IsTrue, List, Ok};
ghost use Rattle.ttm_base.specs.declared.Actor.TheVariants as actor;
ghost use Rattle.journal_model.specs.declared.script.Script.{Script};
ghost use Rattle.journal_model.specs.declared.entry.Entry.{Entry};
ghost use Rattle.journal_model.specs.declared.entry.Kind.{Kind};
ghost use Rattle.journal_model.specs.scripts.ScriptRules.{is_script};
ghost use Rattle.journal_model.specs.rules.Next.{next};
ghost use Rattle.journal_model.specs.rules.Legal.{IsLegal, state_of};
ghost use Rattle.laws.specs.lemma_bytes_told.Told.{Told};

/// After a legal journal a thread's next entry tells where its buffer stands, that it is filled, has its target or is idle, and which pages
/// are free.
pub fn entries_tell()
    ensures { (script : Script) (journal : List Entry) (thread : ℕ) (kind : Kind) → IsTrue (is_script script) → IsLegal script journal
        → next script (state_of script journal) (actor.Thread thread) ≡ Ok kind → Told script (state_of script journal) thread kind }
{}
