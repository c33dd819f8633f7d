//! Laws on the jobs of each context in the states that legal journals lead to.
ghost use Rattle.std.specs.Prelude.{ℕ, IsTrue, List};
ghost use Rattle.journal_model.specs.declared.script.Script.{Script};
ghost use Rattle.journal_model.specs.declared.entry.Entry.{Entry};
ghost use Rattle.journal_model.specs.scripts.ScriptRules.{is_script};
ghost use Rattle.journal_model.specs.rules.Legal.{IsLegal, state_of};
ghost use Rattle.laws.specs.law_state.GoodState.{last_number};
ghost use Rattle.laws.specs.law_jobs.JobLines.{IsLine, done_of};

/// The jobs of a context have the numbers from 1 to the last one drawn, in the order of emission, and are done in that order.
pub fn jobs_are_in_line()
    ensures { (script : Script) (journal : List Entry) (ctx : ℕ) → IsTrue (is_script script) → IsLegal script journal
        → IsLine ctx (last_number (state_of script journal).last_jobs ctx) (done_of ctx (state_of script journal).core.jobs) (state_of script journal).core.jobs }
{}
