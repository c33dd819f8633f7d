//! The law that stamps, ghosts and jobs can be counted.
ghost use Rattle.std.specs.Prelude.{IsTrue, List};
ghost use Rattle.journal_model.specs.declared.script.Script.{Script};
ghost use Rattle.journal_model.specs.declared.entry.Entry.{Entry};
ghost use Rattle.journal_model.specs.scripts.ScriptRules.{is_script};
ghost use Rattle.journal_model.specs.rules.Legal.{IsLegal, state_of};
ghost use Rattle.laws.specs.law_counters.Counted.{AreCounted};

/// The last stamp, the last ghost and the last job of each context are below 2^63.
pub fn counters_fit()
    ensures { (script : Script) (journal : List Entry) → IsTrue (is_script script) → IsLegal script journal → AreCounted (state_of script journal) }
{}
