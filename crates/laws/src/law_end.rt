//! Each legal journal ends, and the simulator's schedule completes within the limit of turns.
ghost use Rattle.std.specs.Prelude.{◌<◌, IsTrue, List, length};
ghost use Rattle.journal_model.specs.declared.script.Script.{Script};
ghost use Rattle.journal_model.specs.declared.entry.Entry.{Entry};
ghost use Rattle.journal_model.specs.scripts.ScriptRules.{is_script};
ghost use Rattle.journal_model.specs.rules.Legal.{IsLegal};
ghost use Rattle.journal_model.specs.statements.Scheduled.{turn_limit};
ghost use Rattle.journal_model.specs.statements.Laws.{LimitSuffices};

/// Each legal journal, whatever the order of its actors, has fewer entries than the limit of turns.
pub fn journals_end()
    ensures { (script : Script) (journal : List Entry) → IsTrue (is_script script) → IsLegal script journal → length journal < turn_limit script }
{}

/// Within the limit of turns the simulator's schedule makes a complete journal.
pub fn schedule_completes()
    ensures { LimitSuffices }
{}
