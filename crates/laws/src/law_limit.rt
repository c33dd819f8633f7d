//! The limit of turns of a script can be counted.
ghost use Rattle.std.specs.Prelude.{ℕ, ◌<◌, List};
ghost use Rattle.journal_model.specs.declared.script.Script.{Script};
ghost use Rattle.journal_model.specs.scripts.ScriptRules.{IsScript};
ghost use Rattle.journal_model.specs.statements.Scheduled.{turn_limit};

/// The limit of turns of each script that can be read fits into 64 bits.
pub fn turns_are_counted()
    ensures { (bytes : List ℕ) (script : Script) → IsScript bytes script → turn_limit script < 18446744073709551616 }
{}
