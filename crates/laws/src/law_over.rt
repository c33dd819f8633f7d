//! Laws on complete journals: nothing comes after them, and they answer every command.
ghost use Rattle.std.specs.Prelude.{◌≡◌, ◌++◌, [], List, true, count_by, length, sum_by};
ghost use Rattle.journal_model.specs.declared.script.Script.{Script};
ghost use Rattle.journal_model.specs.declared.entry.Entry.{Entry};
ghost use Rattle.journal_model.specs.statements.Complete.{is_answer, is_complete};
ghost use Rattle.journal_model.specs.rules.Legal.{IsLegal};

/// A legal journal has no entries after the point where it is complete.
pub fn complete_is_last()
    ensures { (script : Script) (journal more : List Entry) → IsLegal script (journal ++ more) → is_complete script journal ≡ true → more ≡ [] }
{}

/// A legal journal that is complete has as many results and refusals as its script has commands.
pub fn complete_is_answered()
    ensures { (script : Script) (journal : List Entry) → IsLegal script journal → is_complete script journal ≡ true
        → count_by (λ e. is_answer e.kind) journal ≡ sum_by length script.threads }
{}
