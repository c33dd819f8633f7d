//! Laws on who holds the pages, frames and slots in the states that legal journals lead to.
ghost use Rattle.std.specs.Prelude.{IsTrue, List};
ghost use Rattle.journal_model.specs.declared.script.Script.{Script};
ghost use Rattle.journal_model.specs.declared.entry.Entry.{Entry};
ghost use Rattle.journal_model.specs.scripts.ScriptRules.{is_script};
ghost use Rattle.journal_model.specs.rules.Legal.{IsLegal, state_of};
ghost use Rattle.journal_model.specs.statements.Laws.{LegalHasAccounts};
ghost use Rattle.laws.specs.law_owners.OneOwner.{HaveOneOwner};
ghost use Rattle.laws.specs.law_owners.Throughout.{HoldThroughout};

/// No page of VRAM or TT, no frame and no slot stands in two holds or twice in one, and all that is held is within the sizes.
pub fn pages_have_one_owner()
    ensures { (script : Script) (journal : List Entry) → IsTrue (is_script script) → IsLegal script journal → HaveOneOwner script (state_of script journal).core }
{}

/// Free pages and those of buffers, targets and ghosts make each size; so do frames, and slots.
pub fn accounts_hold()
    ensures { LegalHasAccounts }
{}

/// After each prefix of a legal journal free pages and those of buffers, targets and ghosts make each size; so do frames, and slots.
pub fn accounts_hold_throughout()
    ensures { (script : Script) (journal : List Entry) → IsTrue (is_script script) → IsLegal script journal → HoldThroughout script journal }
{}
