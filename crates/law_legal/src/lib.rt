//! What holds of each legal journal of a script, in one record.
#![tactic(auto)]

pub mod law_addresses;
pub mod law_items;
pub mod law_maps;
pub mod law_readable;
pub mod law_report;
pub mod law_script;
pub mod law_spaces;
pub mod law_verdict;

ghost use Rattle.std.specs.Prelude.{IsTrue, List};
ghost use Rattle.journal_model.specs.declared.script.Script.{Script};
ghost use Rattle.journal_model.specs.declared.entry.Entry.{Entry};
ghost use Rattle.journal_model.specs.scripts.ScriptRules.{is_script};
ghost use Rattle.journal_model.specs.rules.Legal.{IsLegal};
ghost use Rattle.law_legal.specs.KeepsLaws.{KeepsLaws};

/// Each legal journal of a script keeps the laws.
pub fn legal_journals_keep_the_laws()
    ensures { (script : Script) (journal : List Entry) → IsTrue (is_script script) → IsLegal script journal → KeepsLaws script journal }
{}
