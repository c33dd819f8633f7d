//! The law that each state of a legal journal has a good view, from which it follows that the journal is transparent.
ghost use Rattle.std.specs.Prelude.{IsTrue, List};
ghost use Rattle.journal_model.specs.declared.script.Script.{Script};
ghost use Rattle.journal_model.specs.declared.entry.Entry.{Entry};
ghost use Rattle.journal_model.specs.scripts.ScriptRules.{is_script};
ghost use Rattle.journal_model.specs.rules.PlainMemory.{plain_of};
ghost use Rattle.journal_model.specs.rules.Legal.{IsLegal, state_of, stores_of};
ghost use Rattle.laws.specs.law_views.GoodViews.{HasGoodView};

/// After each legal journal, of jobs of which one writes a page that the other touches one comes after the other; jobs that touch a page
/// are covered by those of its owner; and once all packets that are left have run in the order of emission, each page of a buffer holds
/// what the plain memory has.
pub fn views_are_good()
    ensures { (script : Script) (journal : List Entry) → IsTrue (is_script script) → IsLegal script journal
        → HasGoodView script (state_of script journal).core (plain_of script journal).owed_probes (plain_of script journal).memory (stores_of script journal) }
{}
