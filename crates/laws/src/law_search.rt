//! Laws on the two versions of scripts: the search over one list of places is the search before kernel 6.9 over two, and the
//! version changes no journal.
ghost use Rattle.std.specs.Prelude.{◌≡◌, ◌↔◌, ℕ, IsTrue, List};
ghost use Rattle.ttm_base.specs.declared.Actor.{Actor};
ghost use Rattle.ttm_base.specs.declared.BufId.{BufId};
ghost use Rattle.journal_model.specs.declared.script.Script.{Script};
ghost use Rattle.journal_model.specs.declared.entry.Entry.{Entry};
ghost use Rattle.journal_model.specs.rules.Commands.{decl};
ghost use Rattle.journal_model.specs.scripts.ScriptRules.{is_script};
ghost use Rattle.journal_model.specs.statements.OldSearch.{IsSameSearch};
ghost use Rattle.journal_model.specs.statements.Laws.{FormsAgree};
ghost use Rattle.journal_model.specs.rules.Legal.{IsLegal};
ghost use Rattle.journal_model.specs.statements.Scheduled.{journal_along};
ghost use Rattle.laws.specs.law_search.TwoLists.{IsTwoLists};

/// For desired places followed by fallback places the search gives the entry of the old one for preferred and busy places.
pub fn searches_agree()
    ensures { IsSameSearch }
{}

/// In a script of the first version each buffer's list has its desired places first, and then its fallback places.
pub fn first_version_has_two_lists()
    ensures { (script : Script) (b : BufId) → IsTrue (is_script script) → script.version ≡ 1 → IsTwoLists (decl script b).placement.list }
{}

/// The form in the second version of a script of the first is a script.
pub fn form_is_a_script()
    ensures { (script : Script) → IsTrue (is_script script) → script.version ≡ 1 → IsTrue (is_script (record script { version = 2 })) }
{}

/// A script of the first version and its form in the second have the same journal after as many turns of the simulator.
pub fn forms_agree()
    ensures { FormsAgree }
{}

/// A script has the same journal in each version along whatever turns.
pub fn turns_agree()
    ensures { (script : Script) (version : ℕ) (actors : List Actor) → journal_along (record script { version = version }) actors ≡ journal_along script actors }
{}

/// The same journals are legal for a script in each version.
pub fn legal_journals_agree()
    ensures { (script : Script) (version : ℕ) (journal : List Entry) → IsLegal script journal ↔ IsLegal (record script { version = version }) journal }
{}
