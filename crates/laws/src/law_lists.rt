//! Laws on the lists of eviction in the states that legal journals lead to.
ghost use Rattle.std.specs.Prelude.{IsTrue, List};
ghost use Rattle.journal_model.specs.declared.script.Script.{Script};
ghost use Rattle.journal_model.specs.declared.entry.Entry.{Entry};
ghost use Rattle.journal_model.specs.scripts.ScriptRules.{is_script};
ghost use Rattle.journal_model.specs.rules.Legal.{IsLegal, state_of};
ghost use Rattle.laws.specs.law_lists.GoodLists.{GoodLists};
ghost use Rattle.laws.specs.law_lists.NamedVictims.{NamesVictims};

/// Each live buffer without pins is on the one list of its memory type and priority, no other buffer is on any, and the
/// members of a group stand side by side.
pub fn buffers_are_on_their_lists()
    ensures { (script : Script) (journal : List Entry) → IsTrue (is_script script) → IsLegal script journal → GoodLists script (state_of script journal) }
{}

/// The victim of each entry is the first evictable of the four lists of its place's memory type, priority 0 first; for swap, the
/// first with a frame in SYSTEM and then in TT.
pub fn entries_name_the_first_victim()
    ensures { (script : Script) (journal : List Entry) → IsLegal script journal → NamesVictims script journal }
{}
