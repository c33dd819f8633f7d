//! Laws on who holds a page: one buffer, target or ghost at most, and the aperture maps each page of TT as its holder says.
ghost use Rattle.std.specs.Prelude.{◌≡◌, ℕ, IsTrue, List, Some};
ghost use Rattle.journal_model.specs.declared.script.Script.{Script};
ghost use Rattle.journal_model.specs.declared.entry.Entry.{Entry};
ghost use Rattle.journal_model.specs.scripts.ScriptRules.{is_script};
ghost use Rattle.journal_model.specs.rules.Places.{aperture};
ghost use Rattle.journal_model.specs.rules.Legal.{IsLegal, state_of};
ghost use Rattle.laws.specs.law_holders.Holding.{HeldOnce};
ghost use Rattle.laws.specs.law_holders.Maps.{Maps};

/// Each page, frame or slot is one page of one buffer, or kept for one, or of one target or ghost, or nobody's.
pub fn pages_are_held_once()
    ensures { (script : Script) (journal : List Entry) → IsTrue (is_script script) → IsLegal script journal → HeldOnce (state_of script journal).core }
{}

/// A mapped page of TT is a page of a buffer in TT or of a ghost, mapped to the frame at the same place.
pub fn aperture_is_of_holders()
    ensures { (script : Script) (journal : List Entry) (page frame : ℕ) → IsTrue (is_script script) → IsLegal script journal → aperture (state_of script journal).core page ≡ Some frame → Maps (state_of script journal).core page frame }
{}

/// Each page of a buffer in TT or of a ghost with a frame at its place is mapped to that frame.
pub fn holders_are_mapped()
    ensures { (script : Script) (journal : List Entry) (page frame : ℕ) → IsTrue (is_script script) → IsLegal script journal → Maps (state_of script journal).core page frame → aperture (state_of script journal).core page ≡ Some frame }
{}
