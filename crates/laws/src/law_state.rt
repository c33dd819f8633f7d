//! Laws on legal journals and the states that they lead to: commands are answered once and in order, and a state tells whether
//! its journal is complete.
ghost use Rattle.std.specs.Prelude.{IsTrue, List, length, ◌≡◌, ℕ};
ghost use Rattle.journal_model.specs.declared.script.Script.{Script};
ghost use Rattle.journal_model.specs.declared.entry.Entry.{Entry};
ghost use Rattle.journal_model.specs.scripts.ScriptRules.{is_script};
ghost use Rattle.journal_model.specs.rules.Legal.{IsLegal, state_of};
ghost use Rattle.laws.specs.law_state.GoodState.{GoodState};
ghost use Rattle.laws.specs.law_state.Counters.{Below};
ghost use Rattle.laws.specs.law_state.Courses.{GoodCourses};
ghost use Rattle.journal_model.specs.rules.State.{course};
ghost use Rattle.journal_model.specs.statements.Scheduled.{scheduled};
ghost use Rattle.journal_model.specs.statements.Complete.{answers_of, is_complete, is_over};

/// Page tables have their declared pages; jobs have distinct names, some packets each, and no more run than there are.
pub fn states_are_good()
    ensures { (script : Script) (journal : List Entry) → IsTrue (is_script script) → IsLegal script journal → GoodState script (state_of script journal) }
{}

/// Each entry draws one number at most: no counter is above the number of entries.
pub fn counters_are_low()
    ensures { (script : Script) (journal : List Entry) → IsLegal script journal → Below (length journal) (state_of script journal) }
{}

/// No buffer has more pins than can be counted, and only a command that makes something stands as made.
pub fn courses_are_good()
    ensures { (script : Script) (journal : List Entry) → IsLegal script journal → GoodCourses script (state_of script journal) }
{}

/// A thread follows as many commands as it has results and refusals in the journal.
pub fn answers_are_counted()
    ensures { (script : Script) (journal : List Entry) (thread : ℕ) → IsLegal script journal → (course (state_of script journal) thread).answered ≡ answers_of thread journal }
{}

/// The state that a legal journal leads to is over exactly where the journal is complete.
pub fn over_is_complete()
    ensures { (script : Script) (journal : List Entry) → IsLegal script journal → is_over script (state_of script journal) ≡ is_complete script journal }
{}

/// The journal of the simulator's turns is legal.
pub fn scheduled_is_legal()
    ensures { (script : Script) (n : ℕ) → IsLegal script (scheduled script n) }
{}
