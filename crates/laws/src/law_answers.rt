//! Laws on what threads answer, and on what they have at work meanwhile.
ghost use Rattle.std.specs.Prelude.{IsTrue, List};
ghost use Rattle.journal_model.specs.declared.script.Script.{Script};
ghost use Rattle.journal_model.specs.declared.entry.Entry.{Entry};
ghost use Rattle.journal_model.specs.scripts.ScriptRules.{is_script};
ghost use Rattle.journal_model.specs.rules.Legal.{IsLegal, state_of};
ghost use Rattle.laws.specs.law_answers.InOrder.{AreInOrder};
ghost use Rattle.laws.specs.law_answers.AtWork.{AreFew};
ghost use Rattle.laws.specs.law_answers.Refusals.{RefusalsHaveBuffers};

/// Each command of each thread is answered once, in order; a complete journal has an answer for each.
pub fn answers_are_in_order()
    ensures { (script : Script) (journal : List Entry) → IsTrue (is_script script) → IsLegal script journal → AreInOrder script journal }
{}

/// Every job has a packet, at most two victims are caught, and only a held buffer has a target.
pub fn victims_are_few()
    ensures { (script : Script) (journal : List Entry) → IsTrue (is_script script) → IsLegal script journal → AreFew (state_of script journal) }
{}

/// A command that is refused for lack of space or pages has a buffer at work: one that isn't in place or isn't filled.
pub fn refusals_have_a_buffer_at_work()
    ensures { (script : Script) (journal : List Entry) → IsTrue (is_script script) → IsLegal script journal → RefusalsHaveBuffers script journal }
{}
