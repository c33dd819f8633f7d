//! The law that legal journals are transparent: whatever moves, is swapped or waits, reads and probes show the bytes of a
//! memory in which each buffer has its own place for good. Beside it: the pages of buffers and targets, the numbers of ghosts, and
//! the places that packets name.
ghost use Rattle.std.specs.Prelude.{ℕ, IsTrue, ◌≡◌, List, Some, Ok};
ghost use Rattle.journal_model.specs.declared.script.Script.{Script};
ghost use Rattle.journal_model.specs.scripts.ScriptRules.{is_script};
ghost use Rattle.journal_model.specs.statements.Scheduled.{scheduled};
ghost use Rattle.journal_model.specs.rules.Transparent.{IsTransparent};
ghost use Rattle.journal_model.specs.statements.Laws.{LegalIsTransparent};
ghost use Rattle.ttm_base.specs.declared.BufId.{BufId};
ghost use Rattle.journal_model.specs.declared.state.Buffer.{Buffer};
ghost use Rattle.journal_model.specs.declared.entry.Entry.{Entry};
ghost use Rattle.journal_model.specs.rules.State.{live_in};
ghost use Rattle.journal_model.specs.rules.Legal.{IsLegal, state_of};
ghost use Rattle.laws.specs.law_transparent.OwnPages.{HasItsPages, GoodGhosts};
ghost use Rattle.ttm_base.specs.declared.Actor.{Actor};
ghost use Rattle.journal_model.specs.declared.entry.Kind.{Kind};
ghost use Rattle.journal_model.specs.rules.Next.{next};
ghost use Rattle.laws.specs.law_transparent.NamedPlaces.{NameWhatIsThere};
ghost use Rattle.laws.specs.law_transparent.Spared.{SparesPackets};

/// Every legal journal of a script is transparent: each read and each probe shows the bytes of the plain memory.
pub fn legal_journals_are_transparent()
    ensures { LegalIsTransparent }
{}

/// The journals of the simulator's schedule are transparent, after any number of turns.
pub fn schedules_are_transparent()
    ensures { (script : Script) (n : ℕ) → IsTrue (is_script script) → IsTransparent script (scheduled script n) }
{}

/// The table of each live buffer, its resource out of SYSTEM and its targets in VRAM and TT have as many pages as the buffer was
/// declared with, in spans of a page at least.
pub fn buffers_have_their_pages()
    ensures { (script : Script) (journal : List Entry) (b : BufId) (x : Buffer) → IsTrue (is_script script) → IsLegal script journal
        → live_in (state_of script journal).core.buffers b ≡ Some x → HasItsPages script b x }
{}

/// Ghosts have distinct numbers, none above the last one drawn, and spans of a page at least.
pub fn ghosts_are_numbered()
    ensures { (script : Script) (journal : List Entry) → IsTrue (is_script script) → IsLegal script journal
        → GoodGhosts (state_of script journal).last_ghost (state_of script journal).core.ghosts }
{}

/// Each packet that hasn't run names pages of VRAM and frames that there are, and aperture pages of TT that are mapped to such
/// frames; its ranges lie in their pages, and a probe shows at most 256 bytes.
pub fn packets_name_what_is_there()
    ensures { (script : Script) (journal : List Entry) → IsTrue (is_script script) → IsLegal script journal → NameWhatIsThere script (state_of script journal).core }
{}

/// The aperture pages that an actor's next entry takes away or gives are named by no packet that hasn't run.
pub fn entries_spare_packets()
    ensures { (script : Script) (journal : List Entry) (who : Actor) (kind : Kind) → IsTrue (is_script script) → IsLegal script journal
        → next script (state_of script journal) who ≡ Ok kind → SparesPackets (state_of script journal).core kind }
{}
