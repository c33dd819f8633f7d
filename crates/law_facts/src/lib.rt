//! The facts on which transparency rests, as laws of every legal journal, and what marks leave alone. Each is the contract of a function
//! that does nothing.
#![tactic(auto)]

ghost use Rattle.law_facts.specs.Facts.{LegalJobsAreInOrder, LegalPlacesAreFenced, LegalTargetsAreFenced, LegalConflictsWait, LegalReadyJobsMayRun};
ghost use Rattle.law_facts.specs.Facts.{LegalGhostsAreFenced, LegalFreePagesAreFenced, LegalMappingsStay};
ghost use Rattle.journal_model.specs.statements.MarkLaws.{MarksTellNothing, MarksTurnNothing};

/// Where a job comes after another, by its context or by the waits of the state, and is done, the other is done; and a job waits only for
/// jobs that were emitted before it.
pub fn jobs_are_in_order()
    ensures { LegalJobsAreInOrder }
{}

/// An unfinished job that touches a place of a live buffer is a job of the buffer, as KERNEL or WRITE where it writes the place; or an
/// unfinished KERNEL job of the buffer comes after it.
pub fn places_are_fenced()
    ensures { LegalPlacesAreFenced }
{}

/// An unfinished job that touches a page of a target in VRAM is a KERNEL job of the buffer, or an unfinished one comes after it; and it is
/// the move job of VRAM, or that one comes after it and is unfinished too.
pub fn targets_are_fenced()
    ensures { LegalTargetsAreFenced }
{}

/// Of two jobs whose packets that haven't run are in conflict the later waits for the earlier, or for a job that comes after that one.
pub fn conflicts_wait()
    ensures { LegalConflictsWait }
{}

/// A job whose waits are all done is in conflict with no unfinished job that was emitted before it, so its packets may run at once.
pub fn ready_jobs_may_run()
    ensures { LegalReadyJobsMayRun }
{}

/// An unfinished job that touches a page of VRAM or a frame of a ghost is a job of the ghost, or an unfinished job of the ghost comes after
/// it.
pub fn ghosts_are_fenced()
    ensures { LegalGhostsAreFenced }
{}

/// An unfinished job that touches a free page of VRAM is the move job of VRAM, or that one comes after it and is unfinished too. No
/// unfinished job touches a free frame, or a frame in the table of a buffer in VRAM.
pub fn free_pages_are_fenced()
    ensures { LegalFreePagesAreFenced }
{}

/// An aperture page that an unfinished job names, by packets that have run or not, is mapped to the frame to which it was mapped when the
/// job was emitted, and ever since.
pub fn mappings_stay()
    ensures { LegalMappingsStay }
{}

/// A script and the same without marks say the same of each journal: whether it is transparent, whether it is complete, and whether what
/// gives up has its cause.
pub fn marks_tell_nothing()
    ensures { MarksTellNothing }
{}

/// The simulator makes the same journal of a script and of the same without marks.
pub fn marks_turn_nothing()
    ensures { MarksTurnNothing }
{}
