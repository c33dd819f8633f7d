//! The law that the aperture keeps what jobs at work name.
ghost use Rattle.journal_model.specs.statements.Laws.{LegalSparesJobs};

/// No entry of a legal journal takes from the aperture, or gives to it, a page that an unfinished job names, by packets that have run or not.
pub fn entries_spare_jobs()
    ensures { LegalSparesJobs }
{}
