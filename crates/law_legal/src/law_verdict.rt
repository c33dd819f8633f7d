//! Laws on the verdict on a report, each as the contract of a function that does nothing.
ghost use Rattle.law_legal.specs.law_verdict.VerdictLaws.{AcceptedIsNotRejected, RejectedOnce, ReportsAreAccepted, ScriptsAreCutOff, CutReportsAreAccepted};

/// No text is both accepted and rejected as the report of a script, and one that is rejected is so at one entry by one rule.
pub fn texts_have_one_verdict()
    ensures apart { AcceptedIsNotRejected }
    ensures once { RejectedOnce }
{}

/// The report of each legal, complete journal of a script is accepted.
pub fn complete_reports_are_accepted()
    ensures { ReportsAreAccepted }
{}

/// A script with a text after it is cut into these two again; so a script with the report of a legal, complete journal after it is a
/// script and an accepted report of it.
pub fn reports_behind_their_script_are_accepted()
    ensures cut { ScriptsAreCutOff }
    ensures accepted { CutReportsAreAccepted }
{}
