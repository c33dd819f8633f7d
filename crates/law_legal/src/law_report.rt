//! The law that a report has one journal, as the contract of a function that does nothing.
ghost use Rattle.law_legal.specs.law_report.ReportLaw.{OneJournal};

/// Two journals of a script never share a report, where their values are of their types, their spans have pages, and their
/// buffers are declared.
pub fn one_journal()
    ensures { OneJournal }
{}
