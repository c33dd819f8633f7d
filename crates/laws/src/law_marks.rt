//! Laws on marks and versions: marks change nothing of what happens, and the version changes the first line of a report alone.
ghost use Rattle.journal_model.specs.statements.MarkLaws.{MarksChangeNothing, ReportsAgree};

/// A script and the same without marks have the same legal journals.
pub fn marks_change_nothing()
    ensures { MarksChangeNothing }
{}

/// In both versions of a script a journal has the same report but for the first line.
pub fn reports_agree()
    ensures { ReportsAgree }
{}
