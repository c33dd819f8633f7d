//! Laws on the texts of legal journals: what each entry tells can be read, and no two journals of a script have one text.
ghost use Rattle.journal_model.specs.statements.Laws.{LegalIsReadable, TextsDiffer};

/// The numbers of each entry are of their fields' types, its bytes are bytes, its spans have pages, and its buffers are declared.
pub fn legal_entries_are_readable()
    ensures { LegalIsReadable }
{}

/// The report of a legal journal is that of no other legal journal of the script.
pub fn legal_reports_have_one_journal()
    ensures { TextsDiffer }
{}
