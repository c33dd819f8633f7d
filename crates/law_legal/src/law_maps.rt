//! Laws on mappings of buffers by the CPU: what they know is so, since they forget the pages that leave.
ghost use Rattle.journal_model.specs.statements.MarkLaws.{LegalMapsAreRight};
ghost use Rattle.law_legal.specs.law_maps.Following.{EntriesGoWithTheirPages, EntriesGoWithTheirMapping};

/// Where areas have the entries that a journal gives a mapping, they have them after one more entry that isn't an answer, once the call
/// that it asks for is done.
pub fn entries_go_with_their_pages()
    ensures { EntriesGoWithTheirPages }
{}

/// Once a mapping has ended, and was unmapped, its area has the entries that the journal gives it: none.
pub fn entries_go_with_their_mapping()
    ensures { EntriesGoWithTheirMapping }
{}

/// After every legal journal of a script an entry of a mapping names the place that its buffer's page has.
pub fn legal_maps_are_right()
    ensures { LegalMapsAreRight }
{}
