//! Laws of address spaces: what the mappings that requests leave say of each page, and what a job by name does.
ghost use Rattle.journal_model.specs.statements.Laws.{RegionsAreTheSpace, RegionsAreDisjoint, RemapsAreFew, NamesAreAddresses};

/// The mappings that requests leave say of each page what the requests say.
pub fn mappings_are_the_space()
    ensures { RegionsAreTheSpace }
{}

/// The mappings that requests leave stand in rising order, and no two have a page in common.
pub fn mappings_are_disjoint()
    ensures { RegionsAreDisjoint }
{}

/// A request leaves parts of at most two mappings.
pub fn remaps_are_few()
    ensures { RemapsAreFew }
{}

/// A job by name leaves in every memory what the job with addresses leaves, and its probes show the same bytes, where no buffer stands in
/// both ranges of a copy or xor.
pub fn names_are_addresses()
    ensures { NamesAreAddresses }
{}
