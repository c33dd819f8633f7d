//! The rules by which a report is rejected.

ghost use Rattle.std.specs.Prelude.{◌≡◌};
ghost use Rattle.entry_reader.specs.Rules as words;

/// The rule that a report breaks at an entry. Of an entry that breaks several, the one that stands first here is told.
#[derive(Clone, Copy, Debug, PartialEq, Eq)]
pub enum Rule {
    /// The first two lines are `report V`, with the script's version, and `journal M`, with a number of 64 bits; the input has no
    /// more bytes than are looked at.
    Head,
    /// The line of an entry that is counted is there, and is the text of this entry by an actor of the script.
    Line,
    /// The entry is legal next, whatever it shows.
    Step,
    /// The entry shows what it must.
    Shown,
    /// The journal is complete.
    Complete,
    /// What follows the journal is the rest of its report.
    End,
}

impl Rule {
    /// Returns the number that is printed for the rule, from 1 to 6.
    pub fn number(self) -> u32
        ensures { result ≡ words.number_of self }
    {
        match self {
            Rule::Head => 1,
            Rule::Line => 2,
            Rule::Step => 3,
            Rule::Shown => 4,
            Rule::Complete => 5,
            Rule::End => 6,
        }
    }
}
