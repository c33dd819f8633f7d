//! Laws on what `check` tells, each as the contract of a function that does nothing.

ghost use Rattle.check_program.specs.Exact.{ReportsAreValid, VerdictsAreExact};

/// By what is promised of the word `check` (`EndsChecked`): where no read or write fails and memory suffices, `check` tells that bytes are
/// a script and a valid report exactly where they are, and where they aren't, it names the one entry and the one rule.
pub fn verdicts_are_exact()
    ensures { VerdictsAreExact }
{}

/// Where no read or write fails and memory suffices, `check` tells that a script with the report of a legal, complete journal after it is
/// valid.
pub fn reports_are_valid()
    ensures { ReportsAreValid }
{}
