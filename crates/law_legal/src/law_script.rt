//! The laws that tie the value of a script to its bytes, each as the contract of a function that does nothing. The last speaks
//! of lines.
ghost use Rattle.law_legal.specs.law_script.LineParts.{LinesHaveAllParts};
ghost use Rattle.law_legal.specs.law_script.ScriptLaws.{OneSpelling, OneValue, TakesScripts, ReadsScripts, FaultWhereNoScript};

/// A script has one spelling.
pub fn one_spelling()
    ensures { OneSpelling }
{}

/// Bytes that say a script are its spelling.
pub fn takes_scripts()
    ensures { TakesScripts }
{}

/// The spelling of a script says that script.
pub fn reads_scripts()
    ensures { ReadsScripts }
{}

/// Two scripts never share a spelling.
pub fn one_value()
    ensures { OneValue }
{}

/// Bytes have a first fault exactly where they are the spelling of no script.
pub fn fault_where_no_script()
    ensures { FaultWhereNoScript }
{}

/// A line that breaks no rule has all its parts, so what `with_line` puts in the place of a missing one gets into no script.
pub fn lines_have_all_parts()
    ensures { LinesHaveAllParts }
{}
