//! What comes of a report.

ghost use Rattle.std.specs.Prelude.{◌≡◌, IfOk, IsTrue};
ghost use Rattle.journal_model.specs.scripts.ScriptRules.{is_script};
ghost use Rattle.entry_reader.specs.Parsing.{IsParsed};
ghost use Rattle.report_verdict.specs.Ends.{Ends};

use journal_model::Script;
use report_check::{Verdict, check, tail_is};
use report_text::{Parsed, ReportBad, Rule, read_report};
use std::alloc::Global;
use ttm_base::NoMemory;

/// What comes of a report.
#[derive(Clone, Copy)]
pub enum Ending {
    /// The report is that of a legal, complete journal.
    Accepted,
    /// The report isn't that of a legal, complete journal: `entry` is the first that isn't as it should be, and `rule` the first that it
    /// breaks. Entry 0 stands for the first two lines, the one after the last for what follows the journal.
    Rejected { entry: u64, rule: Rule },
}

/// Judges a report by what was read of it: an entry that was read and isn't legal next comes first, then the line at which reading
/// ended, then what is missing of the journal, then what follows it.
fn judge_parsed(
    alloc: Global,
    script: &Script,
    text: &[u8],
    parsed: &Parsed,
) -> Result<Ending, NoMemory>
    requires fits { IsTrue (is_script script.now) }
    requires read { IsParsed script.now text.now parsed.now }
    ensures { IfOk result (Ends script.now text.now) }
{
    let journal = parsed.entries.items();
    let verdict = check(alloc, script, journal)?;
    if let Verdict::Bad { entry, rule } = verdict {
        return Ok(Ending::Rejected { entry, rule });
    }
    if let Some(ReportBad { entry, rule }) = parsed.bad {
        return Ok(Ending::Rejected { entry, rule });
    }
    let entry = journal.len() as u64 + 1;
    if let Verdict::Incomplete = verdict {
        let rule = Rule::Complete;
        return Ok(Ending::Rejected { entry, rule });
    }
    let (_, tail) = text.split_at(parsed.rest);
    if tail_is(alloc, script, journal, tail)? {
        Ok(Ending::Accepted)
    } else {
        let rule = Rule::End;
        Ok(Ending::Rejected { entry, rule })
    }
}

/// Judges the report `text` of `script`: reads its entries, checks that they are a legal and complete journal, and compares what
/// follows them with the end of that journal's report.
///
/// # Errors
///
/// Fails only where memory runs out.
pub fn judge(alloc: Global, script: &Script, text: &[u8]) -> Result<Ending, NoMemory>
    requires fits { IsTrue (is_script script.now) }
    ensures { IfOk result (Ends script.now text.now) }
{
    let parsed = read_report(alloc, script, text)?;
    judge_parsed(alloc, script, text, &parsed)
}
