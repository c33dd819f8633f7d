//! What an input comes to.

ghost use Rattle.std.specs.Prelude.{◌≡◌, IfOk, IsTrue, OnErr};
ghost use Rattle.journal_model.specs.scripts.ScriptRules.{is_script};
ghost use Rattle.program_edges.specs.Edges.{Edge};
ghost use Rattle.check_program.specs.Finds.{Finds, FindsIn, FindsReport, status_of};

use crate::split::len_of_script;
use io_edge::{ReadFault, Source, read_all};
use journal_model::Script;
use program_edges::Status;
use report_text::Rule;
use report_verdict::{Ending, judge};
use script_text::{ScriptFault, read_script};
use std::alloc::Global;
use ttm_base::NoMemory;
use ttm_base::limits::MAX_CHECK_BYTES;

/// What a script and a report come to.
#[derive(Clone, Copy)]
pub enum Finding {
    /// A read failed.
    ReadFault,
    /// What should be the script isn't one: the first broken line, and on it the least broken rule.
    BadScript { line: u32, rule: u32 },
    /// The report is that of a legal, complete journal of the script.
    Accepted,
    /// The report isn't that of a legal, complete journal of the script: the first entry that isn't as it should be, and the first rule
    /// that it breaks.
    Rejected { entry: u64, rule: Rule },
}

impl Finding {
    /// Returns the status with which the program ends if the verdict is written.
    pub fn status(self) -> Status
        ensures { result ≡ status_of self }
    {
        match self {
            Finding::ReadFault => Status::ReadFault,
            Finding::BadScript { .. } => Status::BadScript,
            Finding::Accepted => Status::Done,
            Finding::Rejected { .. } => Status::Rejected,
        }
    }
}

/// Returns what the report of a script comes to.
fn judged(alloc: Global, script: &Script, report: &[u8]) -> Result<Finding, NoMemory>
    requires fits { IsTrue (is_script script.now) }
    ensures { IfOk result (FindsReport script.now report.now) }
{
    match judge(alloc, script, report)? {
        Ending::Accepted => Ok(Finding::Accepted),
        Ending::Rejected { entry, rule } => Ok(Finding::Rejected { entry, rule }),
    }
}

/// Returns what `bytes` come to: a script, and a report after it.
///
/// # Errors
///
/// Lack of memory.
pub fn finding_in(alloc: Global, bytes: &[u8]) -> Result<Finding, NoMemory>
    ensures { IfOk result (FindsIn bytes.now) }
{
    let (front, behind) = bytes.split_at(len_of_script(bytes));
    match read_script(alloc, front) {
        Ok(script) => judged(alloc, &script, behind),
        Err(ScriptFault::Bad { line, rule }) => Ok(Finding::BadScript { line, rule }),
        Err(ScriptFault::NoMemory) => Err(NoMemory),
    }
}

/// Reads all bytes of `source`, at most one more than are looked at, and returns what they come to.
pub fn read_finding<S: Source>(alloc: Global, source: &mut S) -> Result<Finding, NoMemory>
    ensures finds { IfOk result (Finds (record { before = S.left source.old; after = S.left source.new; faults_before = S.faults source.old; faults_after = S.faults source.new })) }
    ensures faults { OnErr result (S.faults source.new ≡ S.faults source.old) }
{
    match read_all(alloc, source, MAX_CHECK_BYTES) {
        Ok(bytes) => finding_in(alloc, bytes.as_slice()),
        Err(ReadFault::TooLong) => Ok(Finding::Rejected {
            entry: 0,
            rule: Rule::Head,
        }),
        Err(ReadFault::Failed) => Ok(Finding::ReadFault),
        Err(ReadFault::NoMemory) => Err(NoMemory),
    }
}
