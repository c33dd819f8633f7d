//! What follows the journal of a report: it is written, and compared.

ghost use Rattle.std.specs.Prelude.{◌≡◌, ◌↔◌, ◌++◌, ◌∷◌, ◌<◌, ◌≤◌, [], Some, IfOk, IsTrue, MatchResult, codes, length, take};
ghost use Rattle.std.specs.Io.KnownBytes.{append_known};
ghost use Rattle.io_edge.specs.Faults.{faults_after};
ghost use Rattle.io_edge.specs.Written.{Writes};
ghost use Rattle.journal_model.specs.rules.Legal.{IsLegal, state_of};
ghost use Rattle.journal_model.specs.reports.ReportText.{report};
ghost use Rattle.journal_model.specs.scripts.ScriptRules.{is_script};
ghost use Rattle.journal_model.specs.scripts.Words.{line as line_of};
ghost use Rattle.report_mappings.specs.Faults.{IsLegalIfMapped};
ghost use Rattle.report_mappings.specs.Requests.{are_in_spaces};
ghost use Rattle.page_accounts.specs.Accounts.{AreAccountsOf};
ghost use Rattle.report_text.specs.Parts.{journal_part, mappings_part, outcome_part};

use crate::parts::same_bytes;
use io_edge::{Failed, Sink, write_all};
use journal_model::{Entry, Script};
use page_accounts::Accounts;
use plain_accounts::accounts_of;
use report_text::WriteFault;
use report_text::report::{write_mappings, write_outcome};
use rules_apply::{apply, first_state};
use std::alloc::Global;
use text_line::Line;
use ttm_base::NoMemory;

/// A sink that keeps a text. It refuses only where memory runs out.
#[derive(Drop)]
struct TextSink {
    bytes: Vec<u8>,
    faults: u64,
}

impl Sink for TextSink {
    ghost use Rattle.std.specs.Prelude.{Some};

    ghost written = { λ s. Some s.bytes.items };

    ghost broken = { λ _. 0 };

    ghost faults = { λ s. s.faults };

    #[tactic(auto, using(crate::proofs::TailLaws::whole_piece))]
    fn write(&mut self, piece: &[u8]) -> Result<usize, Failed> {
        match self.bytes.extend_from_slice(piece) {
            Ok(()) => Ok(piece.len()),
            Err(_) => {
                self.faults = self.faults.saturating_add(1);
                Err(Failed)
            }
        }
    }
}

/// Writes what follows the entries of a report to `sink`.
fn write_tail<K: Sink>(
    alloc: Global,
    script: &Script,
    journal: &[Entry],
    accounts: &Accounts,
    sink: &mut K,
) -> Result<(), WriteFault>
    requires requests { IsTrue (are_in_spaces script.now) }
    requires legal { IsLegalIfMapped script.now journal.now }
    ensures { Writes result (K.written sink.old) (K.written sink.new) ((outcome_part script.now journal.now accounts.now ++ mappings_part script.now journal.now) ++ line_of (codes "end" ∷ [])) }
{
    let mut line = Line::new(alloc);
    write_outcome(&mut line, script, journal, accounts, sink)?;
    write_mappings(&mut line, alloc, script, journal, sink)?;
    write_all(sink, b"end\n")?;
    Ok(())
}

/// Counts what the state after a legal `journal` holds, by making its entries.
fn accounts_after(alloc: Global, script: &Script, journal: &[Entry]) -> Result<Accounts, NoMemory>
    requires fits { IsTrue (is_script script.now) }
    requires legal { IsLegal script.now journal.now }
    ensures { IfOk result (AreAccountsOf script.now (state_of script.now journal.now).core) }
{
    let mut state = first_state(alloc, script)?;
    for entry in journal {
        apply(&mut state, alloc, script, entry)?;
    }
    accounts_of(alloc, script, &state)
}

/// Makes the text that follows the entries in the report of `journal`.
fn tail_of(
    alloc: Global,
    script: &Script,
    journal: &[Entry],
    accounts: &Accounts,
) -> Result<Vec<u8>, NoMemory>
    requires requests { IsTrue (are_in_spaces script.now) }
    requires legal { IsLegalIfMapped script.now journal.now }
    requires accounts { AreAccountsOf script.now (state_of script.now journal.now).core accounts.now }
    ensures { IfOk result (λ tail. journal_part script.now journal.now ++ tail.items ≡ report script.now journal.now) }
{
    let bytes = Vec::new(alloc);
    let mut sink = TextSink { bytes, faults: 0 };
    match write_tail(alloc, script, journal, accounts, &mut sink) {
        Ok(()) => Ok(sink.bytes),
        Err(_) => Err(NoMemory),
    }
}

/// Returns whether `tail` is what follows the entries in the report of a legal `journal` of `script`. The entries are made again, without
/// the rules that a check of them asks; the report's end is made in memory of its length.
///
/// # Errors
///
/// Fails only where memory runs out.
pub fn tail_is(
    alloc: Global,
    script: &Script,
    journal: &[Entry],
    tail: &[u8],
) -> Result<bool, NoMemory>
    requires fits { IsTrue (is_script script.now) }
    requires legal { IsLegal script.now journal.now }
    ensures { IfOk result (λ is. IsTrue is ↔ (journal_part script.now journal.now ++ tail.now ≡ report script.now journal.now)) }
{
    let accounts = accounts_after(alloc, script, journal)?;
    let right = tail_of(alloc, script, journal, &accounts)?;
    Ok(same_bytes(right.as_slice(), tail))
}
