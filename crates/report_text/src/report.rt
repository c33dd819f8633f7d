ghost use Rattle.std.specs.Prelude.{◌≡◌, ◌+◌, ◌++◌, ◌∷◌, ◌||◌, [], codes, decimal, drop, flat_map, filter_map, is_some, length, unwrap_or, IsTrue, OnOk};
ghost use Rattle.std.specs.List.{enumerate_from, list_any};
ghost use Rattle.io_edge.specs.Lines.{is_line};
ghost use Rattle.io_edge.specs.Written.{Writes};
ghost use Rattle.journal_model.specs.marks.Marks.{is_map, is_vmap};
ghost use Rattle.journal_model.specs.scripts.Words.{line as line_of, thread_word};
ghost use Rattle.journal_model.specs.reports.EntryText.{entry_line};
ghost use Rattle.journal_model.specs.reports.ReportText.{account_line, account_lines, answer_line, answer_of, answer_words, report, thread_results};
ghost use Rattle.journal_model.specs.statements.Complete.{is_by_thread, thread_numbers};
ghost use Rattle.journal_model.specs.rules.Legal.{state_of};
ghost use Rattle.page_accounts.specs.Accounts.{AreAccountsOf, as_account};
ghost use Rattle.report_mappings.specs.Faults.{IsLegalIfMapped};
ghost use Rattle.report_mappings.specs.Requests.{are_in_spaces};
ghost use Rattle.report_text.specs.Lines as lines;
ghost use Rattle.report_text.specs.Lines.{are_lines, breaks};
ghost use Rattle.report_text.specs.Parts.{four_lines, journal_part, mappings_part, outcome_part};
ghost use Rattle.text_line.specs.Spaced.{spaced_out};
ghost use Rattle.report_text.specs.WriteFault.{faults_after_writing};

use crate::entry::{make_entry_line, put_answer};
use io_edge::{Failed, Sink, write_all};
use journal_model::{Entry, Kind, Script, Sizes};
use page_accounts::{Account, Accounts};
use report_mappings::{has_map, has_vmap, put_maps, put_spaces};
use script_words::cut::len_of_line;
use std::alloc::Global;
use text_line::{Line, put_numbered};
use ttm_base::{Actor, NoMemory};

/// The reason why not all of a report was written.
#[derive(Clone, Copy, Debug, PartialEq, Eq)]
pub enum WriteFault {
    Failed,
    NoMemory,
}

impl From<Failed> for WriteFault {
    ghost use Rattle.report_text.specs.declared.report.WriteFault.TheVariants as write_fault;

    ghost from_gives = { λ _ e. e ≡ write_fault.Failed };

    fn from(_: Failed) -> WriteFault {
        WriteFault::Failed
    }
}

impl From<NoMemory> for WriteFault {
    ghost use Rattle.report_text.specs.declared.report.WriteFault.TheVariants as write_fault;

    ghost from_gives = { λ _ e. e ≡ write_fault.NoMemory };

    fn from(_: NoMemory) -> WriteFault {
        WriteFault::NoMemory
    }
}

/// Writes each line of `text` as a piece of its own.
fn write_lines<K: Sink>(text: &[u8], sink: &mut K) -> Result<(), WriteFault>
    requires { IsTrue (are_lines text.now) }
    ensures text { Writes result (K.written sink.old) (K.written sink.new) text.now }
    ensures faults { K.faults sink.new ≡ faults_after_writing result (K.faults sink.old) }
    ensures lines { K.broken sink.new ≡ K.broken sink.old }
{
    let mut at = 0;
    while at < text.len() {
        let (_, behind) = text.split_at(at);
        let (line, _) = behind.split_at(len_of_line(behind));
        write_all(sink, line)?;
        at += line.len();
    }
    Ok(())
}

/// Writes a line as one piece.
fn write_line<K: Sink>(line: &[u8], sink: &mut K) -> Result<(), WriteFault>
    requires { IsTrue (is_line line.now) }
    ensures text { Writes result (K.written sink.old) (K.written sink.new) line.now }
    ensures faults { K.faults sink.new ≡ faults_after_writing result (K.faults sink.old) }
    ensures lines { K.broken sink.new ≡ K.broken sink.old }
{
    write_all(sink, line)?;
    Ok(())
}

fn breaks(text: &[u8]) -> bool
    ensures { result ≡ breaks text.now }
{
    text.iter().any(|byte| *byte == b'\n')
}

/// Returns whether a declared name has a line feed, as none has that was read. Where none has, each entry is one line.
fn names_break(script: &Script) -> bool
    ensures { result ≡ lines.names_break script.now }
{
    let buffers = script.buffers.items();
    buffers.iter().any(|decl| breaks(decl.name.items()))
}

/// Writes the line of `entry`. `names_break` tells whether it may be several.
fn write_entry<K: Sink>(
    line: &mut Line,
    script: &Script,
    names_break: bool,
    number: u64,
    entry: &Entry,
    sink: &mut K,
) -> Result<(), WriteFault>
    requires { names_break ≡ lines.names_break script.now }
    ensures text { Writes result (K.written sink.old) (K.written sink.new) (entry_line script.now (number, entry.now)) }
    ensures faults { K.faults sink.new ≡ faults_after_writing result (K.faults sink.old) }
    ensures lines { K.broken sink.new ≡ K.broken sink.old }
{
    make_entry_line(line, script, number, entry)?;
    if names_break {
        write_lines(line.bytes(), sink)
    } else {
        write_line(line.bytes(), sink)
    }
}

fn write_entries<K: Sink>(
    line: &mut Line,
    script: &Script,
    journal: &[Entry],
    sink: &mut K,
) -> Result<(), WriteFault>
    ensures text { Writes result (K.written sink.old) (K.written sink.new) (flat_map (entry_line script.now) (enumerate_from 1 journal.now)) }
    ensures faults { K.faults sink.new ≡ faults_after_writing result (K.faults sink.old) }
    ensures lines { K.broken sink.new ≡ K.broken sink.old }
{
    let names_break = names_break(script);
    for (i, entry) in journal.iter().enumerate() {
        write_entry(line, script, names_break, i as u64 + 1, entry, sink)?;
    }
    Ok(())
}

/// Writes a line of `word`.
fn write_heading<K: Sink>(line: &mut Line, word: &[u8], sink: &mut K) -> Result<(), WriteFault>
    ensures text { Writes result (K.written sink.old) (K.written sink.new) (line_of (word.now ∷ [])) }
    ensures faults { K.faults sink.new ≡ faults_after_writing result (K.faults sink.old) }
    ensures lines { K.broken sink.new ≡ K.broken sink.old }
{
    make_heading(line, word)?;
    write_lines(line.bytes(), sink)
}

fn make_heading(line: &mut Line, word: &[u8]) -> Result<(), NoMemory>
    ensures { OnOk result (line.new ≡ line_of (word.now ∷ [])) }
{
    line.clear();
    line.put(word)?;
    line.end_line()
}

/// Writes a line of `word` and `number`.
fn write_count<K: Sink>(
    line: &mut Line,
    word: &[u8],
    number: u64,
    sink: &mut K,
) -> Result<(), WriteFault>
    ensures text { Writes result (K.written sink.old) (K.written sink.new) (line_of (word.now ∷ decimal number ∷ [])) }
    ensures faults { K.faults sink.new ≡ faults_after_writing result (K.faults sink.old) }
    ensures lines { K.broken sink.new ≡ K.broken sink.old }
{
    make_count(line, word, number)?;
    write_lines(line.bytes(), sink)
}

fn make_count(line: &mut Line, word: &[u8], number: u64) -> Result<(), NoMemory>
    ensures { OnOk result (line.new ≡ line_of (word.now ∷ decimal number ∷ [])) }
{
    line.clear();
    line.put(word)?;
    line.number(number)?;
    line.end_line()
}

/// Returns whether `entry` answers a command of the thread numbered `thread`.
fn answers(thread: u64, entry: &Entry) -> bool
    ensures { result ≡ is_some (answer_of thread entry.now) }
{
    is_by_thread(thread, entry.who) && is_answer(&entry.kind)
}

fn is_by_thread(thread: u64, who: Actor) -> bool
    ensures { result ≡ is_by_thread thread who }
{
    match who {
        Actor::Thread(t) => u64::from(t) == thread,
        Actor::Engine(_) | Actor::Reaper => false,
    }
}

fn is_answer(kind: &Kind) -> bool
    ensures { result ≡ is_some (answer_words kind.now) }
{
    matches!(kind, Kind::Result { .. } | Kind::Refused { .. })
}

/// Writes the line of an answer, the one numbered `number` of its thread.
fn write_answer<K: Sink>(
    line: &mut Line,
    thread: u64,
    number: u64,
    kind: &Kind,
    sink: &mut K,
) -> Result<(), WriteFault>
    ensures text { Writes result (K.written sink.old) (K.written sink.new) (answer_line thread (number, unwrap_or (answer_words kind.now) [])) }
    ensures faults { K.faults sink.new ≡ faults_after_writing result (K.faults sink.old) }
    ensures lines { K.broken sink.new ≡ K.broken sink.old }
{
    make_answer_line(line, thread, number, kind)?;
    write_line(line.bytes(), sink)
}

fn make_answer_line(line: &mut Line, thread: u64, number: u64, kind: &Kind) -> Result<(), NoMemory>
    ensures { OnOk result (line.new ≡ answer_line thread (number, unwrap_or (answer_words kind.now) [])) }
{
    line.clear();
    put_numbered(line, b't', thread)?;
    line.number(number)?;
    put_answer(line, kind)?;
    line.end_line()
}

fn write_thread_results<K: Sink>(
    line: &mut Line,
    thread: u64,
    journal: &[Entry],
    sink: &mut K,
) -> Result<(), WriteFault>
    ensures text { Writes result (K.written sink.old) (K.written sink.new) (thread_results journal.now thread) }
    ensures faults { K.faults sink.new ≡ faults_after_writing result (K.faults sink.old) }
    ensures lines { K.broken sink.new ≡ K.broken sink.old }
{
    let mut number = 1;
    for entry in journal {
        if answers(thread, entry) {
            write_answer(line, thread, number, &entry.kind, sink)?;
            number += 1;
        }
    }
    Ok(())
}

fn write_results<K: Sink>(
    line: &mut Line,
    script: &Script,
    journal: &[Entry],
    sink: &mut K,
) -> Result<(), WriteFault>
    ensures text { Writes result (K.written sink.old) (K.written sink.new) (flat_map (thread_results journal.now) (thread_numbers script.now)) }
    ensures faults { K.faults sink.new ≡ faults_after_writing result (K.faults sink.old) }
    ensures lines { K.broken sink.new ≡ K.broken sink.old }
{
    for index in 0..script.threads.len() {
        write_thread_results(line, index as u64 + 1, journal, sink)?;
    }
    Ok(())
}

fn write_account<K: Sink>(
    line: &mut Line,
    name: &[u8],
    size: u32,
    account: &Account,
    sink: &mut K,
) -> Result<(), WriteFault>
    ensures text { Writes result (K.written sink.old) (K.written sink.new) (account_line name.now size (as_account account.now)) }
    ensures faults { K.faults sink.new ≡ faults_after_writing result (K.faults sink.old) }
    ensures lines { K.broken sink.new ≡ K.broken sink.old }
{
    make_account_line(line, name, size, account)?;
    write_lines(line.bytes(), sink)
}

/// Puts a space, `word`, another space and `number` into `line`.
fn put_word_and_number(line: &mut Line, word: &[u8], number: u64) -> Result<(), NoMemory>
    ensures { OnOk result (line.new ≡ line.old ++ spaced_out (word.now ∷ decimal number ∷ [])) }
{
    line.word(word)?;
    line.number(number)
}

fn make_account_line(
    line: &mut Line,
    name: &[u8],
    size: u32,
    account: &Account,
) -> Result<(), NoMemory>
    ensures { OnOk result (line.new ≡ account_line name.now size (as_account account.now)) }
{
    line.clear();
    line.put(name)?;
    put_word_and_number(line, b"size", u64::from(size))?;
    put_word_and_number(line, b"free", account.free)?;
    put_word_and_number(line, b"live", account.live)?;
    put_word_and_number(line, b"target", account.target)?;
    put_word_and_number(line, b"ghost", account.ghosts)?;
    line.end_line()
}

fn write_accounts<K: Sink>(
    line: &mut Line,
    sizes: &Sizes,
    accounts: &Accounts,
    sink: &mut K,
) -> Result<(), WriteFault>
    ensures text { Writes result (K.written sink.old) (K.written sink.new) (four_lines sizes.now accounts.now) }
    ensures faults { K.faults sink.new ≡ faults_after_writing result (K.faults sink.old) }
    ensures lines { K.broken sink.new ≡ K.broken sink.old }
{
    write_account(line, b"vram", sizes.vram, &accounts.vram, sink)?;
    write_account(line, b"tt", sizes.tt, &accounts.tt, sink)?;
    write_account(line, b"frames", sizes.frames, &accounts.frames, sink)?;
    write_account(line, b"swap", sizes.swap, &accounts.swap, sink)
}

/// Writes the parts of a report before the results to `sink`: its head and the entries.
pub fn write_journal<K: Sink>(
    line: &mut Line,
    script: &Script,
    journal: &[Entry],
    sink: &mut K,
) -> Result<(), WriteFault>
    ensures text { Writes result (K.written sink.old) (K.written sink.new) (journal_part script.now journal.now) }
    ensures faults { K.faults sink.new ≡ faults_after_writing result (K.faults sink.old) }
    ensures lines { K.broken sink.new ≡ K.broken sink.old }
{
    write_count(line, b"report", script.version as u64, sink)?;
    write_count(line, b"journal", journal.len() as u64, sink)?;
    write_entries(line, script, journal, sink)
}

/// Writes the parts of a report after the entries to `sink`: the results and the accounts.
pub fn write_outcome<K: Sink>(
    line: &mut Line,
    script: &Script,
    journal: &[Entry],
    accounts: &Accounts,
    sink: &mut K,
) -> Result<(), WriteFault>
    ensures text { Writes result (K.written sink.old) (K.written sink.new) (outcome_part script.now journal.now accounts.now) }
    ensures faults { K.faults sink.new ≡ faults_after_writing result (K.faults sink.old) }
    ensures lines { K.broken sink.new ≡ K.broken sink.old }
{
    write_heading(line, b"results", sink)?;
    write_results(line, script, journal, sink)?;
    write_heading(line, b"accounts", sink)?;
    write_accounts(line, &script.sizes, accounts, sink)
}

/// Returns whether the script maps a buffer, or pages of an address space.
fn has_mappings(script: &Script) -> bool
    ensures { result ≡ (list_any (λ m. is_map m.kind) script.now.marks || list_any (λ m. is_vmap m.kind) script.now.marks) }
{
    has_map(script) || has_vmap(script)
}

/// Makes `line` the text of the report's parts on mappings.
fn make_mappings(
    line: &mut Line,
    alloc: Global,
    script: &Script,
    journal: &[Entry],
) -> Result<(), NoMemory>
    requires requests { IsTrue (are_in_spaces script.now) }
    requires legal { IsLegalIfMapped script.now journal.now }
    ensures { OnOk result (line.new ≡ mappings_part script.now journal.now) }
{
    line.clear();
    put_maps(line, alloc, script, journal)?;
    put_spaces(line, alloc, script)
}

/// Writes the parts of a report that follow the accounts, if the script has mappings: the faults of the CPU's mappings, and the steps of
/// address spaces.
pub fn write_mappings<K: Sink>(
    line: &mut Line,
    alloc: Global,
    script: &Script,
    journal: &[Entry],
    sink: &mut K,
) -> Result<(), WriteFault>
    requires requests { IsTrue (are_in_spaces script.now) }
    requires legal { IsLegalIfMapped script.now journal.now }
    ensures text { Writes result (K.written sink.old) (K.written sink.new) (mappings_part script.now journal.now) }
    ensures faults { K.faults sink.new ≡ faults_after_writing result (K.faults sink.old) }
    ensures lines { K.broken sink.new ≡ K.broken sink.old }
{
    if !has_mappings(script) {
        return Ok(());
    }
    make_mappings(line, alloc, script, journal)?;
    write_lines(line.bytes(), sink)
}

/// Writes the report of a journal, each line as a piece of its own. `accounts` are those of the state after the journal. After an error a
/// prefix of the report was written, and not all.
///
/// # Errors
///
/// `Failed` where the sink failed, `NoMemory` where memory runs out.
pub fn write_report<K: Sink>(
    alloc: Global,
    script: &Script,
    journal: &[Entry],
    accounts: &Accounts,
    sink: &mut K,
) -> Result<(), WriteFault>
    requires requests { IsTrue (are_in_spaces script.now) }
    requires legal { IsLegalIfMapped script.now journal.now }
    requires accounts { AreAccountsOf script.now (state_of script.now journal.now).core accounts.now }
    ensures text { Writes result (K.written sink.old) (K.written sink.new) (report script.now journal.now) }
    ensures faults { K.faults sink.new ≡ faults_after_writing result (K.faults sink.old) }
    ensures lines { K.broken sink.new ≡ K.broken sink.old }
{
    let mut line = Line::new(alloc);
    write_journal(&mut line, script, journal, sink)?;
    write_outcome(&mut line, script, journal, accounts, sink)?;
    write_mappings(&mut line, alloc, script, journal, sink)?;
    write_heading(&mut line, b"end", sink)
}
