//! The part on mappings by the CPU: of each peek and poke the pages that it faults.
ghost use Rattle.std.specs.Prelude.{◌≡◌, ℕ, ◌<◌, ◌++◌, ◌&&◌, [], IfOk, OnOk, decimal, flat_map, map, option_map};
ghost use Rattle.std.specs.List.{list_any};
ghost use Rattle.journal_model.specs.statements.Complete.{is_answer, thread_numbers};
ghost use Rattle.journal_model.specs.statements.Complete as complete;
ghost use Rattle.journal_model.specs.rules.Legal.{IsLegal, made_of};
ghost use Rattle.journal_model.specs.marks.Marks as marks;
ghost use Rattle.journal_model.specs.reports.ReportText.{faults_line, maps_part, thread_faults};
ghost use Rattle.journal_model.specs.scripts.Words.{numbers_word};
ghost use Rattle.text_line.specs.Spaced.{behind_each};
ghost use Rattle.map_access.specs.Passing.{Stands};
ghost use Rattle.report_mappings.specs.Faults as words;
ghost use Rattle.report_mappings.specs.Faults.{IsLegalIfMapped, access_in, faults_in, faults_text, mapped_from, paged, seen_after};

use crate::seen::{Seen, leave, meet_pages, seen_at};
use journal_model::{Entry, Kind, MarkKind, Script};
use map_access::{Access, MarkSearch, Standing, access_in, is_by_thread};
use std::alloc::Global;
use text_line::{Line, put_numbered};
use ttm_base::{ItemList, NoMemory};

/// Returns whether a page has no entry. The command numbered `last` met the page last.
fn is_fault(from: Option<u64>, last: u64) -> bool
    ensures { result ≡ words.is_fault from last }
{
    match from {
        None => true,
        Some(from) => last <= from,
    }
}

/// Returns the pages of `access` that have no entry, in rising order.
fn faults_in(
    alloc: Global,
    seen: &Seen,
    from: Option<u64>,
    access: Access,
) -> Result<ItemList<u64>, NoMemory>
    ensures { IfOk result (λ pages. pages ≡ faults_in seen.now from access) }
{
    let mut pages = ItemList::new(alloc);
    for page in access.first..access.end {
        if is_fault(from, seen_at(seen, access.b, page)) {
            pages.push(page)?;
        }
    }
    Ok(pages)
}

/// Puts each of `numbers` into `line`, a comma before it.
fn put_more_numbers(line: &mut Line, numbers: &[u64]) -> Result<(), NoMemory>
    ensures { OnOk result (line.new ≡ line.old ++ behind_each 44 (map decimal numbers.now)) }
{
    for number in numbers {
        line.put_byte(b',')?;
        line.put_number(*number)?;
    }
    Ok(())
}

fn put_numbers(line: &mut Line, numbers: &[u64]) -> Result<(), NoMemory>
    ensures { OnOk result (line.new ≡ line.old ++ numbers_word numbers.now) }
{
    match numbers.split_first() {
        None => line.put_byte(b'-'),
        Some((first, rest)) => {
            line.put_number(*first)?;
            put_more_numbers(line, rest)
        }
    }
}

/// Puts the faults of a thread's command, before which `n` others stand, into `line`.
fn put_line(line: &mut Line, thread: u64, n: u64, faults: &[u64]) -> Result<(), NoMemory>
    requires { n < 18446744073709551615 }
    ensures { OnOk result (line.new ≡ line.old ++ faults_line thread n faults.now) }
{
    put_numbered(line, b't', thread)?;
    line.number(n + 1)?;
    line.word(b"faults")?;
    line.put_byte(b' ')?;
    put_numbers(line, faults)?;
    line.end_line()
}

/// Puts the faults of an entry of the thread, which has answered `n` commands and has the mappings `standing`, into `line`, and makes the changes
/// that the entry makes to the entries of its mappings.
fn put_entry(
    line: &mut Line,
    alloc: Global,
    search: &MarkSearch,
    thread: u64,
    n: u64,
    standing: &Standing,
    seen: &mut Seen,
    entry: &Entry,
) -> Result<(), NoMemory>
    requires few { n < 18446744073709551615 }
    requires standing { Stands search.now thread n standing.now }
    ensures text { OnOk result (line.new ≡ line.old ++ faults_text search.now thread n seen.old (option_map paged (access_in search.now thread n entry.now))) }
    ensures seen { OnOk result ((c i : ℕ) → words.seen_at seen.new c i ≡ seen_after (option_map paged (access_in search.now thread n entry.now)) n entry.now.kind c i (words.seen_at seen.old c i)) }
{
    match access_in(search, thread, n, entry) {
        None => {
            leave(seen, &entry.kind);
            Ok(())
        }
        Some(access) => {
            let from = standing.mapped_from(search, thread, n, access.b);
            let faults = faults_in(alloc, seen, from, access)?;
            put_line(line, thread, n, faults.items())?;
            meet_pages(seen, alloc, access, n + 1)
        }
    }
}

/// Returns whether `entry` answers a command of the thread numbered `thread`.
fn answers(thread: u64, entry: &Entry) -> bool
    ensures { result ≡ (complete.is_by_thread thread entry.now.who && is_answer entry.now.kind) }
{
    is_by_thread(thread, entry.who)
        && matches!(entry.kind, Kind::Result { .. } | Kind::Refused { .. })
}

/// Puts the faults of the thread numbered `thread` into `line`.
fn put_thread_faults(
    line: &mut Line,
    alloc: Global,
    search: &MarkSearch,
    journal: &[Entry],
    thread: u64,
) -> Result<(), NoMemory>
    ensures { OnOk result (IsLegal search.now journal.now → line.new ≡ line.old ++ thread_faults search.now thread [] (made_of search.now journal.now)) }
{
    let mut seen = Seen::new(alloc);
    let mut standing = Standing::new(alloc, search, thread)?;
    let mut answered = 0;
    for entry in journal {
        put_entry(
            line, alloc, search, thread, answered, &standing, &mut seen, entry,
        )?;
        if answers(thread, entry) {
            standing.go_on(search, thread, answered)?;
            answered += 1;
        }
    }
    Ok(())
}

/// Puts the faults of all threads into `line`.
fn put_all_faults(
    line: &mut Line,
    alloc: Global,
    script: &Script,
    journal: &[Entry],
) -> Result<(), NoMemory>
    ensures { OnOk result (IsLegal script.now journal.now → line.new ≡ line.old ++ flat_map (λ t. thread_faults script.now t [] (made_of script.now journal.now)) (thread_numbers script.now)) }
{
    let search = MarkSearch::new(script);
    for index in 0..script.threads.len() {
        put_thread_faults(line, alloc, &search, journal, index as u64 + 1)?;
    }
    Ok(())
}

fn is_map(kind: &MarkKind) -> bool
    ensures { result ≡ marks.is_map kind.now }
{
    matches!(kind, MarkKind::Map { .. })
}

/// Returns whether the script has a line that maps a buffer.
pub fn has_map(script: &Script) -> bool
    ensures { result ≡ list_any (λ m. marks.is_map m.kind) script.now.marks }
{
    script.marks.items().iter().any(|mark| is_map(&mark.kind))
}

/// Puts the report's part on mappings by the CPU into `line`, which is empty where no line maps a buffer. Of a journal that isn't legal it
/// puts some text. It walks the marks once, and passes over the journal once for each thread; each of the thread's answers costs searches by halves
/// among the marks and the time of the lines at the command, or a walk of all marks where these don't stand in order. Its memory is in proportion to
/// the pages that were met and to the buffers that are mapped.
pub fn put_maps(
    line: &mut Line,
    alloc: Global,
    script: &Script,
    journal: &[Entry],
) -> Result<(), NoMemory>
    ensures { OnOk result (IsLegalIfMapped script.now journal.now → line.new ≡ line.old ++ maps_part script.now journal.now) }
{
    if !has_map(script) {
        return Ok(());
    }
    line.put(b"maps\n")?;
    put_all_faults(line, alloc, script, journal)
}
