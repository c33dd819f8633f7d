use super::difference::{Stop, agree_on};
use io_edge::MemSink;
use journal_model::{Entry, Script};
use page_accounts::Accounts;
use report_text::report::{write_journal, write_outcome};
use std::alloc::Global;
use text_line::Line;
use ttm_base::NoMemory;

/// The room for a report, in bytes.
const ROOM: usize = 1 << 22;

/// Writes the report of a device: two legal journals of a script have two reports.
///
/// # Errors
///
/// Lack of memory, and more than 4 MiB.
pub fn report_of(
    alloc: Global,
    script: &Script,
    journal: &[Entry],
    accounts: &Accounts,
) -> Result<MemSink, NoMemory> {
    let mut sink = MemSink::new(alloc, ROOM, ROOM, Vec::new(alloc))?;
    let mut line = Line::new(alloc);
    let entries = write_journal(&mut line, script, journal, &mut sink);
    let outcome = write_outcome(&mut line, script, journal, accounts, &mut sink);
    match entries.and(outcome) {
        Ok(()) => Ok(sink),
        Err(_) => Err(NoMemory),
    }
}

/// Compares two texts, and names the first line in which they differ, from 1.
pub fn compare_texts(one: &[u8], other: &[u8]) -> Result<(), Stop> {
    let mut line = 1u64;
    for at in 0..one.len().min(other.len()) {
        if one[at] != other[at] {
            return agree_on(false, "another report from line ", line);
        }
        line = line.saturating_add(u64::from(one[at] == b'\n'));
    }
    agree_on(one.len() == other.len(), "another report from line ", line)
}
