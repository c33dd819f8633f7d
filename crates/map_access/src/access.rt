//! Which entries are results of peeks and pokes, and the mappings through which they go.
ghost use Rattle.std.specs.Prelude.{◌≡◌, Some, ◌+◌, ◌/◌, ◌<◌, find, option_copied, option_map, slice_get};
ghost use Rattle.std.specs.List.{list_any};
ghost use Rattle.std.specs.Option.{is_some};
ghost use Rattle.journal_model.specs.rules.Commands.{commands_of};
ghost use Rattle.journal_model.specs.statements.Complete as complete;
ghost use Rattle.journal_model.specs.marks.Marks as marks;
ghost use Rattle.journal_model.specs.marks.Mapped as words;
ghost use Rattle.journal_model.specs.marks.Mapped.{is_through, mapping_of, mappings_in};
ghost use Rattle.map_access.specs.Accesses.{access_in, has_ended_by, is_way_of, mapped_from, paged};

use crate::search::MarkSearch;
use journal_model::{Command, Entry, Kind, Mark, MarkKind, Script};
use ttm_base::limits::PAGE_BYTES;
use ttm_base::{Actor, BufId};

/// The size of a page in bytes.
const PAGE: u64 = PAGE_BYTES as u64;

/// Pages of a buffer that a command reads or writes: the first, and the one after the last.
#[derive(Clone, Copy)]
pub struct Access {
    pub b: BufId,
    pub first: u64,
    pub end: u64,
}

/// Returns the page after the last one of the range of `len` bytes from `off` on.
#[tactic(auto, using(crate::proofs::Pages::end_by_parts))]
fn end_of_range(off: u64, len: u64) -> u64
    requires { off < 4294967296 }
    ensures { result ≡ (off + len + 4095) / 4096 }
{
    off / PAGE + len / PAGE + (off % PAGE + len % PAGE + PAGE - 1) / PAGE
}

/// Returns the pages of the range of `len` bytes of buffer `b` from `off` on.
fn paged(b: BufId, off: u32, len: u64) -> Access
    ensures { result ≡ paged (record { b = b; off = off; len = len }) }
{
    let off = u64::from(off);
    Access {
        b,
        first: off / PAGE,
        end: end_of_range(off, len),
    }
}

/// Returns the pages that `command` reads or writes, or None where it does neither.
fn access_of(command: &Command) -> Option<Access>
    ensures { result ≡ option_map paged (words.access_of command.now) }
{
    match command {
        Command::Read { b, off, len } => Some(paged(*b, *off, u64::from(*len))),
        Command::Write { b, off, bytes } => Some(paged(*b, *off, bytes.len() as u64)),
        _ => None,
    }
}

/// Returns the command of `thread` that follows `n` others, or None where there is none.
fn command_at(script: &Script, thread: u64, n: u64) -> Option<&Command>
    ensures { option_copied result ≡ slice_get (commands_of script.now thread) n }
{
    if thread == 0 {
        return None;
    }
    let commands = script.threads.items().get((thread - 1) as usize)?;
    commands.items().get(n as usize)
}

/// Returns whether `mark`, a line above the command that follows `n` others, makes it a peek or poke.
fn is_way_of(thread: u64, n: u64, mark: &Mark) -> bool
    ensures { result ≡ is_way_of thread n mark.now }
{
    u64::from(mark.thread) == thread
        && u64::from(mark.after) == n
        && matches!(mark.kind, MarkKind::Mapped)
}

/// Returns whether some line above the command that follows `n` others makes it a peek or poke.
fn has_way(all: &[Mark], thread: u64, n: u64) -> bool
    ensures { result ≡ list_any (is_way_of thread n) all.now }
{
    all.iter().any(|mark| is_way_of(thread, n, mark))
}

fn is_mapped_at(search: &MarkSearch, thread: u64, n: u64) -> bool
    ensures { result ≡ marks.is_mapped_at search.now thread n }
{
    has_way(search.part(thread, n, n), thread, n)
}

/// Returns the pages of the command of `thread` that follows `n` others, if it is a peek or poke.
fn peek_or_poke(search: &MarkSearch, thread: u64, n: u64) -> Option<Access>
    ensures { result ≡ option_map paged (words.peek_or_poke search.now thread n) }
{
    if !is_mapped_at(search, thread, n) {
        return None;
    }
    access_of(command_at(search.script(), thread, n)?)
}

pub fn is_by_thread(thread: u64, who: Actor) -> bool
    ensures { result ≡ complete.is_by_thread thread who }
{
    match who {
        Actor::Thread(t) => u64::from(t) == thread,
        Actor::Engine(_) | Actor::Reaper => false,
    }
}

/// Returns the pages of a peek or poke of `thread`, which has answered `n` commands, if `entry` is its result.
pub fn access_in(search: &MarkSearch, thread: u64, n: u64, entry: &Entry) -> Option<Access>
    ensures { result ≡ option_map paged (access_in search.now thread n entry.now) }
{
    match entry.kind {
        Kind::Result { .. } => {
            if is_by_thread(thread, entry.who) {
                peek_or_poke(search, thread, n)
            } else {
                None
            }
        }
        _ => None,
    }
}

// ---- mappings

/// Returns whether the line `mark` ends the mapping that `thread` has of buffer `b`.
fn unmaps(thread: u32, b: BufId, mark: &Mark) -> bool
    ensures { result ≡ words.unmaps thread b mark.now }
{
    match mark.kind {
        MarkKind::Unmap { b: other } => mark.thread == thread && b.0 == other.0,
        _ => false,
    }
}

/// Returns the first line of `behind` that ends the mapping that `thread` has of buffer `b`.
fn unmap_line(behind: &[Mark], thread: u32, b: BufId) -> Option<&Mark>
    ensures { option_copied result ≡ find (words.unmaps thread b) behind.now }
{
    behind.iter().find(|mark| unmaps(thread, b, mark))
}

/// Returns whether the mapping that `thread` has of buffer `b` has ended before the command that follows `n` others.
fn has_ended(behind: &[Mark], thread: u32, b: BufId, n: u64) -> bool
    ensures { result ≡ has_ended_by (words.end_of thread b behind.now) n }
{
    match unmap_line(behind, thread, b) {
        Some(mark) => u64::from(mark.after) <= n,
        None => false,
    }
}

/// Returns whether the line `mark` begins a mapping of buffer `b` through which the command that follows `n` others goes.
fn begins(mark: &Mark, behind: &[Mark], thread: u64, n: u64, b: BufId) -> bool
    ensures { result ≡ list_any (λ m. is_through m thread n (record { b = b; off = 0; len = 0 })) (mapping_of mark.now behind.now mark.now.kind) }
{
    match mark.kind {
        MarkKind::Map { b: mapped } => {
            u64::from(mark.thread) == thread
                && mapped.0 == b.0
                && u64::from(mark.after) <= n
                && !has_ended(behind, mark.thread, mapped, n)
        }
        _ => false,
    }
}

/// Returns after how many commands the first mapping of `marks` stands through which the command that follows `n` others goes.
fn first_through(marks: &[Mark], thread: u64, n: u64, b: BufId) -> Option<u64>
    ensures { result ≡ option_map (λ m. m.from) (find (λ m. is_through m thread n (record { b = b; off = 0; len = 0 })) (mappings_in marks.now)) }
{
    for (i, mark) in marks.iter().enumerate() {
        if begins(mark, &marks[i + 1..], thread, n, b) {
            return Some(u64::from(mark.after));
        }
    }
    None
}

/// Returns after how many commands the mapping stands through which the command that follows `n` others goes, or None where there is no mapping. Takes
/// the time of a walk of the marks of the thread above it, or of all marks where these don't stand in order.
pub fn mapped_from(search: &MarkSearch, thread: u64, n: u64, b: BufId) -> Option<u64>
    ensures { result ≡ mapped_from search.now thread n b }
{
    first_through(search.part(thread, 0, n), thread, n, b)
}

/// Returns whether a mapping stands through which the command of `thread` that follows `n` others goes, a peek or poke of buffer `b`. Takes constant
/// time if the script is known to keep the rules of scripts, by which one always does, or else that of `mapped_from`.
#[tactic(auto, using(crate::proofs::Peeks::peek_is_mapped))]
pub fn has_mapping(search: &MarkSearch, thread: u64, n: u64, b: BufId) -> bool
    requires { option_map (λ a. a.b) (words.peek_or_poke search.now thread n) ≡ Some b }
    ensures { result ≡ is_some (mapped_from search.now thread n b) }
{
    if search.keeps_rules() {
        return true;
    }
    mapped_from(search, thread, n, b).is_some()
}
