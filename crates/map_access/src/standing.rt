//! The mappings of a thread that stand, from command to command.
ghost use Rattle.std.specs.Prelude.{◌≡◌, ◌+◌, ◌<◌, ◌≤◌, ◌==◌, None, Some, IfOk, OnOk, fold, length, if◌then◌else◌};
ghost use Rattle.ttm_base.specs.declared.BufId.{BufId as Buffer};
ghost use Rattle.map_access.specs.Accesses as accesses;
ghost use Rattle.map_access.specs.Passing as words;
ghost use Rattle.map_access.specs.Passing.{Stands, behind_line, behind_mark, or_from};

use crate::access::mapped_from;
use crate::search::MarkSearch;
use journal_model::{Mark, MarkKind};
use std::alloc::Global;
use std::marker::Model;
use ttm_base::{BufId, ItemList, NoMemory};

/// For each buffer that a thread has mapped, by its number, after how many commands the mapping stands, or None where none does.
type Starts = ItemList<Option<u64>>;

fn start_of(starts: &Starts, b: BufId) -> Option<u64>
    ensures { result ≡ words.start_of starts.now b }
{
    match starts.items().get(b.0 as usize) {
        Some(start) => *start,
        None => None,
    }
}

/// Makes room for `len` buffers.
fn grow(starts: &mut Starts, len: usize) -> Result<(), NoMemory>
    ensures long { OnOk result (len ≤ length starts.new) }
    ensures same { OnOk result ((c : Buffer) → words.start_of starts.new c ≡ words.start_of starts.old c) }
{
    for _buffer in starts.len()..len {
        starts.push(None)?;
    }
    Ok(())
}

/// Lets a mapping of buffer `b` stand after `n` commands.
fn set_start(starts: &mut Starts, b: BufId, n: u64) -> Result<(), NoMemory>
    ensures { OnOk result ((c : Buffer) → words.start_of starts.new c ≡ (if b.0 == c.0 then Some n else words.start_of starts.old c)) }
{
    grow(starts, b.0 as usize + 1)?;
    starts.set(b.0 as usize, Some(n));
    Ok(())
}

/// Begins a mapping of buffer `b` after `n` commands, unless one stands.
fn begin(starts: &mut Starts, b: BufId, n: u64) -> Result<(), NoMemory>
    ensures { OnOk result ((c : Buffer) → words.start_of starts.new c ≡ (if b.0 == c.0 then or_from (words.start_of starts.old c) n else words.start_of starts.old c)) }
{
    match start_of(starts, b) {
        Some(_) => Ok(()),
        None => set_start(starts, b, n),
    }
}

/// Ends the mapping of buffer `b`, if one stands.
fn end(starts: &mut Starts, b: BufId)
    ensures { (c : Buffer) → words.start_of starts.new c ≡ (if c.0 == b.0 then None else words.start_of starts.old c) }
{
    if (b.0 as usize) < starts.len() {
        starts.set(b.0 as usize, None);
    }
}

/// Passes a line of the thread that follows `n` commands.
fn pass_line(starts: &mut Starts, n: u64, line: &MarkKind) -> Result<(), NoMemory>
    ensures { OnOk result ((c : Buffer) → words.start_of starts.new c ≡ behind_line c n line.now (words.start_of starts.old c)) }
{
    match line {
        MarkKind::Map { b } => begin(starts, *b, n),
        MarkKind::Unmap { b } => {
            end(starts, *b);
            Ok(())
        }
        _ => Ok(()),
    }
}

/// Passes `mark`, if it is a line of `thread` that follows `n` commands.
fn pass_mark(starts: &mut Starts, mark: &Mark, thread: u64, n: u64) -> Result<(), NoMemory>
    ensures { OnOk result ((c : Buffer) → words.start_of starts.new c ≡ behind_mark thread n c (words.start_of starts.old c) mark.now) }
{
    if u64::from(mark.thread) == thread && u64::from(mark.after) == n {
        pass_line(starts, n, &mark.kind)
    } else {
        Ok(())
    }
}

/// Passes those of `marks` that are lines of `thread` that follow `n` commands.
fn pass_marks(starts: &mut Starts, marks: &[Mark], thread: u64, n: u64) -> Result<(), NoMemory>
    ensures { OnOk result ((c : Buffer) → words.start_of starts.new c ≡ fold (behind_mark thread n c) (words.start_of starts.old c) marks.now) }
{
    for mark in marks {
        pass_mark(starts, mark, thread, n)?;
    }
    Ok(())
}

/// Passes the lines of `thread` in a script that follow `n` commands.
fn pass(starts: &mut Starts, search: &MarkSearch, thread: u64, n: u64) -> Result<(), NoMemory>
    ensures { OnOk result ((c : Buffer) → words.start_of starts.new c ≡ fold (behind_mark thread n c) (words.start_of starts.old c) search.now.marks) }
{
    pass_marks(starts, search.part(thread, n, n), thread, n)
}

/// The mappings that stand for one command of a thread after the other, seen as a list: for each buffer that the thread has mapped, by its number,
/// after how many commands its mapping stands, or None where none does.
#[derive(Drop)]
pub struct Standing {
    starts: Starts,
}

impl Model for Standing {
    ghost use Rattle.std.specs.Prelude.{ℕ, List, Option};

    ghost Value = { List (Option ℕ) };

    ghost view = { λ standing. standing.starts };
}

impl Standing {
    /// Returns the mappings that stand for the first command of `thread`. Takes the time of the lines above it.
    pub fn new(alloc: Global, search: &MarkSearch, thread: u64) -> Result<Standing, NoMemory>
        ensures { IfOk result (λ standing. Stands search.now thread 0 standing) }
    {
        let mut starts = Starts::new(alloc);
        pass(&mut starts, search, thread, 0)?;
        Ok(Standing { starts })
    }

    /// Goes on from the command of `thread` that follows `n` others to the next one. Takes the time of a search by halves and of the lines between
    /// both.
    pub fn go_on(&mut self, search: &MarkSearch, thread: u64, n: u64) -> Result<(), NoMemory>
        requires here { Stands search.now thread n self.old }
        requires few { n < 18446744073709551615 }
        ensures { OnOk result (Stands search.now thread (n + 1) self.new) }
    {
        pass(&mut self.starts, search, thread, n + 1)
    }

    /// Returns after how many commands the mapping of buffer `b` stands through which the command of `thread` goes that follows `n` others, or None
    /// where there is none. Takes constant time, or where the marks don't stand in order that of a walk of them.
    pub fn mapped_from(&self, search: &MarkSearch, thread: u64, n: u64, b: BufId) -> Option<u64>
        requires { Stands search.now thread n self.now }
        ensures { result ≡ accesses.mapped_from search.now thread n b }
    {
        if search.is_in_order() {
            start_of(&self.starts, b)
        } else {
            mapped_from(search, thread, n, b)
        }
    }
}
