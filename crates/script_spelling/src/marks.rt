ghost use Rattle.std.specs.Prelude.{◌≡◌, ◌+◌, ◌++◌, ◌∷◌, [], true, OnOk, IfOk, codes, decimal, flat_map, map, option_map};
ghost use Rattle.std.specs.List.{list_any};
ghost use Rattle.std.specs.Prelude.{slice_get, filter_map};
ghost use Rattle.journal_model.specs.scripts.Words.{line, name_of, hex_byte};
ghost use Rattle.journal_model.specs.marks.Marks as kinds_of;
ghost use Rattle.journal_model.specs.marks.Marks.{addressed, marks_at};
ghost use Rattle.journal_model.specs.scripts.MarkRules.{are_in_order};
ghost use Rattle.journal_model.specs.scripts.Spelling.{mark_line, mapped_words, addressed_words, vop_words, parted};
ghost use Rattle.script_spelling.specs.Cursors as cursors;
ghost use Rattle.script_spelling.specs.Cursors.{front_at, marks_from};
ghost use Rattle.script_spelling.specs.Parts.{kinds, written, parted_out};
ghost use Rattle.text_line.specs.Spaced.{spaced_out};

use crate::commands::{put_command, put_named, put_read, put_write};
use journal_model::{Command, Mark, MarkKind, Script, VOp};
use text_line::{Line, name_of, put_hex_byte};
use ttm_base::NoMemory;

/// Returns whether `mark` follows `n` commands of the thread.
fn is_at(mark: &Mark, thread: usize, n: usize) -> bool
    ensures { result ≡ cursors.is_at thread n mark.now }
{
    mark.thread as usize == thread && mark.after as usize == n
}

/// Counts the marks at the front that follow `n` commands of the thread.
fn count_at(marks: &[Mark], thread: usize, n: usize) -> usize
    ensures { result ≡ front_at thread n marks.now }
{
    let mut count = 0;
    for mark in marks {
        if !is_at(mark, thread, n) {
            return count;
        }
        count += 1;
    }
    count
}

/// Splits off the marks after `n` commands of the thread. `rest` are the marks from there on.
pub(crate) fn split_at_place<'a>(
    script: &Script,
    rest: &'a [Mark],
    thread: usize,
    n: usize,
) -> (&'a [Mark], &'a [Mark])
    requires order { are_in_order script.now.marks ≡ true }
    requires rest { rest.now ≡ marks_from script.now.marks thread n }
    ensures here { kinds result.0.now ≡ marks_at script.now thread n }
    ensures behind { result.1.now ≡ marks_from script.now.marks thread (n + 1) }
{
    rest.split_at(count_at(rest, thread, n))
}

/// Puts those of `marks` that have lines of their own into `text`.
pub(crate) fn put_marks(text: &mut Line, script: &Script, marks: &[Mark]) -> Result<(), NoMemory>
    ensures { OnOk result (text.new ≡ text.old ++ flat_map (λ m. mark_line script.now m.kind) marks.now) }
{
    for mark in marks {
        put_mark(text, script, &mark.kind)?;
    }
    Ok(())
}

fn put_mark(text: &mut Line, script: &Script, kind: &MarkKind) -> Result<(), NoMemory>
    ensures { OnOk result (text.new ≡ text.old ++ mark_line script.now kind.now) }
{
    match kind {
        MarkKind::Map { b } => put_named(text, script, b"map", *b),
        MarkKind::Unmap { b } => put_named(text, script, b"unmap", *b),
        MarkKind::Vmap { va, n, b, off } => put_vmap(text, *va, *n, name_of(script, *b), *off),
        MarkKind::Vunmap { va, n } => put_vunmap(text, *va, *n),
        MarkKind::Mapped => Ok(()),
        MarkKind::Vsubmit { .. } => Ok(()),
    }
}

fn put_vmap(text: &mut Line, va: u32, n: u32, name: &[u8], off: u32) -> Result<(), NoMemory>
    ensures { OnOk result (text.new ≡ text.old ++ line (codes "vmap" ∷ decimal va ∷ decimal n ∷ name.now ∷ decimal off ∷ [])) }
{
    text.put(b"vmap")?;
    text.number(u64::from(va))?;
    text.number(u64::from(n))?;
    text.word(name)?;
    text.number(u64::from(off))?;
    text.end_line()
}

fn put_vunmap(text: &mut Line, va: u32, n: u32) -> Result<(), NoMemory>
    ensures { OnOk result (text.new ≡ text.old ++ line (codes "vunmap" ∷ decimal va ∷ decimal n ∷ [])) }
{
    text.put(b"vunmap")?;
    text.number(u64::from(va))?;
    text.number(u64::from(n))?;
    text.end_line()
}

/// Puts `command` into `text` in the way in which the marks above it say that it is written.
pub(crate) fn put_written(
    text: &mut Line,
    script: &Script,
    marks: &[Mark],
    command: &Command,
) -> Result<(), NoMemory>
    ensures { OnOk result (text.new ≡ text.old ++ written script.now (kinds marks.now) command.now) }
{
    match addressed_in(marks) {
        Some(ops) => put_addressed(text, script, ops, command),
        None => {
            if is_mapped_in(marks) {
                put_mapped(text, script, command)
            } else {
                put_command(text, script, command)
            }
        }
    }
}

/// Returns the operations with addresses of the command below the marks, or `None` if it has none.
fn addressed_in(marks: &[Mark]) -> Option<&[VOp]>
    ensures { option_map (λ ops. ops.now) result ≡ slice_get (filter_map addressed (kinds marks.now)) 0 }
{
    for mark in marks {
        if let MarkKind::Vsubmit { ops } = &mark.kind {
            return Some(ops.items());
        }
    }
    None
}

fn is_mapped(mark: &Mark) -> bool
    ensures { result ≡ kinds_of.is_mapped mark.now.kind }
{
    matches!(mark.kind, MarkKind::Mapped)
}

/// Returns whether the command below the marks goes through a mapping.
fn is_mapped_in(marks: &[Mark]) -> bool
    ensures { result ≡ list_any (λ m. kinds_of.is_mapped m.kind) marks.now }
{
    marks.iter().any(|m| is_mapped(m))
}

/// Puts a read into `text` as a peek, and a write as a poke.
fn put_mapped(text: &mut Line, script: &Script, command: &Command) -> Result<(), NoMemory>
    ensures { OnOk result (text.new ≡ text.old ++ line (mapped_words script.now command.now)) }
{
    match command {
        Command::Read { b, off, len } => put_read(text, script, b"peek", *b, *off, *len),
        Command::Write { b, off, bytes } => {
            put_write(text, script, b"poke", *b, *off, bytes.items())
        }
        _ => put_command(text, script, command),
    }
}

/// Puts a job into `text` as it was written with addresses.
fn put_addressed(
    text: &mut Line,
    script: &Script,
    ops: &[VOp],
    command: &Command,
) -> Result<(), NoMemory>
    ensures { OnOk result (text.new ≡ text.old ++ line (addressed_words script.now ops.now command.now)) }
{
    match command {
        Command::Submit { engine, .. } => put_vsubmit(text, *engine, ops),
        _ => put_command(text, script, command),
    }
}

fn put_vsubmit(text: &mut Line, engine: u32, ops: &[VOp]) -> Result<(), NoMemory>
    ensures { OnOk result (text.new ≡ text.old ++ line (codes "vsubmit" ∷ decimal engine ∷ parted (map vop_words ops.now))) }
{
    text.put(b"vsubmit")?;
    text.number(u64::from(engine))?;
    put_ops(text, ops)?;
    text.end_line()
}

fn put_ops(text: &mut Line, ops: &[VOp]) -> Result<(), NoMemory>
    ensures { OnOk result (text.new ≡ text.old ++ spaced_out (parted (map vop_words ops.now))) }
{
    match ops.split_first() {
        None => Ok(()),
        Some((first, rest)) => {
            put_op(text, *first)?;
            put_more_ops(text, rest)
        }
    }
}

/// Puts each operation into `text`, a semicolon before it.
fn put_more_ops(text: &mut Line, ops: &[VOp]) -> Result<(), NoMemory>
    ensures { OnOk result (text.new ≡ text.old ++ spaced_out (parted_out (map vop_words ops.now))) }
{
    for op in ops {
        text.word(b";")?;
        put_op(text, *op)?;
    }
    Ok(())
}

fn put_op(text: &mut Line, op: VOp) -> Result<(), NoMemory>
    ensures { OnOk result (text.new ≡ text.old ++ spaced_out (vop_words op)) }
{
    match op {
        VOp::Fill { addr, len, byte } => put_fill(text, addr, len, byte),
        VOp::Copy { addr, from, len } => put_pair(text, b"copy", addr, from, len),
        VOp::Xor { addr, from, len } => put_pair(text, b"xor", addr, from, len),
        VOp::Probe { addr, len } => put_range(text, b"probe", addr, len),
    }
}

fn put_fill(text: &mut Line, addr: u64, len: u32, byte: u8) -> Result<(), NoMemory>
    ensures { OnOk result (text.new ≡ text.old ++ spaced_out (codes "fill" ∷ decimal addr ∷ decimal len ∷ hex_byte byte ∷ [])) }
{
    put_range(text, b"fill", addr, len)?;
    text.put_byte(b' ')?;
    put_hex_byte(text, byte)
}

fn put_range(text: &mut Line, word: &[u8], addr: u64, len: u32) -> Result<(), NoMemory>
    ensures { OnOk result (text.new ≡ text.old ++ spaced_out (word.now ∷ decimal addr ∷ decimal len ∷ [])) }
{
    text.word(word)?;
    text.number(addr)?;
    text.number(u64::from(len))
}

fn put_pair(text: &mut Line, word: &[u8], addr: u64, from: u64, len: u32) -> Result<(), NoMemory>
    ensures { OnOk result (text.new ≡ text.old ++ spaced_out (word.now ∷ decimal addr ∷ decimal from ∷ decimal len ∷ [])) }
{
    text.word(word)?;
    text.number(addr)?;
    text.number(from)?;
    text.number(u64::from(len))
}
