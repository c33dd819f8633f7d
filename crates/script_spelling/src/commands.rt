ghost use Rattle.std.specs.Prelude.{◌≡◌, ◌++◌, ◌∷◌, [], OnOk, codes, decimal, map};
ghost use Rattle.journal_model.specs.scripts.Words.{hex, hex_byte, line, mem_word, name_of};
ghost use Rattle.journal_model.specs.scripts.Spelling.{op_words, parted};
ghost use Rattle.script_spelling.specs.Parts.{command_text, parted_out};
ghost use Rattle.text_line.specs.Spaced.{spaced_out};

use journal_model::{Command, Script};
use text_line::{Line, mem_word, name_of, put_hex, put_hex_byte};
use ttm_base::{BufId, Mem, NoMemory, Op};

/// Puts the line of `command` into `text`.
pub(crate) fn put_command(
    text: &mut Line,
    script: &Script,
    command: &Command,
) -> Result<(), NoMemory>
    ensures { OnOk result (text.new ≡ text.old ++ command_text script.now command.now) }
{
    match command {
        Command::New { b } => put_named(text, script, b"new", *b),
        Command::Free { b } => put_named(text, script, b"free", *b),
        Command::Pin { b } => put_named(text, script, b"pin", *b),
        Command::Unpin { b } => put_named(text, script, b"unpin", *b),
        Command::Find { b } => put_named(text, script, b"find", *b),
        Command::SwapOut { b } => put_named(text, script, b"swapout", *b),
        Command::Write { b, off, bytes } => put_write(
            text,
            script,
            b"write",
            *b,
            *off,
            bytes.items(),
        ),
        Command::Read { b, off, len } => put_read(text, script, b"read", *b, *off, *len),
        Command::Move { b, mem } => put_move(text, script, *b, *mem),
        Command::Touch { group } => put_touch(text, *group),
        Command::Submit { engine, ops } => put_submit(text, script, *engine, ops.items()),
    }
}

/// Puts the line of a command that names buffer `b` and no more into `text`.
pub(crate) fn put_named(
    text: &mut Line,
    script: &Script,
    word: &[u8],
    b: BufId,
) -> Result<(), NoMemory>
    ensures { OnOk result (text.new ≡ text.old ++ line (word.now ∷ name_of script.now b ∷ [])) }
{
    text.put(word)?;
    text.word(name_of(script, b))?;
    text.end_line()
}

pub(crate) fn put_write(
    text: &mut Line,
    script: &Script,
    word: &[u8],
    b: BufId,
    off: u32,
    bytes: &[u8],
) -> Result<(), NoMemory>
    ensures { OnOk result (text.new ≡ text.old ++ line (word.now ∷ name_of script.now b ∷ decimal off ∷ hex bytes.now ∷ [])) }
{
    text.put(word)?;
    text.word(name_of(script, b))?;
    text.number(u64::from(off))?;
    text.put_byte(b' ')?;
    put_hex(text, bytes)?;
    text.end_line()
}

pub(crate) fn put_read(
    text: &mut Line,
    script: &Script,
    word: &[u8],
    b: BufId,
    off: u32,
    len: u32,
) -> Result<(), NoMemory>
    ensures { OnOk result (text.new ≡ text.old ++ line (word.now ∷ name_of script.now b ∷ decimal off ∷ decimal len ∷ [])) }
{
    text.put(word)?;
    text.word(name_of(script, b))?;
    text.number(u64::from(off))?;
    text.number(u64::from(len))?;
    text.end_line()
}

fn put_move(text: &mut Line, script: &Script, b: BufId, mem: Mem) -> Result<(), NoMemory>
    ensures { OnOk result (text.new ≡ text.old ++ line (codes "move" ∷ name_of script.now b ∷ mem_word mem ∷ [])) }
{
    text.put(b"move")?;
    text.word(name_of(script, b))?;
    text.word(mem_word(mem))?;
    text.end_line()
}

fn put_touch(text: &mut Line, group: u32) -> Result<(), NoMemory>
    ensures { OnOk result (text.new ≡ text.old ++ line (codes "touch" ∷ decimal group ∷ [])) }
{
    text.put(b"touch")?;
    text.number(u64::from(group))?;
    text.end_line()
}

fn put_submit(text: &mut Line, script: &Script, engine: u32, ops: &[Op]) -> Result<(), NoMemory>
    ensures { OnOk result (text.new ≡ text.old ++ line (codes "submit" ∷ decimal engine ∷ parted (map (op_words script.now) ops.now))) }
{
    text.put(b"submit")?;
    text.number(u64::from(engine))?;
    put_ops(text, script, ops)?;
    text.end_line()
}

fn put_ops(text: &mut Line, script: &Script, ops: &[Op]) -> Result<(), NoMemory>
    ensures { OnOk result (text.new ≡ text.old ++ spaced_out (parted (map (op_words script.now) ops.now))) }
{
    match ops.split_first() {
        None => Ok(()),
        Some((first, rest)) => {
            put_op(text, script, *first)?;
            put_more_ops(text, script, rest)
        }
    }
}

/// Puts each operation into `text`, a semicolon before it.
fn put_more_ops(text: &mut Line, script: &Script, ops: &[Op]) -> Result<(), NoMemory>
    ensures { OnOk result (text.new ≡ text.old ++ spaced_out (parted_out (map (op_words script.now) ops.now))) }
{
    for op in ops {
        text.word(b";")?;
        put_op(text, script, *op)?;
    }
    Ok(())
}

fn put_op(text: &mut Line, script: &Script, op: Op) -> Result<(), NoMemory>
    ensures { OnOk result (text.new ≡ text.old ++ spaced_out (op_words script.now op)) }
{
    match op {
        Op::Fill {
            dst,
            off,
            len,
            byte,
        } => put_fill(text, name_of(script, dst), off, len, byte),
        Op::Copy {
            dst,
            doff,
            src,
            soff,
            len,
        } => put_pair(
            text,
            b"copy",
            name_of(script, dst),
            doff,
            name_of(script, src),
            soff,
            len,
        ),
        Op::Xor {
            dst,
            doff,
            src,
            soff,
            len,
        } => put_pair(
            text,
            b"xor",
            name_of(script, dst),
            doff,
            name_of(script, src),
            soff,
            len,
        ),
        Op::Probe { src, off, len } => put_range(text, b"probe", name_of(script, src), off, len),
    }
}

/// Puts a fill of the buffer named `name` into `text`.
fn put_fill(text: &mut Line, name: &[u8], off: u32, len: u32, byte: u8) -> Result<(), NoMemory>
    ensures { OnOk result (text.new ≡ text.old ++ spaced_out (codes "fill" ∷ name.now ∷ decimal off ∷ decimal len ∷ hex_byte byte ∷ [])) }
{
    put_range(text, b"fill", name, off, len)?;
    text.put_byte(b' ')?;
    put_hex_byte(text, byte)
}

/// Puts an operation on a range of the buffer named `name` into `text`.
fn put_range(text: &mut Line, word: &[u8], name: &[u8], off: u32, len: u32) -> Result<(), NoMemory>
    ensures { OnOk result (text.new ≡ text.old ++ spaced_out (word.now ∷ name.now ∷ decimal off ∷ decimal len ∷ [])) }
{
    text.word(word)?;
    text.word(name)?;
    text.number(u64::from(off))?;
    text.number(u64::from(len))
}

/// Puts an operation on two ranges of named buffers into `text`.
fn put_pair(
    text: &mut Line,
    word: &[u8],
    to: &[u8],
    to_off: u32,
    from: &[u8],
    from_off: u32,
    len: u32,
) -> Result<(), NoMemory>
    ensures { OnOk result (text.new ≡ text.old ++ spaced_out (word.now ∷ to.now ∷ decimal to_off ∷ from.now ∷ decimal from_off ∷ decimal len ∷ [])) }
{
    text.word(word)?;
    text.word(to)?;
    text.number(u64::from(to_off))?;
    text.word(from)?;
    text.number(u64::from(from_off))?;
    text.number(u64::from(len))
}
