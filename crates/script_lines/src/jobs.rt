//! Jobs by their words.

ghost use Rattle.std.specs.Prelude.{◌≡◌, ◌≤◌, [], IfOk, OnOk, length};
ghost use Rattle.std.specs.List.{list_any};
ghost use Rattle.journal_model.specs.scripts.Reading.{known, offset_of, byte_in_hex};
ghost use Rattle.journal_model.specs.scripts.LineWords.{op_of, is_no_op, op_words_of, submit_of_ops, submit_line};

use journal_model::line::{EngineWord, Line, OpWord, OpWords};
use script_words::cut::Word;
use script_words::names::Names;
use script_words::words::{byte, engine, is, is_lone_semicolon, offset};
use std::alloc::Global;
use ttm_base::NoMemory;

fn probe(names: &Names, b: &Word, off: &Word, len: &Word) -> OpWord
    requires { length names.now ≤ 256 }
    ensures { result ≡ OpWord.Probe (known names.now b.now) (offset_of off.now) (offset_of len.now) }
{
    OpWord::Probe {
        src: names.find(b.items()),
        off: offset(off.items()),
        len: offset(len.items()),
    }
}

fn fill(names: &Names, b: &Word, off: &Word, len: &Word, value: &Word) -> OpWord
    requires { length names.now ≤ 256 }
    ensures { result ≡ OpWord.Fill (known names.now b.now) (offset_of off.now) (offset_of len.now) (byte_in_hex value.now) }
{
    OpWord::Fill {
        dst: names.find(b.items()),
        off: offset(off.items()),
        len: offset(len.items()),
        byte: byte(value.items()),
    }
}

fn copy(names: &Names, d: &Word, doff: &Word, s: &Word, soff: &Word, len: &Word) -> OpWord
    requires { length names.now ≤ 256 }
    ensures { result ≡ OpWord.Copy (known names.now d.now) (offset_of doff.now) (known names.now s.now) (offset_of soff.now) (offset_of len.now) }
{
    OpWord::Copy {
        dst: names.find(d.items()),
        doff: offset(doff.items()),
        src: names.find(s.items()),
        soff: offset(soff.items()),
        len: offset(len.items()),
    }
}

fn xor(names: &Names, d: &Word, doff: &Word, s: &Word, soff: &Word, len: &Word) -> OpWord
    requires { length names.now ≤ 256 }
    ensures { result ≡ OpWord.Xor (known names.now d.now) (offset_of doff.now) (known names.now s.now) (offset_of soff.now) (offset_of len.now) }
{
    OpWord::Xor {
        dst: names.find(d.items()),
        doff: offset(doff.items()),
        src: names.find(s.items()),
        soff: offset(soff.items()),
        len: offset(len.items()),
    }
}

/// Returns the operation that `words` tell.
fn op(names: &Names, words: &[Word]) -> OpWord
    requires { length names.now ≤ 256 }
    ensures { result ≡ op_of names.now words.now }
{
    match words {
        [w, b, off, len] => {
            if is(w.items(), b"probe") {
                return probe(names, b, off, len);
            }
            OpWord::Malformed
        }
        [w, b, off, len, byte] => {
            if is(w.items(), b"fill") {
                return fill(names, b, off, len, byte);
            }
            OpWord::Malformed
        }
        [w, d, doff, s, soff, len] => {
            if is(w.items(), b"copy") {
                return copy(names, d, doff, s, soff, len);
            }
            if is(w.items(), b"xor") {
                return xor(names, d, doff, s, soff, len);
            }
            OpWord::Malformed
        }
        _ => OpWord::Malformed,
    }
}

fn is_no_op_word(word: &OpWord) -> bool
    ensures { result ≡ is_no_op word.now }
{
    matches!(word, OpWord::Malformed)
}

fn is_some_no_op(ops: &[OpWord]) -> bool
    ensures { result ≡ list_any is_no_op ops.now }
{
    ops.iter().any(|o| is_no_op_word(o))
}

/// Puts the operations that `words` tell into `ops`, with a lone semicolon between each two.
fn read_ops(ops: &mut OpWords, names: &Names, words: &[Word]) -> Result<(), NoMemory>
    requires few { length names.now ≤ 256 }
    requires none { ops.old ≡ [] }
    ensures { OnOk result (ops.new ≡ op_words_of names.now words.now) }
{
    let mut start = 0;
    for i in 0..words.len() {
        if is_lone_semicolon(&words[i]) {
            ops.push(op(names, &words[start..i]))?;
            start = i + 1;
        }
    }
    ops.push(op(names, &words[start..]))
}

fn submit_with(engine: EngineWord, ops: OpWords) -> Option<Line>
    ensures { result ≡ submit_of_ops engine ops }
{
    if is_some_no_op(ops.items()) {
        None
    } else {
        Some(Line::Submit { engine, ops })
    }
}

pub fn submit(
    alloc: Global,
    names: &Names,
    engines: u32,
    words: &[Word],
) -> Result<Option<Line>, NoMemory>
    requires { length names.now ≤ 256 }
    ensures { IfOk result (λ line. line ≡ submit_line names.now engines words.now) }
{
    match words {
        [_, number, rest @ ..] => {
            let mut ops = OpWords::new(alloc);
            read_ops(&mut ops, names, rest)?;
            Ok(submit_with(engine(engines, number.items()), ops))
        }
        _ => Ok(None),
    }
}
