//! Lines on the address space of a thread, by their words.

ghost use Rattle.std.specs.Prelude.{◌≡◌, ◌≤◌, [], IfOk, OnOk, length};
ghost use Rattle.std.specs.List.{list_any};
ghost use Rattle.journal_model.specs.scripts.Reading.{address_of, offset_of, byte_in_hex};
ghost use Rattle.journal_model.specs.scripts.LineWords.{vmap_line, vunmap_line, vop_of, is_no_vop, vop_words_of, vsubmit_of_ops, vsubmit_line};

use journal_model::line::{EngineWord, Line, VOpWord, VOpWords};
use script_words::cut::Word;
use script_words::names::Names;
use script_words::words::{address, byte, engine, is, is_lone_semicolon, number, offset};
use std::alloc::Global;
use ttm_base::NoMemory;
use ttm_base::limits::MAX_BUFFER_PAGES;

pub fn vmap(names: &Names, words: &[Word]) -> Option<Line>
    requires { length names.now ≤ 256 }
    ensures { result ≡ vmap_line names.now words.now }
{
    match words {
        [_, va, n, b, off] => Some(Line::Vmap {
            va: number(0, 1_048_575, va.items()),
            n: number(1, MAX_BUFFER_PAGES, n.items()),
            b: names.find(b.items()),
            off: number(0, MAX_BUFFER_PAGES - 1, off.items()),
        }),
        _ => None,
    }
}

pub fn vunmap(words: &[Word]) -> Option<Line>
    ensures { result ≡ vunmap_line words.now }
{
    match words {
        [_, va, n] => Some(Line::Vunmap {
            va: number(0, 1_048_575, va.items()),
            n: number(1, MAX_BUFFER_PAGES, n.items()),
        }),
        _ => None,
    }
}

fn probe(addr: &Word, len: &Word) -> VOpWord
    ensures { result ≡ VOpWord.Probe (address_of addr.now) (offset_of len.now) }
{
    VOpWord::Probe {
        addr: address(addr.items()),
        len: offset(len.items()),
    }
}

fn fill(addr: &Word, len: &Word, value: &Word) -> VOpWord
    ensures { result ≡ VOpWord.Fill (address_of addr.now) (offset_of len.now) (byte_in_hex value.now) }
{
    VOpWord::Fill {
        addr: address(addr.items()),
        len: offset(len.items()),
        byte: byte(value.items()),
    }
}

fn copy(addr: &Word, from: &Word, len: &Word) -> VOpWord
    ensures { result ≡ VOpWord.Copy (address_of addr.now) (address_of from.now) (offset_of len.now) }
{
    VOpWord::Copy {
        addr: address(addr.items()),
        from: address(from.items()),
        len: offset(len.items()),
    }
}

fn xor(addr: &Word, from: &Word, len: &Word) -> VOpWord
    ensures { result ≡ VOpWord.Xor (address_of addr.now) (address_of from.now) (offset_of len.now) }
{
    VOpWord::Xor {
        addr: address(addr.items()),
        from: address(from.items()),
        len: offset(len.items()),
    }
}

/// Returns the operation with addresses that `words` tell.
fn op(words: &[Word]) -> VOpWord
    ensures { result ≡ vop_of words.now }
{
    match words {
        [w, addr, len] => {
            if is(w.items(), b"probe") {
                return probe(addr, len);
            }
            VOpWord::Malformed
        }
        [w, addr, x, y] => {
            if is(w.items(), b"fill") {
                return fill(addr, x, y);
            }
            if is(w.items(), b"copy") {
                return copy(addr, x, y);
            }
            if is(w.items(), b"xor") {
                return xor(addr, x, y);
            }
            VOpWord::Malformed
        }
        _ => VOpWord::Malformed,
    }
}

fn is_no_op_word(word: &VOpWord) -> bool
    ensures { result ≡ is_no_vop word.now }
{
    matches!(word, VOpWord::Malformed)
}

fn is_some_no_op(ops: &[VOpWord]) -> bool
    ensures { result ≡ list_any is_no_vop ops.now }
{
    ops.iter().any(|o| is_no_op_word(o))
}

/// Puts the operations that `words` tell into `ops`, with a lone semicolon between each two.
fn read_ops(ops: &mut VOpWords, words: &[Word]) -> Result<(), NoMemory>
    requires { ops.old ≡ [] }
    ensures { OnOk result (ops.new ≡ vop_words_of words.now) }
{
    let mut start = 0;
    for i in 0..words.len() {
        if is_lone_semicolon(&words[i]) {
            ops.push(op(&words[start..i]))?;
            start = i + 1;
        }
    }
    ops.push(op(&words[start..]))
}

fn vsubmit_with(engine: EngineWord, ops: VOpWords) -> Option<Line>
    ensures { result ≡ vsubmit_of_ops engine ops }
{
    if is_some_no_op(ops.items()) {
        None
    } else {
        Some(Line::Vsubmit { engine, ops })
    }
}

pub fn vsubmit(alloc: Global, engines: u32, words: &[Word]) -> Result<Option<Line>, NoMemory>
    ensures { IfOk result (λ line. line ≡ vsubmit_line engines words.now) }
{
    match words {
        [_, number, rest @ ..] => {
            let mut ops = VOpWords::new(alloc);
            read_ops(&mut ops, rest)?;
            Ok(vsubmit_with(engine(engines, number.items()), ops))
        }
        _ => Ok(None),
    }
}
