//! A line by its words: each word as what must stand there.

ghost use Rattle.std.specs.Prelude.{◌≡◌, ◌≤◌, ◌==◌, [], IfOk, OnOk, length, map};
ghost use Rattle.std.specs.List.{list_any};
ghost use Rattle.journal_model.specs.scripts.Reading.{names_of, actor_of};
ghost use Rattle.journal_model.specs.scripts.LineWords.{version_line, vram_line, size_line, alone, is_no_actor, turn_of_actors, turn_line_of, plain_line, write_line, read_parts, read_line, move_line, touch_line, named_line, parts_of, is_empty, line_of};

use crate::addresses::{vmap, vsubmit, vunmap};
use crate::buffers::buffer;
use crate::jobs::submit;
use journal_model::Script;
use journal_model::line::{Access, ActorWord, ActorWords, Keyword, Line, Verb};
use script_words::cut::Word;
use script_words::names::Names;
use script_words::words::{actor, bytes, is, memory, number, offset};
use std::alloc::Global;
use ttm_base::NoMemory;
use ttm_base::limits::{MAX_ENGINES, MAX_LINE_ACTORS, MAX_MEMORY_PAGES, MAX_SLOTS};

fn version_of(words: &[Word]) -> Option<Line>
    ensures { result ≡ version_line words.now }
{
    match words {
        [_, version] => {
            if is(version.items(), b"1") {
                Some(Line::Version { version: 1 })
            } else if is(version.items(), b"2") {
                Some(Line::Version { version: 2 })
            } else {
                None
            }
        }
        _ => None,
    }
}

fn vram_of(words: &[Word]) -> Option<Line>
    ensures { result ≡ vram_line words.now }
{
    match words {
        [_, kind, size] => {
            if is(kind.items(), b"range") {
                Some(Line::Vram {
                    buddy: false,
                    size: number(0, MAX_MEMORY_PAGES, size.items()),
                })
            } else if is(kind.items(), b"buddy") {
                Some(Line::Vram {
                    buddy: true,
                    size: number(0, MAX_MEMORY_PAGES, size.items()),
                })
            } else {
                None
            }
        }
        _ => None,
    }
}

fn tt(words: &[Word]) -> Option<Line>
    ensures { result ≡ size_line (λ n. Line.Tt n) 16384 words.now }
{
    match words {
        [_, size] => Some(Line::Tt {
            size: number(0, MAX_MEMORY_PAGES, size.items()),
        }),
        _ => None,
    }
}

fn frames(words: &[Word]) -> Option<Line>
    ensures { result ≡ size_line (λ n. Line.Frames n) 16384 words.now }
{
    match words {
        [_, size] => Some(Line::Frames {
            size: number(0, MAX_MEMORY_PAGES, size.items()),
        }),
        _ => None,
    }
}

fn swap(words: &[Word]) -> Option<Line>
    ensures { result ≡ size_line (λ n. Line.Swap n) 32768 words.now }
{
    match words {
        [_, size] => Some(Line::Swap {
            size: number(0, MAX_SLOTS, size.items()),
        }),
        _ => None,
    }
}

fn engines(words: &[Word]) -> Option<Line>
    ensures { result ≡ size_line (λ n. Line.Engines n) 8 words.now }
{
    match words {
        [_, size] => Some(Line::Engines {
            size: number(0, MAX_ENGINES, size.items()),
        }),
        _ => None,
    }
}

fn thread(words: &[Word]) -> Option<Line>
    ensures { result ≡ alone Line.Thread words.now }
{
    match words {
        [_] => Some(Line::Thread),
        _ => None,
    }
}

fn end(words: &[Word]) -> Option<Line>
    ensures { result ≡ alone Line.End words.now }
{
    match words {
        [_] => Some(Line::End),
        _ => None,
    }
}

fn is_no_actor_word(word: &ActorWord) -> bool
    ensures { result ≡ is_no_actor word.now }
{
    matches!(word, ActorWord::Malformed)
}

fn is_some_no_actor(actors: &[ActorWord]) -> bool
    ensures { result ≡ list_any is_no_actor actors.now }
{
    actors.iter().any(|a| is_no_actor_word(a))
}

/// Returns the actor that each of `words` names.
fn read_actors(
    alloc: Global,
    threads: u32,
    engines: u32,
    words: &[Word],
) -> Result<ActorWords, NoMemory>
    requires { length words.now ≤ 64 }
    ensures { IfOk result (λ actors. actors ≡ map (actor_of threads engines) words.now) }
{
    let mut actors = [ActorWord::Malformed; MAX_LINE_ACTORS];
    for i in 0..words.len() {
        actors[i] = actor(threads, engines, words[i].items());
    }
    ActorWords::from_slice(alloc, &actors[..words.len()])
}

fn turn_of(actors: ActorWords) -> Option<Line>
    ensures { result ≡ turn_of_actors actors }
{
    let count = actors.len();
    if 1 <= count && count <= MAX_LINE_ACTORS && !is_some_no_actor(actors.items()) {
        Some(Line::Turn { actors })
    } else {
        None
    }
}

fn turn(alloc: Global, threads: u32, engines: u32, words: &[Word]) -> Result<Option<Line>, NoMemory>
    ensures { IfOk result (λ line. line ≡ turn_line_of threads engines words.now) }
{
    match words {
        [] => Ok(None),
        [_, rest @ ..] => {
            if MAX_LINE_ACTORS < rest.len() {
                return Ok(None);
            }
            Ok(turn_of(read_actors(alloc, threads, engines, rest)?))
        }
    }
}

fn plain(names: &Names, verb: Verb, words: &[Word]) -> Option<Line>
    requires { length names.now ≤ 256 }
    ensures { result ≡ plain_line names.now verb words.now }
{
    match words {
        [_, b] => Some(Line::Plain {
            verb,
            b: names.find(b.items()),
        }),
        _ => None,
    }
}

fn write(
    alloc: Global,
    access: Access,
    names: &Names,
    words: &[Word],
) -> Result<Option<Line>, NoMemory>
    requires { length names.now ≤ 256 }
    ensures { IfOk result (λ line. line ≡ write_line access names.now words.now) }
{
    match words {
        [_, b, off, text] => {
            let bytes = bytes(alloc, text.items())?;
            Ok(Some(Line::Write {
                access,
                b: names.find(b.items()),
                off: offset(off.items()),
                bytes,
            }))
        }
        _ => Ok(None),
    }
}

fn read_with(access: Access, names: &Names, b: &[u8], off: &[u8], len: &[u8]) -> Line
    requires { length names.now ≤ 256 }
    ensures { result ≡ read_parts access names.now b.now off.now len.now }
{
    Line::Read {
        access,
        b: names.find(b),
        off: offset(off),
        len: offset(len),
    }
}

fn read(access: Access, names: &Names, words: &[Word]) -> Option<Line>
    requires { length names.now ≤ 256 }
    ensures { result ≡ read_line access names.now words.now }
{
    match words {
        [_, b, off, len] => Some(read_with(access, names, b.items(), off.items(), len.items())),
        _ => None,
    }
}

fn move_of(names: &Names, words: &[Word]) -> Option<Line>
    requires { length names.now ≤ 256 }
    ensures { result ≡ move_line names.now words.now }
{
    match words {
        [_, b, mem] => match memory(mem.items()) {
            Some(mem) => Some(Line::Move {
                b: names.find(b.items()),
                mem,
            }),
            None => None,
        },
        _ => None,
    }
}

fn touch(words: &[Word]) -> Option<Line>
    ensures { result ≡ touch_line words.now }
{
    match words {
        [_, group] => Some(Line::Touch {
            group: number(0, 15, group.items()),
        }),
        _ => None,
    }
}

fn map(names: &Names, words: &[Word]) -> Option<Line>
    requires { length names.now ≤ 256 }
    ensures { result ≡ named_line (λ b. Line.Map b) names.now words.now }
{
    match words {
        [_, b] => Some(Line::Map {
            b: names.find(b.items()),
        }),
        _ => None,
    }
}

fn unmap(names: &Names, words: &[Word]) -> Option<Line>
    requires { length names.now ≤ 256 }
    ensures { result ≡ named_line (λ b. Line.Unmap b) names.now words.now }
{
    match words {
        [_, b] => Some(Line::Unmap {
            b: names.find(b.items()),
        }),
        _ => None,
    }
}

/// Returns the parts of a line with this `keyword`.
fn parts(
    alloc: Global,
    names: &Names,
    script: &Script,
    keyword: Keyword,
    words: &[Word],
) -> Result<Option<Line>, NoMemory>
    requires names { names.now ≡ names_of script.now.buffers }
    requires buffers { length script.now.buffers ≤ 256 }
    requires threads { length script.now.threads ≤ 16 }
    ensures { IfOk result (λ line. line ≡ parts_of script.now keyword words.now) }
{
    match keyword {
        Keyword::Ttm => Ok(version_of(words)),
        Keyword::Vram => Ok(vram_of(words)),
        Keyword::Tt => Ok(tt(words)),
        Keyword::Frames => Ok(frames(words)),
        Keyword::Swap => Ok(swap(words)),
        Keyword::Engines => Ok(engines(words)),
        Keyword::Buffer => buffer(alloc, script.version == 2, words),
        Keyword::Thread => Ok(thread(words)),
        Keyword::Schedule => turn(
            alloc,
            script.threads.len() as u32,
            script.sizes.engines,
            words,
        ),
        Keyword::End => Ok(end(words)),
        Keyword::Plain(verb) => Ok(plain(names, verb, words)),
        Keyword::Write(access) => write(alloc, access, names, words),
        Keyword::Read(access) => Ok(read(access, names, words)),
        Keyword::Move => Ok(move_of(names, words)),
        Keyword::Touch => Ok(touch(words)),
        Keyword::Submit => submit(alloc, names, script.sizes.engines, words),
        Keyword::Map => Ok(map(names, words)),
        Keyword::Unmap => Ok(unmap(names, words)),
        Keyword::Vmap => Ok(vmap(names, words)),
        Keyword::Vunmap => Ok(vunmap(words)),
        Keyword::Vsubmit => vsubmit(alloc, script.sizes.engines, words),
        Keyword::Other => Ok(None),
    }
}

fn is_some_empty(words: &[Word]) -> bool
    ensures { result ≡ list_any is_empty words.now }
{
    words.iter().any(|w| w.items().len() == 0)
}

/// Returns the line of `words`, with each word read as far as it can be, or `None` where there is a wrong space, a wrong number of words or
/// a wrong fixed word.
pub fn line(
    alloc: Global,
    names: &Names,
    script: &Script,
    keyword: Keyword,
    words: &[Word],
) -> Result<Option<Line>, NoMemory>
    requires names { names.now ≡ names_of script.now.buffers }
    requires buffers { length script.now.buffers ≤ 256 }
    requires threads { length script.now.threads ≤ 16 }
    ensures { IfOk result (λ line. line ≡ line_of script.now keyword words.now) }
{
    if is_some_empty(words) {
        return Ok(None);
    }
    parts(alloc, names, script, keyword, words)
}
