//! An entry by its line.

ghost use Rattle.std.specs.Prelude.{◌≡◌, ◌≤◌, IfOk, length, true};
ghost use Rattle.journal_model.specs.scripts.FirstFault.{ends_line, without_end};
ghost use Rattle.journal_model.specs.scripts.Reading.{actor_of, names_of};
ghost use Rattle.journal_model.specs.scripts.ScriptRules.{is_script};
ghost use Rattle.entry_reader.specs.EntryReading.{entry_by, entry_of, entry_of_words, is_number, kind_of};
ghost use Rattle.entry_reader.specs.Read.{IsRead};

use crate::kinds::kind;
use crate::numbers::number;
use journal_model::line::ActorWord;
use journal_model::{Entry, Script};
use script_words::cut::{Word, Words, cut_into};
use script_words::names::Names;
use script_words::words::actor;
use std::alloc::Global;
use ttm_base::NoMemory;

pub(crate) fn does_end(text: &[u8]) -> bool
    ensures { result ≡ ends_line text.now }
{
    match text.last() {
        Some(b) => *b == b'\n',
        None => false,
    }
}

pub(crate) fn front_of(text: &[u8]) -> &[u8]
    ensures { result.now ≡ without_end text.now }
{
    &text[..text.len().saturating_sub(1)]
}

pub(crate) fn is_the_number(n: u64, word: Option<u64>) -> bool
    ensures { result ≡ is_number n word }
{
    match word {
        Some(m) => m == n,
        None => false,
    }
}

fn entry_by_actor(
    alloc: Global,
    names: &Names,
    who: ActorWord,
    words: &[Word],
) -> Result<Option<Entry>, NoMemory>
    requires { length names.now ≤ 256 }
    ensures { IfOk result (λ entry. entry ≡ entry_by who (kind_of names.now words.now)) }
{
    let ActorWord::Is(who) = who else {
        return Ok(None);
    };
    match kind(alloc, names, words)? {
        Some(kind) => Ok(Some(Entry { who, kind })),
        None => Ok(None),
    }
}

fn entry_by_words(
    alloc: Global,
    script: &Script,
    names: &Names,
    n: u64,
    words: &[Word],
) -> Result<Option<Entry>, NoMemory>
    requires few { length names.now ≤ 256 }
    requires threads { length script.now.threads ≤ 16 }
    requires declared { names.now ≡ names_of script.now.buffers }
    ensures { IfOk result (λ entry. entry ≡ entry_of_words script.now n words.now) }
{
    match words {
        [first, who, rest @ ..] => {
            if !is_the_number(n, number(first.items())) {
                return Ok(None);
            }
            entry_by_actor(alloc, names, actor_of_script(script, who.items()), rest)
        }
        _ => Ok(None),
    }
}

/// Returns the actor of the script that `word` names.
fn actor_of_script(script: &Script, word: &[u8]) -> ActorWord
    requires { length script.now.threads ≤ 16 }
    ensures { result ≡ actor_of (length script.now.threads) script.now.sizes.engines word.now }
{
    actor(script.threads.len() as u32, script.sizes.engines, word)
}

fn entry_by_line<'a>(
    alloc: Global,
    words: &mut Words<'a>,
    script: &Script,
    names: &Names,
    n: u64,
    line: &'a [u8],
) -> Result<Option<Entry>, NoMemory>
    requires few { length names.now ≤ 256 }
    requires threads { length script.now.threads ≤ 16 }
    requires declared { names.now ≡ names_of script.now.buffers }
    ensures { IfOk result (λ entry. entry ≡ entry_of script.now n line.now) }
{
    if !does_end(line) {
        return Ok(None);
    }
    cut_into(words, b' ', front_of(line))?;
    entry_by_words(alloc, script, names, n, words.items())
}

/// Returns the names that the script declares.
pub fn names_of_script(alloc: Global, script: &Script) -> Result<Names, NoMemory>
    requires { is_script script.now ≡ true }
    ensures { IfOk result (λ names. names ≡ names_of script.now.buffers) }
{
    let buffers = script.buffers.items();
    let mut names = Names::new(alloc);
    for decl in buffers {
        names.add(alloc, decl.name.items())?;
    }
    Ok(names)
}

/// Reads entry `n` of a journal by its line, which ends with a line feed: `Some` where the line is the text of an entry by an actor
/// of the script, with readable values, and `None` where it is the text of none.
pub fn read_entry(
    alloc: Global,
    script: &Script,
    names: &Names,
    n: u64,
    line: &[u8],
) -> Result<Option<Entry>, NoMemory>
    requires script { is_script script.now ≡ true }
    requires declared { names.now ≡ names_of script.now.buffers }
    ensures { IfOk result (λ entry. IsRead script.now n line.now entry) }
{
    let mut words = Words::new(alloc);
    read_entry_by(alloc, &mut words, script, names, n, line)
}

/// Reads entry `n` as `read_entry` does. The list `words` is left with what the line has, and its memory serves the next line.
pub(crate) fn read_entry_by<'a>(
    alloc: Global,
    words: &mut Words<'a>,
    script: &Script,
    names: &Names,
    n: u64,
    line: &'a [u8],
) -> Result<Option<Entry>, NoMemory>
    requires script { is_script script.now ≡ true }
    requires declared { names.now ≡ names_of script.now.buffers }
    ensures { IfOk result (λ entry. IsRead script.now n line.now entry) }
{
    entry_by_line(alloc, words, script, names, n, line)
}
