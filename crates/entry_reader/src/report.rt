//! The entries of a report, up to the first line that isn't one.

ghost use Rattle.std.specs.Prelude.{◌≡◌, ◌≤◌, IfOk, drop, length, take, true};
ghost use Rattle.script_words.specs.Lines.{line_len};
ghost use Rattle.journal_model.specs.scripts.Reading.{names_of};
ghost use Rattle.journal_model.specs.scripts.ScriptRules.{is_script};
ghost use Rattle.entry_reader.specs.HeadReading.{count_of, numbered_of, numbered_words};
ghost use Rattle.entry_reader.specs.Parsing.{IsHead, IsHeadRead, IsParsed};

use crate::entry::{does_end, front_of, is_the_number, names_of_script, read_entry_by};
use crate::numbers::number;
use crate::rule::Rule;
use journal_model::{Entry, Script};
use script_words::cut::{Word, Words, cut, len_of_line};
use script_words::names::Names;
use script_words::words::is;
use std::alloc::Global;
use ttm_base::{ItemList, NoMemory};

pub type Entries = ItemList<Entry>;

/// Where a report is bad: the first entry that isn't read, counted from 1, and the rule that it breaks, `Rule::Head` or `Rule::Line`. Entry
/// 0 stands for the first two lines.
#[derive(Clone, Copy, Debug, PartialEq, Eq)]
pub struct ReportBad {
    pub entry: u64,
    pub rule: Rule,
}

/// What the first two lines tell.
#[derive(Clone, Copy)]
pub struct Head {
    /// The number of entries that there are to be.
    pub count: u64,
    /// The bytes of both lines.
    pub len: usize,
}

/// A report as far as it can be read.
pub struct Parsed {
    /// The entries up to the first line that isn't one; none where the first two lines are bad.
    pub entries: Entries,
    /// The position of the first byte after them, at most the length of the text; 0 where the first two lines are bad.
    pub rest: usize,
    /// Why reading ended before all entries that the report counts.
    pub bad: Option<ReportBad>,
}

/// By hand, so that no crate above proves how each part goes.
impl Drop for Parsed {
    fn drop(self) {
        let Self {
            entries: _,
            rest: _,
            bad: _,
        } = self;
    }
}

/// Returns the first line of `text`, with its line feed where it has one.
#[tactic(auto, using(crate::proofs::HeadTold::line_len_within))]
fn first_line_of(text: &[u8]) -> &[u8]
    ensures { result.now ≡ take (line_len text.now) text.now }
{
    let (line, _) = text.split_at(len_of_line(text));
    line
}

/// Returns the bytes of `text` from `place` on.
fn behind(text: &[u8], place: usize) -> &[u8]
    requires { place ≤ length text.now }
    ensures { result.now ≡ drop place text.now }
{
    let (_, rest) = text.split_at(place);
    rest
}

fn number_behind(keyword: &[u8], words: &[Word]) -> Option<u64>
    ensures { result ≡ numbered_words keyword.now words.now }
{
    match words {
        [word, digits] => {
            if is(word.items(), keyword) {
                number(digits.items())
            } else {
                None
            }
        }
        _ => None,
    }
}

fn numbered_line(alloc: Global, keyword: &[u8], line: &[u8]) -> Result<Option<u64>, NoMemory>
    ensures { IfOk result (λ n. n ≡ numbered_of keyword.now line.now) }
{
    if !does_end(line) {
        return Ok(None);
    }
    let words = cut(alloc, b' ', front_of(line))?;
    Ok(number_behind(keyword, words.items()))
}

fn count(
    alloc: Global,
    script: &Script,
    first: &[u8],
    second: &[u8],
) -> Result<Option<u64>, NoMemory>
    ensures { IfOk result (λ n. n ≡ count_of script.now first.now second.now) }
{
    let version = numbered_line(alloc, b"report", first)?;
    if !is_the_number(u64::from(script.version), version) {
        return Ok(None);
    }
    numbered_line(alloc, b"journal", second)
}

fn read_head(alloc: Global, script: &Script, text: &[u8]) -> Result<Option<Head>, NoMemory>
    requires { is_script script.now ≡ true }
    ensures { IfOk result (λ head. IsHeadRead script.now text.now head) }
{
    let first = first_line_of(text);
    let front = first.len();
    let after = behind(text, front);
    let second = first_line_of(after);
    let back = second.len();
    match count(alloc, script, first, second)? {
        Some(count) => Ok(Some(Head {
            count,
            len: front + back,
        })),
        None => Ok(None),
    }
}

fn read_entries(
    alloc: Global,
    script: &Script,
    names: &Names,
    head: Head,
    text: &[u8],
) -> Result<Parsed, NoMemory>
    requires script { is_script script.now ≡ true }
    requires declared { names.now ≡ names_of script.now.buffers }
    requires head { IsHead script.now text.now head.count head.len }
    ensures { IfOk result (λ parsed. IsParsed script.now text.now parsed) }
{
    let mut words = Words::new(alloc);
    let mut entries = Entries::new(alloc);
    let mut rest = head.len;
    for n in 0..head.count {
        let after = behind(text, rest);
        let line = first_line_of(after);
        match read_entry_by(alloc, &mut words, script, names, n + 1, line)? {
            Some(entry) => {
                entries.push(entry)?;
                rest += line.len();
            }
            None => {
                let bad = Some(ReportBad {
                    entry: n + 1,
                    rule: Rule::Line,
                });
                return Ok(Parsed { entries, rest, bad });
            }
        }
    }
    Ok(Parsed {
        entries,
        rest,
        bad: None,
    })
}

/// Reads the report `text` of `script`: its entries up to the first line that isn't one, the position of the first byte after them, and why
/// there are no more. Where the first two lines aren't those of a report, no entry is read and the position is 0. The report may count more
/// entries than it has lines, up to 2^64 - 1.
pub fn read_report(alloc: Global, script: &Script, text: &[u8]) -> Result<Parsed, NoMemory>
    requires { is_script script.now ≡ true }
    ensures { IfOk result (λ parsed. IsParsed script.now text.now parsed) }
{
    let Some(head) = read_head(alloc, script, text)? else {
        return Ok(Parsed {
            entries: Entries::new(alloc),
            rest: 0,
            bad: Some(ReportBad {
                entry: 0,
                rule: Rule::Head,
            }),
        });
    };
    let names = names_of_script(alloc, script)?;
    read_entries(alloc, script, &names, head, text)
}
