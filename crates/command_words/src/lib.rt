//! The words after the program's name: what they ask for.
#![tactic(auto)]

ghost use Rattle.std.specs.Prelude.{◌≡◌, ◌++◌, ◌∷◌, [], ◌+◌, ◌*◌, ◌-◌, ◌==◌, min, OnOk, OnErr, bytes_eq, string_bytes};
ghost use Rattle.journal_model.specs.scripts.Reading.{number_in, read_on};
ghost use Rattle.command_words.specs.Forms.{form_of, form_of_word};

use journal_model::Bytes;
use script_words::words::{is, is_plain_number, owned};
use std::alloc::Global;
use std::marker::Model;
use ttm_base::{ItemList, NoMemory};

/// What the words after the program's name ask for.
#[derive(Clone, Copy, PartialEq, Eq)]
pub enum Form {
    /// Run a script, with a limit of turns.
    Sim(Option<u64>),
    /// Judge a report.
    Check,
    Help,
    Version,
}

/// The words after the program's name, each as bytes.
#[derive(Drop)]
pub struct Words {
    alloc: Global,
    words: ItemList<Bytes>,
}

impl Model for Words {
    ghost use Rattle.std.specs.Prelude.{List, ℕ};

    ghost Value = { List (List ℕ) };

    ghost view = { λ s. s.words };
}

impl Words {
    pub fn new(alloc: Global) -> Words
        ensures { result ≡ [] }
    {
        Words {
            alloc,
            words: ItemList::new(alloc),
        }
    }

    /// Adds `word` at the end. Without memory it leaves the words as they were.
    pub fn push(&mut self, word: &str) -> Result<(), NoMemory>
        ensures ok { OnOk result (self.new ≡ self.old ++ word.now ∷ []) }
        ensures err { OnErr result (self.new ≡ self.old) }
    {
        let word = owned(self.alloc, word.as_bytes())?;
        self.words.push(word)
    }

    /// Returns the words in order.
    pub fn items(&self) -> &[Bytes]
        ensures { result.now ≡ self.now }
    {
        self.words.items()
    }
}

/// One more than the greatest number of turns that can be asked for.
const PAST_MOST: u128 = 1 << 64;

/// Returns the number that `word`, a word of digits, tells, or 2^64 where it is above that.
fn value_of(word: &[u8]) -> u128
    ensures { result ≡ min (read_on 0 word.now) 18446744073709551616 }
{
    let mut n = 0u128;
    for &c in word {
        n = (10 * n + u128::from(c.saturating_sub(b'0'))).min(PAST_MOST);
    }
    n
}

/// Returns the plain number of 64 bits that `word` tells, or `None` if it tells none.
pub fn plain_number(word: &[u8]) -> Option<u64>
    ensures { result ≡ number_in 0 18446744073709551615 word.now }
{
    let n = value_of(word);
    if is_plain_number(word) && n < PAST_MOST {
        Some(n as u64)
    } else {
        None
    }
}

fn form_of_one(word: &[u8]) -> Option<Form>
    ensures { result ≡ form_of_word word.now }
{
    if is(word, b"sim") {
        Some(Form::Sim(None))
    } else if is(word, b"check") {
        Some(Form::Check)
    } else if is(word, b"--help") {
        Some(Form::Help)
    } else if is(word, b"--version") {
        Some(Form::Version)
    } else {
        None
    }
}

/// Returns what the words ask for, or `None` if they ask for nothing that the program knows.
pub fn read_words(words: &Words) -> Option<Form>
    ensures { result ≡ form_of words.now }
{
    match words.items() {
        [word] => form_of_one(word.items()),
        [word, flag, turns] => {
            if is(word.items(), b"sim") && is(flag.items(), b"--turns") {
                plain_number(turns.items()).map(|n| Form::Sim(Some(n)))
            } else {
                None
            }
        }
        _ => None,
    }
}
