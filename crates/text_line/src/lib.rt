//! A text that is being made, and the words that reports and scripts have in common.
#![tactic(auto)]

ghost use Rattle.std.specs.Prelude.{◌≡◌, ◌+◌, ◌≤◌, ◌++◌, ◌∷◌, [], IsTrue, OnOk, decimal, vec_capacity, vec_len};

use itoa::Buffer;
use short_numbers::{LONGEST_SHORT, SHORT_BELOW, push_short};
use std::alloc::Global;
use std::marker::Model;
use ttm_base::NoMemory;

mod short_numbers;
mod words;

pub use words::{mem_word, name_of, put_actor, put_hex, put_hex_byte, put_numbered};

/// A line that is being made, or several. Where memory is refused a part of what was to be added may be at its end.
#[derive(Drop)]
pub struct Line {
    bytes: Vec<u8>,
}

impl Model for Line {
    ghost use Rattle.std.specs.Prelude.{ℕ, List};

    ghost Value = { List ℕ };

    ghost view = { λ s. s.bytes.items };
}

impl Line {
    pub fn new(alloc: Global) -> Line
        ensures { result ≡ [] }
    {
        Line {
            bytes: Vec::new(alloc),
        }
    }

    /// Removes all text, and keeps the memory for another line.
    pub fn clear(&mut self)
        ensures { self.new ≡ [] }
    {
        self.bytes.clear();
    }

    pub fn bytes(&self) -> &[u8]
        ensures { result.now ≡ self.now }
    {
        self.bytes.as_slice()
    }

    pub fn into_bytes(self) -> Vec<u8>
        ensures { result.items ≡ self }
    {
        self.bytes
    }

    pub fn put(&mut self, text: &[u8]) -> Result<(), NoMemory>
        ensures { OnOk result (self.new ≡ self.old ++ text.now) }
    {
        if has_room(&self.bytes, text.len()) {
            self.bytes.extend_from_slice(text)?;
            Ok(())
        } else {
            self.put_growing(text)
        }
    }

    /// Adds `text` where there may be no room for it. It stands apart, so that what is called for each word stays small.
    #[cold]
    #[inline(never)]
    fn put_growing(&mut self, text: &[u8]) -> Result<(), NoMemory>
        ensures { OnOk result (self.new ≡ self.old ++ text.now) }
    {
        self.bytes.extend_from_slice(text)?;
        Ok(())
    }

    pub fn put_byte(&mut self, byte: u8) -> Result<(), NoMemory>
        ensures { OnOk result (self.new ≡ self.old ++ byte ∷ []) }
    {
        if has_room(&self.bytes, 1) {
            self.bytes.push_reserved(byte);
            Ok(())
        } else {
            self.put_growing(&[byte])
        }
    }

    /// Adds a number in decimal.
    pub fn put_number(&mut self, number: u64) -> Result<(), NoMemory>
        ensures { OnOk result (self.new ≡ self.old ++ decimal number) }
    {
        if number < SHORT_BELOW && has_room(&self.bytes, LONGEST_SHORT) {
            push_short(&mut self.bytes, number);
            Ok(())
        } else {
            self.put_digits(number)
        }
    }

    /// Adds a letter and a number in decimal.
    pub(crate) fn put_numbered(&mut self, letter: u8, number: u64) -> Result<(), NoMemory>
        ensures { OnOk result (self.new ≡ self.old ++ letter ∷ decimal number) }
    {
        if number < SHORT_BELOW && has_room(&self.bytes, 1 + LONGEST_SHORT) {
            self.bytes.push_reserved(letter);
            push_short(&mut self.bytes, number);
            Ok(())
        } else {
            self.put_byte(letter)?;
            self.put_digits(number)
        }
    }

    /// Adds a number in decimal, of any length.
    #[inline(never)]
    fn put_digits(&mut self, number: u64) -> Result<(), NoMemory>
        ensures { OnOk result (self.new ≡ self.old ++ decimal number) }
    {
        let mut digits = Buffer::new();
        self.put(digits.format(number).as_bytes())
    }

    /// Adds a space and a word.
    pub fn word(&mut self, word: &[u8]) -> Result<(), NoMemory>
        ensures { OnOk result (self.new ≡ self.old ++ 32 ∷ word.now) }
    {
        self.put_byte(b' ')?;
        self.put(word)
    }

    /// Adds a space and a number in decimal.
    pub fn number(&mut self, number: u64) -> Result<(), NoMemory>
        ensures { OnOk result (self.new ≡ self.old ++ 32 ∷ decimal number) }
    {
        self.put_numbered(b' ', number)
    }

    /// Adds the end of a line.
    pub fn end_line(&mut self) -> Result<(), NoMemory>
        ensures { OnOk result (self.new ≡ self.old ++ 10 ∷ []) }
    {
        self.put_byte(b'\n')
    }
}

/// Returns whether `bytes` has room for `more` bytes, so that pushing them takes no memory.
fn has_room(bytes: &Vec<u8>, more: usize) -> bool
    ensures { IsTrue result → vec_len bytes.now + more ≤ vec_capacity bytes.now }
{
    more <= bytes.capacity() - bytes.len()
}
