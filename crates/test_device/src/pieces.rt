//! Lines of words and numbers.

use std::io;

/// Prints `words`, and behind them `number`, if there is one.
fn print_piece(rt: &impl Print, words: &str, number: Option<u64>) -> io::Result<()> {
    match number {
        Some(number) => print!(rt; "{words}{number}"),
        None => print!(rt; "{words}"),
    }
}

/// Prints the words of each of `pieces`, and behind them its number, if it has one.
pub fn print_all(rt: &impl Print, pieces: &[(&str, Option<u64>)]) -> io::Result<()> {
    for (words, number) in pieces {
        print_piece(rt, *words, *number)?;
    }
    Ok(())
}

/// Returns the word that tells whether something is so.
pub fn word_for(is_so: bool) -> (&'static str, Option<u64>) {
    if is_so {
        ("true", None)
    } else {
        ("false", None)
    }
}
