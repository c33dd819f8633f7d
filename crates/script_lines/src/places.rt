//! Places and lists of places by their words.

ghost use Rattle.std.specs.Prelude.{◌≡◌, ◌==◌, ◌≤◌, ◌+◌, length, drop, IfOk, map, option_map};
ghost use Rattle.journal_model.specs.scripts.Cut.{cut_at};
ghost use Rattle.journal_model.specs.scripts.Reading.{last_flags_of, contig_flags_of, flags_of, flagged, ranged, is_system, two_numbers_place, reach_place, based_place, at_place, plus_place, place_word_of, places_of};

use journal_model::line::{Flags, PlaceWord, PlaceWords};
use script_words::cut::{Word, cut};
use script_words::words::{is, memory, number};
use std::alloc::Global;
use ttm_base::limits::MAX_MEMORY_PAGES;
use ttm_base::{FlaggedPlace, Mem, NoMemory, Place};

fn last_flags(two: bool, topdown: bool, contig: bool, words: &[Word]) -> Option<Flags>
    ensures { result ≡ last_flags_of two topdown contig words.now }
{
    match words {
        [] => Some(Flags {
            topdown,
            contig,
            desired: false,
            fallback: false,
        }),
        [word] => {
            if two && is(word.items(), b"desired") {
                Some(Flags {
                    topdown,
                    contig,
                    desired: true,
                    fallback: false,
                })
            } else if two && is(word.items(), b"fallback") {
                Some(Flags {
                    topdown,
                    contig,
                    desired: false,
                    fallback: true,
                })
            } else {
                None
            }
        }
        _ => None,
    }
}

fn contig_flags(two: bool, topdown: bool, words: &[Word]) -> Option<Flags>
    ensures { result ≡ contig_flags_of two topdown words.now }
{
    match words {
        [word, rest @ ..] => {
            if is(word.items(), b"contig") {
                last_flags(two, topdown, true, rest)
            } else {
                last_flags(two, topdown, false, words)
            }
        }
        [] => last_flags(two, topdown, false, words),
    }
}

fn flags(two: bool, words: &[Word]) -> Option<Flags>
    ensures { result ≡ flags_of two words.now }
{
    match words {
        [word, rest @ ..] => {
            if is(word.items(), b"top") {
                contig_flags(two, true, rest)
            } else {
                contig_flags(two, false, words)
            }
        }
        [] => contig_flags(two, false, words),
    }
}

fn with_flags(mem: Mem, first: u32, last: u32, flags: Flags) -> PlaceWord
    ensures { result ≡ flagged mem first last flags }
{
    PlaceWord::Is(FlaggedPlace {
        place: Place {
            mem,
            first,
            last,
            topdown: flags.topdown,
            contig: flags.contig,
        },
        desired: flags.desired,
        fallback: flags.fallback,
    })
}

fn with_range(mem: Mem, first: Option<u32>, last: Option<u32>, flags: Flags) -> PlaceWord
    ensures { result ≡ ranged mem first last flags }
{
    match (first, last) {
        (Some(first), Some(last)) => {
            if (last == 0 && first != 0) || first < last {
                with_flags(mem, first, last, flags)
            } else {
                PlaceWord::Malformed
            }
        }
        _ => PlaceWord::BrokenNumber,
    }
}

fn is_in_system(mem: Mem) -> bool
    ensures { result ≡ is_system mem }
{
    matches!(mem, Mem::System)
}

fn with_two_numbers(mem: Mem, first: &[u8], last: &[u8], flags: Flags) -> PlaceWord
    ensures { result ≡ two_numbers_place mem first.now last.now flags }
{
    if is_in_system(mem) || first.is_empty() || last.is_empty() {
        return PlaceWord::Malformed;
    }
    let first = number(0, MAX_MEMORY_PAGES, first);
    let last = number(0, MAX_MEMORY_PAGES, last);
    with_range(mem, first, last, flags)
}

fn with_reach(mem: Mem, words: &[Word], flags: Flags) -> PlaceWord
    ensures { result ≡ reach_place mem words.now flags }
{
    match words {
        [first, last] => with_two_numbers(mem, first.items(), last.items(), flags),
        _ => PlaceWord::Malformed,
    }
}

fn with_base(
    alloc: Global,
    mem: Option<Mem>,
    reach: Option<&[u8]>,
    flags: Option<Flags>,
) -> Result<PlaceWord, NoMemory>
    ensures { IfOk result (λ place. place ≡ based_place mem (option_map (λ r. r.now) reach.entry) flags) }
{
    let (Some(mem), Some(flags)) = (mem, flags) else {
        return Ok(PlaceWord::Malformed);
    };
    match reach {
        None => Ok(with_flags(mem, 0, 0, flags)),
        Some(reach) => {
            let words = cut(alloc, b'-', reach)?;
            Ok(with_reach(mem, words.items(), flags))
        }
    }
}

// Returns what follows a first word of `first` bytes and the byte that ends it.
fn behind(base: &[u8], first: usize) -> &[u8]
    requires inside { first + 1 ≤ length base.now }
    ensures { result.now ≡ drop (first + 1) base.now }
{
    &base[first + 1..]
}

fn with_mem(
    alloc: Global,
    base: &[u8],
    words: &[Word],
    flags: Option<Flags>,
) -> Result<PlaceWord, NoMemory>
    requires parts { words.now ≡ cut_at 64 base.now }
    ensures { IfOk result (λ place. place ≡ at_place words.now flags) }
{
    match words {
        [] => Ok(PlaceWord::Malformed),
        [mem] => with_base(alloc, memory(mem.items()), None, flags),
        [mem, _, ..] => {
            let reach = behind(base, mem.items().len());
            with_base(alloc, memory(mem.items()), Some(reach), flags)
        }
    }
}

fn with_plus(alloc: Global, two: bool, words: &[Word]) -> Result<PlaceWord, NoMemory>
    ensures { IfOk result (λ place. place ≡ plus_place two words.now) }
{
    match words {
        [] => Ok(PlaceWord::Malformed),
        [base, rest @ ..] => {
            let parts = cut(alloc, b'@', base.items())?;
            with_mem(alloc, base.items(), parts.items(), flags(two, rest))
        }
    }
}

/// Returns the place that `word` tells. In version 2 it may end with a flag of its own.
pub fn place(alloc: Global, two: bool, word: &[u8]) -> Result<PlaceWord, NoMemory>
    ensures { IfOk result (λ place. place ≡ place_word_of two word.now) }
{
    let words = cut(alloc, b'+', word)?;
    with_plus(alloc, two, words.items())
}

fn places_in(alloc: Global, two: bool, words: &[Word]) -> Result<PlaceWords, NoMemory>
    ensures { IfOk result (λ places. places ≡ map (place_word_of two) words.now) }
{
    let mut places = PlaceWords::new(alloc);
    for word in words {
        places.push(place(alloc, two, word.items())?)?;
    }
    Ok(places)
}

/// Returns the places of a list, which has commas between them.
pub fn places(alloc: Global, two: bool, word: &[u8]) -> Result<PlaceWords, NoMemory>
    ensures { IfOk result (λ places. places ≡ places_of two word.now) }
{
    let words = cut(alloc, b',', word)?;
    places_in(alloc, two, words.items())
}
