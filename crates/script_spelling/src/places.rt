ghost use Rattle.std.specs.Prelude.{◌≡◌, ◌++◌, ◌∷◌, [], OnOk};
ghost use Rattle.journal_model.specs.scripts.Spelling.{flag, flagged_word, place_word, placement_words, reach_word};
ghost use Rattle.script_spelling.specs.Lists.{is_in, item_word, part_word};
ghost use Rattle.text_line.specs.Spaced.{spaced_out};

use text_line::{Line, mem_word};
use ttm_base::{FlaggedPlace, NoMemory, Place};

/// The places of a buffer that one word of its line names: those that are tried first, those that are tried under pressure, or all of them,
/// with their flags.
#[derive(Clone, Copy)]
pub(crate) enum Part {
    First,
    Forced,
    All,
}

/// Puts the words of a buffer's places into `text`. Version 1 has two lists, and any other has one list with flags.
pub(crate) fn put_placement(
    text: &mut Line,
    version: u32,
    list: &[FlaggedPlace],
) -> Result<(), NoMemory>
    ensures { OnOk result (text.new ≡ text.old ++ spaced_out (placement_words version list.now)) }
{
    if version == 1 {
        put_part(text, b"want", Part::First, list)?;
        put_part(text, b"busy", Part::Forced, list)
    } else {
        put_part(text, b"place", Part::All, list)
    }
}

/// Puts the name of a part and its places into `text`.
fn put_part(
    text: &mut Line,
    label: &[u8],
    part: Part,
    list: &[FlaggedPlace],
) -> Result<(), NoMemory>
    ensures { OnOk result (text.new ≡ text.old ++ spaced_out (label.now ∷ part_word part list.now ∷ [])) }
{
    text.word(label)?;
    text.put_byte(b' ')?;
    put_list(text, part, list)
}

fn put_list(text: &mut Line, part: Part, list: &[FlaggedPlace]) -> Result<(), NoMemory>
    ensures { OnOk result (text.new ≡ text.old ++ part_word part list.now) }
{
    let mut is_first = true;
    for place in list {
        if is_in(part, *place) {
            put_flag(text, !is_first, b",")?;
            put_item(text, part, *place)?;
            is_first = false;
        }
    }
    Ok(())
}

fn is_in(part: Part, place: FlaggedPlace) -> bool
    ensures { result ≡ is_in part place }
{
    match part {
        Part::First => !place.fallback,
        Part::Forced => !place.desired,
        Part::All => true,
    }
}

fn put_item(text: &mut Line, part: Part, place: FlaggedPlace) -> Result<(), NoMemory>
    ensures { OnOk result (text.new ≡ text.old ++ item_word part place) }
{
    match part {
        Part::First => put_place(text, place.place),
        Part::Forced => put_place(text, place.place),
        Part::All => put_flagged(text, place),
    }
}

fn put_flagged(text: &mut Line, place: FlaggedPlace) -> Result<(), NoMemory>
    ensures { OnOk result (text.new ≡ text.old ++ flagged_word place) }
{
    put_place(text, place.place)?;
    put_flag(text, place.desired, b"+desired")?;
    put_flag(text, place.fallback, b"+fallback")
}

fn put_place(text: &mut Line, place: Place) -> Result<(), NoMemory>
    ensures { OnOk result (text.new ≡ text.old ++ place_word place) }
{
    text.put(mem_word(place.mem))?;
    put_reach(text, place.first, place.last)?;
    put_flag(text, place.topdown, b"+top")?;
    put_flag(text, place.contig, b"+contig")
}

/// Puts a range of pages into `text`, unless it is all.
fn put_reach(text: &mut Line, first: u32, last: u32) -> Result<(), NoMemory>
    ensures { OnOk result (text.new ≡ text.old ++ reach_word first last) }
{
    if first == 0 && last == 0 {
        return Ok(());
    }
    text.put_byte(b'@')?;
    text.put_number(u64::from(first))?;
    text.put_byte(b'-')?;
    text.put_number(u64::from(last))
}

/// Puts `word` into `text` if it is wanted.
fn put_flag(text: &mut Line, is_wanted: bool, word: &[u8]) -> Result<(), NoMemory>
    ensures { OnOk result (text.new ≡ text.old ++ flag is_wanted word.now) }
{
    if is_wanted { text.put(word) } else { Ok(()) }
}
