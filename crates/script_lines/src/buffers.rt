//! Buffer lines by their words.

ghost use Rattle.std.specs.Prelude.{◌≡◌, IfOk};
ghost use Rattle.journal_model.specs.scripts.LineWords.{buffer_head_of, has_head_words, two_lists, list_of_version_two, lists_line, buffer_line_of};

use crate::places::places;
use journal_model::line::{BufferHead, Line};
use script_words::cut::Word;
use script_words::words::{group, is, number, owned};
use std::alloc::Global;
use ttm_base::NoMemory;
use ttm_base::limits::{MAX_ALIGN, MAX_BUFFER_PAGES};

fn head(
    alloc: Global,
    name: &[u8],
    pages: &[u8],
    prio: &[u8],
    group_word: &[u8],
    align: &[u8],
) -> Result<BufferHead, NoMemory>
    ensures { IfOk result (λ head. head ≡ buffer_head_of name.now pages.now prio.now group_word.now align.now) }
{
    Ok(BufferHead {
        name: owned(alloc, name)?,
        pages: number(1, MAX_BUFFER_PAGES, pages),
        prio: number(0, 3, prio),
        group: group(group_word),
        align: number(1, MAX_ALIGN, align),
    })
}

fn are_head_words(a: &[u8], b: &[u8], c: &[u8]) -> bool
    ensures { result ≡ has_head_words a.now b.now c.now }
{
    is(a, b"prio") && is(b, b"group") && is(c, b"align")
}

fn with_two_lists(
    alloc: Global,
    fits: bool,
    head: BufferHead,
    d: &[u8],
    want: &[u8],
    e: &[u8],
    busy: &[u8],
) -> Result<Option<Line>, NoMemory>
    ensures { IfOk result (λ line. line ≡ two_lists fits head d.now want.now e.now busy.now) }
{
    if fits && is(d, b"want") && is(e, b"busy") {
        let want = places(alloc, false, want)?;
        let busy = places(alloc, false, busy)?;
        Ok(Some(Line::Buffer { head, want, busy }))
    } else {
        Ok(None)
    }
}

fn with_one_list(
    alloc: Global,
    fits: bool,
    head: BufferHead,
    d: &[u8],
    list: &[u8],
) -> Result<Option<Line>, NoMemory>
    ensures { IfOk result (λ line. line ≡ list_of_version_two fits head d.now list.now) }
{
    if fits && is(d, b"place") {
        let list = places(alloc, true, list)?;
        Ok(Some(Line::Placed { head, list }))
    } else {
        Ok(None)
    }
}

fn with_lists(
    alloc: Global,
    two: bool,
    fits: bool,
    head: BufferHead,
    words: &[Word],
) -> Result<Option<Line>, NoMemory>
    ensures { IfOk result (λ line. line ≡ lists_line two fits head words.now) }
{
    match words {
        [d, want, e, busy] => {
            if two {
                return Ok(None);
            }
            with_two_lists(
                alloc,
                fits,
                head,
                d.items(),
                want.items(),
                e.items(),
                busy.items(),
            )
        }
        [d, list] => {
            if two {
                return with_one_list(alloc, fits, head, d.items(), list.items());
            }
            Ok(None)
        }
        _ => Ok(None),
    }
}

pub fn buffer(alloc: Global, two: bool, words: &[Word]) -> Result<Option<Line>, NoMemory>
    ensures { IfOk result (λ line. line ≡ buffer_line_of two words.now) }
{
    match words {
        [_, name, pages, a, prio, b, group, c, align, rest @ ..] => {
            let head = head(
                alloc,
                name.items(),
                pages.items(),
                prio.items(),
                group.items(),
                align.items(),
            )?;
            let fits = are_head_words(a.items(), b.items(), c.items());
            with_lists(alloc, two, fits, head, rest)
        }
        _ => Ok(None),
    }
}
