//! The first word of a line, and where a line may stand.

ghost use Rattle.std.specs.Prelude.{◌≡◌};
ghost use Rattle.journal_model.specs.scripts.LineWords.{verb_of, mapping_keyword_of, command_keyword_of, keyword_of, may_follow, needs_version_two, may_come};

use crate::words::is;
use journal_model::line::{Access, Keyword, Phase, Verb};

fn verb(word: &[u8]) -> Option<Verb>
    ensures { result ≡ verb_of word.now }
{
    if is(word, b"new") {
        Some(Verb::New)
    } else if is(word, b"free") {
        Some(Verb::Free)
    } else if is(word, b"pin") {
        Some(Verb::Pin)
    } else if is(word, b"unpin") {
        Some(Verb::Unpin)
    } else if is(word, b"find") {
        Some(Verb::Find)
    } else if is(word, b"swapout") {
        Some(Verb::SwapOut)
    } else {
        None
    }
}

fn mapping_keyword(word: &[u8]) -> Keyword
    ensures { result ≡ mapping_keyword_of word.now }
{
    if is(word, b"map") {
        Keyword::Map
    } else if is(word, b"unmap") {
        Keyword::Unmap
    } else if is(word, b"peek") {
        Keyword::Read(Access::Mapped)
    } else if is(word, b"poke") {
        Keyword::Write(Access::Mapped)
    } else if is(word, b"vmap") {
        Keyword::Vmap
    } else if is(word, b"vunmap") {
        Keyword::Vunmap
    } else if is(word, b"vsubmit") {
        Keyword::Vsubmit
    } else {
        match verb(word) {
            Some(verb) => Keyword::Plain(verb),
            None => Keyword::Other,
        }
    }
}

fn command_keyword(word: &[u8]) -> Keyword
    ensures { result ≡ command_keyword_of word.now }
{
    if is(word, b"write") {
        Keyword::Write(Access::Direct)
    } else if is(word, b"read") {
        Keyword::Read(Access::Direct)
    } else if is(word, b"move") {
        Keyword::Move
    } else if is(word, b"touch") {
        Keyword::Touch
    } else if is(word, b"submit") {
        Keyword::Submit
    } else {
        mapping_keyword(word)
    }
}

/// Returns the keyword that `word`, the first of a line, tells.
pub fn keyword(word: &[u8]) -> Keyword
    ensures { result ≡ keyword_of word.now }
{
    if is(word, b"ttm") {
        Keyword::Ttm
    } else if is(word, b"vram") {
        Keyword::Vram
    } else if is(word, b"tt") {
        Keyword::Tt
    } else if is(word, b"frames") {
        Keyword::Frames
    } else if is(word, b"swap") {
        Keyword::Swap
    } else if is(word, b"engines") {
        Keyword::Engines
    } else if is(word, b"buffer") {
        Keyword::Buffer
    } else if is(word, b"thread") {
        Keyword::Thread
    } else if is(word, b"schedule") {
        Keyword::Schedule
    } else if is(word, b"end") {
        Keyword::End
    } else {
        command_keyword(word)
    }
}

fn can_follow(phase: Phase, keyword: Keyword) -> bool
    ensures { result ≡ may_follow phase keyword }
{
    match phase {
        Phase::Version => matches!(keyword, Keyword::Ttm),
        Phase::Vram => matches!(keyword, Keyword::Vram),
        Phase::Tt => matches!(keyword, Keyword::Tt),
        Phase::Frames => matches!(keyword, Keyword::Frames),
        Phase::Swap => matches!(keyword, Keyword::Swap),
        Phase::Engines => matches!(keyword, Keyword::Engines),
        Phase::Buffers => matches!(
            keyword,
            Keyword::Buffer | Keyword::Thread | Keyword::Schedule | Keyword::End
        ),
        Phase::Threads => matches!(
            keyword,
            Keyword::Thread
                | Keyword::Schedule
                | Keyword::End
                | Keyword::Plain(_)
                | Keyword::Write(_)
                | Keyword::Read(_)
                | Keyword::Move
                | Keyword::Touch
                | Keyword::Submit
                | Keyword::Map
                | Keyword::Unmap
                | Keyword::Vmap
                | Keyword::Vunmap
                | Keyword::Vsubmit
        ),
        Phase::Turns => matches!(keyword, Keyword::Schedule | Keyword::End),
        Phase::After => false,
    }
}

fn is_of_version_two(keyword: Keyword) -> bool
    ensures { result ≡ needs_version_two keyword }
{
    matches!(
        keyword,
        Keyword::Write(Access::Mapped)
            | Keyword::Read(Access::Mapped)
            | Keyword::Map
            | Keyword::Unmap
            | Keyword::Vmap
            | Keyword::Vunmap
            | Keyword::Vsubmit
    )
}

/// Returns whether a line with this keyword may come in this phase of a script of this version.
pub fn can_come(version: u32, phase: Phase, keyword: Keyword) -> bool
    ensures { result ≡ may_come version phase keyword }
{
    can_follow(phase, keyword) && (!is_of_version_two(keyword) || version == 2)
}
