//! What the result of a peek or poke finds, and where.
ghost use Rattle.std.specs.Prelude.{◌≡◌};
ghost use Rattle.map_follow.specs.Follows as follows;
ghost use Rattle.map_follow.specs.Founds as words;

use journal_model::{Entry, Kind};
use map_access::{Access, MarkSearch, access_in, has_mapping};
use state_words::page_at;
use ttm_base::{Actor, Loc, Mem, PagePlace, Span};

/// Pages that a thread's peek or poke has met through a mapping that stands.
#[derive(Clone, Copy)]
pub struct Found {
    pub thread: u32,
    pub pages: Access,
}

/// Returns the thread that `entry` answers, or None where it answers none.
pub fn answerer(entry: &Entry) -> Option<u32>
    ensures { result ≡ follows.answerer entry.now }
{
    match (entry.who, &entry.kind) {
        (Actor::Thread(thread), Kind::Result { .. } | Kind::Refused { .. }) => Some(thread),
        _ => None,
    }
}

/// Returns the pages that the access of `entry` finds, if the entry is the result of a peek or poke. Its thread has answered `answered` commands
/// before. Takes the time of a search by halves and of the marks at the command, if the script is known to keep the rules of scripts.
pub fn found_by(search: &MarkSearch, answered: u64, entry: &Entry) -> Option<Found>
    ensures { result ≡ words.found_by search.now answered entry.now }
{
    let Actor::Thread(thread) = entry.who else {
        return None;
    };
    let pages = access_in(search, u64::from(thread), answered, entry)?;
    if has_mapping(search, u64::from(thread), answered, pages.b) {
        Some(Found { thread, pages })
    } else {
        None
    }
}

/// Returns how a page with the place `place` is named: by its frame, or None where it has none.
fn framed(place: Loc) -> Option<PagePlace>
    ensures { result ≡ words.framed place }
{
    match place {
        Loc::Frame(frame) => Some(PagePlace::Frame(frame)),
        Loc::Slot(_) | Loc::Zero => None,
    }
}

/// Returns the page of VRAM or the frame at which page `page` of a buffer stands, or None where it has neither.
pub(crate) fn place_of(mem: Mem, spans: &[Span], table: &[Loc], page: u32) -> Option<PagePlace>
    ensures { result ≡ words.place_of mem spans.now table.now page }
{
    match mem {
        Mem::Vram => Some(PagePlace::Vram(page_at(spans, page)?)),
        Mem::System | Mem::Tt => framed(*table.get(page as usize)?),
    }
}
