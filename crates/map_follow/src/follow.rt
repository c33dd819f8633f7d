//! What entries of a journal do to mappings.
ghost use Rattle.std.specs.Prelude.{◌≡◌, ◌<◌, ◌^◌, fold};
ghost use Rattle.law_legal.specs.law_maps.Following.{areas_behind};
ghost use Rattle.map_follow.specs.Founds.{with_found};
ghost use Rattle.map_follow.specs.Ends as words;

use crate::found::{Found, place_of};
use cpu_maps::CpuMaps;
use journal_model::{Kind, Mark, MarkKind};
use map_access::MarkSearch;
use ttm_base::{Loc, Mem, Span};

/// Gives the thread's mapping an entry for each page that its access found, of a buffer that stands in the memory type `mem`, with the spans `spans`
/// and the page table `table`.
pub fn fault_in(maps: &mut CpuMaps, found: Found, mem: Mem, spans: &[Span], table: &[Loc])
    requires { found.pages.end < 2 ^ 32 }
    ensures { maps.new ≡ with_found found mem spans.now table.now maps.old }
{
    for page in found.pages.first..found.pages.end {
        let page = page as u32;
        if let Some(place) = place_of(mem, spans, table, page) {
            maps.fault_in(found.thread, found.pages.b, page, place);
        }
    }
}

/// Removes the entries of those pages that leave their places by an entry of `kind`.
pub fn leave(maps: &mut CpuMaps, kind: &Kind)
    ensures { maps.new ≡ areas_behind kind.now maps.old }
{
    match kind {
        Kind::Free { b, .. } | Kind::Move { b, .. } => maps.drop_buffer(*b),
        Kind::Bind { b } | Kind::Unbind { b } => maps.drop_buffer(*b),
        Kind::SwapOut { b, page, .. } => maps.drop_page(*b, *page),
        _ => {}
    }
}

/// Removes the entries of those mappings that a line of `marks` ends once `thread` has answered `answered` commands.
fn end_by(maps: &mut CpuMaps, marks: &[Mark], thread: u32, answered: u64)
    ensures { maps.new ≡ fold (words.with_end thread answered) maps.old marks.now }
{
    for mark in marks {
        if mark.thread == thread && u64::from(mark.after) == answered {
            if let MarkKind::Unmap { b } = mark.kind {
                maps.unmap(thread, b);
            }
        }
    }
}

/// Removes the entries of those mappings that end once `thread` has answered `answered` commands.
pub fn end_mappings(maps: &mut CpuMaps, search: &MarkSearch, thread: u32, answered: u64)
    ensures { maps.new ≡ fold (words.with_end thread answered) maps.old search.now.marks }
{
    let marks = search.part(u64::from(thread), answered, answered);
    end_by(maps, marks, thread, answered);
}
