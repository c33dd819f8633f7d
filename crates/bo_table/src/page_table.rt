#![tactic(auto)]

ghost use Rattle.std.specs.Prelude.{◌≡◌, ◌+◌, ◌<◌, ◌≤◌, ◌^◌, IfOk, length, map, not, position, replicate, slice_set};
ghost use Rattle.std.specs.List.{filter_map, list_all, list_any};
ghost use Rattle.ttm_base.specs.declared.Loc.TheVariants as loc;
ghost use Rattle.journal_model.specs.rules.ApplyPages.{without_frame};
ghost use Rattle.journal_model.specs.rules.Places.{frame_of};
ghost use Rattle.journal_model.specs.rules.Places as words;
ghost use Rattle.bo_table.specs.Pages.{frame_count, first_filled, first_unfilled};

use journal_model::Table;
use state_words::drop_frames;
use std::alloc::Global;
use std::marker::Model;
use ttm_base::{Loc, NoMemory};

/// Returns whether `place` is a frame.
fn is_frame(place: Loc) -> bool
    ensures { result ≡ words.is_frame place }
{
    matches!(place, Loc::Frame(_))
}

/// Returns a table of `pages` pages that are all Zero.
fn zero_pages(alloc: Global, pages: u32) -> Result<Table, NoMemory>
    ensures { IfOk result (λ places. places ≡ replicate pages loc.Zero) }
{
    let mut places = Table::new(alloc);
    for _page in 0..pages {
        places.push(Loc::Zero)?;
    }
    Ok(places)
}

/// Makes each page Zero.
fn clear(places: &mut Table)
    ensures { places.new ≡ map (λ l. loc.Zero) places.old }
{
    for i in 0..places.len() {
        places.set(i, Loc::Zero);
    }
}

/// Returns how many pages have a frame once page `page` has the place `place`, where `frames` have one before.
#[tactic(auto, using(crate::proofs::PageLaws::count_set))]
fn frames_after(places: &Table, frames: u32, page: u32, place: Loc) -> u32
    requires count { frames ≡ frame_count places.now }
    requires page { page < length places.now }
    requires short { length places.now < 2 ^ 32 }
    ensures { result ≡ frame_count (slice_set places.now page place) }
{
    let had = is_frame(places.at(page as usize));
    match (had, is_frame(place)) {
        (true, false) => frames - 1,
        (false, true) => frames + 1,
        (true, true) | (false, false) => frames,
    }
}

/// Returns the position of the first page without a frame, or None where each has one.
fn first_empty(places: &[Loc]) -> Option<usize>
    ensures { result ≡ position (λ l. not (words.is_frame l)) places.now }
{
    places.iter().position(|place| !is_frame(*place))
}

/// Returns how many pages at the front have frames.
#[tactic(auto, using(crate::proofs::PageLaws::first_is_some, crate::proofs::PageLaws::first_is_none, crate::proofs::PageLaws::first_within))]
fn filled_front(places: &[Loc]) -> usize
    ensures value { result ≡ first_unfilled places.now }
    ensures within { result ≤ length places.now }
{
    match first_empty(places) {
        Some(first) => first,
        None => places.len(),
    }
}

/// Returns the position of the first page with a frame, or None where none has one.
fn first_frame(places: &[Loc]) -> Option<usize>
    ensures { result ≡ position words.is_frame places.now }
{
    places.iter().position(|place| is_frame(*place))
}

/// Returns how many pages at the front have no frame.
#[tactic(auto, using(crate::proofs::PageLaws::first_is_some, crate::proofs::PageLaws::first_is_none, crate::proofs::PageLaws::first_within))]
fn empty_front(places: &[Loc]) -> usize
    ensures value { result ≡ first_filled places.now }
    ensures within { result ≤ length places.now }
{
    match first_frame(places) {
        Some(first) => first,
        None => places.len(),
    }
}

/// Returns the first page without a frame once page `page` has the place `place`, where `first` is that before. Looks at other pages only where the
/// first one gets a frame, up to the next one without.
#[tactic(auto, using(crate::proofs::PageLaws::first_lower, crate::proofs::PageLaws::first_other, crate::proofs::PageLaws::first_raised))]
fn first_unfilled_after(places: &Table, first: u32, page: u32, place: Loc) -> u32
    requires first { first ≡ first_unfilled places.now }
    requires page { page < length places.now }
    requires short { length places.now < 2 ^ 32 }
    ensures { result ≡ first_unfilled (slice_set places.now page place) }
{
    if !is_frame(place) {
        first.min(page)
    } else if page == first {
        let next = page as usize + 1;
        (next + filled_front(&places.items()[next..])) as u32
    } else {
        first
    }
}

/// Returns the first page with a frame once page `page` has the place `place`, where `frames` pages then have one and `first` is the first before.
/// Looks at other pages only where the first one loses its frame and others have one, up to the next one with a frame.
#[tactic(auto, using(crate::proofs::PageLaws::first_lower, crate::proofs::PageLaws::first_other, crate::proofs::PageLaws::first_raised))]
fn first_filled_after(places: &Table, frames: u32, first: u32, page: u32, place: Loc) -> u32
    requires count { frames ≡ frame_count (slice_set places.now page place) }
    requires first { first ≡ first_filled places.now }
    requires page { page < length places.now }
    requires short { length places.now < 2 ^ 32 }
    ensures { result ≡ first_filled (slice_set places.now page place) }
{
    if frames == 0 {
        places.len() as u32
    } else if is_frame(place) {
        first.min(page)
    } else if page == first {
        let next = page as usize + 1;
        (next + empty_front(&places.items()[next..])) as u32
    } else {
        first
    }
}

/// The places of a buffer's pages, by number (ttm_tt). It keeps how many of them have a frame, the first one that has none, and the first one that
/// has one, so that filling a buffer looks at each page once, and so does swapping it out.
#[derive(Drop)]
pub struct PageTable {
    places: Table,
    frames: u32,
    /// The first page without a frame, or the number of pages where each has one.
    unfilled: u32,
    /// The first page with a frame, or the number of pages where none has one.
    filled: u32,
}

impl Model for PageTable {
    ghost use Rattle.std.specs.Prelude.{List};
    ghost use Rattle.ttm_base.specs.declared.Loc.{Loc as Place};
    ghost use Rattle.bo_table.specs.Pages.{IsCounted};

    ghost Value = { List Place };

    ghost view = { λ t. t.places };

    ghost invariant = { λ t. IsCounted t.places t.frames t.unfilled t.filled };
}

impl PageTable {
    /// Makes a table of `pages` pages that are all Zero.
    #[tactic(auto, using(crate::proofs::PageLaws::zeros_counted))]
    pub(crate) fn new(alloc: Global, pages: u32) -> Result<PageTable, NoMemory>
        ensures { IfOk result (λ t. t ≡ replicate pages loc.Zero) }
    {
        let places = zero_pages(alloc, pages)?;
        Ok(PageTable {
            places,
            frames: 0,
            unfilled: 0,
            filled: pages,
        })
    }

    /// Returns the places of all pages.
    pub fn places(&self) -> &[Loc]
        ensures { result.now ≡ self.now }
    {
        self.places.items()
    }

    /// Returns how many pages have a frame. Takes constant time.
    pub fn frames(&self) -> u32
        ensures { result ≡ length (filter_map frame_of self.now) }
    {
        self.frames
    }

    /// Returns the page that is filled next, the first one without a frame, or None where each has one. Takes constant time.
    pub fn first_unfilled(&self) -> Option<u32>
        ensures { result ≡ position (λ l. not (words.is_frame l)) self.now }
    {
        if (self.unfilled as usize) < self.places.len() {
            Some(self.unfilled)
        } else {
            None
        }
    }

    /// Returns the page that is swapped out next, the first one with a frame, or None where none has one. Takes constant time.
    pub fn first_filled(&self) -> Option<u32>
        ensures { result ≡ position words.is_frame self.now }
    {
        if (self.filled as usize) < self.places.len() {
            Some(self.filled)
        } else {
            None
        }
    }

    /// Returns whether some page has a frame. Takes constant time.
    #[tactic(auto, using(crate::proofs::FilledLaws::some_frame))]
    pub fn has_frame(&self) -> bool
        ensures { result ≡ list_any words.is_frame self.now }
    {
        0 < self.frames
    }

    /// Returns whether each page has a frame. Takes constant time.
    pub fn has_all_frames(&self) -> bool
        ensures { result ≡ list_all words.is_frame self.now }
    {
        self.first_unfilled().is_none()
    }

    /// Gives page `page` the place `place`, if the page is there.
    #[tactic(auto, using(crate::proofs::Setting::set_beyond, crate::proofs::Setting::length_set))]
    pub(crate) fn set(&mut self, page: u32, place: Loc)
        ensures { self.new ≡ slice_set self.old page place }
    {
        if (page as usize) < self.places.len() {
            self.frames = frames_after(&self.places, self.frames, page, place);
            self.unfilled = first_unfilled_after(&self.places, self.unfilled, page, place);
            self.filled = first_filled_after(&self.places, self.frames, self.filled, page, place);
            self.places.set(page as usize, place);
        }
    }

    /// Drops all frames: their pages are then Zero. Slots stay.
    #[tactic(auto, using(crate::proofs::PageLaws::dropped_counted))]
    pub(crate) fn drop_frames(&mut self)
        ensures { self.new ≡ map without_frame self.old }
    {
        self.filled = self.places.len() as u32;
        drop_frames(&mut self.places);
        self.frames = 0;
        self.unfilled = 0;
    }

    /// Makes each page Zero.
    #[tactic(auto, using(crate::proofs::PageLaws::cleared_counted))]
    pub(crate) fn clear(&mut self)
        ensures { self.new ≡ map (λ l. loc.Zero) self.old }
    {
        self.filled = self.places.len() as u32;
        clear(&mut self.places);
        self.frames = 0;
        self.unfilled = 0;
    }
}
