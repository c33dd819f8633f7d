//! The entries of a mapping, in pieces that begin when a page of theirs first has an entry.
ghost use Rattle.std.specs.Prelude.{◌≡◌, ◌+◌, ◌*◌, ◌/◌, ◌<◌, ◌≤◌, ◌++◌, [], None, Some, IfOk, length, map, replicate, slice_get, slice_index, slice_set, unwrap_or, vec_capacity, vec_len};
ghost use Rattle.cpu_maps.specs.Pieces as words;
ghost use Rattle.cpu_maps.specs.Pieces.{count_begun, HasPieces};

use std::alloc::Global;
use std::marker::Model;
use ttm_base::{NoMemory, PagePlace};

/// The number of pages of a piece.
const PIECE: usize = 16;

/// For each page of a buffer the place that an access found, or None, seen as a list. Memory for all entries is reserved at
/// the start, so that setting one takes none, but only that of pieces of 16 pages in which a page has had an entry is touched.
#[derive(Drop)]
pub struct Entries {
    /// For each piece 0, or once it has begun its number among those that have: 1 for the first.
    begun: Vec<u32>,
    /// The entries of the pieces that have begun, in the order of their numbers.
    slots: Vec<Option<PagePlace>>,
    pages: u32,
}

impl Model for Entries {
    ghost use Rattle.std.specs.Prelude.{List, Option, vec_capacity};
    ghost use Rattle.ttm_base.specs.declared.PagePlace.{PagePlace};

    ghost Value = { List (Option PagePlace) };

    ghost use Rattle.cpu_maps.specs.Pieces.{entries_from, HasPieces};

    ghost view = { λ e. entries_from e.begun.items e.slots.items 0 e.pages };

    ghost invariant = { λ e. HasPieces e.begun.items e.slots.items e.pages (vec_capacity e.slots) };
}

/// Returns the slot of a page, or None where its piece hasn't begun.
fn slot_of(begun: &[u32], page: usize) -> Option<usize>
    requires { page < length begun.now * 16 }
    ensures { result ≡ words.slot_of begun.now page }
{
    match begun[page / PIECE] {
        0 => None,
        number => Some((number as usize - 1) * PIECE + page % PIECE),
    }
}

/// Begins the next piece, which is that at `row`, without an entry.
#[cold]
fn begin(begun: &mut Vec<u32>, slots: &mut Vec<Option<PagePlace>>, row: usize)
    requires row { row < length begun.old.items }
    requires few { length begun.old.items < 4294967296 }
    requires full { length slots.old.items ≡ count_begun begun.old.items * 16 }
    requires room { count_begun begun.old.items * 16 + 16 ≤ vec_capacity slots.old }
    requires less { count_begun begun.old.items < length begun.old.items }
    ensures begun { begun.new.items ≡ slice_set begun.old.items row (count_begun begun.old.items + 1) }
    ensures slots { slots.new.items ≡ slots.old.items ++ replicate 16 None }
    ensures room { vec_capacity slots.old ≤ vec_capacity slots.new }
{
    slots.resize(slots.len() + PIECE, None).unwrap();
    begun[row] = (slots.len() / PIECE) as u32;
}

impl Entries {
    /// Returns entries of `pages` pages, all of them None.
    pub(crate) fn new(alloc: Global, pages: u32) -> Result<Entries, NoMemory>
        ensures { IfOk result (λ entries. entries ≡ replicate pages None) }
    {
        let rows = pages as usize / PIECE + 1;
        let begun = vec![in alloc; 0; rows]?;
        let slots = Vec::with_capacity(alloc, rows * PIECE)?;
        Ok(Entries {
            begun,
            slots,
            pages,
        })
    }

    /// Returns the number of pages.
    pub fn pages(&self) -> usize
        ensures { result ≡ length self.now }
    {
        self.pages as usize
    }

    /// Returns the entry of a page, or None where it has none.
    pub fn get(&self, page: u32) -> Option<PagePlace>
        ensures { result ≡ unwrap_or (slice_get self.now page) None }
    {
        if page >= self.pages {
            return None;
        }
        match slot_of(&self.begun, page as usize) {
            Some(slot) => self.slots[slot],
            None => None,
        }
    }

    /// Sets the entry of a page, or removes it. Where there is no such page nothing changes.
    pub(crate) fn set(&mut self, page: u32, entry: Option<PagePlace>)
        ensures { self.new ≡ slice_set self.old page entry }
    {
        if page >= self.pages {
            return;
        }
        let page = page as usize;
        match slot_of(&self.begun, page) {
            Some(slot) => self.slots[slot] = entry,
            None => {
                if entry.is_some() {
                    let slot = self.slots.len() + page % PIECE;
                    begin(&mut self.begun, &mut self.slots, page / PIECE);
                    self.slots[slot] = entry;
                }
            }
        }
    }

    /// Removes all entries.
    pub(crate) fn clear(&mut self)
        ensures { self.new ≡ map (λ entry. None) self.old }
    {
        if self.slots.is_empty() {
            return;
        }
        self.slots.clear();
        self.begun.fill(0);
    }
}
