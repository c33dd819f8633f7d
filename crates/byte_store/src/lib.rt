//! Bytes of pages in memory: the stores of VRAM, of frames and of swap slots.
#![tactic(auto)]

mod slots;

ghost use Rattle.std.specs.Prelude.{◌≡◌, ◌+◌, ◌-◌, ◌*◌, ◌/◌, ◌%◌, ◌<◌, ◌≤◌, [], Some, IfOk, length, replicate, slice_get, slice_set, vec_capacity, vec_len};
ghost use Rattle.byte_store.specs.Parts.{filled, overwritten, part, xored};

use slots::{
    Stored, add_zeros, fill_part, move_part, open_place, put_part, ready_place, shown_place,
    xor_part,
};
use std::alloc::Global;
use std::marker::Model;
use ttm_base::NoMemory;

/// The size of a page in bytes.
pub const PAGE: u64 = 4096;

/// The bytes of a number of pages, one page after the other, seen as a list. Only `new` takes memory, and of that it only
/// touches 8 bytes a page, and a page of zeros. The memory of a page is touched when the page is first written, and serves
/// that page from then on. A page that was never written, or was zeroed since, has no bytes of its own: it reads as zeros.
#[derive(Drop)]
pub struct ByteStore {
    table: Vec<Stored>,
    slots: Vec<u8>,
}

impl Model for ByteStore {
    ghost use Rattle.std.specs.Prelude.{ℕ, List, vec_capacity};
    ghost use Rattle.byte_store.specs.Slots.{HasSlots, page_bytes};

    ghost Value = { List ℕ };

    ghost view = { λ s. page_bytes s.table.items s.slots.items };

    ghost invariant = { λ s. HasSlots s.table.items s.slots.items (vec_capacity s.slots) };
}

/// Returns how many bytes there are from position `at` to the end of its page.
fn left_in_page(at: u64) -> usize
    ensures { result + at % PAGE ≡ PAGE }
{
    (PAGE - at % PAGE) as usize
}

/// Returns how many bytes there are from the beginning of a page up to position `end`, at least one.
fn begun_of_page(end: u64) -> usize
    requires { 0 < end }
    ensures inside { result ≤ end }
    ensures some { 0 < result }
    ensures page { result ≤ PAGE }
    ensures first { (end - result) % PAGE ≡ 0 }
{
    ((end - 1) % PAGE + 1) as usize
}

impl ByteStore {
    ghost use Rattle.byte_store.specs.Parts.{filled, overwritten, part, xored};

    /// Returns a store of `pages` pages of zeros.
    pub fn new(alloc: Global, pages: u32) -> Result<ByteStore, NoMemory>
        ensures zeros { IfOk result (λ store. store ≡ filled (PAGE * pages) 0) }
        ensures len { IfOk result (λ store. length store ≡ PAGE * pages) }
    {
        let count = pages as usize;
        let table = vec![in alloc; Stored::Zeros; count]?;
        let mut slots = Vec::with_capacity(alloc, PAGE as usize + PAGE as usize * count)?;
        add_zeros(&mut slots, PAGE as usize);
        Ok(ByteStore { table, slots })
    }

    /// Returns the byte at position `at`.
    #[tactic(auto, using(crate::proofs::StoredLaws::first_of_part))]
    pub fn get(&self, at: u64) -> u8
        requires { at < length self.now }
        ensures { slice_get self.now at ≡ Some result }
    {
        self.part(at, 1)[0]
    }

    /// Replaces the byte at position `at`.
    #[tactic(auto, using(crate::proofs::StoredLaws::overwritten_one))]
    pub fn put(&mut self, at: u64, byte: u8)
        requires { at < length self.old }
        ensures after { self.new ≡ slice_set self.old at byte }
        ensures len { length self.new ≡ length self.old }
    {
        self.put_in_page(at, &[byte]);
    }

    /// Lends `len` bytes of one page from position `at` on. Touches no memory that wasn't written.
    pub fn part(&self, at: u64, len: u64) -> &[u8]
        requires page { at % PAGE + len ≤ PAGE }
        requires inside { at + len ≤ length self.now }
        ensures value { result.now ≡ part self.now at len }
        ensures len { length result.now ≡ len }
    {
        if len == 0 {
            return &[];
        }
        let start = shown_place(&self.table, at);
        &self.slots[start..start + len as usize]
    }

    /// Copies the bytes from position `at` on to `into`, at most a page of them, of one page or of two.
    fn read(&self, at: u64, into: &mut [u8])
        requires page { length into.old ≤ PAGE }
        requires inside { at + length into.old ≤ length self.now }
        ensures { into.new ≡ part self.now at (length into.old) }
    {
        let size = self.size();
        prove!(at <= size);
        let first = left_in_page(at).min(into.len());
        let (head, tail) = into.split_at_mut(first);
        head.copy_from_slice(self.part(at, first as u64));
        tail.copy_from_slice(self.part(at + first as u64, tail.len() as u64));
    }

    /// Returns the number of bytes.
    fn size(&self) -> u64
        ensures { result ≡ length self.now }
    {
        PAGE * self.table.len() as u64
    }

    /// Fills `len` bytes of one page from position `at` on with `byte`.
    fn fill_in_page(&mut self, at: u64, len: usize, byte: u8)
        requires some { 0 < len }
        requires page { at % PAGE + len ≤ PAGE }
        requires inside { at + len ≤ length self.old }
        ensures after { self.new ≡ overwritten self.old at (filled len byte) }
        ensures len { length self.new ≡ length self.old }
    {
        let start = ready_place(&mut self.table, &mut self.slots, at, len);
        fill_part(&mut self.slots, start, start + len, byte);
    }

    /// Copies the bytes `from` to position `to` of one page.
    fn put_in_page(&mut self, to: u64, from: &[u8])
        requires some { 0 < length from.now }
        requires page { to % PAGE + length from.now ≤ PAGE }
        requires inside { to + length from.now ≤ length self.old }
        ensures after { self.new ≡ overwritten self.old to from.now }
        ensures len { length self.new ≡ length self.old }
    {
        let start = ready_place(&mut self.table, &mut self.slots, to, from.len());
        put_part(&mut self.slots, start, from);
    }

    /// Fills the `len` bytes from position `at` on with `byte`. The pages may be several. Of a page that is zeros and of
    /// which only a part is filled, the other bytes are cleared first.
    pub fn fill(&mut self, at: u64, len: u64, byte: u8)
        requires { at + len ≤ length self.old }
        ensures after { self.new ≡ overwritten self.old at (filled len byte) }
        ensures len { length self.new ≡ length self.old }
    {
        let size = self.size();
        prove!(at <= size && len <= size - at);
        let mut done = 0;
        while done < len {
            let start = at + done;
            let count = left_in_page(start).min((len - done) as usize);
            self.fill_in_page(start, count, byte);
            done += count as u64;
        }
    }

    /// Zeroes all bytes of `page`. Goes over none of them: the page is marked, and reads as zeros.
    pub fn zero_page(&mut self, page: u32)
        requires { PAGE * page + PAGE ≤ length self.old }
        ensures after { self.new ≡ overwritten self.old (PAGE * page) (filled PAGE 0) }
        ensures len { length self.new ≡ length self.old }
    {
        let row = page as usize;
        self.table[row] = self.table[row].cleared();
    }

    /// Copies the bytes `from`, of another store or of a buffer, to position `to`. The pages may be several. Of a page that
    /// is zeros and of which only a part is written, the other bytes are cleared first.
    pub fn copy_page_part(&mut self, to: u64, from: &[u8])
        requires { to + length from.now ≤ length self.old }
        ensures after { self.new ≡ overwritten self.old to from.now }
        ensures len { length self.new ≡ length self.old }
    {
        let size = self.size();
        prove!(to <= size);
        let mut done = 0;
        while done < from.len() {
            let start = to + done as u64;
            let count = left_in_page(start).min(from.len() - done);
            self.put_in_page(start, &from[done..done + count]);
            done += count;
        }
    }

    /// Copies `len` bytes from position `from` on to position `to`, each part in one page. The two parts may overlap.
    fn copy_in_page(&mut self, to: u64, from: u64, len: usize)
        requires some { 0 < len }
        requires source_page { from % PAGE + len ≤ PAGE }
        requires target_page { to % PAGE + len ≤ PAGE }
        requires source { from + len ≤ length self.old }
        requires target { to + len ≤ length self.old }
        ensures after { self.new ≡ overwritten self.old to (part self.old from len) }
        ensures len { length self.new ≡ length self.old }
    {
        let into = open_place(&mut self.table, &mut self.slots, to);
        let start = shown_place(&self.table, from);
        move_part(&mut self.slots, into, start, len);
    }

    /// Copies `len` bytes from position `from` on to position `to`, at or before it, the first bytes first.
    fn copy_down(&mut self, to: u64, from: u64, len: u64)
        requires order { to ≤ from }
        requires source { from + len ≤ length self.old }
        ensures after { self.new ≡ overwritten self.old to (part self.old from len) }
        ensures len { length self.new ≡ length self.old }
    {
        let size = self.size();
        prove!(from <= size && len <= size - from);
        let mut done = 0;
        while done < len {
            let (into, start) = (to + done, from + done);
            let count = left_in_page(into)
                .min(left_in_page(start))
                .min((len - done) as usize);
            self.copy_in_page(into, start, count);
            done += count as u64;
        }
    }

    /// Copies `len` bytes from position `from` on to position `to`, after it, the last bytes first.
    fn copy_up(&mut self, to: u64, from: u64, len: u64)
        requires order { from < to }
        requires target { to + len ≤ length self.old }
        ensures after { self.new ≡ overwritten self.old to (part self.old from len) }
        ensures len { length self.new ≡ length self.old }
    {
        let size = self.size();
        prove!(to <= size && len <= size - to);
        let mut left = len;
        while left > 0 {
            let count = begun_of_page(to + left)
                .min(begun_of_page(from + left))
                .min(left as usize);
            left -= count as u64;
            self.copy_in_page(to + left, from + left, count);
        }
    }

    /// Copies `len` bytes of the store, from position `from` on, to position `to`. The pages may be several, and the two
    /// parts may overlap. Of a page that is zeros and that bytes are copied to, the other bytes are cleared first.
    pub fn copy_within(&mut self, to: u64, from: u64, len: u64)
        requires source { from + len ≤ length self.old }
        requires target { to + len ≤ length self.old }
        ensures after { self.new ≡ overwritten self.old to (part self.old from len) }
        ensures len { length self.new ≡ length self.old }
    {
        if to <= from {
            self.copy_down(to, from, len);
        } else {
            self.copy_up(to, from, len);
        }
    }

    /// Replaces each byte from position `to` of one page on by its exclusive or with that of `from`.
    fn xor_in_page(&mut self, to: u64, from: &[u8])
        requires some { 0 < length from.now }
        requires page { to % PAGE + length from.now ≤ PAGE }
        requires inside { to + length from.now ≤ length self.old }
        ensures after { self.new ≡ overwritten self.old to (xored (part self.old to (length from.now)) from.now) }
        ensures len { length self.new ≡ length self.old }
    {
        let start = open_place(&mut self.table, &mut self.slots, to);
        xor_part(&mut self.slots, start, from);
    }

    /// Replaces each byte from position `to` on by its exclusive or with that of `from`, of another store or of a buffer.
    /// The pages may be several.
    pub fn xor_page_part(&mut self, to: u64, from: &[u8])
        requires { to + length from.now ≤ length self.old }
        ensures after { self.new ≡ overwritten self.old to (xored (part self.old to (length from.now)) from.now) }
        ensures len { length self.new ≡ length self.old }
    {
        let size = self.size();
        prove!(to <= size);
        let mut done = 0;
        while done < from.len() {
            let start = to + done as u64;
            let count = left_in_page(start).min(from.len() - done);
            self.xor_in_page(start, &from[done..done + count]);
            done += count;
        }
    }

    /// Replaces each of `len` bytes at position `to`, at most a page of them, by its exclusive or with that at position
    /// `from`. The pages may be several, and the two parts may overlap.
    pub fn xor_within(&mut self, to: u64, from: u64, len: u64)
        requires page { len ≤ PAGE }
        requires source { from + len ≤ length self.old }
        requires target { to + len ≤ length self.old }
        ensures after { self.new ≡ overwritten self.old to (xored (part self.old to len) (part self.old from len)) }
        ensures len { length self.new ≡ length self.old }
    {
        let mut copy = [0; PAGE as usize];
        let copy = &mut copy[..len as usize];
        self.read(from, copy);
        self.xor_page_part(to, copy);
    }
}
