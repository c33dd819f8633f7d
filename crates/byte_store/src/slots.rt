//! Slots: the memory of pages, each of which has a slot of its own once it was written.
ghost use Rattle.std.specs.Prelude.{◌≡◌, ◌+◌, ◌-◌, ◌*◌, ◌/◌, ◌%◌, ◌<◌, ◌≤◌, ◌++◌, [], ℕ, List, length, replicate, slice_index, slice_set, vec_capacity, vec_len};
ghost use Rattle.byte_store.specs.Parts.{filled, overwritten, part, xored};
ghost use Rattle.byte_store.specs.Slots as words;
ghost use Rattle.byte_store.specs.Slots.{HasSlots, IsPlace, IsReady, count_begun, own_slot, page_bytes, stored_at};
ghost use Rattle.byte_store.specs.declared.slots.Stored.TheVariants as stored;

use crate::PAGE;

/// The size of a slot in bytes.
const SLOT: usize = PAGE as usize;

/// How the bytes of a page are stored.
#[derive(Clone, Copy)]
pub(crate) enum Stored {
    /// The page was never written and has no slot. Its bytes are zeros.
    Zeros,
    /// The page was zeroed since it was last written. Its slot, with the bytes that it had, is left for the next write.
    Cleared(u32),
    /// The bytes of the page are those of its slot.
    Written(u32),
}

/// Returns where the slot of this number begins. Before slot 0 there is a page of zeros.
fn slot_start(number: u32) -> usize
    ensures { result ≡ 4096 * number + 4096 }
{
    SLOT * number as usize + SLOT
}

impl Stored {
    /// Returns where bytes of the page can be read: its slot, or the page of zeros.
    pub(crate) fn shown_start(self) -> usize
        ensures { result ≡ 4096 * words.shown_slot self }
    {
        match self {
            Stored::Zeros => 0,
            Stored::Cleared(_) => 0,
            Stored::Written(number) => slot_start(number),
        }
    }

    /// Returns the page once all its bytes are zeros.
    pub(crate) fn cleared(self) -> Stored
        ensures zeros { words.shown_slot result ≡ 0 }
        ensures own { own_slot result ≡ own_slot self }
    {
        match self {
            Stored::Zeros => Stored::Zeros,
            Stored::Cleared(number) => Stored::Cleared(number),
            Stored::Written(number) => Stored::Cleared(number),
        }
    }
}

/// Adds `count` zeros to the slots, for which there is room.
#[cold]
pub(crate) fn add_zeros(slots: &mut Vec<u8>, count: usize)
    requires room { length slots.old.items + count ≤ vec_capacity slots.old }
    ensures slots { slots.new.items ≡ slots.old.items ++ replicate count 0 }
    ensures room { vec_capacity slots.old ≤ vec_capacity slots.new }
{
    slots.resize(slots.len() + count, 0).unwrap();
}

/// Begins the slot of a page that has none, with zeros, and returns where it begins.
#[cold]
fn begin(table: &mut Vec<Stored>, slots: &mut Vec<u8>, page: usize) -> usize
    requires slots { HasSlots table.old.items slots.old.items (vec_capacity slots.old) }
    requires page { page < length table.old.items }
    requires zeros { stored_at table.old.items page ≡ stored.Zeros }
    ensures slots { HasSlots table.new.items slots.new.items (vec_capacity slots.new) }
    ensures pages { length table.new.items ≡ length table.old.items }
    ensures place { IsPlace table.new.items page 0 result }
    ensures same { page_bytes table.new.items slots.new.items ≡ page_bytes table.old.items slots.old.items }
{
    let start = slots.len();
    add_zeros(slots, SLOT);
    table[page] = Stored::Written((start / SLOT - 1) as u32);
    start
}

/// Returns where the slot of a page begins, with all bytes of the page in it. A page that has no slot begins one, and a
/// slot that was left at `zero_page` is filled with zeros.
fn open(table: &mut Vec<Stored>, slots: &mut Vec<u8>, page: usize) -> usize
    requires slots { HasSlots table.old.items slots.old.items (vec_capacity slots.old) }
    requires page { page < length table.old.items }
    ensures slots { HasSlots table.new.items slots.new.items (vec_capacity slots.new) }
    ensures pages { length table.new.items ≡ length table.old.items }
    ensures place { IsPlace table.new.items page 0 result }
    ensures same { page_bytes table.new.items slots.new.items ≡ page_bytes table.old.items slots.old.items }
{
    match table[page] {
        Stored::Written(number) => slot_start(number),
        Stored::Cleared(number) => {
            let start = slot_start(number);
            fill_part(slots, start, start + SLOT, 0);
            table[page] = Stored::Written(number);
            start
        }
        Stored::Zeros => begin(table, slots, page),
    }
}

/// Returns where the slot of a page begins that is to be written as a whole: what it has stays as it is.
fn claim(table: &mut Vec<Stored>, slots: &mut Vec<u8>, page: usize) -> usize
    requires slots { HasSlots table.old.items slots.old.items (vec_capacity slots.old) }
    requires page { page < length table.old.items }
    ensures slots { HasSlots table.new.items slots.new.items (vec_capacity slots.new) }
    ensures pages { length table.new.items ≡ length table.old.items }
    ensures place { IsPlace table.new.items page 0 result }
    ensures ready { IsReady table.new.items slots.new.items (page_bytes table.old.items slots.old.items) result (4096 * page) 4096 }
{
    match table[page] {
        Stored::Written(number) => slot_start(number),
        Stored::Cleared(number) => {
            table[page] = Stored::Written(number);
            slot_start(number)
        }
        Stored::Zeros => begin(table, slots, page),
    }
}

/// Returns the page of a byte.
pub(crate) fn page_of(at: u64) -> usize
    ensures { result ≡ at / 4096 }
{
    (at / PAGE) as usize
}

/// Returns the offset of a byte in its page.
pub(crate) fn offset_of(at: u64) -> usize
    ensures { result ≡ at % 4096 }
{
    (at % PAGE) as usize
}

/// Returns where in the slots the bytes from position `at` on can be read, up to the end of its page.
pub(crate) fn shown_place(table: &[Stored], at: u64) -> usize
    requires { at / 4096 < length table.now }
    ensures { result ≡ 4096 * words.shown_slot (stored_at table.now (at / 4096)) + at % 4096 }
{
    table[page_of(at)].shown_start() + offset_of(at)
}

/// Returns where in the slots the bytes from position `at` on can be changed, up to the end of its page, with all bytes of
/// the page in its slot.
pub(crate) fn open_place(table: &mut Vec<Stored>, slots: &mut Vec<u8>, at: u64) -> usize
    requires slots { HasSlots table.old.items slots.old.items (vec_capacity slots.old) }
    requires page { at / 4096 < length table.old.items }
    ensures slots { HasSlots table.new.items slots.new.items (vec_capacity slots.new) }
    ensures pages { length table.new.items ≡ length table.old.items }
    ensures place { IsPlace table.new.items (at / 4096) (at % 4096) result }
    ensures same { page_bytes table.new.items slots.new.items ≡ page_bytes table.old.items slots.old.items }
{
    open(table, slots, page_of(at)) + offset_of(at)
}

/// Returns where in the slots `len` bytes are to be written that come to stand from position `at` on, in one page.
pub(crate) fn ready_place(
    table: &mut Vec<Stored>,
    slots: &mut Vec<u8>,
    at: u64,
    len: usize,
) -> usize
    requires slots { HasSlots table.old.items slots.old.items (vec_capacity slots.old) }
    requires page { at / 4096 < length table.old.items }
    requires part { at % 4096 + len ≤ 4096 }
    ensures slots { HasSlots table.new.items slots.new.items (vec_capacity slots.new) }
    ensures pages { length table.new.items ≡ length table.old.items }
    ensures place { IsPlace table.new.items (at / 4096) (at % 4096) result }
    ensures ready { IsReady table.new.items slots.new.items (page_bytes table.old.items slots.old.items) result at len }
{
    if len == SLOT {
        claim(table, slots, page_of(at))
    } else {
        open_place(table, slots, at)
    }
}

/// Fills the stored bytes from `at` up to `end` with `byte`.
#[tactic(auto, unfolding(crate::specs::Parts::filled))]
pub(crate) fn fill_part(bytes: &mut Vec<u8>, at: usize, end: usize, byte: u8)
    requires order { at ≤ end }
    requires inside { end ≤ vec_len bytes.old }
    ensures after { bytes.new.items ≡ overwritten bytes.old.items at (filled (end - at) byte) }
    ensures len { vec_len bytes.new ≡ vec_len bytes.old }
    ensures reserved { vec_capacity bytes.new ≡ vec_capacity bytes.old }
{
    bytes[at..end].fill(byte);
}

/// Copies the bytes `from` to position `to`.
pub(crate) fn put_part(bytes: &mut Vec<u8>, to: usize, from: &[u8])
    requires { to + length from.now ≤ vec_len bytes.old }
    ensures after { bytes.new.items ≡ overwritten bytes.old.items to from.now }
    ensures len { vec_len bytes.new ≡ vec_len bytes.old }
    ensures reserved { vec_capacity bytes.new ≡ vec_capacity bytes.old }
{
    bytes[to..to + from.len()].copy_from_slice(from);
}

/// Copies `len` bytes from position `from` to position `to`. The two parts may overlap.
pub(crate) fn move_part(bytes: &mut Vec<u8>, to: usize, from: usize, len: usize)
    requires source { from + len ≤ vec_len bytes.old }
    requires target { to + len ≤ vec_len bytes.old }
    ensures after { bytes.new.items ≡ overwritten bytes.old.items to (part bytes.old.items from len) }
    ensures len { vec_len bytes.new ≡ vec_len bytes.old }
    ensures reserved { vec_capacity bytes.new ≡ vec_capacity bytes.old }
{
    bytes.copy_within(from..from + len, to);
}

/// Replaces each byte from position `to` on by its exclusive or with that of `from`.
pub(crate) fn xor_part(bytes: &mut Vec<u8>, to: usize, from: &[u8])
    requires { to + length from.now ≤ vec_len bytes.old }
    ensures after { bytes.new.items ≡ overwritten bytes.old.items to (xored (part bytes.old.items to (length from.now)) from.now) }
    ensures len { vec_len bytes.new ≡ vec_len bytes.old }
    ensures reserved { vec_capacity bytes.new ≡ vec_capacity bytes.old }
{
    xor_slices(&mut bytes[to..to + from.len()], from);
}

/// Replaces each byte by its exclusive or with that of the other slice.
fn xor_slices(to: &mut [u8], from: &[u8])
    requires { length to.old ≡ length from.now }
    ensures { to.new ≡ xored to.old from.now }
{
    for i in 0..to.len() {
        to[i] ^= from[i];
    }
}
