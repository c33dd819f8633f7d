ghost use Rattle.std.specs.Prelude.{◌≡◌, ◌+◌, ◌*◌, ◌≤◌, length};
ghost use Rattle.ttm_base.specs.Pages.{translated};
ghost use Rattle.byte_store.specs.Parts.{filled, xored};
ghost use Rattle.copy_packet.specs.StoreBytes.{IsThere, aperture_of};
ghost use Rattle.copy_packet.specs.Spots.{Fits, IsOnPage, after_write, part_at, spot_at};

use aperture_table::Aperture;
use byte_store::{ByteStore, PAGE};
use ttm_base::PagePlace;

/// The bytes that engines reach, and the aperture through which they reach the pages of TT.
pub struct Stores {
    pub vram: ByteStore,
    pub frames: ByteStore,
    pub aper: Aperture,
}

/// Names each part, so that no crate above proves how they are dropped.
impl Drop for Stores {
    fn drop(self) {
        let Self {
            vram: _,
            frames: _,
            aper: _,
        } = self;
    }
}

/// The position of a byte: in VRAM, or in frames.
#[derive(Clone, Copy, PartialEq, Eq)]
pub(crate) enum Spot {
    Vram(u64),
    Frames(u64),
}

/// Returns the position in its store of the byte at offset `off` of a page.
fn position(page: u32, off: u32) -> u64
    ensures { result ≡ 4096 * page + off }
{
    PAGE * page as u64 + off as u64
}

impl Stores {
    /// Returns the position of the byte at offset `off` of the page that a packet names.
    pub(crate) fn spot(&self, place: PagePlace, off: u32) -> Spot
        requires { IsThere self.now (translated (aperture_of self.now) place) }
        ensures { result ≡ spot_at (translated (aperture_of self.now) place) off }
    {
        match place {
            PagePlace::Vram(page) => Spot::Vram(position(page, off)),
            PagePlace::Frame(frame) => Spot::Frames(position(frame, off)),
            PagePlace::Aper(page) => {
                let Some(frame) = self.aper.get(page) else {
                    unreachable!()
                };
                Spot::Frames(position(frame, off))
            }
        }
    }

    /// Lends `len` bytes of one page from a position on.
    pub(crate) fn part(&self, spot: Spot, len: u64) -> &[u8]
        requires page { IsOnPage spot len }
        requires fits { Fits self.now spot len }
        ensures { result.now ≡ part_at self.now spot len }
    {
        match spot {
            Spot::Vram(at) => self.vram.part(at, len),
            Spot::Frames(at) => self.frames.part(at, len),
        }
    }

    /// Fills the `len` bytes from a position on with `byte`.
    pub(crate) fn fill(&mut self, to: Spot, len: u64, byte: u8)
        requires { Fits self.old to len }
        ensures after { self.new ≡ after_write self.old to (filled len byte) }
        ensures vram { length self.new.vram ≡ length self.old.vram }
        ensures frames { length self.new.frames ≡ length self.old.frames }
    {
        match to {
            Spot::Vram(at) => self.vram.fill(at, len, byte),
            Spot::Frames(at) => self.frames.fill(at, len, byte),
        }
    }

    /// Copies `len` bytes of one page, from position `from` on, to position `to` of one page.
    pub(crate) fn copy(&mut self, to: Spot, from: Spot, len: u64)
        requires target_page { IsOnPage to len }
        requires source_page { IsOnPage from len }
        requires target { Fits self.old to len }
        requires source { Fits self.old from len }
        ensures after { self.new ≡ after_write self.old to (part_at self.old from len) }
        ensures vram { length self.new.vram ≡ length self.old.vram }
        ensures frames { length self.new.frames ≡ length self.old.frames }
    {
        match (to, from) {
            (Spot::Vram(to), Spot::Vram(from)) => self.vram.copy_within(to, from, len),
            (Spot::Frames(to), Spot::Frames(from)) => self.frames.copy_within(to, from, len),
            (Spot::Vram(to), Spot::Frames(from)) => {
                self.vram.copy_page_part(to, self.frames.part(from, len))
            }
            (Spot::Frames(to), Spot::Vram(from)) => {
                self.frames.copy_page_part(to, self.vram.part(from, len))
            }
        }
    }

    /// Replaces `len` bytes at position `to` of one page by their exclusive or with those at position `from` of one page.
    pub(crate) fn xor(&mut self, to: Spot, from: Spot, len: u64)
        requires target_page { IsOnPage to len }
        requires source_page { IsOnPage from len }
        requires target { Fits self.old to len }
        requires source { Fits self.old from len }
        ensures after { self.new ≡ after_write self.old to (xored (part_at self.old to len) (part_at self.old from len)) }
        ensures vram { length self.new.vram ≡ length self.old.vram }
        ensures frames { length self.new.frames ≡ length self.old.frames }
    {
        match (to, from) {
            (Spot::Vram(to), Spot::Vram(from)) => self.vram.xor_within(to, from, len),
            (Spot::Frames(to), Spot::Frames(from)) => self.frames.xor_within(to, from, len),
            (Spot::Vram(to), Spot::Frames(from)) => {
                self.vram.xor_page_part(to, self.frames.part(from, len))
            }
            (Spot::Frames(to), Spot::Vram(from)) => {
                self.frames.xor_page_part(to, self.vram.part(from, len))
            }
        }
    }
}
