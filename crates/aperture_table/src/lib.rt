//! The aperture (GART) through which packets reach the pages of TT: each page may be mapped to a frame.
#![tactic(auto)]

ghost use Rattle.std.specs.Prelude.{◌≡◌, ◌<◌, None, Some, IfOk, length, replicate, slice_set};
ghost use Rattle.aperture_table.specs.Translation.{frame_at};

use std::alloc::Global;
use std::marker::Model;
use ttm_base::NoMemory;

/// The frames of TT pages, seen as a list: for each page its frame, or None where the page isn't mapped. Only `new` takes
/// memory.
#[derive(Drop)]
pub struct Aperture {
    frames: Vec<Option<u32>>,
}

impl Model for Aperture {
    ghost use Rattle.std.specs.Prelude.{ℕ, List, Option};

    ghost Value = { List (Option ℕ) };

    ghost view = { λ s. s.frames.items };
}

impl Aperture {
    /// Returns an aperture of `pages` pages, of which none is mapped.
    pub fn new(alloc: Global, pages: u32) -> Result<Aperture, NoMemory>
        ensures { IfOk result (λ aper. aper ≡ replicate pages None) }
    {
        let frames = vec![in alloc; None; pages as usize]?;
        Ok(Aperture { frames })
    }

    /// Maps the page `page` to the frame `frame`.
    pub fn set(&mut self, page: u32, frame: u32)
        requires { page < length self.old }
        ensures after { self.new ≡ slice_set self.old page (Some frame) }
        ensures len { length self.new ≡ length self.old }
    {
        self.frames[page as usize] = Some(frame);
    }

    /// Unmaps the page `page`.
    pub fn clear(&mut self, page: u32)
        requires { page < length self.old }
        ensures after { self.new ≡ slice_set self.old page None }
        ensures len { length self.new ≡ length self.old }
    {
        self.frames[page as usize] = None;
    }

    /// Returns the frame to which the page `page` is mapped, or None where it isn't mapped.
    pub fn get(&self, page: u32) -> Option<u32>
        requires { page < length self.now }
        ensures { result ≡ frame_at self.now page }
    {
        let index = page as usize;
        self.frames[index]
    }
}
