//! The frames of system memory: which of them are held, and the lowest that is free (ttm_pool). Only `new` takes memory.
#![tactic(auto)]

ghost use Rattle.std.specs.Prelude.{◌≡◌, true, false, not, Some, IfOk, IfSome, IfNone, count_by, position, replicate, slice_get, slice_set};

use free_map::FreeMap;
use std::alloc::Global;
use std::marker::Model;
use ttm_base::NoMemory;

/// A pool that knows of each frame whether it is held, seen as a list.
pub struct PagePool {
    frames: FreeMap,
}

/// Names each part, so that no crate above proves how they are dropped.
impl Drop for PagePool {
    fn drop(self) {
        let Self { frames: _ } = self;
    }
}

impl Model for PagePool {
    ghost use Rattle.std.specs.Prelude.{Bool, List};

    ghost Value = { List Bool };

    ghost view = { λ p. p.frames };
}

impl PagePool {
    /// Returns a pool of `frames` frames, each of them free.
    pub fn new(alloc: Global, frames: u32) -> Result<PagePool, NoMemory>
        ensures { IfOk result (λ pool. pool ≡ replicate frames false) }
    {
        let frames = FreeMap::new(alloc, frames)?;
        Ok(PagePool { frames })
    }

    /// Takes the lowest free frame, which is then held. None means that no frame is free, and changes nothing.
    pub fn take(&mut self) -> Option<u32>
        ensures lowest { result ≡ position not self.old }
        ensures taken { IfSome result (λ frame. self.new ≡ slice_set self.old frame true) }
        ensures none { IfNone result (self.new ≡ self.old) }
    {
        self.frames.take()
    }

    /// Gives back the frame `frame`, which is held.
    pub fn give(&mut self, frame: u32)
        requires { slice_get self.old frame ≡ Some true }
        ensures { self.new ≡ slice_set self.old frame false }
    {
        self.frames.give(frame);
    }

    /// Returns how many frames are free.
    pub fn free(&self) -> u32
        ensures { result ≡ count_by not self.now }
    {
        self.frames.free()
    }

    /// Returns the lowest free frame, which `take` would return, or None where no frame is free.
    pub fn first(&self) -> Option<u32>
        ensures { result ≡ position not self.now }
    {
        self.frames.first()
    }
}
