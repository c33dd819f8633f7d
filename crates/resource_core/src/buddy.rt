ghost use Rattle.std.specs.Prelude.{◌≡◌, ◌≤◌};

use crate::TakeFault;
use crate::room::{Room, SpanManager};
use buddy_manager::{AllocFault, BuddyFlags, BuddyManager};
use place_list::reach;
use std::alloc::Global;
use ttm_base::{NoMemory, Place, Spans};

/// The pages of a memory type in blocks (drm_buddy), at most 2^31 - 1 of them. The alignment plays no part.
pub type BuddyRoom = Room<BuddyManager>;

impl SpanManager for BuddyManager {
    ghost use Rattle.resource_core.specs.Choices.{buddy_spans};
    ghost use Rattle.resource_core.specs.BuddyTaken.{buddy_takes_free, buddy_takes_some, buddy_most_fits};

    ghost size = { λ manager. manager.size };

    ghost held = { λ manager. manager.held };

    ghost choice = { buddy_spans };

    ghost most = { 2147483647 };

    fn with_pages(alloc: Global, pages: u32) -> Result<BuddyManager, NoMemory> {
        BuddyManager::new(alloc, pages)
    }

    fn take(
        &mut self,
        pages: u32,
        _align: u32,
        place: &Place,
        out: &mut Spans,
    ) -> Result<(), TakeFault> {
        let (free, used) = self.lengths();
        let (first, last) = reach(place, free + used);
        let flags = BuddyFlags {
            topdown: place.topdown,
            contig: place.contig,
        };
        match self.alloc(pages, first, last, flags, out) {
            Ok(()) => Ok(()),
            Err(AllocFault::NoBlocks) => Err(TakeFault::NoRoom),
            Err(AllocFault::NoMemory) => Err(TakeFault::NoMemory),
        }
    }

    fn choose(
        &mut self,
        pages: u32,
        _align: u32,
        place: &Place,
        out: &mut Spans,
    ) -> Result<(), TakeFault> {
        let (free, used) = self.lengths();
        let (first, last) = reach(place, free + used);
        let flags = BuddyFlags {
            topdown: place.topdown,
            contig: place.contig,
        };
        match self.choice(pages, first, last, flags, out) {
            Ok(()) => Ok(()),
            Err(AllocFault::NoBlocks) => Err(TakeFault::NoRoom),
            Err(AllocFault::NoMemory) => Err(TakeFault::NoMemory),
        }
    }

    fn hold(&mut self, spans: &Spans) -> Result<(), NoMemory> {
        BuddyManager::hold(self, spans)
    }

    fn put_back(&mut self, spans: &Spans) {
        self.release(spans);
    }

    fn free_pages(&self) -> u32 {
        self.lengths().0
    }

    ghost takes_free = { λ free size pages align place out small some aligned is. buddy_takes_free free size _ place.topdown place.contig pages out some is };

    ghost takes_some = { λ free size pages align place out some is. buddy_takes_some free size _ place.topdown place.contig pages out some is };

    ghost most_fits = { buddy_most_fits };
}
