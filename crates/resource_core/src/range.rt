ghost use Rattle.std.specs.Prelude.{◌≡◌};
ghost use Rattle.buddy_manager.specs.Held.{without_all, AreHeld, IsApart};
ghost use Rattle.resource_core.specs.Choices as words;

use crate::TakeFault;
use crate::room::{Room, SpanManager};
use place_list::reach;
use range_manager::{InsertFault, RangeManager};
use std::alloc::Global;
use ttm_base::{Mode, NoMemory, Place, Span, Spans};

/// The pages of a memory type in ranges (drm_mm).
pub type RangeRoom = Room<RangeManager>;

/// Returns how a hole is chosen: the smallest hole, or for `topdown` the top of the highest.
fn mode_for(topdown: bool) -> Mode
    ensures { result ≡ words.mode_for topdown }
{
    if topdown { Mode::High } else { Mode::Best }
}

/// Releases spans that are held.
fn let_go(manager: &mut RangeManager, spans: &[Span])
    requires apart { IsApart manager.old.held }
    requires held { AreHeld spans.now manager.old.held }
    ensures size { manager.new.size ≡ manager.old.size }
    ensures held { manager.new.held ≡ without_all spans.now manager.old.held }
{
    for span in spans {
        manager.remove(span.start);
    }
}

impl SpanManager for RangeManager {
    ghost use Rattle.resource_core.specs.Choices.{range_spans};
    ghost use Rattle.resource_core.specs.RangeTaken.{range_takes_free, range_takes_some, range_most_fits};

    ghost size = { λ manager. manager.size };

    ghost held = { λ manager. manager.held };

    ghost choice = { range_spans };

    ghost most = { 4294967295 };

    fn with_pages(alloc: Global, pages: u32) -> Result<RangeManager, NoMemory> {
        RangeManager::new(alloc, pages)
    }

    fn take(
        &mut self,
        pages: u32,
        align: u32,
        place: &Place,
        out: &mut Spans,
    ) -> Result<(), TakeFault> {
        let (free, used) = self.lengths();
        let (first, last) = reach(place, free + used);
        let whole = Span {
            start: first,
            end: last,
        };
        let Ok(()) = out.push(whole) else {
            return Err(TakeFault::NoMemory);
        };
        match self.insert(pages, align, first, last, mode_for(place.topdown)) {
            Ok(span) => {
                out.set(0, span);
                Ok(())
            }
            Err(InsertFault::NoHole) => {
                out.clear();
                Err(TakeFault::NoRoom)
            }
            Err(InsertFault::NoMemory) => {
                out.clear();
                Err(TakeFault::NoMemory)
            }
        }
    }

    fn choose(
        &mut self,
        pages: u32,
        align: u32,
        place: &Place,
        out: &mut Spans,
    ) -> Result<(), TakeFault> {
        let (free, used) = self.lengths();
        let (first, last) = reach(place, free + used);
        let Some(span) = self.choice(pages, align, first, last, mode_for(place.topdown)) else {
            return Err(TakeFault::NoRoom);
        };
        match out.push(span) {
            Ok(()) => Ok(()),
            Err(NoMemory) => Err(TakeFault::NoMemory),
        }
    }

    fn hold(&mut self, spans: &Spans) -> Result<(), NoMemory> {
        let spans = spans.items();
        for (done, span) in spans.iter().enumerate() {
            match self.reserve(*span) {
                Ok(()) => {}
                Err(_) => {
                    let_go(self, &spans[..done]);
                    return Err(NoMemory);
                }
            }
        }
        Ok(())
    }

    fn put_back(&mut self, spans: &Spans) {
        let_go(self, spans.items());
    }

    fn free_pages(&self) -> u32 {
        self.lengths().0
    }

    ghost takes_free = { λ free size pages align place out small some aligned is. range_takes_free free size pages align place out is };

    ghost takes_some = { λ free size pages align place out some is. range_takes_some free size pages align place out is };

    ghost most_fits = { range_most_fits };
}
