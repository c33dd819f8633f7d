ghost use Rattle.std.specs.Prelude.{◌≡◌, [], None, IfOk};
ghost use Rattle.resource_core.specs.Vram.{spans_of_kind};

use crate::buddy::BuddyRoom;
use crate::manager::{Lengths, Manager, TakeFault};
use crate::range::RangeRoom;
use std::alloc::Global;
use std::marker::Model;
use ttm_base::{JobId, NoMemory, Owner, Place, Spans};

/// How pages are managed: in ranges (drm_mm), or in blocks (drm_buddy).
#[derive(Clone, Copy, PartialEq, Eq)]
pub enum PagesKind {
    Ranges,
    Blocks,
}

#[derive(Drop)]
enum EitherRoom {
    Ranges(RangeRoom),
    Blocks(BuddyRoom),
}

/// The pages of a memory type in ranges or in blocks, as a script says for VRAM.
pub struct VramRoom {
    room: EitherRoom,
}

/// Names each part, so that no crate above proves how they are dropped.
impl Drop for VramRoom {
    fn drop(self) {
        let Self { room: _ } = self;
    }
}

impl Model for VramRoom {
    ghost use Rattle.resource_core.specs.Vram.{Vram};

    ghost Value = { Vram };

    ghost use Rattle.resource_core.specs.VramRooms.{seen};

    ghost view = { λ v. seen v.room };
}

impl VramRoom {
    /// Returns a room of `pages` pages that no owner holds, without a move job.
    pub fn new(alloc: Global, pages: u32, kind: PagesKind) -> Result<VramRoom, NoMemory>
        ensures { IfOk result (λ room. room ≡ record { kind = kind; resources = record { size = pages; held = []; move_fence = None } }) }
    {
        let room = match kind {
            PagesKind::Ranges => EitherRoom::Ranges(RangeRoom::new(alloc, pages)?),
            PagesKind::Blocks => EitherRoom::Blocks(BuddyRoom::new(alloc, pages)?),
        };
        Ok(VramRoom { room })
    }

    /// Returns how the pages are managed.
    pub fn kind(&self) -> PagesKind
        ensures { result ≡ self.now.kind }
    {
        match &self.room {
            EitherRoom::Ranges(_) => PagesKind::Ranges,
            EitherRoom::Blocks(_) => PagesKind::Blocks,
        }
    }
}

impl Manager for VramRoom {
    ghost resources = { λ room. room.resources };

    ghost choice = { λ room. spans_of_kind room.kind };

    fn take(
        &mut self,
        alloc: Global,
        owner: Owner,
        pages: u32,
        align: u32,
        place: &Place,
    ) -> Result<Spans, TakeFault> {
        match &mut self.room {
            EitherRoom::Ranges(room) => room.take(alloc, owner, pages, align, place),
            EitherRoom::Blocks(room) => room.take(alloc, owner, pages, align, place),
        }
    }

    fn hold(&mut self, owner: Owner, spans: &Spans) -> Result<(), NoMemory> {
        match &mut self.room {
            EitherRoom::Ranges(room) => room.hold(owner, spans),
            EitherRoom::Blocks(room) => room.hold(owner, spans),
        }
    }

    fn choose(
        &mut self,
        alloc: Global,
        pages: u32,
        align: u32,
        place: &Place,
    ) -> Result<Spans, TakeFault> {
        match &mut self.room {
            EitherRoom::Ranges(room) => room.choose(alloc, pages, align, place),
            EitherRoom::Blocks(room) => room.choose(alloc, pages, align, place),
        }
    }

    fn pass(&mut self, from: Owner, to: Owner) {
        match &mut self.room {
            EitherRoom::Ranges(room) => room.pass(from, to),
            EitherRoom::Blocks(room) => room.pass(from, to),
        }
    }

    fn give(&mut self, owner: Owner) {
        match &mut self.room {
            EitherRoom::Ranges(room) => room.give(owner),
            EitherRoom::Blocks(room) => room.give(owner),
        }
    }

    fn holds(&self, owner: Owner) -> bool {
        match &self.room {
            EitherRoom::Ranges(room) => room.holds(owner),
            EitherRoom::Blocks(room) => room.holds(owner),
        }
    }

    fn spans_of(&self, owner: Owner) -> Option<&Spans> {
        match &self.room {
            EitherRoom::Ranges(room) => room.spans_of(owner),
            EitherRoom::Blocks(room) => room.spans_of(owner),
        }
    }

    fn lengths(&self) -> Lengths {
        match &self.room {
            EitherRoom::Ranges(room) => room.lengths(),
            EitherRoom::Blocks(room) => room.lengths(),
        }
    }

    fn laws(&self) {
        match &self.room {
            EitherRoom::Ranges(room) => room.laws(),
            EitherRoom::Blocks(room) => room.laws(),
        }
    }

    fn move_fence(&self) -> Option<JobId> {
        match &self.room {
            EitherRoom::Ranges(room) => room.move_fence(),
            EitherRoom::Blocks(room) => room.move_fence(),
        }
    }

    fn set_move_fence(&mut self, job: JobId) {
        match &mut self.room {
            EitherRoom::Ranges(room) => room.set_move_fence(job),
            EitherRoom::Blocks(room) => room.set_move_fence(job),
        }
    }
}
