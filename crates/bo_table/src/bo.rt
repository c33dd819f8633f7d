#![tactic(auto)]

ghost use Rattle.std.specs.Prelude.{◌≡◌, ◌<◌, [], Some, None, IfOk, unwrap_or, length};
ghost use Rattle.journal_model.specs.rules.State as words;
ghost use Rattle.journal_model.specs.rules.State.{new_buffer, target_of, with_target};
ghost use Rattle.journal_model.specs.rules.ApplyCommands.{with_holder, pinned_more, pinned_less};
ghost use Rattle.journal_model.specs.rules.ApplyPages.{without_frames, with_loc, with_spans, bound, unbound};
ghost use Rattle.journal_model.specs.rules.ApplyVictims.{leaves_tt};
ghost use Rattle.journal_model.specs.rules.ApplyMoves.{table_left};
ghost use Rattle.bo_table.specs.Seen.{carried, reservation_of, IsDead, IsChanged, IsReservationChanged, IsReset, IsUsed};

use crate::page_table::PageTable;
use journal_model::{Reservation, Targets};
use place_list::PlacedSpans;
use resv_object::Resv;
use state_words::set_target;
use std::alloc::Global;
use ttm_base::{JobId, Loc, Mem, NoMemory, Spans, Stamp, Usage};

/// Returns the targets of a buffer that has none.
fn no_targets() -> Targets
    ensures { result ≡ words.no_targets }
{
    Targets {
        system: None,
        tt: None,
        vram: None,
    }
}

/// Makes `target` the place where the buffer stands; the target is then none.
fn settle(spans: &mut PlacedSpans, target: &mut Option<Spans>)
    ensures place { spans.new ≡ unwrap_or target.old [] }
    ensures target { target.new ≡ None }
{
    match target.take() {
        Some(found) => *spans = PlacedSpans::of(found),
        None => spans.clear(),
    }
}

/// Makes the target in the memory type `mem` the place where the buffer stands.
fn settle_in(spans: &mut PlacedSpans, targets: &mut Targets, mem: Mem)
    ensures place { spans.new ≡ unwrap_or (target_of mem targets.old) [] }
    ensures targets { targets.new ≡ with_target mem None targets.old }
{
    match mem {
        Mem::System => settle(spans, &mut targets.system),
        Mem::Tt => settle(spans, &mut targets.tt),
        Mem::Vram => settle(spans, &mut targets.vram),
    }
}

/// Empties the page table of a buffer that was in TT, since a buffer that goes out of TT leaves its frames behind.
fn leave_frames(mem: Mem, table: &mut PageTable)
    ensures { table.new ≡ table_left mem table.old }
{
    if let Mem::Tt = mem {
        table.clear();
    }
}

/// A buffer (ttm_buffer_object). Where it is dead, only its numbers of pages and contexts count.
pub struct Bo {
    pub alive: bool,
    /// The memory type in which the buffer stands.
    pub mem: Mem,
    /// The buffer's pages there; none in SYSTEM.
    pub spans: PlacedSpans,
    /// A place for each of the buffer's pages.
    pub table: PageTable,
    /// The pages that were found for the buffer and that it hasn't gone to yet.
    pub targets: Targets,
    /// The number of times that the buffer is pinned (pin_count).
    pub pins: u8,
    /// The buffer's holder, and the jobs that use it (dma_resv).
    pub resv: Resv,
}

/// Written by hand, so that no crate above has to prove how each part is dropped.
impl Drop for Bo {
    fn drop(self) {
        let Self {
            alive: _,
            mem: _,
            spans: _,
            table: _,
            targets: _,
            pins: _,
            resv: _,
        } = self;
    }
}

impl Bo {
    /// Makes a dead buffer of `pages` pages.
    pub(crate) fn new(alloc: Global, pages: u32, contexts: u32) -> Result<Bo, NoMemory>
        ensures { IfOk result (λ bo. IsDead pages contexts bo) }
    {
        let table = PageTable::new(alloc, pages)?;
        let resv = Resv::new(alloc, contexts)?;
        Ok(Bo {
            alive: false,
            mem: Mem::System,
            spans: PlacedSpans::new(alloc),
            table,
            targets: no_targets(),
            pins: 0,
            resv,
        })
    }

    /// Returns the pins and the holder of the buffer.
    pub fn reservation(&self) -> Reservation
        ensures { result ≡ reservation_of self.now }
    {
        Reservation {
            pins: self.pins,
            holder: self.resv.holder(),
        }
    }

    /// Makes the buffer live in SYSTEM, with no page, pin, holder, target or job.
    pub(crate) fn make(&mut self)
        ensures { IsReset (Some (new_buffer (length self.old.table))) self.old self.new }
    {
        self.alive = true;
        self.mem = Mem::System;
        self.spans.clear();
        self.table.clear();
        self.targets = no_targets();
        self.pins = 0;
        self.resv.clear();
    }

    /// Makes the buffer dead.
    pub(crate) fn kill(&mut self)
        ensures { IsReset None self.old self.new }
    {
        self.alive = false;
        self.pins = 0;
        self.resv.clear();
    }

    /// Gives page `page` the place `place`.
    pub(crate) fn set_page(&mut self, page: u32, place: Loc)
        ensures { IsChanged (with_loc page place) self.old self.new }
    {
        self.table.set(page, place);
    }

    /// Drops all frames of the page table.
    pub(crate) fn drop_frames(&mut self)
        ensures { IsChanged without_frames self.old self.new }
    {
        self.table.drop_frames();
    }

    /// Sets the target in the memory type `mem` to `spans`, or to none.
    pub(crate) fn set_target(&mut self, mem: Mem, spans: Option<Spans>)
        ensures { IsChanged (with_spans mem spans) self.old self.new }
    {
        set_target(&mut self.targets, mem, spans);
    }

    /// Gives the buffer an empty target in SYSTEM, if it stands in TT.
    pub(crate) fn leave_tt(&mut self, alloc: Global)
        ensures { IsChanged (λ x. leaves_tt x.mem x) self.old self.new }
    {
        if let Mem::Tt = self.mem {
            self.targets.system = Some(Spans::new(alloc));
        }
    }

    /// Moves the buffer from SYSTEM to its target in TT.
    pub(crate) fn bind(&mut self)
        ensures { IsChanged bound self.old self.new }
    {
        self.mem = Mem::Tt;
        settle(&mut self.spans, &mut self.targets.tt);
    }

    /// Moves the buffer from TT to SYSTEM.
    pub(crate) fn unbind(&mut self)
        ensures { IsChanged unbound self.old self.new }
    {
        self.mem = Mem::System;
        self.spans.clear();
        self.targets.system = None;
    }

    /// Moves the buffer to its target in the memory type `mem`.
    pub(crate) fn carry(&mut self, mem: Mem)
        ensures { IsChanged (carried mem) self.old self.new }
    {
        leave_frames(self.mem, &mut self.table);
        settle_in(&mut self.spans, &mut self.targets, mem);
        self.mem = mem;
    }

    /// Reserves the buffer for the ticket `stamp`.
    pub(crate) fn reserve(&mut self, stamp: Stamp)
        requires { self.old.resv.holder ≡ None }
        ensures { IsReservationChanged (with_holder (Some stamp)) self.old self.new }
    {
        let _taken = self.resv.try_take(stamp);
    }

    /// Ends the reservation of the buffer, if it is reserved.
    pub(crate) fn release(&mut self)
        ensures { IsReservationChanged (with_holder None) self.old self.new }
    {
        if self.resv.holder().is_some() {
            self.resv.release();
        }
    }

    /// Pins the buffer once more.
    pub(crate) fn pin(&mut self)
        requires { self.old.pins < 255 }
        ensures { IsReservationChanged pinned_more self.old self.new }
    {
        self.pins += 1;
    }

    /// Takes one pin from the buffer, if it is pinned.
    pub(crate) fn unpin(&mut self)
        ensures { IsReservationChanged pinned_less self.old self.new }
    {
        self.pins = self.pins.saturating_sub(1);
    }

    /// Adds `job` to the jobs that use the buffer, as `usage` tells.
    pub(crate) fn add_fence(&mut self, job: JobId, usage: Usage)
        requires known { job.ctx < length self.old.resv.fences }
        requires num { 0 < job.num }
        ensures { IsUsed job usage self.old self.new }
    {
        self.resv.add_fence(job, usage);
    }
}
