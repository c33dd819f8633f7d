#![tactic(auto)]

ghost use Rattle.std.specs.Prelude.{◌≡◌, ◌<◌, [], Some, None, IfOk, length, slice_get};
ghost use Rattle.std.specs.Option.{ForSome};
ghost use Rattle.journal_model.specs.rules.State.{reservation_in};
ghost use Rattle.journal_model.specs.rules.ApplyCommands.{with_holder, pinned_more, pinned_less};
ghost use Rattle.journal_model.specs.rules.ApplyPages.{with_loc, with_spans, without_frames, bound, unbound};
ghost use Rattle.journal_model.specs.rules.ApplyVictims.{leaves_tt};
ghost use Rattle.bo_table.specs.Seen.{carried, first_bos, IsBo, with_made, with_killed, with_changed, with_reservation, with_use};

use crate::bo::Bo;
use journal_model::Decl;
use std::alloc::Global;
use std::marker::Model;
use ttm_base::{BufId, ItemList, JobId, Loc, Mem, NoMemory, Spans, Stamp, Usage};

/// Buffers by number, seen as the lists of buffers, of reservations, of the jobs that use them, and of their numbers of pages. A change of a buffer
/// that isn't there changes nothing. Only `new` takes memory. `make`, `drop_frames` and a `carry` out of TT take time by the pages of the buffer,
/// `make` and `kill` by contexts, `set_page` at most up to the next page without a frame; all other calls take constant time.
pub struct BoTable {
    bos: ItemList<Bo>,
}

/// Written by hand, so that no crate above has to prove how each part is dropped.
impl Drop for BoTable {
    fn drop(self) {
        let Self { bos: _ } = self;
    }
}

impl Model for BoTable {
    ghost use Rattle.bo_table.specs.Seen.{Bos, seen};

    ghost Value = { Bos };

    ghost view = { λ t. seen t.bos };
}

impl BoTable {
    /// Makes the table with all buffers dead, and room for the pages of each. A buffer's number is its place among the declared ones.
    pub fn new(alloc: Global, decls: &[Decl], contexts: u32) -> Result<BoTable, NoMemory>
        ensures { IfOk result (λ t. t ≡ first_bos decls.now contexts) }
    {
        let mut bos = ItemList::new(alloc);
        for decl in decls {
            let bo = Bo::new(alloc, decl.pages, contexts)?;
            bos.push(bo)?;
        }
        Ok(BoTable { bos })
    }

    /// Returns the number of declared buffers.
    pub fn len(&self) -> usize
        ensures { result ≡ length self.now.reservations }
    {
        self.bos.len()
    }

    /// Returns buffer `b`, which is declared.
    #[tactic(auto, using(crate::proofs::TableLaws::lent))]
    pub fn get(&self, b: BufId) -> &Bo
        requires { b.0 < length self.now.reservations }
        ensures { IsBo self.now b result.now }
    {
        self.bos.get(b.0 as usize)
    }

    /// Makes buffer `b` live in SYSTEM, with no page, pin, holder, target or job.
    #[tactic(auto, using(crate::proofs::TableLaws::made_at, crate::proofs::TableLaws::reset_beyond))]
    pub fn make(&mut self, b: BufId)
        ensures { self.new ≡ with_made self.old b }
    {
        let index = b.0 as usize;
        if index < self.bos.len() {
            self.bos.get_mut(index).make();
        }
    }

    /// Makes buffer `b` dead.
    #[tactic(auto, using(crate::proofs::TableLaws::reset_at, crate::proofs::TableLaws::reset_beyond))]
    pub fn kill(&mut self, b: BufId)
        ensures { self.new ≡ with_killed self.old b }
    {
        let index = b.0 as usize;
        if index < self.bos.len() {
            self.bos.get_mut(index).kill();
        }
    }

    /// Gives page `page` of the live buffer `b` the place `place`.
    #[tactic(auto, using(crate::proofs::TableLaws::changed_at, crate::proofs::TableLaws::changed_beyond))]
    pub fn set_page(&mut self, b: BufId, page: u32, place: Loc)
        ensures { self.new ≡ with_changed (with_loc page place) self.old b }
    {
        let index = b.0 as usize;
        if index < self.bos.len() {
            self.bos.get_mut(index).set_page(page, place);
        }
    }

    /// Drops all frames of the live buffer `b` from its table. Its slots stay.
    #[tactic(auto, using(crate::proofs::TableLaws::changed_at, crate::proofs::TableLaws::changed_beyond))]
    pub fn drop_frames(&mut self, b: BufId)
        ensures { self.new ≡ with_changed without_frames self.old b }
    {
        let index = b.0 as usize;
        if index < self.bos.len() {
            self.bos.get_mut(index).drop_frames();
        }
    }

    /// Sets the target of the live buffer `b` in the memory type `mem` to `spans`, or to none.
    #[tactic(auto, using(crate::proofs::TableLaws::changed_at, crate::proofs::TableLaws::changed_beyond))]
    pub fn set_target(&mut self, b: BufId, mem: Mem, spans: Option<Spans>)
        ensures { self.new ≡ with_changed (with_spans mem spans) self.old b }
    {
        let index = b.0 as usize;
        if index < self.bos.len() {
            self.bos.get_mut(index).set_target(mem, spans);
        }
    }

    /// Gives the live buffer `b`, if it stands in TT, an empty target in SYSTEM, where a victim goes.
    #[tactic(auto, using(crate::proofs::TableLaws::changed_at, crate::proofs::TableLaws::changed_beyond))]
    pub fn leave_tt(&mut self, alloc: Global, b: BufId)
        ensures { self.new ≡ with_changed (λ x. leaves_tt x.mem x) self.old b }
    {
        let index = b.0 as usize;
        if index < self.bos.len() {
            self.bos.get_mut(index).leave_tt(alloc);
        }
    }

    /// Puts the live buffer `b` in TT, at its target there (ttm_bo_move_null): its frames stay.
    #[tactic(auto, using(crate::proofs::TableLaws::changed_at, crate::proofs::TableLaws::changed_beyond))]
    pub fn bind(&mut self, b: BufId)
        ensures { self.new ≡ with_changed bound self.old b }
    {
        let index = b.0 as usize;
        if index < self.bos.len() {
            self.bos.get_mut(index).bind();
        }
    }

    /// Puts the live buffer `b` in SYSTEM, which takes its target there: its frames stay.
    #[tactic(auto, using(crate::proofs::TableLaws::changed_at, crate::proofs::TableLaws::changed_beyond))]
    pub fn unbind(&mut self, b: BufId)
        ensures { self.new ≡ with_changed unbound self.old b }
    {
        let index = b.0 as usize;
        if index < self.bos.len() {
            self.bos.get_mut(index).unbind();
        }
    }

    /// Puts the live buffer `b` at its target in the memory type `mem`, as a move does. Out of TT it leaves its frames. The job of the move is added
    /// separately.
    #[tactic(auto, using(crate::proofs::TableLaws::changed_at, crate::proofs::TableLaws::changed_beyond))]
    pub fn carry(&mut self, b: BufId, mem: Mem)
        ensures { self.new ≡ with_changed (carried mem) self.old b }
    {
        let index = b.0 as usize;
        if index < self.bos.len() {
            self.bos.get_mut(index).carry(mem);
        }
    }

    /// Reserves buffer `b`, which has no holder, for the ticket `stamp` (dma_resv_lock).
    #[tactic(auto, using(crate::proofs::TableLaws::reservation_changed_at, crate::proofs::TableLaws::reservation_changed_beyond))]
    pub fn reserve(&mut self, b: BufId, stamp: Stamp)
        requires { (reservation_in self.old.reservations b).holder ≡ None }
        ensures { self.new ≡ with_reservation (with_holder (Some stamp)) self.old b }
    {
        let index = b.0 as usize;
        if index < self.bos.len() {
            self.bos.get_mut(index).reserve(stamp);
        }
    }

    /// Ends the reservation of buffer `b`, if it is reserved (dma_resv_unlock).
    #[tactic(auto, using(crate::proofs::TableLaws::reservation_changed_at, crate::proofs::TableLaws::reservation_changed_beyond))]
    pub fn release(&mut self, b: BufId)
        ensures { self.new ≡ with_reservation (with_holder None) self.old b }
    {
        let index = b.0 as usize;
        if index < self.bos.len() {
            self.bos.get_mut(index).release();
        }
    }

    /// Pins buffer `b` once more (ttm_bo_pin).
    #[tactic(auto, using(crate::proofs::TableLaws::reservation_changed_at, crate::proofs::TableLaws::reservation_changed_beyond))]
    pub fn pin(&mut self, b: BufId)
        requires { (reservation_in self.old.reservations b).pins < 255 }
        ensures { self.new ≡ with_reservation pinned_more self.old b }
    {
        let index = b.0 as usize;
        if index < self.bos.len() {
            self.bos.get_mut(index).pin();
        }
    }

    /// Takes one pin from buffer `b`, if it is pinned (ttm_bo_unpin).
    #[tactic(auto, using(crate::proofs::TableLaws::reservation_changed_at, crate::proofs::TableLaws::reservation_changed_beyond))]
    pub fn unpin(&mut self, b: BufId)
        ensures { self.new ≡ with_reservation pinned_less self.old b }
    {
        let index = b.0 as usize;
        if index < self.bos.len() {
            self.bos.get_mut(index).unpin();
        }
    }

    /// Adds `job`, whose context is known, to the jobs that use buffer `b`, as `usage` tells (dma_resv_add_fence).
    #[tactic(auto, using(crate::proofs::TableLaws::used_at, crate::proofs::TableLaws::used_beyond))]
    pub fn add_fence(&mut self, b: BufId, job: JobId, usage: Usage)
        requires known { ForSome (slice_get self.old.fences b.0) (λ set. job.ctx < length set) }
        requires num { 0 < job.num }
        ensures { self.new ≡ with_use job usage self.old b }
    {
        let index = b.0 as usize;
        if index < self.bos.len() {
            self.bos.get_mut(index).add_fence(job, usage);
        }
    }
}
