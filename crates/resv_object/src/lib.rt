//! The reservation of a buffer: the ticket that holds it, and the jobs that use the buffer (dma_resv).
#![tactic(auto)]

ghost use Rattle.std.specs.Prelude.{◌≡◌, ◌<◌, ◌↔◌, Some, None, IsSome, IsTrue, IsFalse, IfOk, length, replicate};
ghost use Rattle.fence_core.specs.Fences.{nothing_kept, added, needed};

use fence_core::{FenceSet, Timeline};
use std::alloc::Global;
use std::marker::Model;
use ttm_base::{JobId, NoMemory, Stamp, Usage};

/// The reservation of a buffer. Only `new` takes memory.
#[derive(Drop)]
pub struct Resv {
    holder: Option<Stamp>,
    fences: FenceSet,
}

impl Model for Resv {
    ghost use Rattle.resv_object.specs.ReservationObjects.{ReservationObject};

    ghost Value = { ReservationObject };

    ghost view = { λ r. record { holder = r.holder; fences = r.fences } };
}

impl Resv {
    /// Returns a reservation that no ticket holds, with no job, for `contexts` contexts.
    pub fn new(alloc: Global, contexts: u32) -> Result<Resv, NoMemory>
        ensures { IfOk result (λ resv. resv ≡ record { holder = None; fences = replicate contexts nothing_kept }) }
    {
        let fences = FenceSet::new(alloc, contexts)?;
        Ok(Resv {
            holder: None,
            fences,
        })
    }

    /// Returns the ticket that holds the reservation, if one does.
    pub fn holder(&self) -> Option<Stamp>
        ensures { result ≡ self.now.holder }
    {
        self.holder
    }

    /// Takes the reservation for the ticket `stamp`, and returns true, unless the reservation is held already. Then nothing
    /// changes.
    pub fn try_take(&mut self, stamp: Stamp) -> bool
        ensures free { IsTrue result ↔ self.old.holder ≡ None }
        ensures taken { IsTrue result → self.new ≡ record self.old { holder = Some stamp } }
        ensures held { IsFalse result → self.new ≡ self.old }
    {
        if self.holder.is_some() {
            return false;
        }
        self.holder = Some(stamp);
        true
    }

    /// Releases the reservation, which is held.
    pub fn release(&mut self)
        requires { IsSome self.old.holder }
        ensures { self.new ≡ record self.old { holder = None } }
    {
        self.holder = None;
    }

    /// Adds a job that uses the buffer, with its usage.
    pub fn add_fence(&mut self, job: JobId, usage: Usage)
        requires known { job.ctx < length self.old.fences }
        requires num { 0 < job.num }
        ensures { self.new ≡ record self.old { fences = added self.old.fences job usage } }
    {
        self.fences.add(job, usage);
    }

    /// Returns a job to wait for, among those of `usage` and the lower usages that aren't done, as `FenceSet::need` names
    /// it.
    pub fn need(&self, usage: Usage, timeline: &Timeline) -> Option<JobId>
        requires { length self.now.fences ≡ length timeline.now }
        ensures { result ≡ needed usage timeline.now self.now.fences }
    {
        self.fences.need(usage, timeline)
    }

    /// Lends the jobs that use the buffer.
    pub fn fences(&self) -> &FenceSet
        ensures { result.now ≡ self.now.fences }
    {
        &self.fences
    }

    /// Releases the reservation if it is held, and drops all jobs.
    pub fn clear(&mut self)
        ensures { self.new ≡ record { holder = None; fences = replicate (length self.old.fences) nothing_kept } }
    {
        self.holder = None;
        self.fences.clear();
    }
}
