//! Rings of jobs for engines: the jobs of each context run in the order in which they were pushed, each packet once and in
//! order.
#![tactic(auto)]

ghost use Rattle.std.specs.Prelude.{◌≡◌, ◌^◌, ◌<◌, Some, None, [], IsSome, IfOk, OnOk, OnErr, length, replicate};
ghost use Rattle.std.specs.Option.{option_copied, option_map, option_and_then};
ghost use Rattle.ttm_base.specs.declared.Packet.{Packet as Piece};
ghost use Rattle.copy_packet.specs.Runs.{CanRun};
ghost use Rattle.copy_engine.specs.Pushes.{ring_of, head_of, next_of, wait_of, with_pushed, with_ran, without_head};
ghost use Rattle.copy_engine.specs.Packets.{HasRun, shown_by};

use copy_packet::{ProbeBytes, Stores};
use fence_core::{FenceSet, Timeline};
use std::alloc::Global;
use std::marker::Model;
use ttm_base::{JobId, NoMemory, Packet};

mod ring;
mod ring_job;

use ring::Ring;
use ring_job::RingJob;

/// One ring of jobs for each context. The head of a ring is its oldest job: its packets run when the jobs that it waits for
/// are done. Only `new` and `push` take memory.
pub struct Rings {
    rings: Vec<Ring>,
}

/// Names each part, so that no crate above proves how they are dropped.
impl Drop for Rings {
    fn drop(self) {
        let Self { rings: _ } = self;
    }
}

impl Model for Rings {
    ghost use Rattle.std.specs.Prelude.{List};
    ghost use Rattle.copy_engine.specs.Pushes.{Pushed};

    ghost Value = { List (List Pushed) };

    ghost use Rattle.copy_engine.specs.Sound.{AreSound};

    ghost view = { λ r. r.rings.items };

    ghost invariant = { λ r. AreSound r.rings.items };
}

impl Rings {
    /// Returns an empty ring for each of `contexts` contexts.
    pub fn new(alloc: Global, contexts: u32) -> Result<Rings, NoMemory>
        ensures { IfOk result (λ rings. rings ≡ replicate contexts []) }
    {
        let mut rings = Vec::new(alloc);
        for _made in 0..contexts {
            rings.push(Ring::new(alloc))?;
        }
        Ok(Rings { rings })
    }

    /// Returns the number of contexts.
    pub fn contexts(&self) -> u32
        ensures { result ≡ length self.now }
    {
        self.rings.len() as u32
    }

    /// Pushes a job at the end of the ring of its context. It waits for all jobs that `waits` keeps, and none of its packets
    /// has run. Where memory is refused the rings stay as they were.
    pub fn push(
        &mut self,
        job: JobId,
        waits: FenceSet,
        packets: Vec<Packet>,
    ) -> Result<(), NoMemory>
        requires known { job.ctx < length self.old }
        requires num { 0 < job.num }
        requires waits { length waits ≡ length self.old }
        requires few { length packets.items < 2 ^ 32 }
        ensures ok { OnOk result (self.new ≡ with_pushed self.old (record { job = job; waits = waits; packets = packets.items; ran = 0 })) }
        ensures err { OnErr result (self.new ≡ self.old) }
    {
        let ring = &mut self.rings[job.ctx as usize];
        ring.push(RingJob::new(job, waits, packets))
    }

    // Returns the head of the ring of the context `ctx`, if there is one.
    fn first(&self, ctx: u32) -> Option<&RingJob>
        requires { ctx < length self.now }
        ensures { option_copied result ≡ head_of self.now ctx }
    {
        self.rings[ctx as usize].first()
    }

    /// Returns the job at the head of the ring of the context `ctx`, if there is one.
    pub fn head(&self, ctx: u32) -> Option<JobId>
        requires { ctx < length self.now }
        ensures { result ≡ option_map (λ pushed. pushed.job) (head_of self.now ctx) }
    {
        Some(self.first(ctx)?.job())
    }

    /// Returns a job that the head waits for, as `FenceSet::need` names it among all usages. None means that the head is
    /// ready.
    pub fn ready(&self, ctx: u32, timeline: &Timeline) -> Option<JobId>
        requires known { ctx < length self.now }
        requires timeline { length timeline.now ≡ length self.now }
        requires head { IsSome (head_of self.now ctx) }
        ensures { result ≡ option_and_then (wait_of timeline.now) (head_of self.now ctx) }
    {
        self.rings[ctx as usize].first()?.wait(timeline)
    }

    /// Returns the next packet of the head, if one is left.
    pub fn next_packet(&self, ctx: u32) -> Option<&Packet>
        requires known { ctx < length self.now }
        requires head { IsSome (head_of self.now ctx) }
        ensures { option_copied result ≡ next_of self.now ctx }
    {
        self.first(ctx)?.next()
    }

    /// Returns how many packets of the head have run.
    pub fn ran(&self, ctx: u32) -> u32
        requires known { ctx < length self.now }
        requires head { IsSome (head_of self.now ctx) }
        ensures { option_map (λ pushed. pushed.ran) (head_of self.now ctx) ≡ Some result }
    {
        match self.first(ctx) {
            Some(pushed) => pushed.ran(),
            None => 0,
        }
    }

    /// Runs the next packet of the head, and returns its number among the head's packets, from 0. The caller has to take
    /// care that the head is ready.
    pub fn run_next(&mut self, ctx: u32, stores: &mut Stores, out: &mut ProbeBytes) -> u32
        requires known { ctx < length self.old }
        requires left { IsSome (next_of self.old ctx) }
        requires can { (packet : Piece) → next_of self.old ctx ≡ Some packet → CanRun stores.old packet }
        ensures number { option_map (λ pushed. pushed.ran) (head_of self.old ctx) ≡ Some result }
        ensures ran { self.new ≡ with_ran self.old ctx }
        ensures stores { (packet : Piece) → next_of self.old ctx ≡ Some packet → HasRun packet stores.old stores.new }
        ensures out { (packet : Piece) → next_of self.old ctx ≡ Some packet → out.new ≡ shown_by packet stores.old }
    {
        let ring = &mut self.rings[ctx as usize];
        ring.run_next(stores, out)
    }

    /// Drops the head, whose packets have all run.
    pub fn finish(&mut self, ctx: u32)
        requires known { ctx < length self.old }
        requires head { IsSome (head_of self.old ctx) }
        requires over { next_of self.old ctx ≡ None }
        ensures { self.new ≡ without_head self.old ctx }
    {
        let ring = &mut self.rings[ctx as usize];
        ring.drop_first();
    }
}
