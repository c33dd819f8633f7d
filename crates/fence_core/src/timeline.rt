ghost use Rattle.std.specs.Prelude.{◌≡◌, ◌+◌, ◌^◌, ◌<◌, ◌≤◌, ◌↔◌, IfOk, IsTrue, length, replicate};
ghost use Rattle.fence_core.specs.Timelines.{no_jobs, progress_of, with_emitted, with_done};

use std::alloc::Global;
use std::marker::Model;
use ttm_base::{JobId, NoMemory};

/// The number of jobs that a context emitted, and how many of them are done, which are those with the least numbers.
#[derive(Clone, Copy, PartialEq, Eq)]
pub struct Progress {
    pub emitted: u64,
    pub done: u64,
}

/// The jobs of all contexts, each numbered from 1 in its context. The jobs of one context are done in order.
#[derive(Drop)]
pub struct Timeline {
    contexts: Vec<Progress>,
}

impl Model for Timeline {
    ghost use Rattle.std.specs.Prelude.{List};
    ghost use Rattle.fence_core.specs.declared.timeline.Progress.{Progress as Jobs};

    ghost Value = { List Jobs };

    ghost use Rattle.fence_core.specs.Sound.{InOrder};

    ghost view = { λ t. t.contexts.items };

    ghost invariant = { λ t. InOrder t.contexts.items };
}

impl Timeline {
    /// Returns a timeline of `contexts` contexts, from which no job was emitted.
    pub fn new(alloc: Global, contexts: u32) -> Result<Timeline, NoMemory>
        ensures { IfOk result (λ timeline. timeline ≡ replicate contexts no_jobs) }
    {
        let none = Progress {
            emitted: 0,
            done: 0,
        };
        let contexts = vec![in alloc; none; contexts as usize]?;
        Ok(Timeline { contexts })
    }

    /// Returns the number of contexts.
    pub fn contexts(&self) -> u32
        ensures { result ≡ length self.now }
    {
        self.contexts.len() as u32
    }

    /// Emits the next job of the context `ctx`, and returns it.
    pub fn emit(&mut self, ctx: u32) -> JobId
        requires known { ctx < length self.old }
        requires few { (progress_of self.old ctx).emitted < 2 ^ 63 }
        ensures job { result ≡ record { ctx = ctx; num = (progress_of self.old ctx).emitted + 1 } }
        ensures after { self.new ≡ with_emitted self.old ctx }
    {
        let progress = &mut self.contexts[ctx as usize];
        progress.emitted += 1;
        JobId {
            ctx,
            num: progress.emitted,
        }
    }

    /// Marks as done the job with the least number of the context `ctx` that isn't done.
    pub fn done(&mut self, ctx: u32)
        requires known { ctx < length self.old }
        requires some { (progress_of self.old ctx).done < (progress_of self.old ctx).emitted }
        ensures { self.new ≡ with_done self.old ctx }
    {
        self.contexts[ctx as usize].done += 1;
    }

    /// Returns whether a job is done.
    pub fn signalled(&self, job: JobId) -> bool
        requires { job.ctx < length self.now }
        ensures { IsTrue result ↔ job.num ≤ (progress_of self.now job.ctx).done }
    {
        job.num <= self.contexts[job.ctx as usize].done
    }

    /// Returns how far a context is: the number of its last job that is done, or 0 where none is. The jobs up to this number
    /// are done, those with greater numbers aren't. Takes constant time.
    pub fn reached(&self, ctx: u32) -> u64
        requires { ctx < length self.now }
        ensures done { result ≡ (progress_of self.now ctx).done }
        ensures emitted { result ≤ (progress_of self.now ctx).emitted }
    {
        let progress = &self.contexts[ctx as usize];
        progress.done
    }

    /// Returns the number that `emit` would give to a job. No job with this number or a greater one is done.
    pub fn next(&self, ctx: u32) -> u64
        requires { ctx < length self.now }
        ensures next { result ≡ (progress_of self.now ctx).emitted + 1 }
        ensures done { (progress_of self.now ctx).done < result }
    {
        self.contexts[ctx as usize].emitted + 1
    }
}
