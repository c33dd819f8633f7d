ghost use Rattle.std.specs.Prelude.{◌≡◌, ◌<◌, ◌↔◌, List, [], ◌∷◌, ◌++◌, None, IfOk, filter, length, replicate};
ghost use Rattle.fence_core.specs.Fences.{nothing_kept, added, all_added, needed};
ghost use Rattle.fence_core.specs.Histories.{AreKnown, set_of, is_covered, waiting};
ghost use Rattle.ttm_base.specs.declared.Fence.{Fence};
ghost use Rattle.ttm_base.specs.Fences.{named_job};
ghost use Rattle.ttm_base.specs.declared.Usage.{Usage as How};
ghost use Rattle.fence_core.specs.Fences as words;

use crate::Timeline;
use std::alloc::Global;
use std::marker::Model;
use ttm_base::{JobId, NoMemory, Usage};

/// The number of the latest job of each usage in one context, or 0 where there is none.
#[derive(Clone, Copy, PartialEq, Eq)]
pub struct Latest {
    pub kernel: u64,
    pub write: u64,
    pub read: u64,
}

const NOTHING: Latest = Latest {
    kernel: 0,
    write: 0,
    read: 0,
};

// Returns the set of the one job `num` with its usage.
fn only(usage: Usage, num: u64) -> Latest
    ensures { result ≡ words.only usage num }
{
    match usage {
        Usage::Kernel => Latest {
            kernel: num,
            ..NOTHING
        },
        Usage::Write => Latest {
            write: num,
            ..NOTHING
        },
        Usage::Read => Latest {
            read: num,
            ..NOTHING
        },
    }
}

// Returns the jobs of `usage` and the lower usages.
fn up_to(usage: Usage, kept: Latest) -> Latest
    ensures { result ≡ words.up_to usage kept }
{
    match usage {
        Usage::Kernel => Latest {
            kernel: kept.kernel,
            ..NOTHING
        },
        Usage::Write => Latest { read: 0, ..kept },
        Usage::Read => kept,
    }
}

// Returns the later job of each usage.
fn later(one: Latest, other: Latest) -> Latest
    ensures { result ≡ words.later one other }
{
    Latest {
        kernel: one.kernel.max(other.kernel),
        write: one.write.max(other.write),
        read: one.read.max(other.read),
    }
}

// Returns the latest job of any usage.
fn latest_num(kept: Latest) -> u64
    ensures { result ≡ words.latest_num kept }
{
    kept.kernel.max(kept.write.max(kept.read))
}

// Adds to each context the jobs that the other set has there with `usage` or a lower one.
fn add_each(set: &mut [Latest], others: &[Latest], usage: Usage)
    requires { length set.old ≡ length others.now }
    ensures { set.new ≡ all_added usage set.old others.now }
{
    for i in 0..set.len() {
        set[i] = later(set[i], up_to(usage, others[i]));
    }
}

// Returns the latest job of the context `ctx` among those of `usage` and the lower usages.
fn latest_job(kept: &[Latest], usage: Usage, ctx: u32) -> JobId
    requires { ctx < length kept.now }
    ensures { result ≡ words.latest_job usage kept.now ctx }
{
    JobId {
        ctx,
        num: latest_num(up_to(usage, kept[ctx as usize])),
    }
}

// Returns whether some job of `usage` or a lower usage in the context `ctx` isn't done, which is so exactly where the latest
// one isn't.
fn is_open(kept: &[Latest], usage: Usage, timeline: &Timeline, ctx: u32) -> bool
    requires kept { ctx < length kept.now }
    requires timeline { ctx < length timeline.now }
    ensures { result ≡ words.is_open usage timeline.now kept.now ctx }
{
    !timeline.signalled(latest_job(kept, usage, ctx))
}

/// The jobs that use a buffer, by usage. The set keeps the latest job of each context and usage: where that one is done, so
/// are the others. Only `new` takes memory.
#[derive(Drop)]
pub struct FenceSet {
    kept: Vec<Latest>,
}

impl Model for FenceSet {
    ghost use Rattle.std.specs.Prelude.{List, ◌<◌, ◌^◌, length};
    ghost use Rattle.fence_core.specs.declared.fence_set.Latest.{Latest as Jobs};

    ghost Value = { List Jobs };

    ghost view = { λ s. s.kept.items };

    ghost invariant = { λ s. length s.kept.items < 2 ^ 32 };
}

impl FenceSet {
    /// Returns a set of no jobs, for `contexts` contexts.
    pub fn new(alloc: Global, contexts: u32) -> Result<FenceSet, NoMemory>
        ensures { IfOk result (λ set. set ≡ replicate contexts nothing_kept) }
    {
        let kept = vec![in alloc; NOTHING; contexts as usize]?;
        Ok(FenceSet { kept })
    }

    /// Returns the number of contexts.
    pub fn contexts(&self) -> u32
        ensures { result ≡ length self.now }
    {
        self.kept.len() as u32
    }

    /// Adds one job with its usage.
    pub fn add(&mut self, job: JobId, usage: Usage)
        requires known { job.ctx < length self.old }
        requires num { 0 < job.num }
        ensures { self.new ≡ added self.old job usage }
    {
        let ctx = job.ctx as usize;
        self.kept[ctx] = later(self.kept[ctx], only(usage, job.num));
    }

    /// Adds the jobs that another set keeps with `usage` or a lower one, each with its own usage.
    pub fn add_all(&mut self, other: &FenceSet, usage: Usage)
        requires { length self.old ≡ length other.now }
        ensures { self.new ≡ all_added usage self.old other.now }
    {
        add_each(&mut self.kept, &other.kept, usage);
    }

    /// Returns a job to wait for, among those of `usage` and the lower usages that aren't done: the latest one of the first
    /// context that has one. None means that all of them are done.
    pub fn need(&self, usage: Usage, timeline: &Timeline) -> Option<JobId>
        requires { length self.now ≡ length timeline.now }
        ensures { result ≡ needed usage timeline.now self.now }
    {
        for ctx in 0..self.contexts() {
            if is_open(&self.kept, usage, timeline, ctx) {
                return Some(latest_job(&self.kept, usage, ctx));
            }
        }
        None
    }

    /// Tells that the set speaks for every job that was added to it since it was empty: it needs none exactly where each job
    /// of `usage` or a lower one is done, else it needs the one that is named among those. The call does nothing: its
    /// contract is the law.
    pub fn need_of_all(&self, usage: Usage, timeline: &Timeline)
        ensures none { (fences : List Fence) → self.now ≡ set_of (length self.now) fences → AreKnown (length self.now) fences → (needed usage timeline.now self.now ≡ None) ↔ (waiting usage timeline.now fences ≡ []) }
        ensures job { (fences : List Fence) → self.now ≡ set_of (length self.now) fences → AreKnown (length self.now) fences → needed usage timeline.now self.now ≡ named_job (waiting usage timeline.now fences) }
    {
        let _usage = usage;
        let _contexts = timeline.contexts();
    }

    /// Tells how the set follows the jobs that were added: the set of some jobs becomes that of one more after `add`, that
    /// of those of another set too after `add_all`, and that of none after `clear`. The call does nothing: its contract is
    /// the law.
    pub fn kept_of_all(&self)
        ensures one { (fences : List Fence) (f : Fence) → added (set_of (length self.now) fences) f.job f.usage ≡ set_of (length self.now) (fences ++ f ∷ []) }
        ensures all { (usage : How) (fences others : List Fence) → AreKnown (length self.now) others → all_added usage (set_of (length self.now) fences) (set_of (length self.now) others) ≡ set_of (length self.now) (fences ++ filter (is_covered usage) others) }
        ensures none { set_of (length self.now) [] ≡ replicate (length self.now) nothing_kept }
    {
        let _contexts = self.contexts();
    }

    /// Drops all jobs.
    pub fn clear(&mut self)
        ensures { self.new ≡ replicate (length self.old) nothing_kept }
    {
        self.kept.fill(NOTHING);
    }
}
