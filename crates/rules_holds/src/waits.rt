ghost use Rattle.std.specs.Prelude.{◌≡◌, ◌+◌, ◌<◌, ◌≤◌, ◌++◌, ◌&&◌, not, IfOk, OnOk, IsTrue};
ghost use Rattle.std.specs.List.{position};
ghost use Rattle.journal_model.specs.rules.State.{new_buffer};
ghost use Rattle.journal_model.specs.rules.Waits as words;
ghost use Rattle.journal_model.specs.code.JobRuns.{jobs_of_run, fits, behind, fences_of_run, is_whole};
ghost use Rattle.journal_model.specs.rules.JobNames.{same_job};
ghost use Rattle.rules_holds.specs.Named.{named_last, named_of, is_open};
ghost use Rattle.rules_holds.specs.Least.{IsLeast, IsLook};
ghost use Rattle.rules_holds.specs.Before.{counts_by, jobs_before};

use crate::least::Look;
use journal_model::{Buffer, Core, FenceRun, Job, JobIds, JobRun, same_job};
use rules_state::{buffer_in, dead_buffer};
use state_words::is_written;
use std::alloc::Global;
use ttm_base::{BufId, JobId, Mem, NoMemory, Op, Usage};

/// Returns the position of the first of `jobs` that has the name `i` and isn't done, or `None` if there is none.
fn place_of(jobs: &[Job], i: JobId) -> Option<usize>
    ensures { result ≡ position (λ j. same_job i j.id && not j.finished) jobs.now }
{
    jobs.iter().position(|j| same_job(i, j.id) && !j.finished)
}

/// Returns whether the job at position `at` has the name `i` and isn't done.
fn is_unfinished_at(jobs: &[Job], at: usize, i: JobId) -> bool
    ensures { IsTrue result → IsTrue (is_open jobs.now i) }
{
    match jobs.get(at) {
        Some(job) => same_job(i, job.id) && !job.finished,
        None => false,
    }
}

/// Returns whether one of `jobs` has the name `i` and isn't done. It is looked for from `place` to the end, then before `place`, which is
/// left after the job that is found: a caller that looks for jobs in the order in which they stand finds each at once.
#[tactic(auto, using(crate::proofs::OpenJobs::found))]
fn has_unfinished_near(jobs: &[Job], place: &mut usize, i: JobId) -> bool
    ensures { result ≡ is_open jobs.now i }
{
    let start = (*place).min(jobs.len());
    let (before, behind) = jobs.split_at(start);
    if let Some(at) = place_of(behind, i) {
        *place = start + at + 1;
        return true;
    }
    if let Some(at) = place_of(before, i) {
        *place = at + 1;
        return true;
    }
    false
}

/// Returns whether job `i` isn't done. Where the numbers of the pending jobs follow one another, it stands where it is looked for first;
/// else it is looked for at `place`. No job of its context below `least` is unfinished.
fn is_open(core: &Core, least: u64, place: &mut usize, i: JobId) -> bool
    requires { IsLeast core.now i.ctx least }
    ensures { result ≡ words.is_unfinished core.now i }
{
    if i.num < least {
        return false;
    }
    let pending = core.jobs.pending();
    is_unfinished_at(pending, (i.num - least) as usize, i) || has_unfinished_near(pending, place, i)
}

/// Returns whether job `i` isn't done.
pub fn is_unfinished(core: &Core, i: JobId) -> bool
    ensures { result ≡ words.is_unfinished core.now i }
{
    place_of(core.jobs.pending(), i).is_some()
}

/// Returns the job to name of `named` and the job `i` after it: the one in the lesser context, or of one context the one with the greater
/// number.
fn named_last(named: Option<JobId>, i: JobId) -> JobId
    ensures { result ≡ named_last named i }
{
    match named {
        Some(j) if !(i.ctx < j.ctx || (i.ctx == j.ctx && j.num < i.num)) => j,
        _ => i,
    }
}

/// Returns the job to name of `named`, named among earlier jobs, and `last`, named among later ones.
fn named_of(named: Option<JobId>, last: Option<JobId>) -> Option<JobId>
    ensures { result ≡ named_of named last }
{
    match last {
        Some(i) => Some(named_last(named, i)),
        None => named,
    }
}

/// Returns whether all jobs of `run` are among those of `row`.
fn is_within(run: JobRun, row: JobRun) -> bool
    ensures { IsTrue result → (run.ctx ≡ row.ctx) × (row.first ≤ run.first) × (run.first + run.count ≤ row.first + row.count) }
{
    run.ctx == row.ctx
        && row.first <= run.first
        && run.first - row.first <= row.count
        && run.count <= row.count - (run.first - row.first)
}

/// Returns whether all jobs of `run` are in the last row of jobs, none of which is done.
fn are_last(core: &Core, run: JobRun) -> bool
    ensures { IsTrue result → words.unfinished core.now (jobs_of_run run) ≡ jobs_of_run run }
{
    run.count == 0 || is_within(run, core.jobs.row())
}

/// Returns `run` without its first `count` jobs. It has more than `count`.
fn behind(run: JobRun, count: u64) -> JobRun
    requires count { count < run.count }
    requires fits { IsTrue (fits run) }
    ensures { result ≡ behind count run }
{
    JobRun {
        ctx: run.ctx,
        first: run.first + count,
        count: run.count - count,
    }
}

/// Returns the last job of `run` that isn't done, or `None` if all are. No job of its context below `least` is unfinished.
fn last_open_from(core: &Core, least: u64, place: &mut usize, run: JobRun) -> Option<JobId>
    requires least { IsLeast core.now run.ctx least }
    requires fits { IsTrue (fits run) }
    ensures { result ≡ words.waited_for core.now (jobs_of_run run) }
{
    let closed = least.saturating_sub(run.first);
    let mut left = run.count;
    while left > closed {
        left -= 1;
        let i = JobId {
            ctx: run.ctx,
            num: run.first + left,
        };
        if is_open(core, least, place, i) {
            return Some(i);
        }
    }
    None
}

/// Returns the last job of `run` that isn't done, or `None` if all are: the job to name, since the context of all is the same.
fn last_open(core: &Core, look: &mut Look, run: JobRun) -> Option<JobId>
    requires look { IsLook core.now look.old }
    requires fits { IsTrue (fits run) }
    ensures named { result ≡ words.waited_for core.now (jobs_of_run run) }
    ensures look { IsLook core.now look.new }
{
    if run.count == 0 {
        return None;
    }
    let last = behind(run, run.count - 1);
    if are_last(core, last) {
        return Some(JobId {
            ctx: last.ctx,
            num: last.first,
        });
    }
    let least = look.least_of(core, run.ctx);
    last_open_from(core, least, &mut look.place, run)
}

/// Returns the unfinished job to wait for among `jobs`, or `None` if all are done.
pub fn waited_for(core: &Core, jobs: &JobIds) -> Option<JobId>
    ensures { result ≡ words.waited_for core.now jobs.now }
{
    let mut look = Look::new();
    let mut named = None;
    for run in jobs.runs() {
        named = named_of(named, last_open(core, &mut look, *run));
    }
    named
}

/// Appends those jobs of `run` that aren't done to `jobs`, one by one.
fn push_each_open(
    jobs: &mut JobIds,
    core: &Core,
    least: u64,
    place: &mut usize,
    run: JobRun,
) -> Result<(), NoMemory>
    requires least { IsLeast core.now run.ctx least }
    requires fits { IsTrue (fits run) }
    ensures { OnOk result (jobs.new ≡ jobs.old ++ words.unfinished core.now (jobs_of_run run)) }
{
    for at in 0..run.count {
        let i = JobId {
            ctx: run.ctx,
            num: run.first + at,
        };
        if is_open(core, least, place, i) {
            jobs.push(i)?;
        }
    }
    Ok(())
}

/// Appends those jobs of `run` that aren't done to `jobs`. No job of their context below `least` is unfinished. If all jobs of the run from
/// `least` on are in the last row, it appends them at once.
fn push_open_from(
    jobs: &mut JobIds,
    core: &Core,
    least: u64,
    place: &mut usize,
    run: JobRun,
) -> Result<(), NoMemory>
    requires least { IsLeast core.now run.ctx least }
    requires fits { IsTrue (fits run) }
    ensures { OnOk result (jobs.new ≡ jobs.old ++ words.unfinished core.now (jobs_of_run run)) }
{
    let closed = least.saturating_sub(run.first);
    if run.count <= closed {
        return Ok(());
    }
    let rest = behind(run, closed);
    if are_last(core, rest) {
        jobs.push_run(rest)
    } else {
        push_each_open(jobs, core, least, place, rest)
    }
}

/// Appends those jobs of `run` that aren't done to `jobs`, without a look at the other jobs where all of them are in the last row.
fn push_open(jobs: &mut JobIds, core: &Core, look: &mut Look, run: JobRun) -> Result<(), NoMemory>
    requires look { IsLook core.now look.old }
    requires fits { IsTrue (fits run) }
    ensures jobs { OnOk result (jobs.new ≡ jobs.old ++ words.unfinished core.now (jobs_of_run run)) }
    ensures look { IsLook core.now look.new }
{
    if are_last(core, run) {
        return jobs.push_run(run);
    }
    let least = look.least_of(core, run.ctx);
    push_open_from(jobs, core, least, &mut look.place, run)
}

/// What is about to be done with a buffer.
#[derive(Clone, Copy)]
pub enum Before {
    Write,
    Read,
}

/// Returns whether jobs that use the buffer with `usage` must be done before: to read it, those that only read needn't be.
fn counts(before: Before, usage: Usage) -> bool
    ensures { result ≡ counts_by before usage }
{
    match before {
        Before::Write => true,
        Before::Read => match usage {
            Usage::Kernel | Usage::Write => true,
            Usage::Read => false,
        },
    }
}

/// Returns the jobs of the fences `run` that must be done before, an empty run if none must.
fn jobs_of(before: Before, run: FenceRun) -> JobRun
    ensures jobs { jobs_of_run result ≡ jobs_before before (fences_of_run run) }
    ensures fits { IsTrue (is_whole run) → IsTrue (fits result) }
{
    if counts(before, run.usage) {
        run.jobs
    } else {
        JobRun {
            ctx: 0,
            first: 0,
            count: 0,
        }
    }
}

/// Returns those jobs that aren't done of the ones that must be done before `buffer` is written or read, as `before` tells.
fn unfinished_before(
    alloc: Global,
    core: &Core,
    buffer: &Buffer,
    before: Before,
) -> Result<JobIds, NoMemory>
    ensures { IfOk result (λ jobs. jobs ≡ words.unfinished core.now (jobs_before before buffer.now.fences)) }
{
    let mut look = Look::new();
    let mut jobs = JobIds::new(alloc);
    for run in buffer.fences.runs() {
        push_open(&mut jobs, core, &mut look, jobs_of(before, *run))?;
    }
    Ok(jobs)
}

/// Returns those jobs that aren't done of the ones that must be done before `buffer` is written or moved.
#[tactic(auto, using(crate::proofs::BeforeLaws::write_is))]
pub fn unfinished_before_write(
    alloc: Global,
    core: &Core,
    buffer: &Buffer,
) -> Result<JobIds, NoMemory>
    ensures { IfOk result (λ jobs. jobs ≡ words.unfinished core.now (words.jobs_before_write buffer.now)) }
{
    unfinished_before(alloc, core, buffer, Before::Write)
}

/// Returns the unfinished job to wait for before `buffer` is written or read, as `before` tells, or `None` if there is none.
fn waited_before(core: &Core, buffer: &Buffer, before: Before) -> Option<JobId>
    ensures { result ≡ words.waited_for core.now (jobs_before before buffer.now.fences) }
{
    let mut look = Look::new();
    let mut named = None;
    for run in buffer.fences.runs() {
        let jobs = jobs_of(before, *run);
        named = named_of(named, last_open(core, &mut look, jobs));
    }
    named
}

/// Returns the unfinished job to wait for before `buffer` is written or moved, or `None` if there is none. It takes no memory.
#[tactic(auto, using(crate::proofs::BeforeLaws::write_is))]
pub fn waited_before_write(core: &Core, buffer: &Buffer) -> Option<JobId>
    ensures { result ≡ words.waited_for core.now (words.jobs_before_write buffer.now) }
{
    waited_before(core, buffer, Before::Write)
}

/// Returns the unfinished job to wait for before `buffer` is read, or `None` if there is none. It takes no memory.
#[tactic(auto, using(crate::proofs::BeforeLaws::read_is))]
pub fn waited_before_read(core: &Core, buffer: &Buffer) -> Option<JobId>
    ensures { result ≡ words.waited_for core.now (words.jobs_before_read buffer.now) }
{
    waited_before(core, buffer, Before::Read)
}

/// Returns whether all jobs of `buffer` are done.
pub fn is_idle(core: &Core, buffer: &Buffer) -> bool
    ensures { result ≡ words.is_idle core.now buffer.now }
{
    waited_before_write(core, buffer).is_none()
}

/// Returns the unfinished jobs that a job with the operations `ops` waits for at buffer `b`: all jobs of a buffer that it writes, those
/// that change a buffer that it only reads.
#[tactic(auto, using(crate::proofs::BeforeLaws::write_is, crate::proofs::BeforeLaws::read_is))]
pub fn jobs_before_use(alloc: Global, core: &Core, ops: &[Op], b: BufId) -> Result<JobIds, NoMemory>
    ensures { IfOk result (λ jobs. jobs ≡ words.jobs_before_use core.now ops.now b) }
{
    let dead = dead_buffer(alloc);
    let buffer = buffer_in(core, b, &dead);
    let before = if is_written(ops, b) {
        Before::Write
    } else {
        Before::Read
    };
    unfinished_before(alloc, core, buffer, before)
}
