ghost use Rattle.std.specs.Prelude.{◌≡◌, ◌<◌, ◌-◌, ◌≤◌, ◌++◌, ◌∷◌, ◌&&◌, [], not, true, false, IsTrue, OnOk, OnErr, ◌+◌, find, length, take, drop, option_copied, if◌then◌else◌};
ghost use Rattle.std.specs.List.{list_all, list_any};
ghost use Rattle.journal_model.specs.rules.Waits as waits;
ghost use Rattle.journal_model.specs.rules.ApplyJobs.{changed_job};
ghost use Rattle.journal_model.specs.code.JobRuns.{jobs_of_run};
ghost use Rattle.journal_model.specs.code.Jobs.{ArePending, IsRow, AreBounded, IsSplit, closes, has_packets_left, is_bounded, is_past, ends_open};

use crate::job_ids::JobRun;
use crate::jobs::row::{NO_ROW, end_of, row_after, row_behind, row_of_last};
use crate::jobs::{CONTEXTS, Jobs};
use crate::state::Job;
use std::alloc::Global;
use ttm_base::{ItemList, JobId, NoMemory};

/// Returns whether `i` and `j` are the same job.
pub fn same_job(i: JobId, j: JobId) -> bool
    ensures { result ≡ waits.same_job i j }
{
    i.ctx == j.ctx && i.num == j.num
}

/// Returns whether one of `jobs` is named `id`.
fn is_among(jobs: &[Job], id: JobId) -> bool
    ensures { result ≡ list_any (λ j. waits.same_job id j.id) jobs.now }
{
    jobs.iter().any(|job| same_job(id, job.id))
}

/// Returns the first of `jobs` that is named `id`, or `None` if none is.
fn first_named(jobs: &[Job], id: JobId) -> Option<&Job>
    ensures { option_copied result ≡ find (λ j. waits.same_job id j.id) jobs.now }
{
    jobs.iter().find(|job| same_job(id, job.id))
}

/// Marks `job` as done, if it is named `id`.
fn finish_named(job: &mut Job, id: JobId)
    ensures { job.new ≡ (if waits.same_job id job.old.id then record job.old { finished = true } else job.old) }
{
    if same_job(id, job.id) {
        job.finished = true;
    }
}

/// Marks the job `id` as done, among those from `start` to `end`.
fn finish_between(jobs: &mut ItemList<Job>, start: usize, end: usize, id: JobId)
    requires order { start ≤ end }
    requires within { end ≤ length jobs.old }
    requires closed { changed_job (λ j. record j { finished = true }) id (take start jobs.old) ≡ take start jobs.old }
    requires behind { changed_job (λ j. record j { finished = true }) id (drop end jobs.old) ≡ drop end jobs.old }
    ensures { jobs.new ≡ changed_job (λ j. record j { finished = true }) id jobs.old }
{
    for i in start..end {
        finish_named(jobs.get_mut(i), id);
    }
}

/// Counts one more packet of `job` as run, if it is named `id`.
fn count_named(job: &mut Job, id: JobId)
    requires { IsTrue (has_packets_left id job.old) }
    ensures { job.new ≡ (if waits.same_job id job.old.id then record job.old { ran = job.old.ran + 1 } else job.old) }
{
    if same_job(id, job.id) {
        job.ran += 1;
    }
}

/// Counts one more packet of the job `id`, among those from `start` to `end`.
fn count_between(jobs: &mut ItemList<Job>, start: usize, end: usize, id: JobId)
    requires order { start ≤ end }
    requires within { end ≤ length jobs.old }
    requires closed { changed_job (λ j. record j { ran = j.ran + 1 }) id (take start jobs.old) ≡ take start jobs.old }
    requires behind { changed_job (λ j. record j { ran = j.ran + 1 }) id (drop end jobs.old) ≡ drop end jobs.old }
    requires left { IsTrue (list_all (has_packets_left id) jobs.old) }
    ensures { jobs.new ≡ changed_job (λ j. record j { ran = j.ran + 1 }) id jobs.old }
{
    for i in start..end {
        count_named(jobs.get_mut(i), id);
    }
}

/// Returns whether the job at `at` can be closed: it is done, and no later job has its name.
fn can_close(jobs: &[Job], row: JobRun, at: usize) -> bool
    requires within { at + 1 ≤ length jobs.now }
    requires row { IsRow jobs.now row }
    ensures { result ≡ closes (drop at jobs.now) }
{
    let job = &jobs[at];
    let end = end_of(jobs, at + 1, row, job.id);
    job.finished && !is_among(&jobs[at + 1..end], job.id)
}

/// Counts the jobs that are closed. Those before `start` were.
fn closed_from(jobs: &[Job], row: JobRun, start: usize) -> usize
    requires split { IsSplit jobs.now start }
    requires row { IsRow jobs.now row }
    ensures { IsSplit jobs.now result }
{
    let mut count = start;
    while count < jobs.len() && can_close(jobs, row, count) {
        count += 1;
    }
    count
}

/// Returns whether the number of `id` is greater than the greatest of its context.
fn is_past(greatest: &[u64; CONTEXTS], id: JobId) -> bool
    ensures { result ≡ is_past greatest.now id }
{
    let at = id.ctx as usize;
    at < CONTEXTS && greatest[at] < id.num
}

/// Makes the number of `id` the greatest of its context, unless there is a greater one.
fn raise(greatest: &mut [u64; CONTEXTS], id: JobId)
    ensures new { is_bounded greatest.new id ≡ true }
    ensures others { (i : JobId) → is_bounded greatest.old i ≡ true → is_bounded greatest.new i ≡ true }
{
    let at = id.ctx as usize;
    if at < CONTEXTS && greatest[at] < id.num {
        greatest[at] = id.num;
    }
}

/// Counts the jobs that stay closed when a job named `id` is to come: none, if a closed one has the name.
fn closed_apart(jobs: &[Job], closed: usize, greatest: &[u64; CONTEXTS], id: JobId) -> usize
    requires split { IsSplit jobs.now closed }
    requires bounded { AreBounded greatest.now jobs.now }
    ensures split { IsSplit jobs.now result }
    ensures apart { list_any (λ j. waits.same_job id j.id) (take result jobs.now) ≡ false }
{
    if is_past(greatest, id) {
        closed
    } else if is_among(&jobs[..closed], id) {
        0
    } else {
        closed
    }
}

/// Returns whether `job` isn't named `id` or one more packet of it can be counted.
fn has_packets_left(job: &Job, id: JobId) -> bool
    ensures { result ≡ has_packets_left id job.now }
{
    !same_job(id, job.id) || job.ran < u32::MAX
}

/// Returns whether for each of `jobs` it isn't named `id` or one more packet of it can be counted.
fn have_packets_left(jobs: &[Job], id: JobId) -> bool
    ensures { result ≡ list_all (has_packets_left id) jobs.now }
{
    jobs.iter().all(|job| has_packets_left(job, id))
}

/// Counts the jobs that stay closed when the last one is to go: none, if it is closed.
fn closed_before(jobs: &[Job], closed: usize) -> usize
    requires { IsSplit jobs.now closed }
    ensures split { IsSplit jobs.now result }
    ensures before { result ≤ length jobs.now - 1 }
{
    if closed < jobs.len() { closed } else { 0 }
}

/// Returns the position from which on jobs named `id` are to be changed: that of the first pending one, if one of these has the name, else
/// 0.
fn start_of(jobs: &[Job], closed: usize, id: JobId) -> usize
    requires { IsSplit jobs.now closed }
    ensures within { result ≤ length jobs.now }
    ensures apart { list_any (λ j. waits.same_job id j.id) (take result jobs.now) ≡ false }
{
    if is_among(&jobs[closed..], id) {
        closed
    } else {
        0
    }
}

impl Jobs {
    /// Makes an empty list of jobs.
    pub fn new(alloc: Global) -> Jobs
        ensures { result ≡ [] }
    {
        Jobs {
            all: ItemList::new(alloc),
            closed: 0,
            greatest: [0; CONTEXTS],
            row: NO_ROW,
        }
    }

    /// Returns all jobs.
    pub fn items(&self) -> &[Job]
        ensures { result.now ≡ self.now }
    {
        self.all.items()
    }

    /// Returns the last jobs, from the first that isn't done or shares its name with a later one.
    pub fn pending(&self) -> &[Job]
        ensures { ArePending self.now result.now }
    {
        &self.all.items()[self.closed..]
    }

    /// Returns some of the last jobs, none of which is done and whose numbers follow one another: the last job too, unless it is done.
    pub fn row(&self) -> JobRun
        ensures last { IsRow self.now result }
        ensures some { ends_open self.now ≡ true → 0 < result.count }
        ensures open { IsTrue (list_all (λ i. list_any (λ j. waits.same_job i j.id && not j.finished) self.now) (jobs_of_run result)) }
    {
        self.row
    }

    /// Returns the first job named `id`, or `None` if there is none.
    pub fn named(&self, id: JobId) -> Option<&Job>
        ensures { option_copied result ≡ find (λ j. waits.same_job id j.id) self.now }
    {
        let (closed, pending) = self.all.items().split_at(self.closed);
        match first_named(pending, id) {
            Some(job) => Some(job),
            None => first_named(closed, id),
        }
    }

    /// Adds `job` at the end.
    ///
    /// # Errors
    ///
    /// Lack of memory; nothing is changed.
    pub fn push(&mut self, job: Job) -> Result<(), NoMemory>
        ensures ok { OnOk result (self.new ≡ self.old ++ job ∷ []) }
        ensures err { OnErr result (self.new ≡ self.old) }
    {
        let id = job.id;
        self.closed = closed_apart(self.all.items(), self.closed, &self.greatest, id);
        let row = row_behind(self.row, &job);
        self.all.push(job)?;
        self.row = row;
        raise(&mut self.greatest, id);
        Ok(())
    }

    /// Removes the last job, if there is one.
    pub fn drop_last(&mut self)
        ensures { self.new ≡ take (length self.old - 1) self.old }
    {
        let count = self.all.len();
        if count > 0 {
            self.closed = closed_before(self.all.items(), self.closed);
            let _ = self.all.remove(count - 1);
            self.row = row_of_last(self.all.items());
        }
    }

    /// Marks the job `id` as done.
    pub fn finish(&mut self, id: JobId)
        ensures { self.new ≡ changed_job (λ j. record j { finished = true }) id self.old }
    {
        let end = end_of(self.all.items(), self.closed, self.row, id);
        finish_between(&mut self.all, self.closed, end, id);
        self.row = row_after(self.row, id);
        self.closed = closed_from(self.all.items(), self.row, self.closed);
    }

    /// Returns whether one more packet of the job `id` can be counted.
    pub fn can_count(&self, id: JobId) -> bool
        ensures { result ≡ list_all (has_packets_left id) self.now }
    {
        let start = start_of(self.all.items(), self.closed, id);
        let end = end_of(self.all.items(), start, self.row, id);
        have_packets_left(&self.all.items()[start..end], id)
    }

    /// Counts one more packet of the job `id` as run.
    pub fn count_packet(&mut self, id: JobId)
        requires { IsTrue (list_all (has_packets_left id) self.old) }
        ensures { self.new ≡ changed_job (λ j. record j { ran = j.ran + 1 }) id self.old }
    {
        let start = start_of(self.all.items(), self.closed, id);
        let end = end_of(self.all.items(), start, self.row, id);
        count_between(&mut self.all, start, end, id);
    }
}
