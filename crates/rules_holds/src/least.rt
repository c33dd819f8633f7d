ghost use Rattle.std.specs.Prelude.{◌≡◌, true};
ghost use Rattle.std.specs.List.{list_all};
ghost use Rattle.rules_holds.specs.Least.{is_from, is_counted, AreLeast, IsLeast, IsLook};

use journal_model::{Core, Job};
use ttm_base::JobId;

/// The contexts of jobs: 0, that of the moves, and those of the eight engines that there can be.
const CONTEXTS: usize = 9;

/// For each context a number below which none of its jobs is unfinished.
#[derive(Clone, Copy)]
pub struct Least {
    by_context: [u64; CONTEXTS],
}

/// Makes the number of `job` the least of its context, unless there is a lesser one or the job is done.
fn lower(least: &mut [u64; CONTEXTS], job: &Job)
    ensures new { is_counted least.new job.now ≡ true }
    ensures others { (i : JobId) → is_from least.old i ≡ true → is_from least.new i ≡ true }
{
    let at = job.id.ctx as usize;
    if !job.finished && at < CONTEXTS && job.id.num < least[at] {
        least[at] = job.id.num;
    }
}

/// Returns for each context the least number of those of `jobs` that aren't done.
fn least_numbers(jobs: &[Job]) -> [u64; CONTEXTS]
    ensures { list_all (is_counted result) jobs.now ≡ true }
{
    let mut least = [u64::MAX; CONTEXTS];
    for job in jobs {
        lower(&mut least, job);
    }
    least
}

impl Least {
    /// Returns the least numbers of the pending jobs of `core`.
    fn of(core: &Core) -> Least
        ensures { AreLeast core.now result.by_context }
    {
        Least {
            by_context: least_numbers(core.jobs.pending()),
        }
    }

    /// Returns the least number of the context `ctx`, 0 for a context that has none.
    fn below(self, core: &Core, ctx: u32) -> u64
        requires { AreLeast core.now self.by_context }
        ensures { IsLeast core.now ctx result }
    {
        let at = ctx as usize;
        if at < CONTEXTS {
            self.by_context[at]
        } else {
            0
        }
    }
}

/// A look for jobs that aren't done: the least numbers, once they were asked for, since they take a pass over all pending jobs; and the
/// position after the job that was found last.
#[derive(Drop)]
pub struct Look {
    least: Option<Least>,
    pub place: usize,
}

impl Look {
    /// Begins a look for jobs: no least number is known, and the place is the first.
    pub fn new() -> Look
        ensures { (c : Core) → IsLook c result }
    {
        Look {
            least: None,
            place: 0,
        }
    }

    /// Returns a number below which no job of the context `ctx` is unfinished.
    pub fn least_of(&mut self, core: &Core, ctx: u32) -> u64
        requires { IsLook core.now self.old }
        ensures look { IsLook core.now self.new }
        ensures least { IsLeast core.now ctx result }
    {
        let least = match self.least {
            Some(least) => least,
            None => Least::of(core),
        };
        self.least = Some(least);
        least.below(core, ctx)
    }
}
