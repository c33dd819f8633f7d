mod list;
mod row;

use crate::job_ids::JobRun;
use crate::state::Job;
pub use list::same_job;
use std::marker::Model;
use ttm_base::ItemList;

/// The contexts of jobs: 0, that of the moves, and those of the eight engines that there can be.
const CONTEXTS: usize = 9;

/// Jobs in order of emission. It keeps the number of those at the front that are done, so that a search for a job that isn't done doesn't
/// pass them each time; for each context the greatest number, so that a job with a new name isn't looked for; and some of the
/// last jobs, none of which is done and whose numbers follow one another, so that they are found by their numbers.
#[derive(Drop)]
pub struct Jobs {
    all: ItemList<Job>,
    closed: usize,
    greatest: [u64; CONTEXTS],
    row: JobRun,
}

impl Model for Jobs {
    ghost use Rattle.std.specs.Prelude.{List};
    ghost use Rattle.journal_model.specs.declared.state.Job.{Job};
    ghost use Rattle.journal_model.specs.code.Jobs.{AreKept};

    ghost Value = { List Job };

    ghost view = { λ s. s.all };

    ghost invariant = { λ s. AreKept s.all s.closed s.greatest s.row };
}
