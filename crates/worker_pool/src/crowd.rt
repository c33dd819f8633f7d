//! As many workers as there are actors.
ghost use Rattle.std.specs.Prelude.{◌≡◌, ℕ, ◌≤◌, ◌<◌, ◌+◌, ◌^◌, Some, IfOk, length, true, All};
ghost use mathlib.Core.List.{IsPrefix};
ghost use Rattle.turn_lock.specs.Locks.{lock_id, context_count};
ghost use Rattle.turn_lock.specs.Turning.{IsFree, IsOnward, IsSame};

use super::crew::{Back, worked};
use crate::Gate;
use std::alloc::{AllocError, Global};
use std::sync::Wait;
use std::thread;
use std::thread::{Threads, join};
use ttm_base::{Actor, Stepper};
use turn_lock::{Pass, Turns};

// Runs the workers of the jobs, and returns what each of them gives back. Each job is the number of a worker and its pass.
fn workers<R: Threads + Wait + Sync, V: Stepper + Send, G: Gate + Sync>(
    rt: &R,
    turns: &Turns<V>,
    gate: &G,
    actors: &[Actor],
    jobs: Vec<(u32, Pass<V>), Global>,
) -> Result<Vec<Back<V>, Global>, AllocError>
    requires own { All (λ j. j.1.table_id ≡ lock_id turns.now) jobs.items }
    requires free { All (λ j. IsFree j.1) jobs.items }
    requires actor { All (λ j. (1 ≤ j.0) × (j.0 ≤ length actors.now)) jobs.items }
    ensures own { IfOk result (λ v. All (λ b. b.1.table_id ≡ lock_id turns.now) v.items) }
    ensures free { IfOk result (λ v. All (λ b. IsFree b.1) v.items) }
{
    thread::map_vec(
        rt,
        jobs,
        &|job: (u32, Pass<V>)| -> Back<V>
            requires { (job.1.table_id ≡ lock_id turns.now) × IsFree job.1 × (1 ≤ job.0) × (job.0 ≤ length actors.now) }
            ensures { (result.1.table_id ≡ lock_id turns.entry.now) × IsFree result.1 }
        { worked(rt, turns, job.1, gate, job.0, actors) },
    )
}

// Returns passes for the workers with the numbers below `count`, from 1 on.
fn jobs_below<V: Stepper>(
    alloc: Global,
    turns: &Turns<V>,
    pass: &mut Pass<V>,
    count: u32,
) -> Result<Vec<(u32, Pass<V>), Global>, AllocError>
    requires own { pass.old.table_id ≡ lock_id turns.now }
    requires free { IsFree pass.old }
    ensures same { IsSame pass.old pass.new × (pass.new.me ≡ pass.old.me) }
    ensures own { IfOk result (λ v. All (λ j. j.1.table_id ≡ lock_id turns.now) v.items) }
    ensures free { IfOk result (λ v. All (λ j. IsFree j.1) v.items) }
    ensures actor { IfOk result (λ v. All (λ j. (1 ≤ j.0) × (j.0 ≤ count)) v.items) }
{
    let mut jobs = Vec::new(alloc);
    for worker in 1..count {
        let other = turns.split(pass);
        jobs.push((worker, other))?;
    }
    Ok(jobs)
}

// Joins the passes of all workers into `pass`.
fn joined_by<V: Stepper>(turns: &Turns<V>, pass: &mut Pass<V>, mut backs: Vec<Back<V>, Global>)
    requires own { pass.old.table_id ≡ lock_id turns.now }
    requires free { IsFree pass.old }
    requires backs_own { All (λ b. b.1.table_id ≡ lock_id turns.now) backs.items }
    requires backs_free { All (λ b. IsFree b.1) backs.items }
    ensures onward { IsOnward pass.old pass.new }
{
    while let Some(back) = backs.pop() {
        turns.join(pass, back.1);
    }
}

// Runs the workers of the jobs, and beside them the last worker, which is the caller.
fn side_by_side<R: Threads + Wait + Sync, V: Stepper + Send, G: Gate + Sync>(
    rt: &R,
    turns: &Turns<V>,
    pass: Pass<V>,
    gate: &G,
    actors: &[Actor],
    jobs: Vec<(u32, Pass<V>), Global>,
    last: u32,
) -> (Result<Vec<Back<V>, Global>, AllocError>, Back<V>)
    requires own { (pass.table_id ≡ lock_id turns.now) × All (λ j. j.1.table_id ≡ lock_id turns.now) jobs.items }
    requires free { IsFree pass × All (λ j. IsFree j.1) jobs.items }
    requires actor { All (λ j. (1 ≤ j.0) × (j.0 ≤ length actors.now)) jobs.items }
    requires last { (1 ≤ last) × (last ≤ length actors.now) }
    ensures own { IfOk result.0 (λ v. All (λ b. b.1.table_id ≡ lock_id turns.now) v.items) }
    ensures free { IfOk result.0 (λ v. All (λ b. IsFree b.1) v.items) }
    ensures last_own { result.1.1.table_id ≡ lock_id turns.now }
    ensures onward { IsOnward pass result.1.1 }
    ensures over { IfOk result.1.0 (λ _. (r : _) × (result.1.1.me.0.root ≡ Some r) × (V.is_over r result.1.1.me.0.seen ≡ true)) }
{
    join(
        rt,
        || -> Result<Vec<Back<V>, Global>, AllocError>
            requires { All (λ j. j.1.table_id ≡ lock_id turns.now) jobs.items × All (λ j. IsFree j.1) jobs.items × All (λ j. (1 ≤ j.0) × (j.0 ≤ length actors.now)) jobs.items }
            ensures { IfOk result (λ v. All (λ b. b.1.table_id ≡ lock_id turns.entry.now) v.items) × IfOk result (λ v. All (λ b. IsFree b.1) v.items) }
        { workers(rt, turns, gate, actors, jobs) },
        || worked(rt, turns, pass, gate, last, actors),
    )
}

/// Runs one worker for each actor, with the caller as the last. Returns the answer, and the pass with all passes joined into
/// it.
pub fn work_all<R: Threads + Wait + Sync, V: Stepper + Send, G: Gate + Sync>(
    rt: &R,
    alloc: Global,
    turns: &Turns<V>,
    mut pass: Pass<V>,
    gate: &G,
    actors: &[Actor],
) -> Back<V>
    requires own { pass.table_id ≡ lock_id turns.now }
    requires free { IsFree pass }
    requires actors { (1 ≤ length actors.now) × (length actors.now < 2 ^ 32) }
    ensures own { result.1.table_id ≡ lock_id turns.now }
    ensures onward { IsOnward pass result.1 }
    ensures over { IfOk result.0 (λ _. (xs : _) × IsPrefix xs result.1.me.0.seen × ((r : _) × (result.1.me.0.root ≡ Some r) × (V.is_over r xs ≡ true))) }
{
    let last = actors.len() as u32;
    let Ok(jobs) = jobs_below(alloc, turns, &mut pass, last) else {
        return worked(rt, turns, pass, gate, last, actors);
    };
    let (backs, back) = side_by_side(rt, turns, pass, gate, actors, jobs, last);
    match backs {
        Ok(backs) => with_all(turns, back, backs),
        Err(_) => back,
    }
}

fn with_all<V: Stepper>(turns: &Turns<V>, back: Back<V>, backs: Vec<Back<V>, Global>) -> Back<V>
    requires own { (back.1.table_id ≡ lock_id turns.now) × IsFree back.1 }
    requires backs_own { All (λ b. b.1.table_id ≡ lock_id turns.now) backs.items }
    requires backs_free { All (λ b. IsFree b.1) backs.items }
    requires over { IfOk back.0 (λ _. (r : _) × (back.1.me.0.root ≡ Some r) × (V.is_over r back.1.me.0.seen ≡ true)) }
    ensures own { result.1.table_id ≡ lock_id turns.now }
    ensures onward { IsOnward back.1 result.1 }
    ensures over { IfOk result.0 (λ _. (xs : _) × IsPrefix xs result.1.me.0.seen × ((r : _) × (result.1.me.0.root ≡ Some r) × (V.is_over r xs ≡ true))) }
{
    let (answer, mut pass) = back;
    joined_by(turns, &mut pass, backs);
    (answer, pass)
}
