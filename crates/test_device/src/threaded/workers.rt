ghost use Rattle.std.specs.Prelude.{◌≡◌, ◌<◌, IfOk};
ghost use Rattle.turn_lock.specs.Locks.{lock_id, context_count};
ghost use Rattle.turn_lock.specs.Turning.{IsFree, IsOnward};

use super::counter::Counter;
use super::watch::Watch;
use crate::pieces::{print_all, word_for};
use std::alloc::Global;
use std::io;
use std::sync::Wait;
use std::thread::Threads;
use test_cases::{Case, Pace, no_memory};
use ttm_base::{Actor, Logged, Stepper};
use turn_lock::{Pass, Turns};
use worker_pool::{IdleGate, work, work_all};

/// A thread that submits jobs, one without commands, and the engine that does them.
const ACTORS: [Actor; 3] = [Actor::Thread(1), Actor::Thread(2), Actor::Engine(0)];

/// Makes a turn lock on a value that counts to `limit`, with one context.
fn lock_of(alloc: Global, limit: u32, rounds: u32) -> io::Result<(Turns<Counter>, Pass<Counter>)>
    ensures { IfOk result (λ t. (t.1.table_id ≡ lock_id t.0) × IsFree t.1 × (context_count t.0 ≡ 1)) }
{
    Turns::new(alloc, Counter::new(alloc, limit, rounds), 1).map_err(no_memory)
}

/// Takes one turn for `who`, after which the word of context 0 is raised to what is done there.
fn turn_of<R: Wait>(rt: &R, turns: &Turns<Counter>, pass: &mut Pass<Counter>, who: Actor)
    requires own { (pass.old.table_id ≡ lock_id turns.now) × (0 < context_count turns.now) }
    requires free { IsFree pass.old }
    ensures { IsOnward pass.old pass.new }
{
    let mut held = turns.take(rt, pass);
    let value = held.value();
    let _ = value.step(who);
    let num = value.done(0);
    turns.give(pass, held);
    turns.raise_fence(pass, 0, num);
}

/// Takes the turns that submit and do one job.
fn job_of<R: Wait>(rt: &R, turns: &Turns<Counter>, pass: &mut Pass<Counter>)
    requires own { (pass.old.table_id ≡ lock_id turns.now) × (0 < context_count turns.now) }
    requires free { IsFree pass.old }
    ensures { IsOnward pass.old pass.new }
{
    turn_of(rt, turns, pass, Actor::Thread(1));
    turn_of(rt, turns, pass, Actor::Engine(0));
}

/// Returns whether the fence word of context 0 has come up to `num`, and whether to the number after it, as far as a pass sees.
fn raised_to(turns: &Turns<Counter>, pass: &mut Pass<Counter>, num: u64) -> (bool, bool)
    requires own { (pass.old.table_id ≡ lock_id turns.now) × (0 < context_count turns.now) }
    requires free { IsFree pass.old }
    ensures { IsOnward pass.old pass.new }
{
    let first = turns.peek_fence(pass, 0, num);
    let second = turns.peek_fence(pass, 0, num.saturating_add(1));
    (first, second)
}

/// Prints the case's `name`, and what one pass sees of the fence words that another raises, after three jobs.
fn print_fences(rt: &(impl Wait + Print), alloc: Global, name: &str) -> io::Result<()> {
    let (turns, mut pass) = lock_of(alloc, 10, 0)?;
    let mut other = turns.split(&mut pass);
    job_of(rt, &turns, &mut pass);
    job_of(rt, &turns, &mut pass);
    job_of(rt, &turns, &mut pass);
    let (first, second) = raised_to(&turns, &mut pass, 1);
    let (third, fourth) = raised_to(&turns, &mut pass, 3);
    let (others, _) = raised_to(&turns, &mut other, 3);
    turns.join(&mut pass, other);
    let entries = turns.close(rt, pass).count();
    print_all(
        rt,
        &[
            ("case ", None),
            (name, None),
            ("\nraised to 1, 2, 3, 4: ", None),
            word_for(first),
            (", ", None),
            word_for(second),
            (", ", None),
            word_for(third),
            (", ", None),
            word_for(fourth),
            (", seen by another pass to 3: ", None),
            word_for(others),
            (", ", Some(entries)),
            (" entries\n", None),
        ],
    )
}

/// Prints what one worker makes of both actors' turns. It raises the fence word of the engine after each job.
fn print_one_worker(rt: &(impl Wait + Print), alloc: Global) -> io::Result<()> {
    let (turns, mut pass) = lock_of(alloc, 10, 0)?;
    let contexts = turns.contexts();
    let actors = [Actor::Thread(1), Actor::Engine(0)];
    let is_over = work(rt, &turns, &mut pass, &IdleGate, 1, &actors).is_ok();
    let (tenth, eleventh) = raised_to(&turns, &mut pass, 10);
    let counter = turns.close(rt, pass);
    let (entries, jobs) = (counter.count(), counter.done(0));
    print_all(
        rt,
        &[
            ("", Some(contexts as u64)),
            (" context, over: ", None),
            word_for(is_over),
            (", raised to 10: ", None),
            word_for(tenth),
            (", to 11: ", None),
            word_for(eleventh),
            (", ", Some(entries)),
            (" entries, ", Some(jobs)),
            (" jobs\n", None),
        ],
    )
}

/// Runs a turn lock without threads, and prints what is seen of its fence words.
pub fn run_alone(rt: &(impl Wait + Print), alloc: Global, case: &Case) -> io::Result<()> {
    print_fences(rt, alloc, case.name.as_str())?;
    print_one_worker(rt, alloc)
}

/// Runs workers on a value that counts at the pace `pace`, and prints how they ended.
pub fn run(
    rt: &(impl Threads + Wait + Sync + Print),
    alloc: Global,
    case: &Case,
    pace: Pace,
) -> io::Result<()> {
    let (limit, rounds) = match pace {
        Pace::Fast => (10, 0),
        Pace::Slow => (5, 4_000_000),
    };
    let (turns, pass) = lock_of(alloc, limit, rounds)?;
    let watch = Watch::new(case.watched);
    let (answer, pass) = work_all(rt, alloc, &turns, pass, &watch, &ACTORS);
    let is_over = answer.is_ok();
    let entries = turns.close(rt, pass).count();
    let name = case.name.as_str();
    let held = watch.has_held();
    print_all(
        rt,
        &[
            ("case ", None),
            (name, None),
            (", over: ", None),
            word_for(is_over),
            (", ", Some(entries)),
            (" entries, workers held: ", None),
            word_for(held),
            ("\n", None),
        ],
    )
}
