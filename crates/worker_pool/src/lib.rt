//! Workers that step the actors of a value, each in its turns of a turn lock.
#![tactic(auto)]

ghost use Rattle.std.specs.Prelude.{◌≡◌, ℕ, ◌<◌, ◌≤◌, Some, IfOk, IfSome, OnOk, length, true};
ghost use Rattle.turn_lock.specs.Growing.{Grows};
ghost use Rattle.turn_lock.specs.Locks.{lock_id, context_count};
ghost use Rattle.turn_lock.specs.Turning.{IsFree, IsOnward, IsSame};
ghost use Rattle.worker_pool.specs.Offers.{SaysOver, cost_of};

mod crew;
mod crowd;

pub use crew::Back;
pub use crowd::work_all;
use std::sync::Wait;
use ttm_base::{Actor, JobId, Need, NoMemory, Stepper, Turn};
use turn_lock::{Batch, Held, Pass, Turns};

/// A gate that a worker calls before each of its turns, while it holds none.
pub trait Gate {
    fn before_turn(&self, worker: u32, turn: u64);
}

pub struct IdleGate;

impl Gate for IdleGate {
    fn before_turn(&self, _worker: u32, _turn: u64) {}
}

enum Offered {
    /// The worker's own actor made the entry.
    Own,
    /// This actor made the entry, and this job blocked the worker's own actor, if a job did.
    Other(Actor, Option<JobId>),
    Idle(Option<JobId>),
    Over,
}

// Returns the cost of a turn to the budget of the worker's batch. An entry of another actor costs more, since that actor's
// own worker makes it sooner.
fn cost_of(offered: &Result<Offered, NoMemory>) -> u64
    ensures { result ≡ cost_of offered.now }
{
    match offered {
        Ok(Offered::Own) => 1,
        Ok(Offered::Other(_, _)) => 8,
        _ => u64::MAX,
    }
}

fn fence_of(need: Need) -> Option<JobId> {
    match need {
        Need::Fence(job) => Some(job),
        _ => None,
    }
}

// Offers the turn to the worker's own actor, unless it is left out, and then to the others in order, until one makes an
// entry.
fn offer<V: Stepper>(
    value: &mut V,
    actors: &[Actor],
    own: usize,
    left_out: Option<JobId>,
) -> Result<Offered, NoMemory>
    requires { own < length actors.now }
    ensures root { V.root value.new ≡ V.root value.old }
    ensures list { Grows (V.list value.old) (V.list value.new) }
    ensures over { IfOk result (SaysOver (V.is_over (V.root value.new) (V.list value.new))) }
{
    let mut need = left_out;
    if left_out.is_none() {
        match value.step(actors[own])? {
            Turn::Made(_) => return Ok(Offered::Own),
            Turn::Over => return Ok(Offered::Over),
            Turn::Blocked(why) => need = fence_of(why),
        }
    }
    for i in 0..actors.len() {
        if i != own {
            match value.step(actors[i])? {
                Turn::Made(_) => return Ok(Offered::Other(actors[i], need)),
                Turn::Over => return Ok(Offered::Over),
                Turn::Blocked(_) => {}
            }
        }
    }
    Ok(Offered::Idle(need))
}

// Returns the context of the engine that made the turn's entry, with the number that is done there, or None where no engine
// made it.
fn reached<V: Stepper>(
    value: &V,
    offered: &Offered,
    own: Actor,
    contexts: u32,
) -> Option<(u32, u64)>
    ensures { IfSome result (λ f. (f.0 < contexts) × (f.1 ≡ V.done (V.list value.now) f.0)) }
{
    let maker = match offered {
        Offered::Own => own,
        Offered::Other(who, _) => *who,
        _ => return None,
    };
    match maker {
        Actor::Engine(engine) if engine < contexts => Some((engine, value.done(engine))),
        _ => None,
    }
}

fn raise_to<V: Stepper>(turns: &Turns<V>, pass: &mut Pass<V>, raise: Option<(u32, u64)>)
    requires own { pass.old.table_id ≡ lock_id turns.now }
    requires free { IsFree pass.old }
    requires inside { IfSome raise (λ f. f.0 < context_count turns.now) }
    requires done { IfSome raise (λ f. f.1 ≤ V.done pass.old.me.0.seen f.0) }
    ensures onward { IsOnward pass.old pass.new }
    ensures seen { pass.new.me.0.seen ≡ pass.old.me.0.seen }
{
    if let Some((ctx, num)) = raise {
        turns.raise_fence(pass, ctx, num);
    }
}

// Takes one turn, gives the value back, and raises the fence word of the engine that made the entry.
fn turn<R: Wait, V: Stepper>(
    rt: &R,
    turns: &Turns<V>,
    pass: &mut Pass<V>,
    actors: &[Actor],
    own: usize,
    left_out: Option<JobId>,
) -> Result<Offered, NoMemory>
    requires own { pass.old.table_id ≡ lock_id turns.now }
    requires free { IsFree pass.old }
    requires actor { own < length actors.now }
    ensures onward { IsOnward pass.old pass.new }
    ensures over { IfOk result (λ o. (r : _) × (pass.new.me.0.root ≡ Some r) × SaysOver (V.is_over r pass.new.me.0.seen) o) }
{
    let mut held = turns.take(rt, pass);
    let value = held.value();
    let offered = offer(value, actors, own, left_out);
    let raise = match &offered {
        Ok(made) => reached(value, made, actors[own], turns.contexts()),
        Err(_) => None,
    };
    turns.give(pass, held);
    raise_to(turns, pass, raise);
    offered
}

// Returns the job, unless its fence word has reached it.
fn still_blocked<V: Stepper>(
    turns: &Turns<V>,
    pass: &mut Pass<V>,
    blocked: Option<JobId>,
) -> Option<JobId>
    requires own { pass.old.table_id ≡ lock_id turns.now }
    requires free { IsFree pass.old }
    ensures { IsOnward pass.old pass.new }
{
    let job = blocked?;
    if job.ctx >= turns.contexts() {
        return None;
    }
    if turns.peek_fence(pass, job.ctx, job.num) {
        return None;
    }
    blocked
}

/// Steps the actors in turns until the value is over.
pub fn work<R: Wait, V: Stepper, G: Gate>(
    rt: &R,
    turns: &Turns<V>,
    pass: &mut Pass<V>,
    gate: &G,
    worker: u32,
    actors: &[Actor],
) -> Result<(), NoMemory>
    requires own { pass.old.table_id ≡ lock_id turns.now }
    requires free { IsFree pass.old }
    requires actor { (1 ≤ worker) × (worker ≤ length actors.now) }
    ensures onward { IsOnward pass.old pass.new }
    ensures over { IfOk result (λ _. (r : _) × (pass.new.me.0.root ≡ Some r) × (V.is_over r pass.new.me.0.seen ≡ true)) }
{
    let own = worker as usize - 1;
    let mut blocked: Option<JobId> = None;
    let mut number = 0u64;
    let mut batch: Option<Batch> = None;
    for _ in rt.forever() {
        number = number.saturating_add(1);
        gate.before_turn(worker, number);
        let current = turns.handoff().resume(rt, batch);
        blocked = still_blocked(turns, pass, blocked);
        let offered = turn(rt, turns, pass, actors, own, blocked);
        batch = Some(turns.handoff().charge(current, cost_of(&offered)));
        match offered? {
            Offered::Own => blocked = None,
            Offered::Other(_, need) => blocked = need,
            Offered::Idle(need) => blocked = need,
            Offered::Over => return Ok(()),
        }
    }
    unreachable!()
}
