//! One worker.
ghost use Rattle.std.specs.Prelude.{◌≡◌, ℕ, ◌≤◌, Some, IfOk, length, true};
ghost use Rattle.turn_lock.specs.Locks.{lock_id, context_count};
ghost use Rattle.turn_lock.specs.Turning.{IsFree, IsOnward};

use crate::{Gate, work};
use std::sync::Wait;
use ttm_base::{Actor, NoMemory, Stepper};
use turn_lock::{Pass, Turns};

/// Steps the actors as the worker `worker`, and returns the answer and the pass.
pub fn worked<R: Wait, V: Stepper, G: Gate>(
    rt: &R,
    turns: &Turns<V>,
    mut pass: Pass<V>,
    gate: &G,
    worker: u32,
    actors: &[Actor],
) -> (Result<(), NoMemory>, Pass<V>)
    requires own { pass.table_id ≡ lock_id turns.now }
    requires free { IsFree pass }
    requires actor { (1 ≤ worker) × (worker ≤ length actors.now) }
    ensures own { result.1.table_id ≡ lock_id turns.now }
    ensures onward { IsOnward pass result.1 }
    ensures over { IfOk result.0 (λ _. (r : _) × (result.1.me.0.root ≡ Some r) × (V.is_over r result.1.me.0.seen ≡ true)) }
{
    let answer = work(rt, turns, &mut pass, gate, worker, actors);
    (answer, pass)
}

pub type Back<V> = (Result<(), NoMemory>, Pass<V>);
