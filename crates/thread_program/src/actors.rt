ghost use Rattle.std.specs.Prelude.{◌≡◌, ◌+◌, ◌++◌, ◌≤◌, IfOk, OnOk, length, map};
ghost use Rattle.ttm_base.specs.ListWords.{count_from};
ghost use Rattle.ttm_base.specs.declared.Actor.TheVariants as actor;
ghost use Rattle.thread_program.specs.Actors.{all_actors};

use journal_model::Script;
use std::alloc::Global;
use ttm_base::{Actor, ItemList, NoMemory};

/// Appends `count` threads to `actors`, numbered from 1.
fn push_threads(actors: &mut ItemList<Actor>, count: u32) -> Result<(), NoMemory>
    ensures { OnOk result (actors.new ≡ actors.old ++ map actor.Thread (count_from 1 count 1)) }
{
    for i in 0..count {
        actors.push(Actor::Thread(i + 1))?;
    }
    Ok(())
}

/// Appends the engines from 0 up to `engines` to `actors`.
fn push_engines(actors: &mut ItemList<Actor>, engines: u32) -> Result<(), NoMemory>
    ensures { OnOk result (actors.new ≡ actors.old ++ map actor.Engine (count_from 1 (engines + 1) 0)) }
{
    for e in 0..engines as u64 + 1 {
        actors.push(Actor::Engine(e as u32))?;
    }
    Ok(())
}

/// Returns all actors of `script`: the threads by number, the engines by number, and the reaper.
pub fn actors_of(alloc: Global, script: &Script) -> Result<ItemList<Actor>, NoMemory>
    requires { length script.now.threads ≤ 16 }
    ensures { IfOk result (λ actors. actors ≡ all_actors script.now) }
{
    let mut actors = ItemList::new(alloc);
    push_threads(&mut actors, script.threads.len() as u32)?;
    push_engines(&mut actors, script.sizes.engines)?;
    actors.push(Actor::Reaper)?;
    Ok(actors)
}
